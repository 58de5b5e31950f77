//! Exporters that are made of a copy.
ghost use Rattle.std.specs.Prelude.{◌≡◌, IfOk};
ghost use Rattle.pybuf_command.specs.declared.kinds.Subject.TheVariants as subjects;
ghost use Rattle.pybuf_state.specs.Exporter.{exports_of, new_exporter, with_view};
ghost use Rattle.pybuf_state.specs.Answers.{exporter_of, IsWhole, MakesExporter};
ghost use Rattle.pybuf_state.specs.Fresh.{IsCopyOf, is_readonly_subject, made_of};

use crate::parts::Parts;
use crate::store::Store;
use crate::stored::StoredView;
use pybuf_command::{ExporterKind, Subject};
use pybuf_memoryview::KeptLayout;
use pybuf_value::{ByteList, Made, Snap};
use std::alloc::Global;

/// The parts of an exporter of these bytes with one view.
fn with_one_view(
    alloc: Global,
    kind: ExporterKind,
    content: ByteList,
    layout: KeptLayout,
) -> Made<Parts>
    ensures value { IfOk result (λ made. exporter_of made ≡ (with_view (new_exporter kind content) layout).0) }
    ensures counted { IfOk result (λ made. made.exports ≡ exports_of (exporter_of made)) }
{
    let bytes = Store::from_vec(content.into_vec());
    let mut views = Vec::new(alloc);
    views.push(StoredView::new(bytes.len(), layout))?;
    Ok(Parts {
        kind,
        bytes,
        views,
        iterators: Vec::new(alloc),
        exports: 1,
        alloc,
    })
}

/// The parts of an exporter of these bytes with no view.
fn without_views(alloc: Global, kind: ExporterKind, content: ByteList) -> Parts
    ensures value { exporter_of result ≡ new_exporter kind content }
    ensures counted { result.exports ≡ exports_of (exporter_of result) }
{
    Parts {
        kind,
        bytes: Store::from_vec(content.into_vec()),
        views: Vec::new(alloc),
        iterators: Vec::new(alloc),
        exports: 0,
        alloc,
    }
}

/// The vector of a view's copy.
fn vector_of_view(parts: &Parts, alloc: Global, view: usize, snap: Snap) -> Made<Parts>
    requires whole { IsWhole parts.now }
    requires copy { IsCopyOf (exporter_of parts.now) (subjects.View view) snap }
    ensures value { MakesExporter (made_of (is_readonly_subject (exporter_of parts.now) (subjects.View view)) snap) result }
    ensures counted { IfOk result (λ made. made.exports ≡ exports_of (exporter_of made)) }
{
    match parts.live_layout(view) {
        Ok(layout) => {
            let layout = layout.to_row_major(alloc)?;
            let kind = ExporterKind::Vector {
                readonly: layout.is_readonly(),
            };
            with_one_view(alloc, kind, snap.content, layout)
        }
        Err(_) => Ok(without_views(alloc, ExporterKind::Bytes, snap.content)),
    }
}

/// The exporter that is made of a copy. A copy of a bytearray makes another bytearray, with no view. A copy of a view
/// makes a vector with one view of all of it, with items of the same format in the same shape.
/// Example: of the `Snap` that `copy` replies for `bytearray(b"abc")` it is a bytearray with the bytes `b"abc"`.
pub fn exporter_of_copy(parts: &Parts, alloc: Global, subject: Subject, snap: Snap) -> Made<Parts>
    requires whole { IsWhole parts.now }
    requires copy { IsCopyOf (exporter_of parts.now) subject snap }
    ensures value { MakesExporter (made_of (is_readonly_subject (exporter_of parts.now) subject) snap) result }
    ensures counted { IfOk result (λ made. made.exports ≡ exports_of (exporter_of made)) }
{
    match subject {
        Subject::View(view) => vector_of_view(parts, alloc, view, snap),
        _ => Ok(without_views(alloc, ExporterKind::ByteArray, snap.content)),
    }
}
