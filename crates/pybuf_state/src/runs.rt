//! Bytes that lie together, read from where they lie.
ghost use Rattle.std.specs.Prelude.{◌≡◌, length, Some, true, false, IfOk};
ghost use Rattle.pybuf_value.specs.Snaps.{content_of};
ghost use Rattle.pybuf_desc.specs.Contiguous.{is_contiguous_layout};
ghost use Rattle.pybuf_desc.specs.Items.{content_of_layout};
ghost use Rattle.pybuf_desc.specs.Layouts.{LiesInside};
ghost use Rattle.pybuf_state.specs.Exporter.{view_at};
ghost use Rattle.pybuf_state.specs.Snaps.{snap_of_view};
ghost use Rattle.pybuf_state.specs.Answers.{exporter_of, IsWhole};
ghost use Rattle.pybuf_value.specs.Halting.{GivesLent};

use crate::laws::live_layouts_are_sound;
use crate::parts::Parts;
use crate::stored::StoredView;
use pybuf_memoryview::{KeptLayout, first_place};
use pybuf_value::Fault;

/// The bytes of items that lie one after the other and inside, from where they lie.
/// Example: of a layout `1:3` over `b"abcd"` it is `b"bc"`.
pub fn run_of<'a>(bytes: &'a [u8], layout: &KeptLayout) -> &'a [u8]
    requires contiguous { is_contiguous_layout layout.now ≡ true }
    requires inside { LiesInside (length bytes.now) layout.now }
    ensures { result.now ≡ content_of_layout bytes.now layout.now }
{
    let start = first_place(layout);
    &bytes[start..start + layout.nbytes()]
}

/// The bytes of a view whose items lie one after the other, from where they lie.
///
/// Refused with `ValueError` for a released view, and then with `TypeError` where the items lie apart.
/// Example: of a view of all bytes of `b"abc"` it is `Ok(b"abc")`, and of its slice `::2` `Err(Fault::Kind)`.
pub fn bytes_in_a_row<'a>(bytes: &'a [u8], view: &StoredView) -> Result<&'a [u8], Fault>
    requires inside { view.now.released ≡ false → LiesInside (length bytes.now) view.now.layout }
    ensures { GivesLent (content_of (Some (snap_of_view bytes.now view.now))) result }
{
    if view.is_released() {
        return Err(Fault::Value);
    }
    let layout = view.layout();
    if !layout.is_contiguous() {
        return Err(Fault::Kind);
    }
    Ok(run_of(bytes, layout))
}

/// The view of a number that was given. The items of one that is unreleased lie inside. Refused with `UnknownName`
/// exactly where none was given.
/// Example: `given(parts, 0)` of an exporter without views is `Err(Fault::UnknownName)`.
pub fn given(parts: &Parts, view: usize) -> Result<&StoredView, Fault>
    requires { IsWhole parts.now }
    ensures exact { GivesLent (view_at (exporter_of parts.now) view) result }
    ensures inside { IfOk result (λ v. v.now.released ≡ false → LiesInside (length parts.now.bytes.items) v.now.layout) }
{
    live_layouts_are_sound();
    parts.view(view)
}
