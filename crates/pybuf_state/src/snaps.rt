//! What an exporter and its views are lent as.
ghost use Rattle.std.specs.Prelude.{◌≡◌, List, [], ◌∷◌, ◌++◌, codes, IfOk, IfSome, true, false};
ghost use Rattle.pybuf_value.specs.declared.values.Scalar.{Scalar};
ghost use Rattle.pybuf_command.specs.declared.kinds.Subject.TheVariants as subjects;
ghost use Rattle.pybuf_command.specs.Handles.{handle_of_value};
ghost use Rattle.pybuf_memoryview.specs.Fits.{fits_snap};
ghost use Rattle.pybuf_struct.specs.Packing.{packed_bytes};
ghost use Rattle.pybuf_state.specs.Answers.{exporter_of, IsWhole};
ghost use Rattle.pybuf_state.specs.Snaps as spec;
ghost use Rattle.pybuf_state.specs.Loans as loans_spec;
ghost use Rattle.pybuf_state.specs.Names as names_spec;
ghost use Rattle.pybuf_value.specs.Halting.{Makes};

use crate::names::{Meaning, Names, Other};
use crate::parts::Parts;
use pybuf_command::{ExporterKind, Subject};
use pybuf_memoryview::{reads_bytes, snap_of_layout};
use pybuf_struct::FormatSpec;
use pybuf_value::{ByteList, CountList, Made, Scalar, Snap, SnapKind, SnapList, Text, Twin, Value};
use std::alloc::Global;

/// The kind of an exporter, as what a handle names.
pub(crate) fn kind_of(kind: ExporterKind) -> SnapKind
    ensures { result ≡ spec.snap_kind_of kind }
{
    match kind {
        ExporterKind::Bytes => SnapKind::Bytes,
        ExporterKind::ByteArray => SnapKind::ByteArray,
        ExporterKind::Vector { readonly: _ } => SnapKind::Vector,
    }
}

fn byte_format(alloc: Global) -> Made<Text>
    ensures { IfOk result (λ text. text ≡ codes "B") }
{
    let mut text = Text::new(alloc);
    text.push('B')?;
    Ok(text)
}

fn row_of(alloc: Global, count: usize) -> Made<CountList>
    ensures { IfOk result (λ shape. shape ≡ count ∷ []) }
{
    let mut shape = CountList::new(alloc);
    shape.push(count)?;
    Ok(shape)
}

fn snap_of_own(parts: &Parts, alloc: Global) -> Made<Snap>
    ensures { IfOk result (λ snap. snap ≡ spec.snap_of_exporter (exporter_of parts.now)) }
{
    let format = byte_format(alloc)?;
    let shape = row_of(alloc, parts.bytes.len())?;
    let content = Vec::from_slice(alloc, parts.bytes.as_slice())?;
    Ok(Snap {
        kind: kind_of(parts.kind),
        format,
        itemsize: 1,
        shape,
        content: ByteList::from_vec(content),
        contiguous: true,
        released: false,
    })
}

/// What a view of this number is, if it was given.
fn snap_of_given(parts: &Parts, alloc: Global, view: usize) -> Made<Option<Snap>>
    requires { IsWhole parts.now }
    ensures { IfOk result (λ snap. snap ≡ spec.snap_of_subject (exporter_of parts.now) (subjects.View view)) }
{
    match parts.view(view) {
        Ok(view) => {
            let snap = snap_of_layout(
                alloc,
                parts.bytes.as_slice(),
                view.layout(),
                view.is_released(),
            )?;
            Ok(Some(snap))
        }
        Err(_) => Ok(None),
    }
}

/// What an iterator is lent as: no bytes.
fn iterator_snap(alloc: Global) -> Made<Snap>
    ensures { IfOk result (λ snap. snap ≡ spec.iterator_snap) }
{
    let format = byte_format(alloc)?;
    let shape = row_of(alloc, 0)?;
    Ok(Snap {
        kind: SnapKind::Iterator,
        format,
        itemsize: 1,
        shape,
        content: ByteList::new(alloc),
        contiguous: true,
        released: false,
    })
}

/// What an iterator of this number is, if it was given.
fn snap_of_iterator(parts: &Parts, alloc: Global, iterator: usize) -> Made<Option<Snap>>
    ensures { IfOk result (λ snap. snap ≡ spec.snap_of_subject (exporter_of parts.now) (subjects.Iter iterator)) }
{
    match parts.iterator(iterator) {
        Ok(_) => {
            let snap = iterator_snap(alloc)?;
            Ok(Some(snap))
        }
        Err(_) => Ok(None),
    }
}

/// What a handle of the exporter, of one of its views or of an iterator names, as it stands. The content of a
/// released view is empty, and so is that of an iterator. It is None exactly where there is no such view or iterator.
/// Example: of `Subject::Own` of the bytearray `b"abc"` it is a `Snap` with the content `b"abc"`.
pub fn snap_of_subject(parts: &Parts, alloc: Global, subject: Subject) -> Made<Option<Snap>>
    requires { IsWhole parts.now }
    ensures value { IfOk result (λ snap. snap ≡ spec.snap_of_subject (exporter_of parts.now) subject) }
    ensures fits { IfOk result (λ snap. IfSome snap (λ s. fits_snap s ≡ true)) }
{
    pybuf_memoryview::contents_are_whole();
    match subject {
        Subject::Own => {
            let snap = snap_of_own(parts, alloc)?;
            Ok(Some(snap))
        }
        Subject::View(view) => snap_of_given(parts, alloc, view),
        Subject::Iter(iterator) => snap_of_iterator(parts, alloc, iterator),
    }
}

fn pair_of(alloc: Global, handle: u64, snap: Option<Snap>) -> Made<SnapList>
    ensures { IfOk result (λ pairs. (s : _) → pairs ≡ loans_spec.snaps_of (loans_spec.lent_as handle s snap)) }
{
    let mut pairs = SnapList::new(alloc);
    if let Some(snap) = snap {
        pairs.push((handle, snap))?;
    }
    Ok(pairs)
}

/// Something of another exporter, as it stands.
fn snap_of_other(alloc: Global, other: Other<'_>) -> Made<Option<Snap>>
    requires { names_spec.IsSoundOther other }
    ensures { IfOk result (λ snap. snap ≡ names_spec.snap_of_other other.entry) }
{
    match other {
        Other::Snap(snap) => {
            let snap = snap.copy(alloc)?;
            Ok(Some(snap))
        }
        Other::Lies { lender, subject } => snap_of_subject(lender, alloc, subject),
    }
}

/// What a handle names, as it stands.
#[tactic(auto, using(crate::specs::Facts::own_snap, crate::specs::Facts::other_snap))]
fn snap_of_meaning(parts: &Parts, alloc: Global, meaning: Meaning<'_>) -> Made<Option<Snap>>
    requires whole { IsWhole parts.now }
    requires sound { names_spec.IsSoundMeaning meaning }
    ensures { Makes (loans_spec.snap_in (exporter_of parts.now) (names_spec.meant meaning.entry)) result }
{
    match meaning {
        Meaning::Own(subject) => snap_of_subject(parts, alloc, subject),
        Meaning::Other(other) => snap_of_other(alloc, other),
        Meaning::Nothing => Ok(None),
    }
}

/// What the handle that a value is names.
fn lent_for_value<N: Names>(
    parts: &Parts,
    alloc: Global,
    names: &N,
    value: &Value,
) -> Made<SnapList>
    requires whole { IsWhole parts.now }
    requires fit { N.fit names.now }
    ensures { Makes (loans_spec.snaps_of_value (exporter_of parts.now) (N.named names.now) value.now) result }
{
    match value {
        Value::One(Scalar::Handle(handle)) => {
            let snap = snap_of_meaning(parts, alloc, names.meaning(*handle))?;
            pair_of(alloc, *handle, snap)
        }
        _ => Ok(SnapList::new(alloc)),
    }
}

/// What is lent to a format for the handle that a value is. It is nothing where the format looks at no bytes, so that
/// none are copied. The format writes the same as if all were lent.
/// Example: to the format `H` nothing is lent for `h1`, and to `4s` a copy of what `h1` names.
pub fn lent_to<N: Names>(
    parts: &Parts,
    alloc: Global,
    format: &FormatSpec,
    names: &N,
    value: &Value,
) -> Made<SnapList>
    requires whole { IsWhole parts.now }
    requires fit { N.fit names.now }
    ensures { IfOk result (λ pairs. (values : List Scalar) → packed_bytes format.now pairs values ≡ packed_bytes format.now (loans_spec.snaps_of_value (exporter_of parts.now) (N.named names.now) value.now) values) }
{
    pybuf_memoryview::numbers_look_at_no_loan();
    if reads_bytes(format) {
        return lent_for_value(parts, alloc, names, value);
    }
    Ok(SnapList::new(alloc))
}
