//! Edits that put bytes in place of others.
ghost use Rattle.std.specs.Prelude.{◌≡◌, ◌<◌, ◌^◌, [], length, None, Some, Ok, Err, IfOk, OnErr, MatchResult};
ghost use Rattle.pybuf_value.specs.Halting.{Gives};
ghost use Rattle.pybuf_value.specs.Lent.{lent_bytes};
ghost use Rattle.pybuf_value.specs.Snaps.{content_of_named};
ghost use Rattle.pybuf_command.specs.Handles.{handle_of_option};
ghost use Rattle.pybuf_command.specs.declared.kinds.Subject.TheVariants as subjects;
ghost use Rattle.pybuf_state.specs.Exporter.{exports_of};
ghost use Rattle.pybuf_state.specs.Loans.{lents_by, lents_of_value};
ghost use Rattle.pybuf_state.specs.Names as names_spec;
ghost use Rattle.pybuf_state.specs.Snaps.{snap_of_subject};
ghost use Rattle.pybuf_state.specs.Answers.{exporter_of, IsWhole, AnswersIn, ReadsIn};
ghost use Rattle.pybuf_index.specs.Parts.{picks_of};
ghost use Rattle.pybuf_slice.specs.Edits.{assigned_list};
ghost use Rattle.pybuf_verbs_edits.specs.Common as common;
ghost use Rattle.pybuf_verbs_edits.specs.LentBytes as lent_spec;
ghost use Rattle.pybuf_verbs_edits.specs.Paying.{PutIsPaid};
ghost use Rattle.pybuf_verbs_edits.specs.Replacing as spec;

use crate::refusals::{refuse_iterator, refuse_view};
use pybuf_bytes::NewOptions;
use pybuf_command::{ByteInnerNewOptions, ExporterKind, LocalReply, Subject, handle_alone};
use pybuf_index::SaturatedSlice;
use pybuf_memoryview::content_of;
use pybuf_state::{Meaning, Names, Other, Parts, content_of_other, snap_of_subject};
use pybuf_value::{
    Answer, Fault, Halt, Lent, Made, PySlice, Scalar, SnapList, Steps, Value, bytes_from_object,
};
use std::alloc::Global;
use std::sync::ledger::Ledger;

// ---- `set` by a slice

/// Writes as many bytes over those that a slice picks: over a range where its step is 1. Takes no memory.
fn write_over(places: &mut [u8], slice: SaturatedSlice, bytes: &[u8])
    requires in_memory { length places.old < 2 ^ 63 }
    requires as_many { length (picks_of (length places.old) slice) ≡ length bytes.now }
    ensures { places.new ≡ assigned_list places.old slice bytes.now }
{
    let (range, step, _) = slice.adjust_indices(places.len());
    if step == 1 {
        places[range].copy_from_slice(bytes);
    } else {
        pybuf_byte_slices::write_slice(places, slice, bytes);
    }
}

/// Writes as many bytes over those that a slice picks, in place.
fn write_slice(parts: &mut Parts, slice: SaturatedSlice, bytes: &[u8])
    requires { length (picks_of (length parts.old.bytes.items) slice) ≡ length bytes.now }
    ensures written { exporter_of parts.new ≡ (common.with_bytes (exporter_of parts.old) (assigned_list parts.old.bytes.items slice bytes.now)).0 }
    ensures exports { parts.new.exports ≡ parts.old.exports }
    ensures room { parts.new.bytes.room ≡ parts.old.bytes.room }
{
    pybuf_slice::as_many_keep_the_length::<u8>();
    write_over(parts.bytes.as_mut_slice(), slice, bytes);
}

/// Puts bytes in place of those that a slice picks: where they are as many, they are written in place.
fn put<L: Ledger>(
    parts: &mut Parts,
    slice: SaturatedSlice,
    bytes: &[u8],
    moved: &mut Steps<L>,
) -> Result<LocalReply, Halt>
    requires { IsWhole parts.old }
    ensures answer { AnswersIn parts.old (λ e. spec.assigned e slice bytes.now) result parts.new }
    ensures counted { parts.new.exports ≡ exports_of (exporter_of parts.new) }
    ensures paid { PutIsPaid parts.old moved.old result parts.new moved.new }
{
    let (range, step, count) = slice.adjust_indices(parts.bytes.len());
    if count == bytes.len() {
        write_slice(parts, slice, bytes);
        return Ok(LocalReply::Ok);
    }
    parts.resizable()?;
    if step != 1 {
        return Err(Halt::Refused(Fault::Value));
    }
    parts.replace_range(range.start, range.end, bytes, moved)?;
    Ok(LocalReply::Ok)
}

/// Puts all bytes of the exporter itself there, as they were before the first is written.
fn put_own<L: Ledger>(
    parts: &mut Parts,
    slice: SaturatedSlice,
    moved: &mut Steps<L>,
) -> Result<LocalReply, Halt>
    requires { IsWhole parts.old }
    ensures answer { AnswersIn parts.old (λ e. lent_spec.assigned_of e slice subjects.Own) result parts.new }
    ensures counted { parts.new.exports ≡ exports_of (exporter_of parts.new) }
    ensures paid { PutIsPaid parts.old moved.old result parts.new moved.new }
{
    let content = Vec::from_slice(parts.alloc, parts.bytes.as_slice())?;
    put(parts, slice, content.as_slice(), moved)
}

/// A copy of the bytes of a view of the exporter.
fn content_of_view(parts: &Parts, view: usize) -> Result<Vec<u8>, Halt>
    requires { IsWhole parts.now }
    ensures { MatchResult result (λ content. content_of_named (snap_of_subject (exporter_of parts.now) (subjects.View view)) ≡ Ok content.items) (λ halt. Gives (content_of_named (snap_of_subject (exporter_of parts.now) (subjects.View view))) (Err halt)) }
{
    let layout = parts.live_layout(view)?;
    let content = content_of(parts.alloc, parts.bytes.as_slice(), layout)?;
    Ok(content)
}

/// Puts the items of a view of the exporter itself there, as they were before the first byte is written.
fn put_view<L: Ledger>(
    parts: &mut Parts,
    slice: SaturatedSlice,
    view: usize,
    moved: &mut Steps<L>,
) -> Result<LocalReply, Halt>
    requires { IsWhole parts.old }
    ensures answer { AnswersIn parts.old (λ e. lent_spec.assigned_of e slice (subjects.View view)) result parts.new }
    ensures counted { parts.new.exports ≡ exports_of (exporter_of parts.new) }
    ensures paid { PutIsPaid parts.old moved.old result parts.new moved.new }
{
    let content = content_of_view(parts, view)?;
    put(parts, slice, content.as_slice(), moved)
}

/// Puts nothing there: an iterator has no bytes.
fn put_iterator(parts: &Parts, slice: SaturatedSlice, iterator: usize) -> Result<LocalReply, Halt>
    ensures { AnswersIn parts.now (λ e. lent_spec.assigned_of e slice (subjects.Iter iterator)) result parts.now }
{
    parts.iterator(iterator)?;
    Err(Halt::Refused(Fault::Kind))
}

/// Puts the bytes of something of another exporter there.
fn put_other<L: Ledger>(
    parts: &mut Parts,
    slice: SaturatedSlice,
    other: Other<'_>,
    moved: &mut Steps<L>,
) -> Result<LocalReply, Halt>
    requires whole { IsWhole parts.old }
    requires sound { names_spec.IsSoundOther other }
    ensures answer { AnswersIn parts.old (λ e. lent_spec.assigned_by e slice (names_spec.snap_of_other other.entry)) result parts.new }
    ensures counted { parts.new.exports ≡ exports_of (exporter_of parts.new) }
    ensures paid { PutIsPaid parts.old moved.old result parts.new moved.new }
{
    let bytes = content_of_other(parts.alloc, other)?;
    put(parts, slice, bytes.as_slice(), moved)
}

/// Puts the bytes of what a handle names there.
#[tactic(auto, using(pybuf_state::specs::Facts::other_snap))]
fn put_meaning<L: Ledger>(
    parts: &mut Parts,
    slice: SaturatedSlice,
    meaning: Meaning<'_>,
    moved: &mut Steps<L>,
) -> Result<LocalReply, Halt>
    requires whole { IsWhole parts.old }
    requires sound { names_spec.IsSoundMeaning meaning }
    ensures answer { AnswersIn parts.old (λ e. lent_spec.assigned_as e slice (names_spec.meant meaning.entry)) result parts.new }
    ensures counted { parts.new.exports ≡ exports_of (exporter_of parts.new) }
    ensures paid { PutIsPaid parts.old moved.old result parts.new moved.new }
{
    match meaning {
        Meaning::Own(Subject::Own) => put_own(parts, slice, moved),
        Meaning::Own(Subject::View(view)) => put_view(parts, slice, view, moved),
        Meaning::Own(Subject::Iter(iterator)) => put_iterator(parts, slice, iterator),
        Meaning::Other(other) => put_other(parts, slice, other, moved),
        Meaning::Nothing => Err(Halt::Refused(Fault::UnknownName)),
    }
}

/// Puts the bytes there that the parts of a list or a tuple are.
fn put_parts<L: Ledger>(
    parts: &mut Parts,
    slice: SaturatedSlice,
    value: &Value,
    moved: &mut Steps<L>,
) -> Result<LocalReply, Halt>
    requires { IsWhole parts.old }
    ensures answer { AnswersIn parts.old (λ e. spec.assigned_from e slice value.now []) result parts.new }
    ensures counted { parts.new.exports ≡ exports_of (exporter_of parts.new) }
    ensures paid { PutIsPaid parts.old moved.old result parts.new moved.new }
{
    let bytes = bytes_from_object(parts.alloc, value, &SnapList::new(parts.alloc)).done()?;
    put(parts, slice, bytes.as_slice(), moved)
}

fn put_value<N: Names, L: Ledger>(
    parts: &mut Parts,
    slice: SaturatedSlice,
    value: &Value,
    names: &N,
    moved: &mut Steps<L>,
) -> Result<LocalReply, Halt>
    requires whole { IsWhole parts.old }
    requires fit { N.fit names.now }
    ensures answer { AnswersIn parts.old (λ e. spec.assigned_from e slice value.now (lents_of_value e (N.named names.now) value.now)) result parts.new }
    ensures counted { parts.new.exports ≡ exports_of (exporter_of parts.new) }
    ensures paid { PutIsPaid parts.old moved.old result parts.new moved.new }
{
    match value {
        Value::One(Scalar::Bytes(bytes)) => put(parts, slice, bytes.as_slice(), moved),
        Value::One(Scalar::Handle(handle)) => put_meaning(
            parts,
            slice,
            names.meaning(*handle),
            moved,
        ),
        _ => put_parts(parts, slice, value, moved),
    }
}

fn set_slice<N: Names, L: Ledger>(
    parts: &mut Parts,
    slice: &PySlice,
    value: &Value,
    names: &N,
    moved: &mut Steps<L>,
) -> Result<LocalReply, Halt>
    requires whole { IsWhole parts.old }
    requires fit { N.fit names.now }
    ensures answer { AnswersIn parts.old (λ e. spec.slice_set e slice.now value.now (lents_of_value e (N.named names.now) value.now)) result parts.new }
    ensures counted { parts.new.exports ≡ exports_of (exporter_of parts.new) }
    ensures paid { PutIsPaid parts.old moved.old result parts.new moved.new }
{
    let slice = SaturatedSlice::with_slice(slice)?;
    put_value(parts, slice, value, names, moved)
}

/// Puts bytes in place of those of a bytearray that a slice picks: those of a bytes value, of what a
/// handle names, whose items may lie apart, and those that the parts of a list or a tuple are. A slice
/// of step 1 takes any number of them; any other takes as many as it picks, and is refused with
/// `ValueError` where there are not as many. (Library reference, "Mutable Sequence Types".)
pub fn assign<N: Names, L: Ledger>(
    parts: &mut Parts,
    slice: &PySlice,
    value: &Value,
    names: &N,
    moved: &mut Steps<L>,
) -> Result<LocalReply, Halt>
    requires whole { IsWhole parts.old }
    requires fit { N.fit names.now }
    ensures answer { AnswersIn parts.old (λ e. spec.assign_of_own e slice.now value.now (lents_of_value e (N.named names.now) value.now)) result parts.new }
    ensures counted { parts.new.exports ≡ exports_of (exporter_of parts.new) }
    ensures paid { PutIsPaid parts.old moved.old result parts.new moved.new }
{
    match parts.kind {
        ExporterKind::ByteArray => set_slice(parts, slice, value, names, moved),
        _ => Err(Halt::Refused(Fault::UnknownName)),
    }
}

// ---- `init`

/// Puts a vector in place of all bytes, as it is.
fn replace_all(parts: &mut Parts, bytes: Vec<u8>) -> Result<LocalReply, Halt>
    requires { IsWhole parts.old }
    ensures answer { AnswersIn parts.old (λ e. spec.replaced_all e bytes.items) result parts.new }
    ensures counted { parts.new.exports ≡ exports_of (exporter_of parts.new) }
    ensures err_room { OnErr result (parts.new.bytes.room ≡ parts.old.bytes.room) }
{
    parts.resizable()?;
    parts.replace_bytes(bytes);
    Ok(LocalReply::Ok)
}

/// Bytes that are lent, as a vector: they are copied where they lie elsewhere.
fn vector_of(alloc: Global, bytes: Lent<'_>) -> Made<Vec<u8>>
    ensures { IfOk result (λ vector. vector.items ≡ lent_bytes bytes.entry) }
{
    match bytes {
        Lent::Lies(bytes) => {
            let vector = Vec::from_slice(alloc, bytes)?;
            Ok(vector)
        }
        Lent::Gathered(bytes) => Ok(bytes),
    }
}

/// By the exporter itself: its bytes stay where they are.
fn init_by_own(parts: &Parts) -> Result<LocalReply, Halt>
    requires { IsWhole parts.now }
    ensures { AnswersIn parts.now (λ e. lent_spec.initialized_of e subjects.Own) result parts.now }
{
    parts.resizable()?;
    Ok(LocalReply::Ok)
}

/// By something of another exporter, whose bytes are copied once, and only where the length may change.
fn init_by_other(parts: &mut Parts, other: Other<'_>) -> Result<LocalReply, Halt>
    requires whole { IsWhole parts.old }
    requires sound { names_spec.IsSoundOther other }
    ensures answer { AnswersIn parts.old (λ e. lent_spec.initialized_by e (names_spec.snap_of_other other.entry)) result parts.new }
    ensures counted { parts.new.exports ≡ exports_of (exporter_of parts.new) }
    ensures err_room { OnErr result (parts.new.bytes.room ≡ parts.old.bytes.room) }
{
    let bytes = content_of_other(parts.alloc, other)?;
    parts.resizable()?;
    let vector = vector_of(parts.alloc, bytes)?;
    parts.replace_bytes(vector);
    Ok(LocalReply::Ok)
}

/// By what a handle names.
#[tactic(auto, using(pybuf_state::specs::Facts::other_snap))]
fn init_by_meaning(parts: &mut Parts, meaning: Meaning<'_>) -> Result<LocalReply, Halt>
    requires whole { IsWhole parts.old }
    requires sound { names_spec.IsSoundMeaning meaning }
    ensures answer { AnswersIn parts.old (λ e. lent_spec.initialized_as e (names_spec.meant meaning.entry)) result parts.new }
    ensures counted { parts.new.exports ≡ exports_of (exporter_of parts.new) }
    ensures err_room { OnErr result (parts.new.bytes.room ≡ parts.old.bytes.room) }
{
    match meaning {
        Meaning::Own(Subject::Own) => init_by_own(parts),
        Meaning::Own(Subject::View(view)) => refuse_view(parts, view),
        Meaning::Own(Subject::Iter(iterator)) => refuse_iterator(parts, iterator),
        Meaning::Other(other) => init_by_other(parts, other),
        Meaning::Nothing => Err(Halt::Refused(Fault::UnknownName)),
    }
}

/// By options that read the bytes of no handle.
fn init_by_options(parts: &mut Parts, options: &ByteInnerNewOptions) -> Result<LocalReply, Halt>
    requires { IsWhole parts.old }
    ensures answer { AnswersIn parts.old (λ e. spec.initialized e options.now []) result parts.new }
    ensures counted { parts.new.exports ≡ exports_of (exporter_of parts.new) }
    ensures err_room { OnErr result (parts.new.bytes.room ≡ parts.old.bytes.room) }
{
    let nothing = SnapList::new(parts.alloc);
    let bytes = options.get_bytearray_inner(parts.alloc, &nothing).done()?;
    replace_all(parts, bytes.into_vec())
}

fn initialize<N: Names>(
    parts: &mut Parts,
    options: &ByteInnerNewOptions,
    names: &N,
) -> Result<LocalReply, Halt>
    requires whole { IsWhole parts.old }
    requires fit { N.fit names.now }
    ensures answer { AnswersIn parts.old (λ e. spec.initialized e options.now (lents_by e (N.named names.now) (handle_of_option options.now.source))) result parts.new }
    ensures counted { parts.new.exports ≡ exports_of (exporter_of parts.new) }
    ensures err_room { OnErr result (parts.new.bytes.room ≡ parts.old.bytes.room) }
{
    match handle_alone(options) {
        Some(handle) => init_by_meaning(parts, names.meaning(handle)),
        None => init_by_options(parts, options),
    }
}

/// Puts the bytes of the options in place of all bytes of a bytearray, as Python's
/// `bytearray.__init__(source, encoding, errors)` (Library reference, "Built-in Functions",
/// `bytearray`). Refused as the options are.
pub fn init<N: Names>(
    parts: &mut Parts,
    options: &ByteInnerNewOptions,
    names: &N,
) -> Result<LocalReply, Halt>
    requires whole { IsWhole parts.old }
    requires fit { N.fit names.now }
    ensures answer { AnswersIn parts.old (λ e. spec.init_of_own e options.now (lents_by e (N.named names.now) (handle_of_option options.now.source))) result parts.new }
    ensures counted { parts.new.exports ≡ exports_of (exporter_of parts.new) }
    ensures err_room { OnErr result (parts.new.bytes.room ≡ parts.old.bytes.room) }
{
    match parts.kind {
        ExporterKind::ByteArray => initialize(parts, options, names),
        _ => Err(Halt::Refused(Fault::UnknownName)),
    }
}

// ---- `reverse` and `copy`

/// Turns the order of the bytes of a bytearray round, in place.
pub fn reverse(parts: &mut Parts) -> Result<LocalReply, Halt>
    requires { IsWhole parts.old }
    ensures answer { AnswersIn parts.old spec.reverse_of_own result parts.new }
    ensures counted { parts.new.exports ≡ exports_of (exporter_of parts.new) }
    ensures room { parts.new.bytes.room ≡ parts.old.bytes.room }
{
    match parts.kind {
        ExporterKind::ByteArray => {
            parts.bytes.reverse();
            Ok(LocalReply::Ok)
        }
        _ => Err(Halt::Refused(Fault::UnknownName)),
    }
}

/// Replies a copy of a bytearray, of which a new one is made.
pub fn copy(parts: &Parts) -> Result<LocalReply, Halt>
    requires { IsWhole parts.now }
    ensures { ReadsIn parts.now spec.copy_of_own result }
{
    match parts.kind {
        ExporterKind::ByteArray => match snap_of_subject(parts, parts.alloc, Subject::Own)? {
            Some(snap) => Ok(LocalReply::Fresh(snap)),
            None => Err(Halt::Refused(Fault::UnknownName)),
        },
        _ => Err(Halt::Refused(Fault::UnknownName)),
    }
}
