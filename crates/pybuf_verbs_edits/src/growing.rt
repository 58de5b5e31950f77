//! Edits that add bytes.
ghost use Rattle.std.specs.Prelude.{◌≡◌, ◌<◌, ◌*◌, ◌^◌, [], length, IfOk, IsErr, OnOk, OnErr};
ghost use Rattle.pybuf_command.specs.declared.kinds.Subject.TheVariants as subjects;
ghost use Rattle.pybuf_slice.specs.Edits.{repeated_list};
ghost use Rattle.pybuf_state.specs.Exporter.{exports_of};
ghost use Rattle.pybuf_state.specs.Loans.{subject_in, lents_of_value};
ghost use Rattle.pybuf_state.specs.Names as names_spec;
ghost use Rattle.pybuf_state.specs.Answers.{exporter_of, IsWhole, AnswersIn};
ghost use Rattle.pybuf_verbs_edits.specs.Common.{is_own};
ghost use Rattle.pybuf_verbs_edits.specs.Growing as spec;
ghost use Rattle.pybuf_verbs_edits.specs.LentBytes as lent_spec;
ghost use Rattle.pybuf_verbs_edits.specs.Paying.{IsPaid, EndIsPaid, ExtensionIsPaid, ValueIsPaid, LengthKeepsRoom};

use crate::refusals::{refuse_iterator, refuse_view};
use pybuf_command::{ExporterKind, LocalReply, Subject};
use pybuf_index::SequenceIndexOp;
use pybuf_state::{Meaning, Names, Other, Parts, content_of_other, run_of_other};
use pybuf_value::{
    Answer, Fault, Halt, Made, Scalar, SnapList, Steps, Value, bytes_from_object, count_in,
    value_from_object,
};
use std::alloc::Global;
use std::sync::ledger::Ledger;

/// Adds a byte at the end of a bytearray. Refused with `UnknownName` where the exporter is no bytearray; then with
/// `TypeError` where the value is no number, and with `ValueError` outside `0..256`; and then with `BufferError`
/// where a view is unreleased. Nothing is changed then, nor where memory runs out.
/// Example: to `bytearray(b"abc")` the value 100 makes `bytearray(b"abcd")`.
pub fn append<L: Ledger>(
    parts: &mut Parts,
    value: &Value,
    moved: &mut Steps<L>,
) -> Result<LocalReply, Halt>
    requires { IsWhole parts.old }
    ensures answer { AnswersIn parts.old (λ e. spec.append_of_own e value.now) result parts.new }
    ensures counted { parts.new.exports ≡ exports_of (exporter_of parts.new) }
    ensures paid { EndIsPaid parts.old moved.old result parts.new moved.new }
{
    let ExporterKind::ByteArray = parts.kind else {
        return Err(Halt::Refused(Fault::UnknownName));
    };
    let byte = value_from_object(value)?;
    parts.resizable()?;
    parts.append([byte].as_slice(), moved)?;
    Ok(LocalReply::Ok)
}

fn insert_byte<L: Ledger>(
    parts: &mut Parts,
    index: &Value,
    value: &Value,
    moved: &mut Steps<L>,
) -> Result<LocalReply, Halt>
    requires { IsWhole parts.old }
    ensures answer { AnswersIn parts.old (λ e. spec.inserted e index.now value.now) result parts.new }
    ensures counted { parts.new.exports ≡ exports_of (exporter_of parts.new) }
    ensures paid { IsPaid parts.old moved.old result parts.new moved.new }
{
    let number = count_in(index)?;
    let byte = value_from_object(value)?;
    parts.resizable()?;
    let place = number.saturated_at(parts.bytes.len());
    parts.replace_range(place, place, [byte].as_slice(), moved)?;
    Ok(LocalReply::Ok)
}

/// Puts a byte before the place of a bytearray that is nearest to an index, where a negative index counts
/// from the end.
pub fn insert<L: Ledger>(
    parts: &mut Parts,
    index: &Value,
    value: &Value,
    moved: &mut Steps<L>,
) -> Result<LocalReply, Halt>
    requires { IsWhole parts.old }
    ensures answer { AnswersIn parts.old (λ e. spec.insert_of_own e index.now value.now) result parts.new }
    ensures counted { parts.new.exports ≡ exports_of (exporter_of parts.new) }
    ensures paid { IsPaid parts.old moved.old result parts.new moved.new }
{
    match parts.kind {
        ExporterKind::ByteArray => insert_byte(parts, index, value, moved),
        _ => Err(Halt::Refused(Fault::UnknownName)),
    }
}

/// The bytes so many times, one after another. Room for all is taken at once.
fn copies_of(alloc: Global, bytes: &[u8], times: usize) -> Made<Vec<u8>>
    requires { length bytes.now * times < 2 ^ 63 }
    ensures { IfOk result (λ list. list.items ≡ repeated_list times bytes.now) }
{
    let mut list = Vec::with_capacity(alloc, bytes.len() * times)?;
    for _time in 0..times {
        list.extend_from_slice(bytes)?;
    }
    Ok(list)
}

/// Makes the bytes stand there so many times: each copy is written where it stays.
fn repeat_bytes(parts: &mut Parts, times: usize) -> Result<LocalReply, Halt>
    requires { IsWhole parts.old }
    ensures answer { AnswersIn parts.old (λ e. spec.repeated e times) result parts.new }
    ensures counted { parts.new.exports ≡ exports_of (exporter_of parts.new) }
    ensures err_room { OnErr result (parts.new.bytes.room ≡ parts.old.bytes.room) }
    ensures long { OnOk result (length parts.new.bytes.items ≡ length parts.old.bytes.items * times) }
{
    parts.resizable()?;
    if parts.bytes.len() as u128 * times as u128 > isize::MAX as u128 {
        return Err(Halt::Refused(Fault::Overflow));
    }
    let copies = copies_of(parts.alloc, parts.bytes.as_slice(), times)?;
    parts.replace_bytes(copies);
    Ok(LocalReply::Ok)
}

/// The same, where no byte so many times asks for nothing.
fn repeat(parts: &mut Parts, times: usize) -> Result<LocalReply, Halt>
    requires { IsWhole parts.old }
    ensures answer { AnswersIn parts.old (λ e. spec.repeated_unless_empty e times) result parts.new }
    ensures counted { parts.new.exports ≡ exports_of (exporter_of parts.new) }
    ensures err_room { OnErr result (parts.new.bytes.room ≡ parts.old.bytes.room) }
    ensures still_room { (times ≡ 1 → ⊥) → LengthKeepsRoom parts.old result parts.new }
{
    if parts.bytes.is_empty() {
        return Ok(LocalReply::Ok);
    }
    repeat_bytes(parts, times)
}

fn multiply(parts: &mut Parts, count: &Value) -> Result<LocalReply, Halt>
    requires { IsWhole parts.old }
    ensures answer { AnswersIn parts.old (λ e. spec.multiplied e count.now) result parts.new }
    ensures counted { parts.new.exports ≡ exports_of (exporter_of parts.new) }
    ensures err_room { OnErr result (parts.new.bytes.room ≡ parts.old.bytes.room) }
    ensures still_room { LengthKeepsRoom parts.old result parts.new }
{
    let number = count_in(count)?;
    if number == 1 {
        return Ok(LocalReply::Ok);
    }
    if number < 0 {
        return repeat(parts, 0);
    }
    repeat(parts, number as usize)
}

/// Makes the bytes of a bytearray stand there so many times, and not at all where the number is negative.
pub fn imul(parts: &mut Parts, count: &Value) -> Result<LocalReply, Halt>
    requires { IsWhole parts.old }
    ensures answer { AnswersIn parts.old (λ e. spec.imul_of_own e count.now) result parts.new }
    ensures counted { parts.new.exports ≡ exports_of (exporter_of parts.new) }
    ensures err_room { OnErr result (parts.new.bytes.room ≡ parts.old.bytes.room) }
    ensures still_room { LengthKeepsRoom parts.old result parts.new }
{
    match parts.kind {
        ExporterKind::ByteArray => multiply(parts, count),
        _ => Err(Halt::Refused(Fault::UnknownName)),
    }
}

/// Adds bytes that lie outside the exporter.
fn add<L: Ledger>(parts: &mut Parts, bytes: &[u8], moved: &mut Steps<L>) -> Result<LocalReply, Halt>
    requires { IsWhole parts.old }
    ensures answer { AnswersIn parts.old (λ e. lent_spec.bytes_added e bytes.now) result parts.new }
    ensures counted { parts.new.exports ≡ exports_of (exporter_of parts.new) }
    ensures paid { EndIsPaid parts.old moved.old result parts.new moved.new }
{
    parts.resizable()?;
    parts.append(bytes, moved)?;
    Ok(LocalReply::Ok)
}

/// Adds the bytes of something of another exporter.
fn extend_by_other<L: Ledger>(
    parts: &mut Parts,
    other: Other<'_>,
    moved: &mut Steps<L>,
) -> Result<LocalReply, Halt>
    requires whole { IsWhole parts.old }
    requires sound { names_spec.IsSoundOther other }
    ensures answer { AnswersIn parts.old (λ e. lent_spec.extended_by e (names_spec.snap_of_other other.entry)) result parts.new }
    ensures counted { parts.new.exports ≡ exports_of (exporter_of parts.new) }
    ensures paid { EndIsPaid parts.old moved.old result parts.new moved.new }
{
    let bytes = content_of_other(parts.alloc, other)?;
    add(parts, bytes.as_slice(), moved)
}

/// Adds the bytes of what a handle names: those of the exporter itself stand there once more.
#[tactic(auto, using(crate::proofs::Lending::other_extends))]
fn extend_by_meaning<L: Ledger>(
    parts: &mut Parts,
    meaning: Meaning<'_>,
    moved: &mut Steps<L>,
) -> Result<LocalReply, Halt>
    requires whole { IsWhole parts.old }
    requires sound { names_spec.IsSoundMeaning meaning }
    ensures answer { AnswersIn parts.old (λ e. lent_spec.extended_as e (names_spec.meant meaning.entry)) result parts.new }
    ensures counted { parts.new.exports ≡ exports_of (exporter_of parts.new) }
    ensures paid { ExtensionIsPaid (is_own (subject_in (names_spec.meant meaning.entry))) parts.old moved.old result parts.new moved.new }
{
    match meaning {
        Meaning::Own(Subject::Own) => repeat(parts, 2),
        Meaning::Own(Subject::View(view)) => refuse_view(parts, view),
        Meaning::Own(Subject::Iter(iterator)) => refuse_iterator(parts, iterator),
        Meaning::Other(other) => extend_by_other(parts, other, moved),
        Meaning::Nothing => Err(Halt::Refused(Fault::UnknownName)),
    }
}

/// Adds the bytes that the parts of a list or a tuple are.
fn extend_by_parts<L: Ledger>(
    parts: &mut Parts,
    value: &Value,
    moved: &mut Steps<L>,
) -> Result<LocalReply, Halt>
    requires { IsWhole parts.old }
    ensures answer { AnswersIn parts.old (λ e. spec.extended e value.now []) result parts.new }
    ensures counted { parts.new.exports ≡ exports_of (exporter_of parts.new) }
    ensures paid { EndIsPaid parts.old moved.old result parts.new moved.new }
{
    let bytes = bytes_from_object(parts.alloc, value, &SnapList::new(parts.alloc)).done()?;
    add(parts, bytes.as_slice(), moved)
}

fn extend_by_value<N: Names, L: Ledger>(
    parts: &mut Parts,
    value: &Value,
    names: &N,
    moved: &mut Steps<L>,
) -> Result<LocalReply, Halt>
    requires whole { IsWhole parts.old }
    requires fit { N.fit names.now }
    ensures answer { AnswersIn parts.old (λ e. spec.extended_or_doubled e value.now (lents_of_value e (N.named names.now) value.now)) result parts.new }
    ensures counted { parts.new.exports ≡ exports_of (exporter_of parts.new) }
    ensures paid { ValueIsPaid value.now (N.named names.now) parts.old moved.old result parts.new moved.new }
{
    match value {
        Value::One(Scalar::Bytes(bytes)) => add(parts, bytes.as_slice(), moved),
        Value::One(Scalar::Handle(handle)) => extend_by_meaning(
            parts,
            names.meaning(*handle),
            moved,
        ),
        _ => extend_by_parts(parts, value, moved),
    }
}

/// Adds bytes at the end of a bytearray: those of a bytes value, of what a handle names, whose items may
/// lie apart, and those that the parts of a list or a tuple are. By itself it is twice what it was.
pub fn extend<N: Names, L: Ledger>(
    parts: &mut Parts,
    value: &Value,
    names: &N,
    moved: &mut Steps<L>,
) -> Result<LocalReply, Halt>
    requires whole { IsWhole parts.old }
    requires fit { N.fit names.now }
    ensures answer { AnswersIn parts.old (λ e. spec.extend_of_own e value.now (lents_of_value e (N.named names.now) value.now)) result parts.new }
    ensures counted { parts.new.exports ≡ exports_of (exporter_of parts.new) }
    ensures paid { ValueIsPaid value.now (N.named names.now) parts.old moved.old result parts.new moved.new }
{
    match parts.kind {
        ExporterKind::ByteArray => extend_by_value(parts, value, names, moved),
        _ => Err(Halt::Refused(Fault::UnknownName)),
    }
}

/// Adds the bytes of a view of the exporter itself, and reads none, as for `extend`.
fn add_view(parts: &Parts, view: usize) -> Result<LocalReply, Halt>
    requires { IsWhole parts.now }
    ensures answer { AnswersIn parts.now (λ e. lent_spec.added_of e (subjects.View view)) result parts.now }
    ensures refused { IsErr result }
{
    let layout = parts.live_layout(view)?;
    if !layout.is_contiguous() {
        return Err(Halt::Refused(Fault::Kind));
    }
    Err(Halt::Refused(Fault::Buffer))
}

/// Adds nothing of an iterator, as for `extend`.
fn add_iterator(parts: &Parts, iterator: usize) -> Result<LocalReply, Halt>
    ensures { AnswersIn parts.now (λ e. lent_spec.added_of e (subjects.Iter iterator)) result parts.now }
{
    parts.iterator(iterator)?;
    Err(Halt::Refused(Fault::Kind))
}

/// Adds the bytes of something of another exporter, which must lie one after the other.
fn add_other<L: Ledger>(
    parts: &mut Parts,
    other: Other<'_>,
    moved: &mut Steps<L>,
) -> Result<LocalReply, Halt>
    requires whole { IsWhole parts.old }
    requires sound { names_spec.IsSoundOther other }
    ensures answer { AnswersIn parts.old (λ e. lent_spec.added_by e (names_spec.snap_of_other other.entry)) result parts.new }
    ensures counted { parts.new.exports ≡ exports_of (exporter_of parts.new) }
    ensures paid { EndIsPaid parts.old moved.old result parts.new moved.new }
{
    let bytes = run_of_other(other)?;
    add(parts, bytes, moved)
}

/// Adds the bytes of what a handle names, and never those of the exporter itself.
#[tactic(auto, using(crate::proofs::Lending::other_adds))]
fn add_meaning<L: Ledger>(
    parts: &mut Parts,
    meaning: Meaning<'_>,
    moved: &mut Steps<L>,
) -> Result<LocalReply, Halt>
    requires whole { IsWhole parts.old }
    requires sound { names_spec.IsSoundMeaning meaning }
    ensures answer { AnswersIn parts.old (λ e. lent_spec.added_as e (names_spec.meant meaning.entry)) result parts.new }
    ensures counted { parts.new.exports ≡ exports_of (exporter_of parts.new) }
    ensures paid { EndIsPaid parts.old moved.old result parts.new moved.new }
{
    match meaning {
        Meaning::Own(Subject::Own) => Err(Halt::Refused(Fault::Buffer)),
        Meaning::Own(Subject::View(view)) => add_view(parts, view),
        Meaning::Own(Subject::Iter(iterator)) => add_iterator(parts, iterator),
        Meaning::Other(other) => add_other(parts, other, moved),
        Meaning::Nothing => Err(Halt::Refused(Fault::UnknownName)),
    }
}

fn add_value<N: Names, L: Ledger>(
    parts: &mut Parts,
    value: &Value,
    names: &N,
    moved: &mut Steps<L>,
) -> Result<LocalReply, Halt>
    requires whole { IsWhole parts.old }
    requires fit { N.fit names.now }
    ensures answer { AnswersIn parts.old (λ e. spec.added e value.now (lents_of_value e (N.named names.now) value.now)) result parts.new }
    ensures counted { parts.new.exports ≡ exports_of (exporter_of parts.new) }
    ensures paid { EndIsPaid parts.old moved.old result parts.new moved.new }
{
    match value {
        Value::One(Scalar::Bytes(bytes)) => add(parts, bytes.as_slice(), moved),
        Value::One(Scalar::Handle(handle)) => add_meaning(parts, names.meaning(*handle), moved),
        _ => Err(Halt::Refused(Fault::Kind)),
    }
}

/// Adds bytes that lie one after the other at the end of a bytearray: those of a bytes value, or of what a
/// handle names. The bytearray itself is refused with `BufferError`.
pub fn iadd<N: Names, L: Ledger>(
    parts: &mut Parts,
    value: &Value,
    names: &N,
    moved: &mut Steps<L>,
) -> Result<LocalReply, Halt>
    requires whole { IsWhole parts.old }
    requires fit { N.fit names.now }
    ensures answer { AnswersIn parts.old (λ e. spec.iadd_of_own e value.now (lents_of_value e (N.named names.now) value.now)) result parts.new }
    ensures counted { parts.new.exports ≡ exports_of (exporter_of parts.new) }
    ensures paid { EndIsPaid parts.old moved.old result parts.new moved.new }
{
    match parts.kind {
        ExporterKind::ByteArray => add_value(parts, value, names, moved),
        _ => Err(Halt::Refused(Fault::UnknownName)),
    }
}
