//! Edits that take bytes out.
ghost use Rattle.std.specs.Prelude.{◌≡◌, ◌<◌, ◌+◌, ◌^◌, ℕ, true, length, OnErr};
ghost use Rattle.pybuf_index.specs.Parts.{picks_of};
ghost use Rattle.pybuf_state.specs.Exporter.{exports_of};
ghost use Rattle.pybuf_state.specs.Answers.{exporter_of, IsWhole, AnswersIn};
ghost use Rattle.pybuf_verbs_edits.specs.Counting.{AreFirst};
ghost use Rattle.pybuf_verbs_edits.specs.Paying.{IsPaid, PopIsPaid, RemoveIsPaid, DeleteByteIsPaid, DeleteSliceIsPaid, DeleteIsPaid};
ghost use Rattle.pybuf_verbs_edits.specs.Shrinking as spec;

use pybuf_byte_slices::close_up;
use pybuf_command::{ExporterKind, LocalReply};
use pybuf_index::{SaturatedSlice, entry_in, indices_of_a_slice, indices_of_a_span};
use pybuf_memoryview::{byte_item, index_in};
use pybuf_state::Parts;
use pybuf_value::{
    ByteList, Fault, Halt, PySlice, Steps, Value, count_or, place_of_byte, value_from_object,
};
use std::sync::ledger::Ledger;

/// The number of an index, which is that of the last byte where none is given.
fn count_or_last(index: &Option<Value>) -> Result<isize, Fault>
    ensures { result ≡ spec.count_or_last index.now }
{
    count_or(-1, index.as_ref())
}

fn pop_byte<L: Ledger>(
    parts: &mut Parts,
    index: &Option<Value>,
    moved: &mut Steps<L>,
) -> Result<LocalReply, Halt>
    requires { IsWhole parts.old }
    ensures answer { AnswersIn parts.old (λ e. spec.popped e index.now) result parts.new }
    ensures counted { parts.new.exports ≡ exports_of (exporter_of parts.new) }
    ensures paid { PopIsPaid index.now parts.old moved.old result parts.new moved.new }
{
    let number = count_or_last(index)?;
    parts.resizable()?;
    let place = entry_in(parts.bytes.len(), number)?;
    let byte = parts.bytes.as_slice()[place];
    parts.remove_range(place, place + 1, moved);
    Ok(LocalReply::Item(byte_item(byte)))
}

/// Takes out the byte of a bytearray at an index, or the last one where no index is given. The reply is that byte.
/// Refused with `UnknownName` where the exporter is no bytearray; then with `TypeError` where the index is no number,
/// and with `OverflowError` where it doesn't fit `isize`; then with `BufferError` where a view is unreleased; and
/// then with `IndexError` out of range. Nothing is changed then.
/// Example: of `bytearray(b"abc")` without an index it replies the item 99, and leaves `bytearray(b"ab")`.
pub fn pop<L: Ledger>(
    parts: &mut Parts,
    index: &Option<Value>,
    moved: &mut Steps<L>,
) -> Result<LocalReply, Halt>
    requires { IsWhole parts.old }
    ensures answer { AnswersIn parts.old (λ e. spec.pop_of_own e index.now) result parts.new }
    ensures counted { parts.new.exports ≡ exports_of (exporter_of parts.new) }
    ensures paid { PopIsPaid index.now parts.old moved.old result parts.new moved.new }
{
    match parts.kind {
        ExporterKind::ByteArray => pop_byte(parts, index, moved),
        _ => Err(Halt::Refused(Fault::UnknownName)),
    }
}

fn remove_byte<L: Ledger>(
    parts: &mut Parts,
    value: &Value,
    moved: &mut Steps<L>,
) -> Result<LocalReply, Halt>
    requires { IsWhole parts.old }
    ensures answer { AnswersIn parts.old (λ e. spec.removed e value.now) result parts.new }
    ensures counted { parts.new.exports ≡ exports_of (exporter_of parts.new) }
    ensures paid { RemoveIsPaid value.now parts.old moved.old result parts.new moved.new }
{
    let byte = value_from_object(value)?;
    parts.resizable()?;
    match place_of_byte(parts.bytes.as_slice(), byte) {
        None => Err(Halt::Refused(Fault::Value)),
        Some(place) => {
            parts.remove_range(place, place + 1, moved);
            Ok(LocalReply::Ok)
        }
    }
}

/// Takes the first byte of a value out of a bytearray.
pub fn remove<L: Ledger>(
    parts: &mut Parts,
    value: &Value,
    moved: &mut Steps<L>,
) -> Result<LocalReply, Halt>
    requires { IsWhole parts.old }
    ensures answer { AnswersIn parts.old (λ e. spec.remove_of_own e value.now) result parts.new }
    ensures counted { parts.new.exports ≡ exports_of (exporter_of parts.new) }
    ensures paid { RemoveIsPaid value.now parts.old moved.old result parts.new moved.new }
{
    match parts.kind {
        ExporterKind::ByteArray => remove_byte(parts, value, moved),
        _ => Err(Halt::Refused(Fault::UnknownName)),
    }
}

fn remove_all(parts: &mut Parts) -> Result<LocalReply, Halt>
    requires { IsWhole parts.old }
    ensures answer { AnswersIn parts.old spec.cleared result parts.new }
    ensures counted { parts.new.exports ≡ exports_of (exporter_of parts.new) }
    ensures err_room { OnErr result (parts.new.bytes.room ≡ parts.old.bytes.room) }
{
    parts.resizable()?;
    parts.replace_bytes(Vec::new(parts.alloc));
    Ok(LocalReply::Ok)
}

/// Takes all bytes out of a bytearray.
pub fn clear(parts: &mut Parts) -> Result<LocalReply, Halt>
    requires { IsWhole parts.old }
    ensures answer { AnswersIn parts.old spec.clear_of_own result parts.new }
    ensures counted { parts.new.exports ≡ exports_of (exporter_of parts.new) }
    ensures err_room { OnErr result (parts.new.bytes.room ≡ parts.old.bytes.room) }
{
    match parts.kind {
        ExporterKind::ByteArray => remove_all(parts),
        _ => Err(Halt::Refused(Fault::UnknownName)),
    }
}

fn delete_byte<L: Ledger>(
    parts: &mut Parts,
    key: &Value,
    moved: &mut Steps<L>,
) -> Result<LocalReply, Halt>
    requires { IsWhole parts.old }
    ensures answer { AnswersIn parts.old (λ e. spec.byte_deleted e key.now) result parts.new }
    ensures counted { parts.new.exports ≡ exports_of (exporter_of parts.new) }
    ensures paid { DeleteByteIsPaid key.now parts.old moved.old result parts.new moved.new }
{
    let index = index_in(key)?;
    parts.resizable()?;
    let place = entry_in(parts.bytes.len(), index)?;
    parts.remove_range(place, place + 1, moved);
    Ok(LocalReply::Ok)
}

/// Whether the indices of a slice are the first places of a sequence, one after another, up or down.
fn are_first(slice: &SaturatedSlice, len: usize) -> bool
    requires { len < 2 ^ 63 }
    ensures first { result ≡ true → AreFirst (length (picks_of len slice.now)) (picks_of len slice.now) }
    ensures only { (n : ℕ) → AreFirst n (picks_of len slice.now) → result ≡ true }
{
    indices_of_a_span();
    let (span, step, count) = slice.adjust_indices(len);
    if count > 1 {
        return span.start == 0 && step.unsigned_abs() == 1;
    }
    let mut indices = slice.iter(len);
    match indices.next() {
        Some(place) => place == 0,
        None => true,
    }
}

/// Where the first bytes go, none moves. Else the bytes between the indices move to the place of the least of them, and
/// then what is left behind them goes.
fn delete_slice<L: Ledger>(
    parts: &mut Parts,
    slice: &PySlice,
    moved: &mut Steps<L>,
) -> Result<LocalReply, Halt>
    requires { IsWhole parts.old }
    ensures answer { AnswersIn parts.old (λ e. spec.slice_deleted e slice.now) result parts.new }
    ensures counted { parts.new.exports ≡ exports_of (exporter_of parts.new) }
    ensures paid { DeleteSliceIsPaid slice.now parts.old moved.old result parts.new moved.new }
{
    indices_of_a_slice();
    let slice = SaturatedSlice::with_slice(slice)?;
    parts.resizable()?;
    let (span, _step, count) = slice.adjust_indices(parts.bytes.len());
    if are_first(&slice, parts.bytes.len()) {
        parts.remove_range(0, count, moved);
        return Ok(LocalReply::Ok);
    }
    let left = close_up(parts.bytes.as_mut_slice(), slice);
    moved.add(left.start.saturating_sub(span.start));
    parts.remove_range(left.start, left.end, moved);
    Ok(LocalReply::Ok)
}

fn delete_at<L: Ledger>(
    parts: &mut Parts,
    key: &Value,
    moved: &mut Steps<L>,
) -> Result<LocalReply, Halt>
    requires { IsWhole parts.old }
    ensures answer { AnswersIn parts.old (λ e. spec.deleted e key.now) result parts.new }
    ensures counted { parts.new.exports ≡ exports_of (exporter_of parts.new) }
    ensures paid { DeleteIsPaid key.now parts.old moved.old result parts.new moved.new }
{
    match key {
        Value::Slice(slice) => delete_slice(parts, slice, moved),
        _ => delete_byte(parts, key, moved),
    }
}

/// Takes the byte of a bytearray at an index out, or those that a slice picks. Each byte that stays moves
/// at most once.
pub fn delete<L: Ledger>(
    parts: &mut Parts,
    key: &Value,
    moved: &mut Steps<L>,
) -> Result<LocalReply, Halt>
    requires { IsWhole parts.old }
    ensures answer { AnswersIn parts.old (λ e. spec.delete_of_own e key.now) result parts.new }
    ensures counted { parts.new.exports ≡ exports_of (exporter_of parts.new) }
    ensures paid { DeleteIsPaid key.now parts.old moved.old result parts.new moved.new }
{
    match parts.kind {
        ExporterKind::ByteArray => delete_at(parts, key, moved),
        _ => Err(Halt::Refused(Fault::UnknownName)),
    }
}

fn take_all<L: Ledger>(parts: &mut Parts, moved: &mut Steps<L>) -> Result<LocalReply, Halt>
    requires { IsWhole parts.old }
    ensures answer { AnswersIn parts.old spec.taken result parts.new }
    ensures counted { parts.new.exports ≡ exports_of (exporter_of parts.new) }
    ensures paid { IsPaid parts.old moved.old result parts.new moved.new }
{
    parts.resizable()?;
    let bytes = parts.take_bytes(moved);
    Ok(LocalReply::Bytes(ByteList::from_vec(bytes)))
}

/// Takes all bytes out of a vector, read-only or not. The reply is these bytes, which are not copied.
pub fn take<L: Ledger>(parts: &mut Parts, moved: &mut Steps<L>) -> Result<LocalReply, Halt>
    requires { IsWhole parts.old }
    ensures answer { AnswersIn parts.old spec.take_of_own result parts.new }
    ensures counted { parts.new.exports ≡ exports_of (exporter_of parts.new) }
    ensures paid { IsPaid parts.old moved.old result parts.new moved.new }
{
    match parts.kind {
        ExporterKind::Vector { readonly: _ } => take_all(parts, moved),
        _ => Err(Halt::Refused(Fault::UnknownName)),
    }
}
