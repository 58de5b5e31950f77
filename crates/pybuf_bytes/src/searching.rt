//! Searches and cuts of bytes by arguments.
ghost use Rattle.std.specs.Prelude.{◌≡◌, ◌≤◌, Option, Some, IfOk};
ghost use Rattle.std.specs.Fn.{FnReturnsAtPair};
ghost use Rattle.pybuf_value.specs.Halting.{GivesOutcome, GivesOutcomeAs, GivesOutcomeOfBytes};
ghost use Rattle.pybuf_search.specs.Ranges.{IsSearch};
ghost use Rattle.pybuf_bytes.specs.Searching as spec;

use crate::arguments::{ByteInnerFindOptions, ByteInnerSplitOptions};
use crate::needles::Needle;
use pybuf_letters::{rsplit_at_blanks, split_at_blanks};
use pybuf_search::{
    added, bytes_lent, holds_needle, number_in_range, partition, place_in_range, rpartition,
};
use pybuf_value::{ByteLists, ByteOr, Fault, Lender, Made, Outcome, Tried, Value};
use std::alloc::Global;

/// Whether the needle stands anywhere in the bytes, as Python's `in` asks (Library reference, "Common
/// Sequence Operations").
///
/// Refused with `ValueError` exactly for a number outside `0..256`.
///
/// Example: of `b"abc"` and the needle 98 it is `Ok(true)`, and of the needle 256 it is `Err(Fault::Value)`.
pub fn contains_needle(bytes: &[u8], needle: &Needle) -> Result<bool, Fault>
    ensures { result ≡ spec.contains_of needle.now bytes.now }
{
    match needle {
        Needle::Bytes(sub) => Ok(holds_needle(bytes, sub.as_bytes())),
        Needle::Number(number) => {
            let byte = number.byte_or()?;
            Ok(holds_needle(bytes, &[byte]))
        }
    }
}

/// The number of matches of the needle between the bounds, of which no two overlap (Library
/// reference, "Bytes and Bytearray Operations", `bytes.count`); none where the start passes the end.
///
/// Refused with `ValueError` exactly for a number outside `0..256`.
///
/// Example: of `b"aaaa"` and the needle `b"aa"` without bounds it gives 2.
pub fn count_between(alloc: Global, bytes: &[u8], options: ByteInnerFindOptions) -> Tried<usize>
    ensures { GivesOutcome (spec.count_of options.sub options.start options.end bytes.now) result }
{
    match options.get_value(alloc, bytes.len())? {
        Outcome::Refused(fault) => Ok(Outcome::Refused(fault)),
        Outcome::Done((needle, range)) => {
            Ok(Outcome::Done(number_in_range(bytes, needle.as_slice(), range)))
        }
    }
}

/// The place in the bytes that a search finds between the bounds; none where the start passes the
/// end (Library reference, "Bytes and Bytearray Operations", `bytes.find`). The search is handed the
/// bytes between the bounds and those of the needle.
///
/// Refused with `ValueError` exactly for a number outside `0..256`.
///
/// Example: of `b"abcabc"`, the needle `b"bc"` with the start 2, and the search `first_place` it gives `Some(4)`.
pub fn find_between<F: Fn(&[u8], &[u8]) -> Option<usize>>(
    alloc: Global,
    bytes: &[u8],
    options: ByteInnerFindOptions,
    find: F,
) -> Tried<Option<usize>>
    requires callable { F.IsAlwaysCallable find }
    requires inside { spec.FindsInside (F.post find) }
    ensures function { spec.FindsAsSearch (F.post find) options.sub options.start options.end bytes.now result }
    ensures call { IfOk result (λ outcome. spec.IsFound (FnReturnsAtPair F.Fn find) options.sub options.start options.end bytes.now outcome) }
{
    match options.get_value(alloc, bytes.len())? {
        Outcome::Refused(fault) => Ok(Outcome::Refused(fault)),
        Outcome::Done((needle, range)) => {
            Ok(Outcome::Done(place_in_range(bytes, needle.as_slice(), range, find)))
        }
    }
}

/// The three parts of a partition, as bytes of their own.
fn copied_parts(
    alloc: Global,
    first: &[u8],
    found: bool,
    second: &[u8],
) -> Made<(Vec<u8>, bool, Vec<u8>)>
    ensures { IfOk result (λ parts. (parts.0.items ≡ first.now) × (parts.1 ≡ found) × (parts.2.items ≡ second.now)) }
{
    let first = Vec::from_slice(alloc, first)?;
    let second = Vec::from_slice(alloc, second)?;
    Ok((first, found, second))
}

/// What stands before the first match of a separator, whether there is one, and what stands behind
/// it; without a match all the bytes are the front (Library reference, "Bytes and Bytearray
/// Operations", `bytes.partition`).
///
/// Refused with `ValueError` exactly for an empty separator.
///
/// Example: of `b"a=b=c"` and `b"="` it gives `b"a"`, `true` and `b"b=c"`.
pub fn partition_at(
    alloc: Global,
    bytes: &[u8],
    separator: &[u8],
) -> Tried<(Vec<u8>, bool, Vec<u8>)>
    ensures { GivesOutcomeAs spec.parts_answered (spec.partition_by separator.now bytes.now) result }
{
    if separator.is_empty() {
        return Ok(Outcome::Refused(Fault::Value));
    }
    let (front, found, back) = partition(bytes, separator);
    let parts = copied_parts(alloc, front, found, back)?;
    Ok(Outcome::Done(parts))
}

/// What stands behind the last match of a separator, whether there is one, and what stands before it;
/// without a match all the bytes are the back (Library reference, "Bytes and Bytearray Operations",
/// `bytes.rpartition`).
///
/// Refused with `ValueError` exactly for an empty separator.
///
/// Example: of `b"a=b=c"` and `b"="` it gives `b"c"`, `true` and `b"a=b"`.
pub fn rpartition_at(
    alloc: Global,
    bytes: &[u8],
    separator: &[u8],
) -> Tried<(Vec<u8>, bool, Vec<u8>)>
    ensures { GivesOutcomeAs spec.parts_answered (spec.rpartition_by separator.now bytes.now) result }
{
    if separator.is_empty() {
        return Ok(Outcome::Refused(Fault::Value));
    }
    let (back, found, front) = rpartition(bytes, separator);
    let parts = copied_parts(alloc, back, found, front)?;
    Ok(Outcome::Done(parts))
}

/// The bytes, and behind them those of a bytes value, or of the exporter or the view that a handle
/// names, contiguous or not (Library reference, "Common Sequence Operations", `s + t`).
///
/// Refused with `UnknownName` where the lender hasn't the handle, with `ValueError` where it names a
/// released view, with `TypeError` for every other value, and then with `OverflowError` exactly where
/// both are more than `isize::MAX` bytes.
///
/// Example: of `b"ab"` and the bytes value `b"cd"` it gives `b"abcd"`, and of the number 5 it is refused with `TypeError`.
pub fn concat_with<L: Lender>(
    alloc: Global,
    bytes: &[u8],
    other: &Value,
    lender: &L,
) -> Tried<Vec<u8>>
    ensures { GivesOutcomeOfBytes (spec.concat_of (L.pairs lender.now) other.now bytes.now) result }
{
    let Value::One(scalar) = other else {
        return Ok(Outcome::Refused(Fault::Kind));
    };
    match bytes_lent(scalar, lender) {
        Ok(operand) => added(alloc, bytes, operand),
        Err(fault) => Ok(Outcome::Refused(fault)),
    }
}

/// The parts between the matches of a separator from the left, or without a separator between runs of
/// blanks, in order; the greatest number of cuts is no bound where it is negative (Library reference,
/// "Bytes and Bytearray Operations", `bytes.split`).
///
/// Refused with `ValueError` exactly for an empty separator.
///
/// Example: of `b" a  b "` without a separator or a bound it gives `b"a"` and `b"b"`.
pub fn split_at(alloc: Global, bytes: &[u8], options: ByteInnerSplitOptions) -> Tried<ByteLists>
    ensures { GivesOutcome (spec.split_of options.sep options.maxsplit bytes.now) result }
{
    match options.get_value() {
        Err(fault) => Ok(Outcome::Refused(fault)),
        Ok((separator, most)) => {
            let parts = match separator {
                None => split_at_blanks(alloc, bytes, most)?,
                Some(separator) => {
                    pybuf_search::split(alloc, bytes, separator.as_bytes(), most)?
                }
            };
            Ok(Outcome::Done(parts))
        }
    }
}

/// The parts between the matches of a separator from the right, or without a separator between runs of
/// blanks; the parts are in the order of the bytes, and the greatest number of cuts is no bound where
/// it is negative (Library reference, "Bytes and Bytearray Operations", `bytes.rsplit`).
///
/// Refused with `ValueError` exactly for an empty separator.
///
/// Example: of `b"a,b,c"`, the separator `b","` and at most one cut it gives `b"a,b"` and `b"c"`.
pub fn rsplit_at(alloc: Global, bytes: &[u8], options: ByteInnerSplitOptions) -> Tried<ByteLists>
    ensures { GivesOutcome (spec.rsplit_of options.sep options.maxsplit bytes.now) result }
{
    match options.get_value() {
        Err(fault) => Ok(Outcome::Refused(fault)),
        Ok((separator, most)) => {
            let parts = match separator {
                None => rsplit_at_blanks(alloc, bytes, most)?,
                Some(separator) => {
                    pybuf_search::rsplit(alloc, bytes, separator.as_bytes(), most)?
                }
            };
            Ok(Outcome::Done(parts))
        }
    }
}
