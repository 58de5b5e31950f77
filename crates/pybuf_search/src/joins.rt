//! Bytes put together. Room for all of them is taken once, and only where they are few enough.
ghost use Rattle.std.specs.Prelude.{◌≡◌, ◌++◌, ◌*◌, ◌+◌, ◌<◌, ◌≤◌, ◌^◌, length, map, IfOk, OnOk};
ghost use Rattle.bstr.specs.Owned as owned;
ghost use Rattle.bstr.specs.Text as text;
ghost use Rattle.pybuf_value.specs.Halting.{outcome_of, items_of};
ghost use Rattle.pybuf_value.specs.Texts.{fitted};
ghost use Rattle.pybuf_value.specs.Numbers.{times};
ghost use Rattle.pybuf_search.specs.Joins.{further};
ghost use Rattle.pybuf_search.specs.Joins as spec;

use crate::separators::AnyStrWrapper;
use pybuf_value::{ByteList, Fault, Made, Outcome, Tried};
use std::alloc::Global;

/// The length as a machine word, where it is at most `isize::MAX`.
fn fitted_length(length: u128) -> Option<usize>
    ensures { result ≡ spec.fitted_length length }
{
    if length <= isize::MAX as u128 {
        Some(length as usize)
    } else {
        None
    }
}

/// The bytes of both, one after the other (Library reference, "Common Sequence Operations", `s + t`).
///
/// Refused with `OverflowError` exactly where they are more than `isize::MAX`.
///
/// Example: `added(alloc, b"ab", b"cd")` gives `b"abcd"`.
pub fn added(alloc: Global, front: &[u8], back: &[u8]) -> Tried<Vec<u8>>
    ensures { IfOk result (λ outcome. items_of outcome ≡ outcome_of (fitted (front.now ++ back.now))) }
{
    let Some(length) = fitted_length(front.len() as u128 + back.len() as u128) else {
        return Ok(Outcome::Refused(Fault::Overflow));
    };
    let mut whole = Vec::with_capacity(alloc, length)?;
    whole.extend_from_slice(front)?;
    whole.extend_from_slice(back)?;
    Ok(Outcome::Done(whole))
}

/// The bytes of each further part after the separator, counted.
fn length_of_further<T: AnyStrWrapper>(separator: &[u8], parts: &[T]) -> u128
    ensures value { result ≡ length (further separator.now (map T.bytes parts.now)) }
    ensures bound { result ≤ 2 ^ 64 * length parts.now }
{
    let mut total: u128 = 0;
    for part in parts {
        total += separator.len() as u128 + part.as_ref().len() as u128;
    }
    total
}

/// Adds each further part after the separator.
fn push_further<T: AnyStrWrapper>(whole: &mut Vec<u8>, separator: &[u8], parts: &[T]) -> Made<()>
    ensures { OnOk result (whole.new.items ≡ whole.old.items ++ further separator.now (map T.bytes parts.now)) }
{
    for part in parts {
        whole.extend_from_slice(separator)?;
        whole.extend_from_slice(part.as_ref())?;
    }
    Ok(())
}

/// The parts, with the separator between each two (Library reference, "Bytes and Bytearray
/// Operations", `bytes.join`).
///
/// Refused with `OverflowError` exactly where that is more than `isize::MAX` bytes.
///
/// Example: of the separator `b", "` and the parts `b"a"` and `b"b"` it gives `b"a, b"`; of no parts it gives no bytes.
pub fn joined(alloc: Global, separator: &[u8], parts: &[ByteList]) -> Tried<Vec<u8>>
    ensures { IfOk result (λ outcome. items_of outcome ≡ outcome_of (fitted (owned.joined separator.now parts.now))) }
{
    joined_parts(alloc, separator, parts)
}

/// The parts, with the separator between each two, where the parts are of any kind that bytes can be
/// read from. Nothing is copied but into the answer.
///
/// Refused with `OverflowError` exactly where that is more than `isize::MAX` bytes.
///
/// Example: of the separator `b"-"` and the parts `b"a"`, `b""` and `b"b"` it gives `b"a--b"`.
pub fn joined_parts<T: AnyStrWrapper>(
    alloc: Global,
    separator: &[u8],
    parts: &[T],
) -> Tried<Vec<u8>>
    ensures { IfOk result (λ outcome. items_of outcome ≡ outcome_of (fitted (owned.joined separator.now (map T.bytes parts.now)))) }
{
    let Some((first, rest)) = parts.split_first() else {
        return Ok(Outcome::Done(Vec::new(alloc)));
    };
    let first = first.as_ref();
    let further = length_of_further(separator, rest);
    let Some(length) = fitted_length(first.len() as u128 + further) else {
        return Ok(Outcome::Refused(Fault::Overflow));
    };
    let mut whole = Vec::with_capacity(alloc, length)?;
    whole.extend_from_slice(first)?;
    push_further(&mut whole, separator, rest)?;
    Ok(Outcome::Done(whole))
}

/// How many times bytes are repeated: not at all for a negative number.
fn times_of(n: isize) -> usize
    ensures { result ≡ times n }
{
    if n < 0 { 0 } else { n as usize }
}

/// The bytes so many times, one after another.
#[tactic(auto, using(crate::proofs::RepeatLemmas::repeated_zero, crate::proofs::RepeatLemmas::repeated_none, crate::proofs::RepeatLemmas::repeated_next))]
fn times_over(alloc: Global, bytes: &[u8], times: usize) -> Made<Vec<u8>>
    requires { length bytes.now * times < 2 ^ 63 }
    ensures { IfOk result (λ whole. whole.items ≡ text.repeated times bytes.now) }
{
    let mut whole = Vec::with_capacity(alloc, bytes.len() * times)?;
    if bytes.is_empty() {
        return Ok(whole);
    }
    for _time in 0..times {
        whole.extend_from_slice(bytes)?;
    }
    Ok(whole)
}

/// The bytes `n` times, one after another, and none where `n` is negative (Library reference, "Common
/// Sequence Operations", `s * n`).
///
/// Refused with `OverflowError` exactly where that is more than `isize::MAX` bytes.
///
/// Example: `repeated(alloc, b"ab", 3)` gives `b"ababab"`, and `repeated(alloc, b"ab", -1)` gives no bytes.
#[tactic(auto, using(crate::proofs::RepeatLemmas::fitted_repeated))]
pub fn repeated(alloc: Global, bytes: &[u8], n: isize) -> Tried<Vec<u8>>
    ensures { IfOk result (λ outcome. items_of outcome ≡ outcome_of (fitted (text.repeated (times n) bytes.now))) }
{
    let times = times_of(n);
    let Some(_length) = fitted_length(bytes.len() as u128 * times as u128) else {
        return Ok(Outcome::Refused(Fault::Overflow));
    };
    let whole = times_over(alloc, bytes, times)?;
    Ok(Outcome::Done(whole))
}
