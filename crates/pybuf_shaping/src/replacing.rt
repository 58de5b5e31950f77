//! Bytes with others in place of the matches of a needle.
ghost use Rattle.std.specs.Prelude.{◌≡◌, ◌+◌, ◌<◌, ◌≤◌, ◌^◌, ◌++◌, IfOk, OnOk, length, take};
ghost use Rattle.bstr.specs.Text.{MatchList, replaced_at};
ghost use Rattle.pybuf_value.specs.Texts.{fitted};
ghost use Rattle.pybuf_search.specs.Matches.{matches_from_left};
ghost use Rattle.pybuf_value.specs.Halting.{Gives, outcome_of};
ghost use Rattle.pybuf_shaping.specs.Replacing as spec;

use bstr::ByteSlice;
use pybuf_value::{ByteList, Fault, Halt, Made, Tried, tried};
use std::alloc::Global;

/// How many matches there may be, as a machine word: any number where it is negative.
fn limit_of(most: isize) -> usize
    ensures { result ≡ spec.limit_of most }
{
    if most < 0 {
        return usize::MAX;
    }
    most as usize
}

/// The same of a number that may not be given.
fn limit_given(most: Option<usize>) -> usize
    ensures { result ≡ spec.limit_of (spec.limit_given most) }
{
    match most {
        None => usize::MAX,
        Some(most) => most,
    }
}

/// The places of the first matches, each found once.
fn places_of(alloc: Global, bytes: &[u8], old: &[u8], limit: usize) -> Made<Vec<usize>>
    ensures { IfOk result (λ places. places.items ≡ take limit (matches_from_left bytes.now old.now)) }
{
    let mut places = Vec::new(alloc);
    let mut matches = bytes.find_iter(old);
    for _match in 0..limit {
        let Some(place) = matches.next() else {
            return Ok(places);
        };
        places.push(place)?;
    }
    Ok(places)
}

/// Adds the bytes with others in place of so many of them at each of the places.
fn push_replaced(
    list: &mut Vec<u8>,
    bytes: &[u8],
    width: usize,
    new: &[u8],
    places: &[usize],
) -> Made<()>
    requires { MatchList bytes.now width 0 places.now }
    ensures { OnOk result (list.new.items ≡ list.old.items ++ replaced_at bytes.now width new.now 0 places.now) }
{
    let mut last = 0;
    for place in places {
        list.extend_from_slice(&bytes[last..*place])?;
        list.extend_from_slice(new)?;
        last = *place + width;
    }
    list.extend_from_slice(&bytes[last..])?;
    Ok(())
}

/// The bytes with others in place of the first matches, which are no shorter, so that there is room for
/// all in that of the bytes.
fn replaced_by_less(
    alloc: Global,
    bytes: &[u8],
    old: &[u8],
    new: &[u8],
    limit: usize,
) -> Made<ByteList>
    ensures { IfOk result (λ list. list ≡ replaced_at bytes.now (length old.now) new.now 0 (take limit (matches_from_left bytes.now old.now))) }
{
    let mut list = Vec::with_capacity(alloc, bytes.len())?;
    bytes.replacen_into(old, new, limit, &mut list)?;
    Ok(ByteList::from_vec(list))
}

/// The same where the matches are shorter: their places are counted, and the room is taken once.
fn replaced_by_more(
    alloc: Global,
    bytes: &[u8],
    old: &[u8],
    new: &[u8],
    limit: usize,
) -> Result<ByteList, Halt>
    ensures { Gives (fitted (replaced_at bytes.now (length old.now) new.now 0 (take limit (matches_from_left bytes.now old.now)))) result }
{
    let places = places_of(alloc, bytes, old, limit)?;
    let count = places.len() as u128;
    let total = bytes.len() as u128 + count * new.len() as u128 - count * old.len() as u128;
    if total > isize::MAX as u128 {
        return Err(Halt::Refused(Fault::Overflow));
    }
    let mut list = Vec::with_capacity(alloc, total as usize)?;
    push_replaced(&mut list, bytes, old.len(), new, places.as_slice())?;
    Ok(ByteList::from_vec(list))
}

/// The bytes with others in place of the first matches.
fn replacement(
    alloc: Global,
    bytes: &[u8],
    old: &[u8],
    new: &[u8],
    most: isize,
) -> Result<ByteList, Halt>
    ensures { Gives (spec.replacement most old.now new.now bytes.now) result }
{
    let limit = limit_of(most);
    if new.len() <= old.len() {
        let list = replaced_by_less(alloc, bytes, old, new, limit)?;
        return Ok(list);
    }
    replaced_by_more(alloc, bytes, old, new, limit)
}

/// The bytes with others in place of the first `most` matches of a needle from the left, and of all where
/// that is negative. An empty needle stands before each byte and at the end (Python's library reference,
/// "Bytes and Bytearray Operations", `bytes.replace`). Each match is found once, and room is taken once.
///
/// Refused with `OverflowError` exactly where that is more than `isize::MAX` bytes.
///
/// Example: `replace(alloc, b"aaa", b"a", b"xy", 2)` gives `b"xyxya"`; with `b""` and `b"-"`, `b"ab"` becomes `b"-a-b-"`.
pub fn replace(alloc: Global, bytes: &[u8], old: &[u8], new: &[u8], most: isize) -> Tried<ByteList>
    ensures { IfOk result (λ outcome. outcome ≡ outcome_of (spec.replacement most old.now new.now bytes.now)) }
{
    tried(replacement(alloc, bytes, old, new, most))
}

/// The bytes with others in place of the first `most` matches of a needle from the left, and of all
/// where no number is given. Both are of one length, so that each byte keeps its place. Nothing is
/// refused.
///
/// Example: `replace_in_place(alloc, b"aaa", b"a", b"x", Some(2))` gives `b"xxa"`.
pub fn replace_in_place(
    alloc: Global,
    bytes: &[u8],
    old: &[u8],
    new: &[u8],
    most: Option<usize>,
) -> Made<ByteList>
    requires { length new.now ≡ length old.now }
    ensures { IfOk result (λ list. list ≡ spec.replaced (spec.limit_given most) old.now new.now bytes.now) }
{
    replaced_by_less(alloc, bytes, old, new, limit_given(most))
}
