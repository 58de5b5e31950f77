//! Bytes cut at the matches of a separator.
ghost use Rattle.std.specs.Prelude.{◌≡◌, IfOk};
ghost use Rattle.pybuf_search.specs.Parts as spec;

use bstr::ByteSlice;
use pybuf_value::{ByteList, ByteLists, Made};
use std::alloc::Global;

/// How many parts a greatest number of cuts allows: one more, and any number where it is negative.
fn parts_allowed(most: isize) -> usize
    ensures { result ≡ spec.parts_allowed most }
{
    if most < 0 {
        return usize::MAX;
    }
    most as usize + 1
}

/// What stands between the matches of a separator from the left, in order; `most` is the greatest
/// number of cuts, and a negative one is no bound. No bytes are one empty part (Library reference,
/// "Bytes and Bytearray Operations", `bytes.split`).
///
/// Example: `split(alloc, b"a,b,c", b",", 1)` gives `b"a"` and `b"b,c"`.
pub fn split(alloc: Global, bytes: &[u8], separator: &[u8], most: isize) -> Made<ByteLists>
    ensures { IfOk result (λ parts. parts ≡ spec.split_parts most separator.now bytes.now) }
{
    let mut lists = Vec::new(alloc);
    let mut parts = bytes.splitn_str(parts_allowed(most), separator);
    'parts: while let Some(part) = parts.next() {
        lists.push(ByteList::from_vec(Vec::from_slice(alloc, part)?))?;
    }
    Ok(ByteLists::from_vec(lists))
}

/// What stands between the matches of a separator from the right, in the order of the bytes; `most` is
/// the greatest number of cuts, and a negative one is no bound. No bytes are one empty part (Library
/// reference, "Bytes and Bytearray Operations", `bytes.rsplit`).
///
/// Example: `rsplit(alloc, b"a,b,c", b",", 1)` gives `b"a,b"` and `b"c"`.
pub fn rsplit(alloc: Global, bytes: &[u8], separator: &[u8], most: isize) -> Made<ByteLists>
    ensures { IfOk result (λ parts. parts ≡ spec.rsplit_parts most separator.now bytes.now) }
{
    let mut lists = Vec::new(alloc);
    let mut parts = bytes.rsplitn_str(parts_allowed(most), separator);
    'parts: while let Some(part) = parts.next() {
        lists.push(ByteList::from_vec(Vec::from_slice(alloc, part)?))?;
    }
    lists.reverse();
    Ok(ByteLists::from_vec(lists))
}

/// What stands before the first match of a separator, whether there is one, and what stands behind
/// it; without a match all the bytes are the front (Library reference, "Bytes and Bytearray
/// Operations", `bytes.partition`). The parts are lent.
///
/// Example: `partition(b"a=b=c", b"=")` is `(b"a", true, b"b=c")`.
pub fn partition<'a>(bytes: &'a [u8], separator: &[u8]) -> (&'a [u8], bool, &'a [u8])
    ensures front { result.0.now ≡ (spec.partition_of separator.now bytes.now).0 }
    ensures found { result.1 ≡ (spec.partition_of separator.now bytes.now).1 }
    ensures back { result.2.now ≡ (spec.partition_of separator.now bytes.now).2 }
{
    match bytes.split_once_str(separator) {
        Some((front, back)) => (front, true, back),
        None => (bytes, false, b""),
    }
}

/// What stands behind the last match of a separator, whether there is one, and what stands before it;
/// without a match all the bytes are the back (Library reference, "Bytes and Bytearray Operations",
/// `bytes.rpartition`). The parts are lent.
///
/// Example: `rpartition(b"a=b=c", b"=")` is `(b"c", true, b"a=b")`.
pub fn rpartition<'a>(bytes: &'a [u8], separator: &[u8]) -> (&'a [u8], bool, &'a [u8])
    ensures back { result.0.now ≡ (spec.rpartition_of separator.now bytes.now).0 }
    ensures found { result.1 ≡ (spec.rpartition_of separator.now bytes.now).1 }
    ensures front { result.2.now ≡ (spec.rpartition_of separator.now bytes.now).2 }
{
    match bytes.rsplit_once_str(separator) {
        Some((front, back)) => (back, true, front),
        None => (bytes, false, b""),
    }
}
