//! Where a needle stands in bytes. Nothing here takes memory.
ghost use Rattle.std.specs.Prelude.{◌≡◌, ◌+◌, ◌≤◌, length, IfSome};
ghost use Rattle.bstr.specs.Find.{FindsNeedle};
ghost use Rattle.pybuf_search.specs.Places as spec;

use bstr::ByteSlice;
use pybuf_lanes::count_byte;

/// The first place of a needle that is as long as the bytes, where it can stand at 0 alone: to compare them
/// costs less than a search.
fn whole_place(bytes: &[u8], needle: &[u8]) -> Option<usize>
    requires { length bytes.now ≡ length needle.now }
    ensures { FindsNeedle bytes.now needle.now 0 result }
{
    if bytes == needle { Some(0) } else { None }
}

/// The first place at which the needle stands, from 0 to the length: an empty needle stands at 0.
/// `None` exactly where it stands nowhere (Library reference, "Bytes and Bytearray Operations",
/// `bytes.find`).
///
/// Example: `first_place(b"abcabc", b"bc")` is `Some(1)`.
pub fn first_place(bytes: &[u8], needle: &[u8]) -> Option<usize>
    ensures value { result ≡ spec.first_place bytes.now needle.now }
    ensures inside { IfSome result (λ place. place + length needle.now ≤ length bytes.now) }
{
    if bytes.len() == needle.len() {
        return whole_place(bytes, needle);
    }
    bytes.find(needle)
}

/// The last place at which the needle stands, from 0 to the length: an empty needle stands at the
/// length. `None` exactly where it stands nowhere (Library reference, "Bytes and Bytearray
/// Operations", `bytes.rfind`).
///
/// Example: `last_place(b"abcabc", b"bc")` is `Some(4)`.
pub fn last_place(bytes: &[u8], needle: &[u8]) -> Option<usize>
    ensures value { result ≡ spec.last_place bytes.now needle.now }
    ensures inside { IfSome result (λ place. place + length needle.now ≤ length bytes.now) }
{
    bytes.rfind(needle)
}

/// Whether the needle stands anywhere, as Python's `in` asks (Library reference, "Common Sequence
/// Operations").
///
/// Example: `holds_needle(b"abc", b"bc")` is `true`, and `holds_needle(b"abc", b"ac")` is `false`.
pub fn holds_needle(bytes: &[u8], needle: &[u8]) -> bool
    ensures { result ≡ spec.holds_needle bytes.now needle.now }
{
    first_place(bytes, needle).is_some()
}

/// The number of matches from the left, of which no two overlap; an empty needle stands once before
/// each byte and once at the end (Library reference, "Bytes and Bytearray Operations",
/// `bytes.count`).
///
/// Example: `number_of_matches(b"aaaa", b"aa")` is 2, and `number_of_matches(b"ab", b"")` is 3.
pub fn number_of_matches(bytes: &[u8], needle: &[u8]) -> usize
    ensures { result ≡ spec.number_of_matches bytes.now needle.now }
{
    if needle.len() == 1 {
        return count_byte(bytes, needle[0]);
    }
    let mut number = 0;
    let mut places = bytes.find_iter(needle);
    'places: while let Some(_place) = places.next() {
        number += 1;
    }
    number
}
