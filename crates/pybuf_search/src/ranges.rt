//! Searches in a range of bytes. Nothing here takes memory.
ghost use Rattle.std.specs.Prelude.{◌≡◌, ◌≤◌, ℕ, List, Option, Some, length};
ghost use Rattle.std.specs.Borrow.{Bor};
ghost use Rattle.std.specs.Fn.{FnReturnsAtPair};
ghost use Rattle.pybuf_search.specs.Places as places;
ghost use Rattle.pybuf_search.specs.Ranges.{IsSearch};
ghost use Rattle.pybuf_search.specs.Ranges as spec;

use crate::places::{first_place, last_place, number_of_matches};
use std::ops::Range;

/// The place that a search finds in a range of the bytes, counted from their front; none where the
/// range's start passes its end. The search is handed the bytes of the range, and the needle.
///
/// Example: of `b"abcabc"`, the needle `b"bc"`, the range `2..6` and the search `first_place` it is `Some(4)`.
pub fn place_in_range<F: Fn(&[u8], &[u8]) -> Option<usize>>(
    bytes: &[u8],
    needle: &[u8],
    range: Range<usize>,
    find: F,
) -> Option<usize>
    requires callable { F.IsAlwaysCallable find }
    requires inside { (part sought : Bor (List ℕ)) (place : ℕ) → F.post find part sought (Some place) → place ≤ length part.now }
    requires end { range.end ≤ length bytes.now }
    ensures function { (search : List ℕ → List ℕ → Option ℕ) → IsSearch (F.post find) search → result ≡ spec.place_in_range search bytes.now needle.now range }
    ensures call { spec.IsPlaceInRange (FnReturnsAtPair F.Fn find) bytes.now needle.now range result }
{
    if range.start > range.end {
        return None;
    }
    let start = range.start;
    match find(&bytes[range], needle) {
        None => None,
        Some(place) => Some(start + place),
    }
}

/// The first place of the needle in a range of the bytes, counted from their front; none where the
/// range's start passes its end.
///
/// Example: `first_place_in_range(b"abcabc", b"bc", 2..6)` is `Some(4)`.
pub fn first_place_in_range(bytes: &[u8], needle: &[u8], range: Range<usize>) -> Option<usize>
    requires { range.end ≤ length bytes.now }
    ensures { result ≡ spec.place_in_range places.first_place bytes.now needle.now range }
{
    place_in_range(bytes, needle, range, first_place)
}

/// The last place of the needle in a range of the bytes, counted from their front; none where the
/// range's start passes its end.
///
/// Example: `last_place_in_range(b"abcabc", b"bc", 0..5)` is `Some(1)`.
pub fn last_place_in_range(bytes: &[u8], needle: &[u8], range: Range<usize>) -> Option<usize>
    requires { range.end ≤ length bytes.now }
    ensures { result ≡ spec.place_in_range places.last_place bytes.now needle.now range }
{
    place_in_range(bytes, needle, range, last_place)
}

/// The number of matches of the needle in a range of the bytes, of which no two overlap; none where
/// the range's start passes its end.
///
/// Example: `number_in_range(b"abcabc", b"bc", 2..6)` is 1.
pub fn number_in_range(bytes: &[u8], needle: &[u8], range: Range<usize>) -> usize
    requires { range.end ≤ length bytes.now }
    ensures { result ≡ spec.number_in_range bytes.now needle.now range }
{
    if range.start > range.end {
        return 0;
    }
    number_of_matches(&bytes[range], needle)
}
