//! The bounds between which bytes are looked at; each may be absent.
ghost use Rattle.std.specs.Prelude.{◌≡◌, Bool, Some};
ghost use Rattle.std.specs.Option.{option_copied};
ghost use Rattle.pybuf_search.specs.Bounds as spec;

use pybuf_value::saturate;
use std::ops::Range;

/// The place of a bound, clamped to `isize` first: a negative one counts from the end, and is 0 where
/// it lies before the front.
fn place_of(part: i128, len: usize) -> usize
    ensures { result ≡ spec.start_in len (Some part) }
{
    let part = saturate(part);
    if part < 0 {
        len.saturating_sub(part.unsigned_abs())
    } else {
        part as usize
    }
}

/// The range that two bounds name in bytes of a length: an absent start is 0 and an absent end the
/// length, each bound is clamped to `isize`, a negative one counts from the end and is 0 where it
/// lies before the front, and an end past the length is the length. The start isn't lowered, so that
/// it can lie past the end.
///
/// Example: `adjust_indices(Some(-2), None, 5)` is `3..5`, and `adjust_indices(Some(9), Some(9), 5)` is `9..5`.
pub fn adjust_indices(start: Option<i128>, end: Option<i128>, len: usize) -> Range<usize>
    ensures { result ≡ spec.adjusted start end len }
{
    let first = match start {
        None => 0,
        Some(part) => place_of(part, len),
    };
    let last = match end {
        None => len,
        Some(part) => place_of(part, len).min(len),
    };
    first..last
}

/// A range of bytes, from a start up to an end.
///
/// Example: `3..5` is a range with its start at most its end, and `9..5` is none.
pub trait StringRange {
    // Whether the start is at most the end.
    ghost is_ordered: { Self → Bool };

    /// Whether the start is at most the end.
    ///
    /// Example: `(3..5).is_normal()` is `true`, and `(9..5).is_normal()` is `false`.
    fn is_normal(&self) -> bool
        ensures { result ≡ is_ordered self.now };
}

impl StringRange for Range<usize> {
    ghost is_ordered = { spec.is_normal };

    fn is_normal(&self) -> bool {
        self.start <= self.end
    }
}

/// The bytes between two bounds: all of them where neither is there, and none where the start passes the
/// end. They are lent.
///
/// Example: `between(b"abcde", Some(-2), None)` is `Some(b"de")`, and `between(b"abcde", Some(9), None)` is `None`.
pub fn between(bytes: &[u8], start: Option<i128>, end: Option<i128>) -> Option<&[u8]>
    ensures { option_copied result ≡ spec.between_bounds start end bytes.now }
{
    if start.is_none() && end.is_none() {
        return Some(bytes);
    }
    let range = adjust_indices(start, end, bytes.len());
    if !range.is_normal() {
        return None;
    }
    Some(&bytes[range])
}
