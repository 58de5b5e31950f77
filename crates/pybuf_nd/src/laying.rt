//! Bytes that are laid over items, dimension by dimension.
ghost use Rattle.std.specs.Prelude.{◌≡◌, ◌+◌, ◌*◌, ◌^◌, ◌<◌, ◌≤◌, pos, ◌+ℤ◌, ◌≤ℤ◌, nat_abs, length, map, drop};
ghost use Rattle.std.specs.List.{AllByRecursion};
ghost use Rattle.pybuf_desc.specs.Places.{places};
ghost use Rattle.pybuf_desc.specs.Segments.{line};
ghost use Rattle.pybuf_desc.specs.Valid.{IsInside};
ghost use Rattle.pybuf_verbs_writes.specs.Laid.{laid};

use pybuf_strided::{Track, copy_items};

/// Lays bytes from a place on over items that lie in equal steps. Answers the place after them.
fn lay_row(
    bytes: &mut [u8],
    place: usize,
    stride: isize,
    count: usize,
    size: usize,
    content: &[u8],
    from: usize,
) -> usize
    requires inside { AllByRecursion (IsInside size (length bytes.old)) (line (pos place) stride count) }
    requires enough { from + count * size ≤ length content.now }
    ensures laid { bytes.new ≡ laid bytes.old size (map nat_abs (line (pos place) stride count)) (drop from content.now) }
    ensures long { length bytes.new ≡ length bytes.old }
    ensures next { result ≡ from + count * size }
{
    let to = Track {
        start: place,
        step: stride.unsigned_abs(),
        falls: stride < 0,
    };
    let there = Track {
        start: from,
        step: size,
        falls: false,
    };
    copy_items(bytes, to, content, there, size, count);
    from + count * size
}

/// The place a stride after another, where there is a next one.
fn next_place(place: usize, stride: isize, left: usize) -> usize
    requires fits { place < 2 ^ 63 }
    requires next_low { 0 < left → pos 0 ≤ℤ (pos place +ℤ stride) }
    requires next_high { 0 < left → (pos place +ℤ stride) ≤ℤ pos 9223372036854775807 }
    ensures { 0 < left → pos result ≡ pos place +ℤ stride }
{
    if left > 0 {
        (place as isize + stride) as usize
    } else {
        place
    }
}

/// Lays bytes from a place on over the items of dimensions that start at a place, row-major. Answers the place
/// after them.
pub(crate) fn lay_dims(
    bytes: &mut [u8],
    dims: &[(usize, isize, isize)],
    start: usize,
    size: usize,
    content: &[u8],
    from: usize,
) -> usize
    requires entries { AllByRecursion (λ dim. 0 < dim.0) dims.now }
    requires inside { AllByRecursion (IsInside size (length bytes.old)) (places dims.now (pos start)) }
    requires room { length bytes.old < 2 ^ 63 }
    requires enough { from + length (places dims.now (pos start)) * size ≤ length content.now }
    ensures laid { bytes.new ≡ laid bytes.old size (map nat_abs (places dims.now (pos start))) (drop from content.now) }
    ensures long { length bytes.new ≡ length bytes.old }
    ensures next { result ≡ from + length (places dims.now (pos start)) * size }
{
    match dims {
        [] => lay_row(bytes, start, 1, 1, size, content, from),
        [last] => lay_row(bytes, start, last.1, last.0, size, content, from),
        [first, rest @ ..] => {
            let stride = first.1;
            let mut place = start;
            let mut next = from;
            let mut left = first.0;
            while left > 0 {
                next = lay_dims(bytes, rest, place, size, content, next);
                left -= 1;
                place = next_place(place, stride, left);
            }
            next
        }
    }
}
