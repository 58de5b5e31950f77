//! Bytes closed up over those that a slice picks.
ghost use Rattle.std.specs.Prelude.{◌≡◌, ◌<◌, ◌≤◌, ◌+◌, ◌-◌, ◌*◌, ◌^◌, [], length, take, drop, suc, nat_abs};
ghost use Rattle.pybuf_strided.specs.Apart.{with_piece};
ghost use Rattle.pybuf_index.specs.Parts.{picks_of};
ghost use Rattle.pybuf_index.specs.Picks.{is_negative};
ghost use Rattle.pybuf_index.specs.Runs.{rising, run_low};
ghost use Rattle.pybuf_slice.specs.Edits.{elements_off, replaced_range};
ghost use Rattle.pybuf_byte_slices.specs.Closing.{closed_runs};

use pybuf_index::{SaturatedSlice, indices_of_a_span};
use std::ops::Range;

/// Moves a run of a size that is known when this is compiled. It is read whole before any of it is written, since it
/// may overlap where it goes.
#[inline]
fn move_sized<const SIZE: usize>(bytes: &mut [u8], from: usize, to: usize)
    requires inside { from + SIZE ≤ length bytes.old }
    requires down { to ≤ from }
    ensures bytes { bytes.new ≡ with_piece bytes.old to (take SIZE (drop from bytes.old)) }
    ensures long { length bytes.new ≡ length bytes.old }
{
    let mut run = [0; SIZE];
    run.copy_from_slice(&bytes[from..from + SIZE]);
    bytes[to..to + SIZE].copy_from_slice(&run);
}

/// Moves a run of any size.
#[inline]
fn move_unsized(bytes: &mut [u8], from: usize, to: usize, size: usize)
    requires inside { from + size ≤ length bytes.old }
    requires down { to ≤ from }
    ensures bytes { bytes.new ≡ with_piece bytes.old to (take size (drop from bytes.old)) }
    ensures long { length bytes.new ≡ length bytes.old }
{
    bytes.copy_within(from..from + size, to);
}

/// Moves runs of a size that is known when this is compiled down to a place, one after the other.
#[inline(never)]
fn close_sized<const SIZE: usize>(bytes: &mut [u8], low: usize, count: usize)
    requires inside { low + count * suc SIZE < length bytes.old }
    ensures { bytes.new ≡ closed_runs bytes.old low SIZE count }
{
    for k in 0..count {
        let from = low + 1 + k * (SIZE + 1);
        let to = low + k * SIZE;
        move_sized::<SIZE>(bytes, from, to);
    }
}

/// Moves runs of any size down to a place, one after the other.
fn close_unsized(bytes: &mut [u8], low: usize, size: usize, count: usize)
    requires inside { low + count * suc size < length bytes.old }
    ensures { bytes.new ≡ closed_runs bytes.old low size count }
{
    for k in 0..count {
        let from = low + 1 + k * (size + 1);
        let to = low + k * size;
        move_unsized(bytes, from, to, size);
    }
}

/// Moves runs down to a place, with the loop for their size.
fn close_runs(bytes: &mut [u8], low: usize, size: usize, count: usize)
    requires inside { low + count * suc size < length bytes.old }
    ensures { bytes.new ≡ closed_runs bytes.old low size count }
{
    match size {
        // nothing lies between two neighbours
        0 => {}
        1 => close_sized::<1>(bytes, low, count),
        2 => close_sized::<2>(bytes, low, count),
        3 => close_sized::<3>(bytes, low, count),
        7 => close_sized::<7>(bytes, low, count),
        _ => close_unsized(bytes, low, size, count),
    }
}

/// Moves the bytes between indices one stride apart to the place of the least of them. The answer is the range
/// that is left.
fn close_between(bytes: &mut [u8], low: usize, stride: usize, count: usize) -> Range<usize>
    requires moves { 0 < stride }
    requires some { 0 < count }
    requires inside { low + (count - 1) * stride < length bytes.old }
    ensures list { replaced_range bytes.new result.start result.end [] ≡ elements_off bytes.old (rising low stride count) }
    ensures ordered { result.start ≤ result.end }
    ensures inside { result.end ≤ length bytes.old }
    ensures length { length bytes.new ≡ length bytes.old }
{
    let size = stride - 1;
    let runs = count - 1;
    close_runs(bytes, low, size, runs);
    low + runs * size..low + runs * stride + 1
}

/// The least of so many indices of a span.
fn least_index(start: usize, end: usize, step: isize, count: usize) -> usize
    requires inside { start + (count - 1) * nat_abs step < end }
    requires some { 0 < count }
    ensures least { result ≡ run_low (is_negative step) start end (nat_abs step) count }
    ensures last { result + (count - 1) * nat_abs step < end }
{
    if step < 0 {
        end - 1 - (count - 1) * step.unsigned_abs()
    } else {
        start
    }
}

/// Moves the bytes between the indices of a slice to the place of the least of them, in order, each at most
/// once. The answer is the range that is left: without its bytes, the rest are those that the slice doesn't
/// pick. Takes no memory.
///
/// Example: by the slice `0:3:2` of `b"abcd"` the bytes off the range that it answers are then `b"bd"`.
pub fn close_up(bytes: &mut [u8], slice: SaturatedSlice) -> Range<usize>
    requires { length bytes.old < 2 ^ 63 }
    ensures list { replaced_range bytes.new result.start result.end [] ≡ elements_off bytes.old (picks_of (length bytes.old) slice) }
    ensures ordered { result.start ≤ result.end }
    ensures inside { result.end ≤ length bytes.old }
    ensures length { length bytes.new ≡ length bytes.old }
{
    indices_of_a_span();
    let (span, step, count) = slice.adjust_indices(bytes.len());
    if count == 0 {
        return span.start..span.start;
    }
    let low = least_index(span.start, span.end, step, count);
    close_between(bytes, low, step.unsigned_abs(), count)
}
