//! The bytes of the items of two views, compared as they lie.
ghost use Rattle.std.specs.Prelude.{◌≡◌, ◌≤◌, length, bytes_eq, true};
ghost use Rattle.pybuf_desc.specs.Contiguous.{is_contiguous_layout};
ghost use Rattle.pybuf_desc.specs.Layouts.{LiesInside};
ghost use Rattle.pybuf_desc.specs.Segments.{bytes_in};
ghost use Rattle.pybuf_desc.specs.SegmentLines.{IsLine};
ghost use Rattle.pybuf_equality.specs.Walks.{IsPart, ArePaired, AreAsLong, pairs_of_lines, same_ranges};
ghost use Rattle.pybuf_equality.specs.Equality.{have_same_content};

use crate::pieces::equal_pieces;
use pybuf_desc::{SegmentLine, ZipSegments};
use pybuf_memoryview::{KeptLayout, first_place};
use std::ops::Range;

/// Whether the bytes at two ranges are the same.
fn equal_ranges(bytes: &[u8], range: Range<usize>, other: &[u8], other_range: Range<usize>) -> bool
    requires part { IsPart (length bytes.now) range }
    requires other_part { IsPart (length other.now) other_range }
    ensures { result ≡ bytes_eq (bytes_in bytes.now range) (bytes_in other.now other_range) }
{
    let run = &bytes[range];
    let other_run = &other[other_range];
    run == other_run
}

/// Whether the bytes at the ranges of each pair are the same. The first difference ends it.
fn equal_single_pairs(bytes: &[u8], other: &[u8], mut pairs: ZipSegments<'_>) -> bool
    requires { ArePaired (length bytes.now) (length other.now) pairs }
    ensures { result ≡ same_ranges bytes.now other.now pairs.entry }
{
    while let Some((range, other_range)) = pairs.next() {
        if !equal_ranges(bytes, range, other, other_range) {
            return false;
        }
    }
    true
}

/// The same of the ranges of two rows, in one loop.
fn equal_lines(bytes: &[u8], line: SegmentLine, other: &[u8], other_line: SegmentLine) -> bool
    requires line { IsLine line }
    requires other_line { IsLine other_line }
    requires as_many { line.count ≡ other_line.count }
    requires paired { ArePaired (length bytes.now) (length other.now) (pairs_of_lines line other_line) }
    requires as_long { AreAsLong (pairs_of_lines line other_line) }
    ensures { result ≡ same_ranges bytes.now other.now (pairs_of_lines line other_line) }
{
    let (track, other_track) = (line.track, other_line.track);
    equal_pieces(bytes, track, other, other_track, line.size, line.count)
}

/// The same of each pair, row by row, as long as both walks are at the start of a row and these are as long.
/// Walks over two views of one shape are so to their end; what else there is would go pair by pair.
fn equal_pairs(bytes: &[u8], other: &[u8], mut pairs: ZipSegments<'_>) -> bool
    requires paired { ArePaired (length bytes.now) (length other.now) pairs }
    requires as_long { AreAsLong pairs }
    ensures { result ≡ same_ranges bytes.now other.now pairs.entry }
{
    while let Some((line, other_line)) = pairs.next_lines() {
        if !equal_lines(bytes, line, other, other_line) {
            return false;
        }
    }
    equal_single_pairs(bytes, other, pairs)
}

/// The same of two views whose items lie one after the other: their bytes are two slices.
fn equal_runs(bytes: &[u8], layout: &KeptLayout, other: &[u8], other_layout: &KeptLayout) -> bool
    requires inside { LiesInside (length bytes.now) layout.now }
    requires other_inside { LiesInside (length other.now) other_layout.now }
    requires contiguous { is_contiguous_layout layout.now ≡ true }
    requires other_contiguous { is_contiguous_layout other_layout.now ≡ true }
    ensures { result ≡ have_same_content bytes.now layout.now other.now other_layout.now }
{
    let place = first_place(layout);
    let end = place + layout.nbytes();
    let other_place = first_place(other_layout);
    let other_end = other_place + other_layout.nbytes();
    let run = &bytes[place..end];
    let other_run = &other[other_place..other_end];
    run == other_run
}

/// The same of any two views of one shape, by their blocks where the items of these have no gap, and
/// else by their items: a row of either in one loop.
fn equal_rows(bytes: &[u8], layout: &KeptLayout, other: &[u8], other_layout: &KeptLayout) -> bool
    requires inside { LiesInside (length bytes.now) layout.now }
    requires other_inside { LiesInside (length other.now) other_layout.now }
    requires same_shape { layout.now.shape ≡ other_layout.now.shape }
    requires same_size { layout.now.itemsize ≡ other_layout.now.itemsize }
    ensures { result ≡ have_same_content bytes.now layout.now other.now other_layout.now }
{
    pybuf_desc::ranges_have_the_content();
    pybuf_desc::ranges_stay_inside();
    let (descriptor, start) = layout.placed();
    let (other_descriptor, other_start) = other_layout.placed();
    equal_pairs(
        bytes,
        other,
        descriptor.zip_segments(start, other_descriptor, other_start, true),
    )
}

/// Whether the items of two views of one shape have the same bytes, in order. Takes no memory.
pub(crate) fn equal_bytes(
    bytes: &[u8],
    layout: &KeptLayout,
    other: &[u8],
    other_layout: &KeptLayout,
) -> bool
    requires inside { LiesInside (length bytes.now) layout.now }
    requires other_inside { LiesInside (length other.now) other_layout.now }
    requires same_shape { layout.now.shape ≡ other_layout.now.shape }
    requires same_size { layout.now.itemsize ≡ other_layout.now.itemsize }
    ensures { result ≡ have_same_content bytes.now layout.now other.now other_layout.now }
{
    if layout.is_contiguous() {
        if other_layout.is_contiguous() {
            return equal_runs(bytes, layout, other, other_layout);
        }
    }
    equal_rows(bytes, layout, other, other_layout)
}
