//! The numbers of two views of one shape, compared row by row.
ghost use Rattle.std.specs.Prelude.{◌≡◌, ◌-◌, length, IsTrue};
ghost use Rattle.pybuf_struct.specs.Digits.{is_width};
ghost use Rattle.pybuf_desc.specs.Layouts.{LiesInside};
ghost use Rattle.pybuf_desc.specs.SegmentLines.{IsLine};
ghost use Rattle.pybuf_equality.specs.Reading.{ReadsAsNumber};
ghost use Rattle.pybuf_equality.specs.Walks.{IsPart, ArePaired, HaveSizes, pairs_of_lines, same_numbers_in, same_numbers_of};
ghost use Rattle.pybuf_equality.specs.Equality.{have_equal_items};

use crate::numbers::equal_numbers;
use pybuf_desc::{SegmentLine, ZipSegments};
use pybuf_memoryview::KeptLayout;
use pybuf_strided::Track;
use std::ops::Range;

/// Whether the numbers at two ranges are equal.
fn equal_ranges(
    bytes: &[u8],
    range: Range<usize>,
    signed: bool,
    other: &[u8],
    other_range: Range<usize>,
    other_signed: bool,
) -> bool
    requires width { IsTrue (is_width (range.end - range.start)) }
    requires other_width { IsTrue (is_width (other_range.end - other_range.start)) }
    requires part { IsPart (length bytes.now) range }
    requires other_part { IsPart (length other.now) other_range }
    ensures { result ≡ same_numbers_in signed other_signed bytes.now other.now (range, other_range) }
{
    let (size, other_size) = (range.end - range.start, other_range.end - other_range.start);
    let track = Track {
        start: range.start,
        step: 0,
        falls: false,
    };
    let other_track = Track {
        start: other_range.start,
        step: 0,
        falls: false,
    };
    equal_numbers(
        bytes,
        track,
        signed,
        size,
        other,
        other_track,
        other_signed,
        other_size,
        1,
    )
}

/// Whether the numbers at the ranges of each pair are equal. The first difference ends it.
fn equal_single_pairs(
    bytes: &[u8],
    signed: bool,
    other: &[u8],
    other_signed: bool,
    mut pairs: ZipSegments<'_>,
    size: usize,
    other_size: usize,
) -> bool
    requires width { IsTrue (is_width size) }
    requires other_width { IsTrue (is_width other_size) }
    requires paired { ArePaired (length bytes.now) (length other.now) pairs }
    requires sizes { HaveSizes size other_size pairs }
    ensures { result ≡ same_numbers_of signed other_signed bytes.now other.now pairs.entry }
{
    while let Some((range, other_range)) = pairs.next() {
        if !equal_ranges(bytes, range, signed, other, other_range, other_signed) {
            return false;
        }
    }
    true
}

/// The same of the ranges of two rows, in one loop.
fn equal_lines(
    bytes: &[u8],
    line: SegmentLine,
    signed: bool,
    other: &[u8],
    other_line: SegmentLine,
    other_signed: bool,
) -> bool
    requires line { IsLine line }
    requires other_line { IsLine other_line }
    requires as_many { line.count ≡ other_line.count }
    requires width { IsTrue (is_width line.size) }
    requires other_width { IsTrue (is_width other_line.size) }
    requires paired { ArePaired (length bytes.now) (length other.now) (pairs_of_lines line other_line) }
    ensures { result ≡ same_numbers_of signed other_signed bytes.now other.now (pairs_of_lines line other_line) }
{
    equal_numbers(
        bytes,
        line.track,
        signed,
        line.size,
        other,
        other_line.track,
        other_signed,
        other_line.size,
        line.count,
    )
}

/// The same of each pair, row by row, as long as both walks are at the start of a row and these are as long.
/// Walks over two views of one shape are so to their end; what else there is would go pair by pair.
fn equal_pairs(
    bytes: &[u8],
    signed: bool,
    other: &[u8],
    other_signed: bool,
    mut pairs: ZipSegments<'_>,
    size: usize,
    other_size: usize,
) -> bool
    requires width { IsTrue (is_width size) }
    requires other_width { IsTrue (is_width other_size) }
    requires paired { ArePaired (length bytes.now) (length other.now) pairs }
    requires sizes { HaveSizes size other_size pairs }
    ensures { result ≡ same_numbers_of signed other_signed bytes.now other.now pairs.entry }
{
    while let Some((line, other_line)) = pairs.next_lines() {
        if !equal_lines(bytes, line, signed, other, other_line, other_signed) {
            return false;
        }
    }
    equal_single_pairs(bytes, signed, other, other_signed, pairs, size, other_size)
}

/// Whether the items of two views of one shape are equal, where those of each are whole numbers, with a sign or
/// without, whose first byte is worth least. Takes no memory, and makes no item.
pub(crate) fn equal_numbers_of(
    bytes: &[u8],
    layout: &KeptLayout,
    signed: bool,
    other: &[u8],
    other_layout: &KeptLayout,
    other_signed: bool,
) -> bool
    requires inside { LiesInside (length bytes.now) layout.now }
    requires other_inside { LiesInside (length other.now) other_layout.now }
    requires same_shape { layout.now.shape ≡ other_layout.now.shape }
    requires width { IsTrue (is_width layout.now.itemsize) }
    requires other_width { IsTrue (is_width other_layout.now.itemsize) }
    requires reads { ReadsAsNumber signed layout.now.format layout.now.itemsize }
    requires other_reads { ReadsAsNumber other_signed other_layout.now.format other_layout.now.itemsize }
    ensures { result ≡ have_equal_items bytes.now layout.now other.now other_layout.now }
{
    pybuf_desc::ranges_stay_inside();
    let (descriptor, start) = layout.placed();
    let (other_descriptor, other_start) = other_layout.placed();
    let pairs = descriptor.zip_segments(start, other_descriptor, other_start, false);
    let (size, other_size) = (layout.itemsize(), other_layout.itemsize());
    equal_pairs(bytes, signed, other, other_signed, pairs, size, other_size)
}
