//! The walk over the items of two views of one shape.
ghost use Rattle.std.specs.Prelude.{◌≡◌, ◌<◌, ◌≤◌, ◌++◌, pos, map, MatchOption, IfSome};
ghost use Rattle.std.specs.Iterator.{YieldsFirst, item_count};
ghost use Rattle.std.specs.List.{flat_map, zip};
ghost use Rattle.pybuf_desc.specs.Descriptor.{shape_of};
ghost use Rattle.pybuf_desc.specs.Layouts.{product};
ghost use Rattle.pybuf_desc.specs.Valid.{IsPlaced, IsPlaceable};
ghost use Rattle.pybuf_desc.specs.Tails.{tail_of};
ghost use Rattle.pybuf_desc.specs.Segments.{ranges_of, item_bytes, bytes_of};
ghost use Rattle.pybuf_desc.specs.SegmentLines.{IsLine};
ghost use Rattle.pybuf_desc.specs.Pairs.{joined_count_of_both, pairs_of, pairs_of_rows};

use crate::descriptor::BufferDescriptor;
use crate::line::SegmentLine;
use crate::segments::Segments;
use std::marker::Model;
use std::ops::Range;

/// The pairs of ranges of bytes that two walks have left. A clause sees the list of them.
/// Example: of two views of two bytes each, from 0 and from 4 on, it stands for the pairs `(0..1, 4..5)` and `(1..2, 5..6)`.
#[derive(Debug, Drop)]
pub struct ZipSegments<'a> {
    one: Segments<'a>,
    other: Segments<'a>,
}

impl<'a> Model for ZipSegments<'a> {
    ghost use Rattle.std.specs.Prelude.{List, ℕ};
    ghost use Rattle.std.specs.List.{zip};
    ghost use Rattle.std.specs.declared.ops.Range.{Range};

    ghost Value = { List (Range ℕ × Range ℕ) };

    ghost view = { λ s. zip s.one s.other };
}

impl<'a> Iterator for ZipSegments<'a> {
    type Item = (Range<usize>, Range<usize>);

    ghost next_gives = { YieldsFirst (λ s. s) };

    ghost remaining = { item_count (λ s. s) };

    fn next(&mut self) -> Option<(Range<usize>, Range<usize>)> {
        let one = self.one.next()?;
        let other = self.other.next()?;
        Some((one, other))
    }
}

impl<'a> ZipSegments<'a> {
    /// Takes the next row of both walks. It is None where nothing is left, and also where one walk isn't at the start
    /// of a row or the rows have other numbers of ranges, which is never so where no pair was taken by itself. Takes
    /// no memory.
    /// Example: of two views of three bytes, item by item, the first call takes two lines of three ranges.
    pub fn next_lines(&mut self) -> Option<(SegmentLine, SegmentLine)>
        ensures pairs { MatchOption result (self.new ≡ self.old) (λ lines. self.old ≡ pairs_of_rows lines ++ self.new) }
        ensures first_line { IfSome result (λ lines. IsLine lines.0) }
        ensures second_line { IfSome result (λ lines. IsLine lines.1) }
        ensures as_many { IfSome result (λ lines. lines.0.count ≡ lines.1.count) }
    {
        self.one.next_rows(&mut self.other)
    }
}

/// How many of the last dimensions are joined on both sides, where there are items: those of the lesser
/// of the two tails, where dimensions are to be joined and the items of both have one size.
fn joined_of_both(one: &BufferDescriptor, other: &BufferDescriptor, join: bool) -> usize
    requires one_placed { IsPlaceable one.now }
    requires other_placed { IsPlaceable other.now }
    ensures few { result ≤ tail_of one.now }
    ensures other_few { result ≤ tail_of other.now }
    ensures whole { 0 < product (shape_of one.now.dims) → 0 < product (shape_of other.now.dims) → result ≡ joined_count_of_both one.now other.now join }
{
    if !join {
        return 0;
    }
    if one.itemsize() != other.itemsize() {
        return 0;
    }
    let tail = one.tail();
    let other_tail = other.tail();
    if tail < other_tail { tail } else { other_tail }
}

impl BufferDescriptor {
    /// The bytes of the items that start at `start` beside those of another descriptor of the same shape, whose items
    /// start at `other_start`. They are pairs of ranges, row-major. Takes no memory.
    ///
    /// Each pair is one item of each, by its own strides. With `join`, and where the items of both have one size, it
    /// is a block of each, which is that of an index of the dimensions before the lesser of the two tails.
    /// Example: of two descriptors of two bytes, from 0 and 4 on, without `join`: `(0..1, 4..5)` and `(1..2, 5..6)`.
    pub fn zip_segments<'a>(
        &'a self,
        start: usize,
        other: &'a BufferDescriptor,
        other_start: usize,
        join: bool,
    ) -> ZipSegments<'a>
        requires placed { IsPlaced self.now start }
        requires other_placed { IsPlaced other.now other_start }
        requires same_shape { shape_of self.now.dims ≡ shape_of other.now.dims }
        ensures pairs { result ≡ pairs_of self.now (pos start) other.now (pos other_start) join }
        ensures first { map (λ pair. pair.0) result ≡ ranges_of self.now (pos start) (joined_count_of_both self.now other.now join) }
        ensures second { map (λ pair. pair.1) result ≡ ranges_of other.now (pos other_start) (joined_count_of_both self.now other.now join) }
        ensures bytes { flat_map bytes_of (map (λ pair. pair.0) result) ≡ item_bytes self.now (pos start) }
        ensures other_bytes { flat_map bytes_of (map (λ pair. pair.1) result) ≡ item_bytes other.now (pos other_start) }
        ensures byte_by_byte { self.now.itemsize ≡ other.now.itemsize → flat_map (λ pair. zip (bytes_of pair.0) (bytes_of pair.1)) result ≡ zip (item_bytes self.now (pos start)) (item_bytes other.now (pos other_start)) }
    {
        let joined = joined_of_both(self, other, join);
        ZipSegments {
            one: self.joined_segments(start, joined),
            other: other.joined_segments(other_start, joined),
        }
    }
}
