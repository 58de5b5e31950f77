//! The walk over the bytes of the items.
ghost use Rattle.std.specs.Prelude.{◌≡◌, ◌*◌, ◌^◌, ◌<◌, ℤ, pos, ◌+ℤ◌, ◌-ℤ◌, ◌*ℤ◌, ◌≤ℤ◌, ◌<ℤ◌, FitsSigned, ◌≤◌, All, length, true, [], ◌∷◌, ◌++◌, map, replicate, MatchOption, IfSome};
ghost use Rattle.std.specs.Int.{w64};
ghost use Rattle.std.specs.Iterator.{YieldsFirst, item_count};
ghost use Rattle.std.specs.List.{flat_map, AllByRecursion};
ghost use Rattle.pybuf_desc.specs.Layouts.{product};
ghost use Rattle.pybuf_desc.specs.Descriptor.{shape_of};
ghost use Rattle.pybuf_desc.specs.Places.{places};
ghost use Rattle.pybuf_desc.specs.Valid.{IsPlaced, IsInside};
ghost use Rattle.pybuf_desc.specs.Tails.{tail_of};
ghost use Rattle.pybuf_desc.specs.SegmentLines.{ranges_of_line, IsLine};
ghost use Rattle.pybuf_desc.specs.Segments.{IsRow, AreRows, HasPlaces, IsWalk, rows_left, places_left, row_places, range_at, ranges_of, joined_count, item_bytes, bytes_of};

use crate::checks::has_zero;
use crate::descriptor::BufferDescriptor;
use crate::line::{SegmentLine, line_of};
use std::marker::Model;
use std::ops::Range;

/// The place so many strides before another.
fn place_before(place: usize, count: usize, stride: isize) -> usize
    requires place_fits { place < 2 ^ 63 }
    requires count_fits { count < 2 ^ 63 }
    requires product_fits { FitsSigned w64 (pos count *ℤ stride) }
    requires low { pos 0 ≤ℤ (pos place -ℤ pos count *ℤ stride) }
    requires high { (pos place -ℤ pos count *ℤ stride) <ℤ pos (2 ^ 63) }
    ensures { pos result ≡ pos place -ℤ pos count *ℤ stride }
{
    (place as isize - count as isize * stride) as usize
}

/// Sets the indices to those of the next row, row-major, and gives its place. After the last row
/// comes the first again, and then the answer is false.
///
/// The last index goes up by one. Where it reaches its dimension's entries it goes back to 0, and
/// the one before it goes up in its place.
pub(crate) fn next_row(
    rows: &[(usize, isize, isize)],
    indices: &mut [usize; 64],
    place: usize,
) -> (usize, bool)
    requires { IsRow rows.now indices.old place }
    ensures row { IsRow rows.now indices.new result.0 }
    ensures left { rows_left rows.now indices.old place true ≡ pos place ∷ rows_left rows.now indices.new result.0 result.1 }
{
    let mut place = place;
    let mut k = rows.len();
    while k > 0 {
        k -= 1;
        let index = indices[k];
        let stride = rows[k].1;
        if index + 1 < rows[k].0 {
            indices[k] = index + 1;
            return (next_place(place, stride, 1), true);
        }
        indices[k] = 0;
        place = place_before(place, index, stride);
    }
    (place, false)
}

/// The place a stride after another, where there is a next one.
fn next_place(place: usize, stride: isize, left: usize) -> usize
    requires place_fits { place < 2 ^ 63 }
    requires next_low { 0 < left → pos 0 ≤ℤ (pos place +ℤ stride) }
    requires next_high { 0 < left → (pos place +ℤ stride) ≤ℤ pos 9223372036854775807 }
    ensures { 0 < left → pos result ≡ pos place +ℤ stride }
{
    if left > 0 {
        (place as isize + stride) as usize
    } else {
        place
    }
}

/// The ranges of bytes that a walk over the items has left. A clause sees the list of them.
///
/// Rows of ranges, which differ in their last index alone, are walked one after the other, by an index
/// for each of the dimensions before, and each row in equal steps. A range costs one addition. The
/// next row costs one more, and a step back for each index that returns to 0.
/// Example: of three bytes with the stride -2 from 5 on it stands for the ranges `5..6`, `3..4` and `1..2`.
#[derive(Debug, Drop)]
pub struct Segments<'a> {
    rows: &'a [(usize, isize, isize)],
    indices: [usize; 64],
    row_place: usize,
    has_row: bool,
    place: usize,
    stride: isize,
    left: usize,
    row_len: usize,
    size: usize,
}

impl<'a> Model for Segments<'a> {
    ghost use Rattle.std.specs.Prelude.{List, ℕ, map};
    ghost use Rattle.std.specs.declared.ops.Range.{Range};
    ghost use Rattle.pybuf_desc.specs.Segments.{range_at, rows_left, places_left, IsWalk};

    ghost Value = { List (Range ℕ) };

    ghost view = { λ s. map (range_at s.size) (places_left s.place s.stride s.left s.row_len (rows_left s.rows.now s.indices s.row_place s.has_row)) };

    ghost invariant = { λ s. IsWalk s.rows.now s.indices s.row_place s.has_row s.place s.stride s.left s.row_len s.size };
}

impl<'a> Iterator for Segments<'a> {
    type Item = Range<usize>;

    ghost next_gives = { YieldsFirst (λ s. s) };

    ghost remaining = { item_count (λ s. s) };

    fn next(&mut self) -> Option<Range<usize>> {
        if self.left == 0 {
            if !self.has_row {
                return None;
            }
            let place = self.row_place;
            let next = next_row(self.rows, &mut self.indices, place);
            let left = self.row_len - 1;
            self.row_place = next.0;
            self.has_row = next.1;
            self.left = left;
            self.place = next_place(place, self.stride, left);
            return Some(place..place + self.size);
        }
        let place = self.place;
        let left = self.left - 1;
        self.left = left;
        self.place = next_place(place, self.stride, left);
        Some(place..place + self.size)
    }
}

/// The ranges of a row, and the place of the next row, if there is one, to whose indices the indices are
/// set.
fn row_line(
    rows: &[(usize, isize, isize)],
    indices: &mut [usize; 64],
    place: usize,
    stride: isize,
    row_len: usize,
    size: usize,
) -> (SegmentLine, usize, bool)
    requires { IsWalk rows.now indices.old place true 0 stride 0 row_len size }
    ensures ranges { map (range_at size) (places_left 0 stride 0 row_len (rows_left rows.now indices.old place true)) ≡ ranges_of_line result.0 ++ map (range_at size) (places_left 0 stride 0 row_len (rows_left rows.now indices.new result.1 result.2)) }
    ensures walk { IsWalk rows.now indices.new result.1 result.2 0 stride 0 row_len size }
    ensures line { IsLine result.0 }
    ensures count { result.0.count ≡ row_len }
{
    let next = next_row(rows, indices, place);
    let line = line_of(place, stride, row_len, size);
    (line, next.0, next.1)
}

impl<'a> Segments<'a> {
    /// Takes what is left of a row of ranges, or the next row where nothing of one is left. It is None where no row
    /// is left. Takes no memory.
    /// Example: of bytes in the shape `[2, 3]`, item by item, the first call takes a line of three ranges.
    pub fn next_line(&mut self) -> Option<SegmentLine>
        ensures takes { MatchOption result (self.old ≡ []) (λ line. self.old ≡ ranges_of_line line ++ self.new) }
        ensures line { IfSome result IsLine }
    {
        if self.left == 0 {
            if !self.has_row {
                return None;
            }
            let (line, place, has_row) = row_line(
                self.rows,
                &mut self.indices,
                self.row_place,
                self.stride,
                self.row_len,
                self.size,
            );
            self.row_place = place;
            self.has_row = has_row;
            return Some(line);
        }
        let line = line_of(self.place, self.stride, self.left, self.size);
        self.left = 0;
        Some(line)
    }

    /// Takes the next row of each of two walks, where both are at the start of a row and these rows have
    /// as many ranges. Takes no memory.
    pub(crate) fn next_rows(
        &mut self,
        other: &mut Segments<'_>,
    ) -> Option<(SegmentLine, SegmentLine)>
        ensures first { MatchOption result (self.new ≡ self.old) (λ lines. self.old ≡ ranges_of_line lines.0 ++ self.new) }
        ensures second { MatchOption result (other.new ≡ other.old) (λ pair. other.old ≡ ranges_of_line pair.1 ++ other.new) }
        ensures first_line { IfSome result (λ lines. IsLine lines.0) }
        ensures second_line { IfSome result (λ lines. IsLine lines.1) }
        ensures as_many { IfSome result (λ lines. lines.0.count ≡ lines.1.count) }
    {
        if self.left != 0 || other.left != 0 {
            return None;
        }
        if !self.has_row || !other.has_row {
            return None;
        }
        if self.row_len != other.row_len {
            return None;
        }
        let (line, place, has_row) = row_line(
            self.rows,
            &mut self.indices,
            self.row_place,
            self.stride,
            self.row_len,
            self.size,
        );
        self.row_place = place;
        self.has_row = has_row;
        let (other_line, other_place, other_has_row) = row_line(
            other.rows,
            &mut other.indices,
            other.row_place,
            other.stride,
            other.row_len,
            other.size,
        );
        other.row_place = other_place;
        other.has_row = other_has_row;
        Some((line, other_line))
    }
}

/// A walk over blocks of so many bytes, one for each index of the dimensions. The blocks of a row, which
/// differ in the last index alone, are walked in equal steps.
fn walk_blocks(outer: &[(usize, isize, isize)], start: usize, size: usize) -> Segments<'_>
    requires few { length outer.now ≤ 64 }
    requires placed { HasPlaces outer.now (pos start) }
    requires inside { AllByRecursion (IsInside size 9223372036854775807) (places outer.now (pos start)) }
    ensures { result ≡ map (range_at size) (places outer.now (pos start)) }
{
    match outer.split_last() {
        None => walk(outer, start, 0, 1, size),
        Some((last, rows)) => walk(rows, start, last.1, last.0, size),
    }
}

/// The bytes of a block of the dimensions.
fn block_size(dims: &[(usize, isize, isize)], itemsize: usize) -> usize
    requires entries { All (λ dim. 0 < dim.0) dims.now }
    requires fits { itemsize * product (shape_of dims.now) < 2 ^ 63 }
    ensures { result ≡ itemsize * product (shape_of dims.now) }
{
    let mut size = itemsize;
    let mut k = dims.len();
    while k > 0 {
        k -= 1;
        size *= dims[k].0;
    }
    size
}

impl BufferDescriptor {
    /// The bytes of the items that start at `start`, as ranges, row-major. Takes no memory.
    ///
    /// Each range is one item, or, with `join`, the whole block of an index of the dimensions before
    /// the tail. There is no range where a dimension has no entry.
    /// Example: of six bytes in one dimension from 0 on the only range with `join` is `0..6`.
    pub fn segments(&self, start: usize, join: bool) -> Segments<'_>
        requires { IsPlaced self.now start }
        ensures ranges { result ≡ ranges_of self.now (pos start) (joined_count self.now join) }
        ensures bytes { flat_map bytes_of result ≡ item_bytes self.now (pos start) }
    {
        let joined = if join { self.tail() } else { 0 };
        self.joined_segments(start, joined)
    }

    /// The same, where so many of the last dimensions are joined.
    pub(crate) fn joined_segments(&self, start: usize, joined: usize) -> Segments<'_>
        requires placed { IsPlaced self.now start }
        requires few { joined ≤ tail_of self.now }
        ensures ranges { result ≡ ranges_of self.now (pos start) joined }
        ensures bytes { flat_map bytes_of result ≡ item_bytes self.now (pos start) }
    {
        let dims = self.dim_desc();
        let size = self.itemsize();
        if has_zero(dims) {
            return no_segments(dims, size);
        }
        let (outer, block) = dims.split_at(dims.len() - joined);
        walk_blocks(outer, start, block_size(block, size))
    }
}

/// A walk over whole rows.
fn walk(
    rows: &[(usize, isize, isize)],
    start: usize,
    stride: isize,
    row_len: usize,
    size: usize,
) -> Segments<'_>
    requires { AreRows rows.now start stride row_len size }
    ensures { result ≡ map (range_at size) (row_places rows.now start stride row_len) }
{
    Segments {
        rows,
        indices: [0; 64],
        row_place: start,
        has_row: true,
        place: 0,
        stride,
        left: 0,
        row_len,
        size,
    }
}

/// A walk with nothing left.
fn no_segments(rows: &[(usize, isize, isize)], size: usize) -> Segments<'_>
    ensures { result ≡ [] }
{
    Segments {
        rows,
        indices: [0; 64],
        row_place: 0,
        has_row: false,
        place: 0,
        stride: 0,
        left: 0,
        row_len: 1,
        size,
    }
}
