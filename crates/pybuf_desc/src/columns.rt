//! The walk over the items in column order.
ghost use Rattle.std.specs.Prelude.{◌≡◌, ◌≤◌, pos, [], length, map, take, reverse};
ghost use Rattle.std.specs.Iterator.{YieldsFirst, item_count};
ghost use Rattle.std.specs.List.{flat_map};
ghost use Rattle.pybuf_desc.specs.Valid.{IsPlaced};
ghost use Rattle.pybuf_desc.specs.Places.{places};
ghost use Rattle.pybuf_desc.specs.Segments.{range_at, bytes_of};
ghost use Rattle.pybuf_desc.specs.ColumnSegments.{AreColumns, column_ranges_of, column_item_bytes};

use crate::checks::has_zero;
use crate::descriptor::BufferDescriptor;
use crate::segments::next_row;
use std::marker::Model;
use std::ops::Range;

/// The dimensions, the last first. Zeros follow.
fn last_first(dims: &[(usize, isize, isize)]) -> [(usize, isize, isize); 64]
    requires { length dims.now ≤ 64 }
    ensures { take (length dims.now) result ≡ reverse dims.now }
{
    let mut turned = [(0, 0, 0); 64];
    let mut count = 0;
    let mut k = dims.len();
    while k > 0 {
        k -= 1;
        turned[count] = dims[k];
        count += 1;
    }
    turned
}

/// The ranges of bytes of the items, in column order, that a walk has left. A clause sees the list of
/// them.
///
/// Column order is the row-major order of the dimensions taken the last first, so the step from an item
/// to the next is that of `Segments` from a row to the next.
/// Example: of `[[97, 98, 99], [100, 101, 102]]` at 0 it stands for the ranges `0..1`, `3..4`, `1..2`, `4..5`, `2..3` and `5..6`.
#[derive(Debug, Drop)]
pub struct ColumnSegments {
    dims: [(usize, isize, isize); 64],
    count: usize,
    indices: [usize; 64],
    place: usize,
    has_item: bool,
    size: usize,
}

impl Model for ColumnSegments {
    ghost use Rattle.std.specs.Prelude.{List, ℕ, map, take};
    ghost use Rattle.std.specs.declared.ops.Range.{Range};
    ghost use Rattle.pybuf_desc.specs.Segments.{range_at, rows_left};
    ghost use Rattle.pybuf_desc.specs.ColumnSegments.{IsColumnWalk};

    ghost Value = { List (Range ℕ) };

    ghost view = { λ s. map (range_at s.size) (rows_left (take s.count s.dims) s.indices s.place s.has_item) };

    ghost invariant = { λ s. IsColumnWalk s.dims s.count s.indices s.place s.has_item s.size };
}

impl Iterator for ColumnSegments {
    type Item = Range<usize>;

    ghost next_gives = { YieldsFirst (λ s. s) };

    ghost remaining = { item_count (λ s. s) };

    fn next(&mut self) -> Option<Range<usize>> {
        if !self.has_item {
            return None;
        }
        let place = self.place;
        let next = next_row(&self.dims[..self.count], &mut self.indices, place);
        self.place = next.0;
        self.has_item = next.1;
        Some(place..place + self.size)
    }
}

impl BufferDescriptor {
    /// The bytes of the items that start at `start`, as ranges, one for each item in column order.
    /// There is none where a dimension has no entry. Takes no memory.
    /// Example: of bytes in the shape `[2, 2]`, row by row from 0, the ranges are `0..1`, `2..3`, `1..2` and `3..4`.
    pub fn column_segments(&self, start: usize) -> ColumnSegments
        requires { IsPlaced self.now start }
        ensures ranges { result ≡ column_ranges_of self.now (pos start) }
        ensures bytes { flat_map bytes_of result ≡ column_item_bytes self.now (pos start) }
    {
        let dims = self.dim_desc();
        let size = self.itemsize();
        if has_zero(dims) {
            return no_columns(size);
        }
        walk_columns(last_first(dims), dims.len(), start, size)
    }
}

/// A walk from the first item on. As many of the dimensions as `count` says are walked, row-major.
fn walk_columns(
    dims: [(usize, isize, isize); 64],
    count: usize,
    start: usize,
    size: usize,
) -> ColumnSegments
    requires few { count ≤ 64 }
    requires columns { AreColumns (take count dims) start size }
    ensures { result ≡ map (range_at size) (places (take count dims) (pos start)) }
{
    ColumnSegments {
        dims,
        count,
        indices: [0; 64],
        place: start,
        has_item: true,
        size,
    }
}

/// A walk with nothing left.
fn no_columns(size: usize) -> ColumnSegments
    ensures { result ≡ [] }
{
    ColumnSegments {
        dims: [(0, 0, 0); 64],
        count: 0,
        indices: [0; 64],
        place: 0,
        has_item: false,
        size,
    }
}
