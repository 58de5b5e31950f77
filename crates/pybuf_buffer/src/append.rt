//! The bytes of a view's items, appended to a vector row by row.
ghost use Rattle.std.specs.Prelude.{◌≡◌, ◌≤◌, ◌+◌, ◌++◌, length, vec_len, vec_capacity, All};
ghost use Rattle.std.specs.List.{flat_map};
ghost use Rattle.pybuf_desc.specs.Segments.{bytes_in};
ghost use Rattle.pybuf_desc.specs.SegmentLines.{ranges_of_line, IsLine};

use pybuf_desc::{SegmentLine, Segments};
use pybuf_strided::append_items;
use pybuf_value::Steps;
use std::sync::ledger::Ledger;

/// Appends the bytes at the ranges of a line, for which there is room.
fn append_line(buf: &mut Vec<u8>, bytes: &[u8], line: SegmentLine)
    requires line { IsLine line }
    requires inside { All (λ range. range.end ≤ length bytes.now) (ranges_of_line line) }
    requires room { vec_len buf.old + length (flat_map (bytes_in bytes.now) (ranges_of_line line)) ≤ vec_capacity buf.old }
    ensures bytes { buf.new.items ≡ buf.old.items ++ flat_map (bytes_in bytes.now) (ranges_of_line line) }
    ensures room { vec_capacity buf.old ≤ vec_capacity buf.new }
    ensures len { vec_len buf.new ≡ vec_len buf.old + length (flat_map (bytes_in bytes.now) (ranges_of_line line)) }
{
    pybuf_desc::lines_have_their_pieces();
    match append_items(buf, bytes, line.track, line.size, line.count) {
        Ok(()) => {}
        Err(_) => unreachable!(),
    }
}

/// Appends the bytes at ranges, for which there is room, one step for each range.
pub(crate) fn append_ranges<L: Ledger>(
    buf: &mut Vec<u8>,
    bytes: &[u8],
    mut ranges: Segments<'_>,
    steps: &mut Steps<L>,
)
    requires order { All (λ range. range.start ≤ range.end) ranges }
    requires inside { All (λ range. range.end ≤ length bytes.now) ranges }
    requires room { vec_len buf.old + length (flat_map (bytes_in bytes.now) ranges) ≤ vec_capacity buf.old }
    ensures bytes { buf.new.items ≡ buf.old.items ++ flat_map (bytes_in bytes.now) ranges.entry }
    ensures steps { steps.new ≡ steps.old + length ranges.entry }
{
    while let Some(line) = ranges.next_line() {
        append_line(buf, bytes, line);
        steps.add(line.count);
    }
}
