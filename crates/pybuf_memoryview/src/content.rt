//! The bytes of a view's items.
ghost use Rattle.std.specs.Prelude.{◌≡◌, ◌+◌, ◌<◌, ◌≤◌, ◌++◌, ℕ, List, true, length, take, drop, slice_index, IfOk, OnOk};
ghost use Rattle.std.specs.List.{All, flat_map};
ghost use Rattle.pybuf_slice.specs.Reads.{elements_at};
ghost use Rattle.pybuf_desc.specs.Contiguous.{is_contiguous_layout};
ghost use Rattle.pybuf_desc.specs.Layouts.{LiesInside, HasItemsOfItsShape};
ghost use Rattle.pybuf_desc.specs.Items.{content_of_layout};
ghost use Rattle.pybuf_desc.specs.ColumnOrder.{column_content};
ghost use Rattle.pybuf_desc.specs.Segments.{bytes_of};
ghost use Rattle.pybuf_desc.specs.SegmentLines.{ranges_of_line, IsLine};
ghost use Rattle.pybuf_memoryview.specs.Orders.{nbytes_of};

use crate::kept::KeptLayout;
use pybuf_desc::{SegmentLine, Segments};
use pybuf_strided::append_items;
use pybuf_value::Made;
use std::alloc::Global;

/// Adds the bytes of ranges in equal steps.
fn push_line(gathered: &mut Vec<u8>, bytes: &[u8], line: SegmentLine) -> Made<()>
    requires line { IsLine line }
    requires inside { All (λ place. place < length bytes.now) (flat_map bytes_of (ranges_of_line line)) }
    ensures { OnOk result (gathered.new.items ≡ gathered.old.items ++ elements_at bytes.now (flat_map bytes_of (ranges_of_line line))) }
{
    pybuf_desc::lines_lie_inside();
    pybuf_desc::lines_have_their_pieces();
    append_items(gathered, bytes, line.track, line.size, line.count)?;
    Ok(())
}

/// The bytes at ranges, one range after the other.
fn gather(alloc: Global, bytes: &[u8], len: usize, mut ranges: Segments<'_>) -> Made<Vec<u8>>
    requires { All (λ place. place < length bytes.now) (flat_map bytes_of ranges) }
    ensures { IfOk result (λ gathered. gathered.items ≡ elements_at bytes.now (flat_map bytes_of ranges.entry)) }
{
    let mut gathered = Vec::with_capacity(alloc, len)?;
    while let Some(line) = ranges.next_line() {
        push_line(&mut gathered, bytes, line)?;
    }
    Ok(gathered)
}

/// The bytes of a view's items, with the last index changing fastest. Items that lie one after the other are copied
/// as one, and a row of items that lie apart by one loop.
/// Example: of the view `memoryview(b"abcdef")[::-2]` it has the bytes `b"fdb"`.
pub fn content_of(alloc: Global, bytes: &[u8], layout: &KeptLayout) -> Made<Vec<u8>>
    requires { LiesInside (length bytes.now) layout.now }
    ensures { IfOk result (λ list. list.items ≡ content_of_layout bytes.now layout.now) }
{
    let (descriptor, start) = layout.placed();
    gather(
        alloc,
        bytes,
        descriptor.len(),
        descriptor.segments(start, true),
    )
}

/// The bytes of a view's items, in column order, with the first index changing fastest. The rows of the view with its
/// dimensions the last first are copied as those of any other.
/// Example: of the items `[[97, 98, 99], [100, 101, 102]]` in the format `B` it has the bytes `b"adbecf"`.
pub fn column_content_of(alloc: Global, bytes: &[u8], layout: &KeptLayout) -> Made<Vec<u8>>
    requires { LiesInside (length bytes.now) layout.now }
    ensures { IfOk result (λ list. list.items ≡ column_content bytes.now layout.now) }
{
    pybuf_desc::columns_stay_inside();
    pybuf_desc::no_items_are_no_columns();
    if layout.has_zero() {
        return Ok(Vec::new(alloc));
    }
    // The prover asks for this: taking the layout apart tells that there is an item for each combination of entries.
    let _ = layout.placed();
    let columns = layout.columns(alloc)?;
    content_of(alloc, bytes, &columns)
}

/// The place of the first byte of a view whose items lie one after the other, or 0 where it has none. From there on
/// lie the bytes of its items.
/// Example: of the view `1:3` of `b"abcd"` it is 1.
pub fn first_place(layout: &KeptLayout) -> usize
    requires { is_contiguous_layout layout.now ≡ true }
    ensures value { result ≡ slice_index layout.now.starts 0 }
    ensures counted { HasItemsOfItsShape layout.now }
    ensures content { (bytes : List ℕ) → take (nbytes_of layout.now) (drop result bytes) ≡ content_of_layout bytes layout.now }
    ensures inside { (room : ℕ) → LiesInside room layout.now → result + nbytes_of layout.now ≤ room }
{
    let (_, start) = layout.placed();
    if layout.nbytes() == 0 {
        return 0;
    }
    start
}
