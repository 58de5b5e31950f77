//! Bytes that are laid over the items of a view.
ghost use Rattle.std.specs.Prelude.{◌≡◌, ◌+◌, ◌-◌, ◌*◌, ◌<◌, ◌≤◌, true, length, map, take, drop};
ghost use Rattle.std.specs.List.{All, flat_map};
ghost use Rattle.pybuf_slice.specs.Reads.{elements_at};
ghost use Rattle.pybuf_desc.specs.Contiguous.{is_contiguous_layout};
ghost use Rattle.pybuf_desc.specs.Items.{content_of_layout};
ghost use Rattle.pybuf_desc.specs.Layouts.{LiesInside};
ghost use Rattle.pybuf_desc.specs.Segments.{bytes_of};
ghost use Rattle.pybuf_desc.specs.SegmentLines.{ranges_of_line, IsLine};
ghost use Rattle.pybuf_strided.specs.Apart.{place_of, AreInside, pieces_at};
ghost use Rattle.pybuf_memoryview.specs.Orders.{nbytes_of};
ghost use Rattle.pybuf_verbs_writes.specs.Laid as spec;
ghost use Rattle.pybuf_verbs_writes.specs.LaidBytes as bytewise;

use pybuf_desc::{SegmentLine, Segments, ZipSegments};
use pybuf_memoryview::{KeptLayout, first_place};
use pybuf_strided::{Track, copy_items};
use std::ops::Range;

/// Copies bytes from a place on over those of a range, as many as that has. Answers the place after them.
fn copy_range(bytes: &mut [u8], range: Range<usize>, content: &[u8], from: usize) -> usize
    requires inside { range.start < range.end → range.end ≤ length bytes.old }
    requires enough { range.start < range.end → from + (range.end - range.start) ≤ length content.now }
    ensures copied { bytes.new ≡ spec.bytes_with bytes.old range.start (take (range.end - range.start) (drop from content.now)) }
    ensures next { result ≡ from + (range.end - range.start) }
{
    if range.start >= range.end {
        return from;
    }
    let next = from + (range.end - range.start);
    if next == from + 1 {
        // a single byte is written faster by itself than as a run
        bytes[range.start] = content[from];
        return next;
    }
    bytes[range].copy_from_slice(&content[from..next]);
    next
}

/// Copies items from where they lie in a source over the bytes of a line.
fn copy_line(bytes: &mut [u8], line: SegmentLine, source: &[u8], from: Track)
    requires line { IsLine line }
    requires inside { All (λ place. place < length bytes.old) (flat_map bytes_of (ranges_of_line line)) }
    requires source_inside { AreInside from.falls from.start from.step line.count line.size (length source.now) }
    ensures copied { bytes.new ≡ bytewise.put_at bytes.old (flat_map bytes_of (ranges_of_line line)) (pieces_at source.now (place_of from.falls from.start from.step) line.size line.count) }
    ensures long { length bytes.new ≡ length bytes.old }
{
    pybuf_desc::lines_lie_inside();
    copy_items(bytes, line.track, source, from, line.size, line.count);
}

/// Copies bytes from a place on over those of a line. Answers the place after them.
fn lay_line(bytes: &mut [u8], line: SegmentLine, content: &[u8], from: usize) -> usize
    requires line { IsLine line }
    requires inside { All (λ place. place < length bytes.old) (flat_map bytes_of (ranges_of_line line)) }
    requires enough { from + line.count * line.size ≤ length content.now }
    ensures copied { bytes.new ≡ bytewise.put_at bytes.old (flat_map bytes_of (ranges_of_line line)) (take (line.count * line.size) (drop from content.now)) }
    ensures long { length bytes.new ≡ length bytes.old }
    ensures next { result ≡ from + line.count * line.size }
{
    let track = Track {
        start: from,
        step: line.size,
        falls: false,
    };
    copy_line(bytes, line, content, track);
    from + line.count * line.size
}

/// Lays bytes over those of ranges, one range after the other.
fn lay_ranges(bytes: &mut [u8], mut ranges: Segments<'_>, content: &[u8])
    requires inside { All (λ place. place < length bytes.old) (flat_map bytes_of ranges) }
    requires as_many { length (flat_map bytes_of ranges) ≡ length content.now }
    ensures { bytes.new ≡ bytewise.put_at bytes.old (flat_map bytes_of ranges.entry) content.now }
{
    let mut from = 0;
    while let Some(line) = ranges.next_line() {
        from = lay_line(bytes, line, content, from);
    }
}

/// Lays bytes over the items of a view, in order. Items that lie one after the other get their bytes by
/// one copy, and a row of items that lie apart by one loop.
pub(crate) fn lay(bytes: &mut [u8], layout: &KeptLayout, content: &[u8])
    requires inside { LiesInside (length bytes.old) layout.now }
    requires as_many { length content.now ≡ nbytes_of layout.now }
    ensures { bytes.new ≡ spec.laid bytes.old layout.now.itemsize layout.now.starts content.now }
{
    pybuf_memoryview::item_bytes_lie_inside();
    let (descriptor, start) = layout.placed();
    lay_ranges(bytes, descriptor.segments(start, true), content);
}

/// Copies the bytes of a line over those of another that has as many ranges, as wide.
fn copy_between(bytes: &mut [u8], line: SegmentLine, source: &[u8], lender: SegmentLine)
    requires line { IsLine line }
    requires lender { IsLine lender }
    requires as_many { line.count ≡ lender.count }
    requires as_wide { line.size ≡ lender.size }
    requires inside { All (λ place. place < length bytes.old) (flat_map bytes_of (ranges_of_line line)) }
    requires source_inside { All (λ place. place < length source.now) (flat_map bytes_of (ranges_of_line lender)) }
    ensures copied { bytes.new ≡ bytewise.put_at bytes.old (flat_map bytes_of (ranges_of_line line)) (elements_at source.now (flat_map bytes_of (ranges_of_line lender))) }
    ensures long { length bytes.new ≡ length bytes.old }
    ensures whole { length (flat_map bytes_of (ranges_of_line line)) ≡ length (elements_at source.now (flat_map bytes_of (ranges_of_line lender))) }
{
    pybuf_desc::lines_lie_inside();
    pybuf_desc::lines_have_their_pieces();
    copy_line(bytes, line, source, lender.track);
}

/// Lays the bytes at ranges over those at other ranges, which are as long, pair by pair.
fn lay_single_pairs(bytes: &mut [u8], mut pairs: ZipSegments<'_>, source: &[u8])
    requires inside { All (λ place. place < length bytes.old) (flat_map bytes_of (map (λ pair. pair.0) pairs)) }
    requires source_inside { All (λ place. place < length source.now) (flat_map bytes_of (map (λ pair. pair.1) pairs)) }
    requires alike { All (λ pair. pair.0.end - pair.0.start ≡ pair.1.end - pair.1.start) pairs }
    ensures { bytes.new ≡ bytewise.put_at bytes.old (flat_map bytes_of (map (λ pair. pair.0) pairs.entry)) (elements_at source.now (flat_map bytes_of (map (λ pair. pair.1) pairs.entry))) }
{
    while let Some((range, lender)) = pairs.next() {
        let _next = copy_range(bytes, range, source, lender.start);
    }
}

/// The same, row by row, as long as both walks are at the start of a row and these are as long. Walks over
/// two views of one shape are so to their end; what else there is would go pair by pair.
fn lay_pairs(bytes: &mut [u8], mut pairs: ZipSegments<'_>, source: &[u8])
    requires inside { All (λ place. place < length bytes.old) (flat_map bytes_of (map (λ pair. pair.0) pairs)) }
    requires source_inside { All (λ place. place < length source.now) (flat_map bytes_of (map (λ pair. pair.1) pairs)) }
    requires alike { All (λ pair. pair.0.end - pair.0.start ≡ pair.1.end - pair.1.start) pairs }
    ensures { bytes.new ≡ bytewise.put_at bytes.old (flat_map bytes_of (map (λ pair. pair.0) pairs.entry)) (elements_at source.now (flat_map bytes_of (map (λ pair. pair.1) pairs.entry))) }
{
    while let Some((line, lender)) = pairs.next_lines() {
        copy_between(bytes, line, source, lender);
    }
    lay_single_pairs(bytes, pairs, source);
}

/// Lays the items of a view of other bytes over those of a view, in order, each view by its own
/// strides. Where the items of both lie one after the other, they get their bytes by one copy, and a row
/// of items that lie apart by one loop. Takes no memory.
pub(crate) fn lay_across(bytes: &mut [u8], layout: &KeptLayout, lender: &[u8], source: &KeptLayout)
    requires inside { LiesInside (length bytes.old) layout.now }
    requires source_inside { LiesInside (length lender.now) source.now }
    requires same_size { layout.now.itemsize ≡ source.now.itemsize }
    requires same_shape { layout.now.shape ≡ source.now.shape }
    ensures { bytes.new ≡ spec.laid bytes.old layout.now.itemsize layout.now.starts (content_of_layout lender.now source.now) }
{
    pybuf_memoryview::item_bytes_lie_inside();
    pybuf_memoryview::item_bytes_are_the_content();
    pybuf_memoryview::contents_are_whole();
    let (descriptor, start) = layout.placed();
    let (lent, lent_start) = source.placed();
    lay_pairs(
        bytes,
        descriptor.zip_segments(start, lent, lent_start, true),
        lender,
    );
}

/// Moves so many bytes from a place to another.
fn move_bytes(bytes: &mut [u8], from: usize, count: usize, place: usize)
    requires inside { from + count ≤ length bytes.old }
    requires place_inside { place + count ≤ length bytes.old }
    ensures { bytes.new ≡ spec.bytes_with bytes.old place (take count (drop from bytes.old)) }
{
    let end = from + count;
    bytes.copy_within(from..end, place);
}

/// Lays the bytes from a place on over the items of a view of the same bytes that lie one after the
/// other: one move of bytes, also where the two overlap. Takes no memory.
pub(crate) fn lay_moved(bytes: &mut [u8], layout: &KeptLayout, from: usize)
    requires one_dimension { length layout.now.shape ≡ 1 }
    requires contiguous { is_contiguous_layout layout.now ≡ true }
    requires inside { LiesInside (length bytes.old) layout.now }
    requires enough { from + nbytes_of layout.now ≤ length bytes.old }
    ensures { bytes.new ≡ spec.laid bytes.old layout.now.itemsize layout.now.starts (take (nbytes_of layout.now) (drop from bytes.old)) }
{
    pybuf_memoryview::contiguous_items_are_one_run();
    let place = first_place(layout);
    move_bytes(bytes, from, layout.nbytes(), place);
}
