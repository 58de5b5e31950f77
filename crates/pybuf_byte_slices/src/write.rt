//! Bytes in place of those that a slice picks.
ghost use Rattle.std.specs.Prelude.{◌≡◌, ◌<◌, ◌^◌, ◌-◌, length, if◌then◌else◌};
ghost use Rattle.pybuf_index.specs.Parts.{picks_of};
ghost use Rattle.pybuf_slice.specs.Edits.{set_at};

use pybuf_index::{SaturatedSlice, indices_of_a_span};
use pybuf_strided::{Track, copy_items};
use std::ops::Range;

/// Where the indices of a span begin: at its first place, or at its last where they fall. An empty span has none.
fn first_place(span: Range<usize>, falls: bool) -> usize
    ensures { result ≡ (if falls then span.end - 1 else span.start) }
{
    if falls {
        span.end.saturating_sub(1)
    } else {
        span.start
    }
}

/// Writes as many bytes over those that a slice picks, each at its index. Takes no memory.
///
/// Example: with `::2` and `b"xy"` it makes `b"xbyd"` of `b"abcd"`.
pub fn write_slice(bytes: &mut [u8], slice: SaturatedSlice, others: &[u8])
    requires in_memory { length bytes.old < 2 ^ 63 }
    requires as_many { length (picks_of (length bytes.old) slice) ≡ length others.now }
    ensures written { bytes.new ≡ set_at bytes.old (picks_of (length bytes.old) slice) others.now }
    ensures length { length bytes.new ≡ length bytes.old }
{
    indices_of_a_span();
    let (span, step, count) = slice.adjust_indices(bytes.len());
    let falls = step < 0;
    let to = Track {
        start: first_place(span, falls),
        step: step.unsigned_abs(),
        falls,
    };
    let from = Track {
        start: 0,
        step: 1,
        falls: false,
    };
    copy_items(bytes, to, others, from, 1, count);
}
