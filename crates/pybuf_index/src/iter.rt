//! The indices of a slice, one after another.
ghost use Rattle.std.specs.Prelude.{◌≡◌, ◌≢◌, ◌⊎◌, ◌<◌, ◌≤◌, ◌^◌, ◌+◌, ◌-◌, ◌*◌, pos, length, reverse, nat_abs};
ghost use Rattle.std.specs.List.Sorted.{IsStrictlyIncreasing};
ghost use Rattle.std.specs.Iterator.{YieldsFirst, YieldsLast, item_count};
ghost use Rattle.pybuf_index.specs.Parts.{picks_of};
ghost use Rattle.pybuf_index.specs.Runs.{picks_in_span, run_low, signed_step};

use crate::saturated::{SaturatedSlice, count_between};
use std::iter::FusedIterator;
use std::marker::Model;
use std::ops::Range;

/// The indices of a slice that are left to come. A clause sees the list of them, in order.
///
/// Example: that of the slice `::2` in five items gives 0, 2, 4.
#[derive(Clone, Debug, Drop)]
pub struct SaturatedSliceIter {
    // The indices are `left` numbers from `low` up, one `stride` apart. If they fall, the greatest comes first.
    low: usize,
    stride: usize,
    left: usize,
    falls: bool,
}

impl Model for SaturatedSliceIter {
    ghost use Rattle.std.specs.Prelude.{List, ℕ, ◌<◌, ◌+◌, ◌-◌, ◌*◌, ◌^◌};
    ghost use Rattle.pybuf_index.specs.Runs.{run_of};

    ghost Value = { List ℕ };

    ghost view = { λ it. run_of it.falls it.low it.stride it.left };

    ghost invariant = { λ it. (it.low + (it.left - 1) * it.stride < 2 ^ 63) × (0 < it.stride) };
}

impl SaturatedSliceIter {
    /// The indices of the slice in a sequence of `seq_len` items.
    ///
    /// Example: of the slice `::2` and five items it gives 0, 2, 4.
    pub fn new(slice: &SaturatedSlice, seq_len: usize) -> SaturatedSliceIter
        requires { seq_len < 2 ^ 63 }
        ensures { result ≡ picks_of seq_len slice.now }
    {
        let (range, step, len) = slice.adjust_indices(seq_len);
        SaturatedSliceIter::from_adjust_indices(range, step, len)
    }

    /// The indices of a span: from its first place up, or from its last one down where the step is
    /// negative. The arguments are the answer of `adjust_indices`.
    ///
    /// Example: of the range `0..5`, the step 2 and the number 3 it gives 0, 2, 4.
    pub fn from_adjust_indices(range: Range<usize>, step: isize, len: usize) -> SaturatedSliceIter
        requires ordered { range.start ≤ range.end }
        requires within { range.end < 2 ^ 63 }
        requires moves { step ≢ pos 0 }
        requires count { len ≡ length (picks_in_span range.start range.end step) }
        ensures { result ≡ picks_in_span range.start range.end step }
    {
        let stride = step.unsigned_abs();
        let falls = step < 0;
        let low = lowest(range.start, range.end, stride, len, falls);
        SaturatedSliceIter {
            low,
            stride,
            left: len,
            falls,
        }
    }

    /// The indices of a span, one stride apart: from its first place up, or from its last one down.
    ///
    /// Example: of the range `0..5` and the stride 2 it gives 0, 2, 4, or, where it falls, 4, 2, 0.
    pub fn in_span(range: Range<usize>, stride: usize, falls: bool) -> SaturatedSliceIter
        requires ordered { range.start ≤ range.end }
        requires within { range.end < 2 ^ 63 }
        requires moves { 0 < stride }
        ensures { result ≡ picks_in_span range.start range.end (signed_step falls stride) }
    {
        let left = count_between(range.start, range.end, stride);
        let low = lowest(range.start, range.end, stride, left, falls);
        SaturatedSliceIter {
            low,
            stride,
            left,
            falls,
        }
    }

    /// The same indices, the least first.
    ///
    /// Example: of the indices 4, 2, 0 it gives 0, 2, 4.
    pub fn positive_order(self) -> SaturatedSliceIter
        ensures rises { IsStrictlyIncreasing result }
        ensures same { (result ≡ self) ⊎ (result ≡ reverse self) }
    {
        SaturatedSliceIter {
            low: self.low,
            stride: self.stride,
            left: self.left,
            falls: false,
        }
    }
}

/// The least of so many indices in a span.
fn lowest(low: usize, high: usize, stride: usize, count: usize, falls: bool) -> usize
    requires within { high < 2 ^ 63 }
    requires fits { low + (count - 1) * stride ≤ high }
    ensures least { result ≡ run_low falls low high stride count }
    ensures last { result + (count - 1) * stride ≤ high }
{
    if falls {
        high.saturating_sub(1 + count.saturating_sub(1) * stride)
    } else {
        low
    }
}

impl Iterator for SaturatedSliceIter {
    type Item = usize;

    ghost next_gives = { YieldsFirst (λ rest. rest) };

    ghost remaining = { item_count (λ rest. rest) };

    fn next(&mut self) -> Option<usize> {
        if self.left == 0 {
            return None;
        }
        self.left -= 1;
        let low = self.low;
        if self.falls {
            return Some(low + self.left * self.stride);
        }
        if self.left > 0 {
            self.low = low + self.stride;
        }
        Some(low)
    }

    fn size_hint(&self) -> (usize, Option<usize>) {
        (self.left, Some(self.left))
    }
}

impl DoubleEndedIterator for SaturatedSliceIter {
    ghost next_back_gives = { YieldsLast (λ rest. rest) };

    fn next_back(&mut self) -> Option<usize> {
        if self.left == 0 {
            return None;
        }
        self.left -= 1;
        let low = self.low;
        if !self.falls {
            return Some(low + self.left * self.stride);
        }
        if self.left > 0 {
            self.low = low + self.stride;
        }
        Some(low)
    }
}

impl ExactSizeIterator for SaturatedSliceIter {
    fn len(&self) -> usize {
        self.left
    }
}

impl FusedIterator for SaturatedSliceIter {}
