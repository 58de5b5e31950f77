//! Reading a sequence by indices.
ghost use Rattle.std.specs.Prelude.{◌≡◌, ◌<◌, ◌≤◌, ◌^◌, ℕ, ℤ, List, [], length, reverse, IfOk, OnErr, IsSome, IsSomeAnd, true, false, slice_get, slice_range};
ghost use Rattle.pybuf_index.specs.Parts.{SliceParts};
ghost use Rattle.pybuf_index.specs.Places.{saturated_place, item_place};
ghost use Rattle.pybuf_slice.specs.Reads.{item_at, SameOutcome, picked_elements, stepped_elements, MakesCopies};

use crate::slices;
use pybuf_index::SaturatedSlice;
use pybuf_value::{Made, Tried, Twin};
use std::alloc::Global;
use std::ops::Range;

/// A sequence whose elements are read by numbers and slices. An element that is read is a copy. Only
/// want of memory makes a call fail, and `getitem_by_index` alone refuses.
///
/// Example: the vector 1, 2, 3 by the number -1 gives 3, and by the slice `::-1` it gives 3, 2, 1.
pub trait SliceableSequenceOp: Sized {
    type Item: Twin;

    ghost elements: { Self → List Self.Item };

    /// The element at a place.
    ///
    /// Example: of 1, 2, 3 at 1 it is 2.
    fn do_get(&self, alloc: Global, index: usize) -> Made<Self::Item>
        requires { index < length (elements self.now) }
        ensures { IfOk result (λ item. IsSomeAnd (slice_get (elements self.now) index) (λ source. Self.Item.same source item)) };

    /// The elements of a range, in order.
    ///
    /// Example: of 1, 2, 3, 4 and `1..3` it gives 2, 3.
    fn do_slice(&self, alloc: Global, range: Range<usize>) -> Made<Vec<Self::Item>>
        requires ordered { range.start ≤ range.end }
        requires inside { range.end ≤ length (elements self.now) }
        ensures { MakesCopies Self.Item.same (slice_range (elements self.now) range.start range.end) result };

    /// The elements of a range, the last first.
    ///
    /// Example: of 1, 2, 3, 4 and `1..3` it gives 3, 2.
    fn do_slice_reverse(&self, alloc: Global, range: Range<usize>) -> Made<Vec<Self::Item>>
        requires ordered { range.start ≤ range.end }
        requires inside { range.end ≤ length (elements self.now) }
        ensures { MakesCopies Self.Item.same (reverse (slice_range (elements self.now) range.start range.end)) result };

    /// Every `step`-th element of a range, from its first.
    ///
    /// Example: of 1, 2, 3, 4, the range `0..4` and the step 2 it gives 1, 3.
    fn do_stepped_slice(
        &self,
        alloc: Global,
        range: Range<usize>,
        step: usize,
    ) -> Made<Vec<Self::Item>>
        requires ordered { range.start ≤ range.end }
        requires inside { range.end ≤ length (elements self.now) }
        requires in_memory { length (elements self.now) < 2 ^ 63 }
        requires moves { 0 < step }
        ensures { MakesCopies Self.Item.same (stepped_elements (elements self.now) range false step) result };

    /// Every `step`-th element of a range, from its last down.
    ///
    /// Example: of 1, 2, 3, 4, the range `0..4` and the step 2 it gives 4, 2.
    fn do_stepped_slice_reverse(
        &self,
        alloc: Global,
        range: Range<usize>,
        step: usize,
    ) -> Made<Vec<Self::Item>>
        requires ordered { range.start ≤ range.end }
        requires inside { range.end ≤ length (elements self.now) }
        requires in_memory { length (elements self.now) < 2 ^ 63 }
        requires moves { 0 < step }
        ensures { MakesCopies Self.Item.same (stepped_elements (elements self.now) range true step) result };

    /// A vector without elements. Takes no memory.
    ///
    /// Example: the length of the answer is 0.
    fn empty(alloc: Global) -> Vec<Self::Item>
        ensures { result.items ≡ [] };

    /// The number of elements.
    ///
    /// Example: of 1, 2, 3 it is 3.
    fn len(&self) -> usize
        ensures { result ≡ length (elements self.now) };

    /// The place of the element that a number names: `None` exactly where there is none.
    ///
    /// Example: of three elements and -1 it is `Some(2)`, and of three elements and 3 it is `None`.
    fn wrap_index(&self, p: isize) -> Option<usize>
        requires { length (elements self.now) < 2 ^ 63 }
        ensures { result ≡ item_place (length (elements self.now)) p };

    /// The place from 0 to the length that is nearest to a number.
    ///
    /// Example: of three elements and -1 it is 2, and of three elements and 9 it is 3.
    fn saturate_index(&self, p: isize) -> usize
        requires { length (elements self.now) < 2 ^ 63 }
        ensures { result ≡ saturated_place (length (elements self.now)) p };

    /// The elements at the indices of a slice, in their order.
    ///
    /// Example: of 1, 2, 3 and the slice `::-1` it gives 3, 2, 1.
    fn getitem_by_slice(&self, alloc: Global, slice: SaturatedSlice) -> Made<Vec<Self::Item>>
        requires { length (elements self.now) < 2 ^ 63 }
        ensures { MakesCopies Self.Item.same (picked_elements (elements self.now) slice) result };

    /// A copy of the element that a number names; a negative number counts from the end.
    ///
    /// Refused with `IndexError` exactly where there is no such element, and memory is taken only where
    /// there is one.
    ///
    /// Example: of 1, 2, 3 and -1 it gives 3, and 3 is refused with `IndexError`.
    fn getitem_by_index(&self, alloc: Global, index: isize) -> Tried<Self::Item>
        requires { length (elements self.now) < 2 ^ 63 }
        ensures item { IfOk result (λ outcome. SameOutcome Self.Item.same (item_at (elements self.now) index) outcome) }
        ensures memory { OnErr result (IsSome (item_place (length (elements self.now)) index)) };
}

impl<T: Twin> SliceableSequenceOp for Vec<T> {
    type Item = T;

    ghost elements = { λ list. list.items };

    fn do_get(&self, alloc: Global, index: usize) -> Made<T> {
        slices::do_get(alloc, self.as_slice(), index)
    }

    fn do_slice(&self, alloc: Global, range: Range<usize>) -> Made<Vec<T>> {
        slices::do_slice(alloc, self.as_slice(), range)
    }

    fn do_slice_reverse(&self, alloc: Global, range: Range<usize>) -> Made<Vec<T>> {
        slices::do_slice_reverse(alloc, self.as_slice(), range)
    }

    fn do_stepped_slice(&self, alloc: Global, range: Range<usize>, step: usize) -> Made<Vec<T>> {
        slices::do_stepped_slice(alloc, self.as_slice(), range, step)
    }

    fn do_stepped_slice_reverse(
        &self,
        alloc: Global,
        range: Range<usize>,
        step: usize,
    ) -> Made<Vec<T>> {
        slices::do_stepped_slice_reverse(alloc, self.as_slice(), range, step)
    }

    fn empty(alloc: Global) -> Vec<T> {
        slices::empty(alloc)
    }

    fn len(&self) -> usize {
        self.as_slice().len()
    }

    fn wrap_index(&self, p: isize) -> Option<usize> {
        slices::wrap_index(self.as_slice(), p)
    }

    fn saturate_index(&self, p: isize) -> usize {
        slices::saturate_index(self.as_slice(), p)
    }

    fn getitem_by_slice(&self, alloc: Global, slice: SaturatedSlice) -> Made<Vec<T>> {
        slices::getitem_by_slice(alloc, self.as_slice(), slice)
    }

    fn getitem_by_index(&self, alloc: Global, index: isize) -> Tried<T> {
        slices::getitem_by_index(alloc, self.as_slice(), index)
    }
}
