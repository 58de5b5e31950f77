//! Sequences that are edited by indices.
ghost use Rattle.std.specs.Prelude.{◌≡◌, ◌+◌, ◌*◌, ◌<◌, ◌≤◌, ◌^◌, [], ◌∷◌, length, All, IfOk, OnOk, OnErr, Result, Option, slice_set};
ghost use Rattle.std.specs.List.Sorted.{IsStrictlyIncreasing};
ghost use Rattle.pybuf_value.specs.declared.faults.Fault.TheVariants as fault;
ghost use Rattle.pybuf_index.specs.Parts.{SliceParts};
ghost use Rattle.pybuf_index.specs.Places.{item_place};
ghost use Rattle.pybuf_value.specs.Numbers.{times};
ghost use Rattle.pybuf_slice.specs.Edits.{replaced_range, elements_off, named_or_index_error, set_if_named, deleted_if_named, assign_answer, repeat_answer, fits_answer, SameLists, ReplacesRange, SetsIndices, Assigns, pick_answer, picks_off, Repeats};
ghost use Rattle.pybuf_value.specs.Halting.{Makes};

use crate::sequence::SliceableSequenceOp;
use crate::{edits, repeats, slices};
use pybuf_index::{SaturatedSlice, SaturatedSliceIter};
use pybuf_value::{Fault, Made, Tried, Twin};
use std::alloc::Global;
use std::ops::Range;

/// A sequence whose elements are set, deleted and replaced by numbers, ranges and slices. Elements
/// that stay are the very same, and elements that come from a slice are copies. After a refusal, or
/// where memory runs out, the sequence is as before.
///
/// Example: the vector 1, 2, 3 becomes 1, 9, 3 where 9 is set at the number -2.
pub trait SliceableSequenceMutOp: SliceableSequenceOp {
    /// Puts a value in the place of an element.
    ///
    /// Example: with the index 1 and the value 9 the elements 1, 2, 3 become 1, 9, 3.
    fn do_set(&mut self, index: usize, value: Self::Item)
        requires { index < length (Self.elements self.old) }
        ensures { Self.elements self.new ≡ slice_set (Self.elements self.old) index value };

    /// Takes the element at a place out.
    ///
    /// Example: with the index 1 the elements 1, 2, 3 become 1, 3.
    fn do_delete(&mut self, index: usize)
        requires { index < length (Self.elements self.old) }
        ensures { Self.elements self.new ≡ elements_off (Self.elements self.old) (index ∷ []) };

    /// Puts copies of the items in place of the elements of a range.
    ///
    /// Where memory runs out, the sequence is as before.
    ///
    /// Example: with the range `1..3` and the items 8, 9, 10 the elements 1, 2, 3, 4 become 1, 8, 9, 10, 4.
    fn do_set_range(&mut self, alloc: Global, range: Range<usize>, items: &[Self::Item]) -> Made<()>
        requires ordered { range.start ≤ range.end }
        requires inside { range.end ≤ length (Self.elements self.old) }
        ensures ok { OnOk result (ReplacesRange Self.Item.same items.now range (Self.elements self.old) (Self.elements self.new)) }
        ensures err { OnErr result (Self.elements self.new ≡ Self.elements self.old) };

    /// Takes the elements of a range out.
    ///
    /// Example: with the range `1..3` the elements 1, 2, 3, 4 become 1, 4.
    fn do_delete_range(&mut self, range: Range<usize>)
        requires ordered { range.start ≤ range.end }
        requires inside { range.end ≤ length (Self.elements self.old) }
        ensures { Self.elements self.new ≡ replaced_range (Self.elements self.old) range.start range.end [] };

    /// Puts copies of the items at as many indices.
    ///
    /// Where memory runs out, the sequence is as before.
    ///
    /// Example: with the indices 2 and 0 and the items 8 and 9 the elements 1, 2, 3 become 9, 2, 8.
    fn do_set_indexes(
        &mut self,
        alloc: Global,
        indexes: SaturatedSliceIter,
        items: &[Self::Item],
    ) -> Made<()>
        requires count { length indexes ≡ length items.now }
        requires inside { All (λ i. i < length (Self.elements self.old)) indexes }
        ensures ok { OnOk result (SetsIndices Self.Item.same items.now indexes (Self.elements self.old) (Self.elements self.new)) }
        ensures err { OnErr result (Self.elements self.new ≡ Self.elements self.old) };

    /// Takes the elements at rising indices of a range out.
    ///
    /// Example: with the range `0..3` and the indices 0 and 2 the elements 1, 2, 3, 4 become 2, 4.
    fn do_delete_indexes(&mut self, range: Range<usize>, indexes: SaturatedSliceIter)
        requires ordered { range.start ≤ range.end }
        requires inside { range.end ≤ length (Self.elements self.old) }
        requires rising { IsStrictlyIncreasing indexes }
        requires within { All (λ i. (range.start ≤ i) × (i < range.end)) indexes }
        ensures { Self.elements self.new ≡ elements_off (Self.elements self.old) indexes };

    /// Puts a value in the place of the element that a number names; a negative number counts from the
    /// end.
    ///
    /// Refused with `IndexError` exactly where there is no such element. After a refusal the sequence
    /// is as before.
    ///
    /// Example: with the number -1 and the value 9 the elements 1, 2, 3 become 1, 2, 9; the number 3 is refused.
    fn setitem_by_index(&mut self, index: isize, value: Self::Item) -> Result<(), Fault>
        requires { length (Self.elements self.old) < 2 ^ 63 }
        ensures answer { result ≡ named_or_index_error (item_place (length (Self.elements self.old)) index) }
        ensures list { Self.elements self.new ≡ set_if_named (Self.elements self.old) (item_place (length (Self.elements self.old)) index) value };

    /// Takes the element that a number names out; a negative number counts from the end.
    ///
    /// Refused with `IndexError` exactly where there is no such element. After a refusal the sequence
    /// is as before.
    ///
    /// Example: with the number -1 the elements 1, 2, 3 become 1, 2; the number 3 is refused.
    fn delitem_by_index(&mut self, index: isize) -> Result<(), Fault>
        requires { length (Self.elements self.old) < 2 ^ 63 }
        ensures answer { result ≡ named_or_index_error (item_place (length (Self.elements self.old)) index) }
        ensures list { Self.elements self.new ≡ deleted_if_named (Self.elements self.old) (item_place (length (Self.elements self.old)) index) };

    /// Puts copies of the items in place of the elements of a slice: any number where the step is 1,
    /// and then the length may change.
    ///
    /// Refused with `ValueError` exactly where the step isn't 1 and there are not as many items as
    /// indices. After a refusal, or where memory runs out, the sequence is as before.
    ///
    /// Example: with the slice `1:2` and the items 8, 9 the elements 1, 2, 3 become 1, 8, 9, 3.
    fn setitem_by_slice(
        &mut self,
        alloc: Global,
        slice: SaturatedSlice,
        items: &[Self::Item],
    ) -> Tried<()>
        requires { length (Self.elements self.old) < 2 ^ 63 }
        ensures answer { Makes (assign_answer (length (Self.elements self.old)) slice (length items.now)) result }
        ensures change { Assigns result Self.Item.same items.now slice (Self.elements self.old) (Self.elements self.new) }
        ensures memory { OnErr result (Self.elements self.new ≡ Self.elements self.old) };

    /// Puts copies of the items in place of as many elements of a slice.
    ///
    /// Refused with `BufferError` exactly where there are not as many items as indices. After a
    /// refusal, or where memory runs out, the sequence is as before.
    ///
    /// Example: with the slice `::2` and the items 8, 9 the elements 1, 2, 3 become 8, 2, 9; one item is refused.
    fn setitem_by_slice_no_resize(
        &mut self,
        alloc: Global,
        slice: SaturatedSlice,
        items: &[Self::Item],
    ) -> Tried<()>
        requires { length (Self.elements self.old) < 2 ^ 63 }
        ensures answer { Makes (pick_answer fault.Buffer (length (Self.elements self.old)) slice (length items.now)) result }
        ensures change { Assigns result Self.Item.same items.now slice (Self.elements self.old) (Self.elements self.new) }
        ensures memory { OnErr result (Self.elements self.new ≡ Self.elements self.old) };

    /// Takes the elements at the indices of a slice out. Takes no memory.
    ///
    /// Example: with the slice `::2` the elements 1, 2, 3 become 2.
    fn delitem_by_slice(&mut self, slice: SaturatedSlice)
        requires { length (Self.elements self.old) < 2 ^ 63 }
        ensures { Self.elements self.new ≡ picks_off (Self.elements self.old) slice };
}

impl<T: Twin> SliceableSequenceMutOp for Vec<T> {
    fn do_set(&mut self, index: usize, value: T) {
        self[index] = value;
    }

    fn do_delete(&mut self, index: usize) {
        edits::do_delete(self, index);
    }

    fn do_set_range(&mut self, alloc: Global, range: Range<usize>, items: &[T]) -> Made<()> {
        edits::do_set_range(self, alloc, range, items)
    }

    fn do_delete_range(&mut self, range: Range<usize>) {
        edits::do_delete_range(self, range);
    }

    fn do_set_indexes(
        &mut self,
        alloc: Global,
        indexes: SaturatedSliceIter,
        items: &[T],
    ) -> Made<()> {
        slices::do_set_indexes(alloc, self.as_mut_slice(), indexes, items)
    }

    fn do_delete_indexes(&mut self, range: Range<usize>, indexes: SaturatedSliceIter) {
        edits::do_delete_indexes(self, range, indexes);
    }

    fn setitem_by_index(&mut self, index: isize, value: T) -> Result<(), Fault> {
        slices::setitem_by_index(self.as_mut_slice(), index, value)
    }

    fn delitem_by_index(&mut self, index: isize) -> Result<(), Fault> {
        edits::delitem_by_index(self, index)
    }

    fn setitem_by_slice(&mut self, alloc: Global, slice: SaturatedSlice, items: &[T]) -> Tried<()> {
        edits::setitem_by_slice(self, alloc, slice, items)
    }

    fn setitem_by_slice_no_resize(
        &mut self,
        alloc: Global,
        slice: SaturatedSlice,
        items: &[T],
    ) -> Tried<()> {
        slices::setitem_by_slice_no_resize(alloc, self.as_mut_slice(), slice, items)
    }

    fn delitem_by_slice(&mut self, slice: SaturatedSlice) {
        edits::delitem_by_slice(self, slice);
    }
}

/// A sequence of which repeated copies can be made.
///
/// Example: the vector 1, 2 three times is 1, 2, 1, 2, 1, 2.
pub trait SequenceExt: SliceableSequenceOp {
    /// Copies of the elements, `n` times one after another, none where `n` is negative.
    ///
    /// Refused with `OverflowError` exactly where the length times `n` passes `isize::MAX`; memory is
    /// taken only where it doesn't.
    ///
    /// Example: with 2 the elements 1, 2 give 1, 2, 1, 2, and with -1 they give none.
    fn mul(&self, alloc: Global, n: isize) -> Tried<Vec<Self::Item>>
        requires { length (Self.elements self.now) < 2 ^ 63 }
        ensures list { IfOk result (λ outcome. SameLists Self.Item.same (repeat_answer (Self.elements self.now) n) outcome) }
        ensures memory { OnErr result (length (Self.elements self.now) * times n < 2 ^ 63) };
}

impl<T: Twin> SequenceExt for Vec<T> {
    fn mul(&self, alloc: Global, n: isize) -> Tried<Vec<T>> {
        repeats::mul(alloc, self.as_slice(), n)
    }
}

/// A sequence that can be repeated in its own place.
///
/// Example: the vector 1, 2 becomes 1, 2, 1, 2 where it is repeated twice.
pub trait SequenceMutExt: SliceableSequenceOp {
    /// The vector of the elements, lent to be changed.
    ///
    /// Example: of the vector 1, 2 it is that vector itself.
    fn as_vec_mut(&mut self) -> &mut Vec<Self::Item>
        ensures { result.now.items ≡ Self.elements self.old };

    /// Puts copies of the elements behind them, so that the sequence stands there `n` times, and not
    /// at all where `n` is negative.
    ///
    /// Refused with `OverflowError` exactly where the length times `n` passes `isize::MAX`. After a
    /// refusal, or where memory runs out, the sequence is as before.
    ///
    /// Example: with 2 the elements 1, 2 become 1, 2, 1, 2, and with 0 there are none.
    fn imul(&mut self, alloc: Global, n: isize) -> Tried<()>
        requires { length (Self.elements self.old) < 2 ^ 63 }
        ensures answer { Makes (fits_answer (length (Self.elements self.old) * times n)) result }
        ensures change { Repeats result Self.Item.same (times n) (Self.elements self.old) (Self.elements self.new) }
        ensures memory { OnErr result (Self.elements self.new ≡ Self.elements self.old) };
}

impl<T: Twin> SequenceMutExt for Vec<T> {
    fn as_vec_mut(&mut self) -> &mut Vec<T>
        ensures value { result.now ≡ self.old }
        ensures lender { result.ghost_name ≡ self.entry.ghost_name }
    {
        self
    }

    fn imul(&mut self, alloc: Global, n: isize) -> Tried<()> {
        repeats::imul(self, alloc, n)
    }
}
