//! Edits of lists by indices and slices. Elements that stay are the very same, and elements that come
//! from a slice are copies. After a refusal, or where memory runs out, the list is as before.
ghost use Rattle.std.specs.Prelude.{◌≡◌, ◌+◌, ◌<◌, ◌≤◌, ◌^◌, ℕ, [], ◌∷◌, length, All, OnOk, OnErr, Result, Option};
ghost use Rattle.std.specs.List.Sorted.{IsStrictlyIncreasing};
ghost use Rattle.pybuf_index.specs.Parts.{SliceParts};
ghost use Rattle.pybuf_index.specs.Places.{item_place};
ghost use Rattle.pybuf_slice.specs.Edits.{replaced_range, elements_off, named_or_index_error, deleted_if_named, assign_answer, has, IsRisingFrom, ReplacesRange, Assigns, picks_off};
ghost use Rattle.pybuf_value.specs.Halting.{Makes};

use crate::slices;
use pybuf_index::{SaturatedSlice, SaturatedSliceIter, indices_of_a_span};
use pybuf_value::{Fault, Made, Outcome, Tried, Twin, copy_all};
use std::alloc::Global;
use std::ops::Range;

/// Takes the element at a place out of the list.
pub(crate) fn do_delete<T: Twin>(list: &mut Vec<T>, index: usize)
    requires { index < length list.old.items }
    ensures { list.new.items ≡ elements_off list.old.items (index ∷ []) }
{
    list.remove(index);
}

/// Puts copies of the items in place of the elements of a range.
pub(crate) fn do_set_range<T: Twin>(
    list: &mut Vec<T>,
    alloc: Global,
    range: Range<usize>,
    items: &[T],
) -> Made<()>
    requires ordered { range.start ≤ range.end }
    requires inside { range.end ≤ length list.old.items }
    ensures ok { OnOk result (ReplacesRange T.same items.now range list.old.items list.new.items) }
    ensures err { OnErr result (list.new.items ≡ list.old.items) }
{
    if range.end - range.start == items.len() {
        return write_range(list, alloc, range, items);
    }
    let copies = copy_all(alloc, items)?;
    splice_list(list, range, copies)
}

/// Puts copies of as many items over the elements of a range.
fn write_range<T: Twin>(
    list: &mut Vec<T>,
    alloc: Global,
    range: Range<usize>,
    items: &[T],
) -> Made<()>
    requires inside { range.end ≤ length list.old.items }
    requires fits { range.start + length items.now ≡ range.end }
    ensures ok { OnOk result (ReplacesRange T.same items.now range list.old.items list.new.items) }
    ensures err { OnErr result (list.new.items ≡ list.old.items) }
{
    T::write_copies(alloc, items, list.slice_mut(range))
}

/// Puts the elements of another list in place of those of a range. The elements after the range move
/// once.
fn splice_list<T: Twin>(list: &mut Vec<T>, range: Range<usize>, others: Vec<T>) -> Made<()>
    requires ordered { range.start ≤ range.end }
    requires inside { range.end ≤ length list.old.items }
    ensures ok { OnOk result (list.new.items ≡ replaced_range list.old.items range.start range.end others.items) }
    ensures err { OnErr result (list.new.items ≡ list.old.items) }
{
    list.splice(range, others)?;
    Ok(())
}

/// Takes the elements of a range out of the list.
pub(crate) fn do_delete_range<T: Twin>(list: &mut Vec<T>, range: Range<usize>)
    requires ordered { range.start ≤ range.end }
    requires inside { range.end ≤ length list.old.items }
    ensures { list.new.items ≡ replaced_range list.old.items range.start range.end [] }
{
    drop(list.drain(range));
}

/// Takes the elements at rising indices of a range out of the list. Each element of the range that
/// stays moves at most once; those after the range move together, once.
pub(crate) fn do_delete_indexes<T: Twin>(
    list: &mut Vec<T>,
    range: Range<usize>,
    indexes: SaturatedSliceIter,
)
    requires ordered { range.start ≤ range.end }
    requires inside { range.end ≤ length list.old.items }
    requires rising { IsStrictlyIncreasing indexes }
    requires within { All (λ i. (range.start ≤ i) × (i < range.end)) indexes }
    ensures { list.new.items ≡ elements_off list.old.items indexes }
{
    let end = range.end;
    let kept = close_up_indexes(list.as_mut_slice(), range, indexes);
    do_delete_range(list, kept..end);
}

/// Moves the elements of a range that are off rising indices to its front, in order, each at most
/// once. The answer is where they end: what is left of the range is all that has to be taken out.
fn close_up_indexes<T: Twin>(
    items: &mut [T],
    range: Range<usize>,
    mut indexes: SaturatedSliceIter,
) -> usize
    requires ordered { range.start ≤ range.end }
    requires inside { range.end ≤ length items.old }
    requires rising { IsStrictlyIncreasing indexes }
    requires within { All (λ i. (range.start ≤ i) × (i < range.end)) indexes }
    ensures list { replaced_range items.new result range.end [] ≡ elements_off items.old indexes }
    ensures ordered { result ≤ range.end }
    ensures length { length items.new ≡ length items.old }
{
    let mut kept = range.start;
    let mut next = next_before(&mut indexes, range.end);
    for place in range.start..range.end {
        if place == next {
            next = next_before(&mut indexes, range.end);
        } else {
            items.swap(kept, place);
            kept += 1;
        }
    }
    kept
}

/// The next index, or the end where there is none.
fn next_before(indexes: &mut SaturatedSliceIter, end: usize) -> usize
    ensures same { (place : ℕ) → place < end → has (result ∷ indexes.new) place ≡ has indexes.old place }
    ensures rising { (low : ℕ) → low ≤ end → IsRisingFrom low indexes.old → IsRisingFrom low (result ∷ indexes.new) }
{
    match indexes.next() {
        Some(index) => index,
        None => end,
    }
}

/// Takes the element that a number names out of the list. Refused with `IndexError` exactly where
/// there is none.
pub(crate) fn delitem_by_index<T: Twin>(list: &mut Vec<T>, index: isize) -> Result<(), Fault>
    requires { length list.old.items < 2 ^ 63 }
    ensures answer { result ≡ named_or_index_error (item_place (length list.old.items) index) }
    ensures list { list.new.items ≡ deleted_if_named list.old.items (item_place (length list.old.items) index) }
{
    match slices::wrap_index(list.as_slice(), index) {
        None => Err(Fault::Index),
        Some(place) => {
            do_delete(list, place);
            Ok(())
        }
    }
}

/// Puts copies of the items in place of the elements of a slice: any number where the step is 1, and
/// then the length may change.
///
/// Refused with `ValueError` exactly where the step isn't 1 and there are not as many items as indices.
pub(crate) fn setitem_by_slice<T: Twin>(
    list: &mut Vec<T>,
    alloc: Global,
    slice: SaturatedSlice,
    items: &[T],
) -> Tried<()>
    requires { length list.old.items < 2 ^ 63 }
    ensures answer { Makes (assign_answer (length list.old.items) slice (length items.now)) result }
    ensures change { Assigns result T.same items.now slice list.old.items list.new.items }
    ensures memory { OnErr result (list.new.items ≡ list.old.items) }
{
    let (range, step, count) = slice.adjust_indices(list.len());
    if step == 1 {
        do_set_range(list, alloc, range, items)?;
        return Ok(Outcome::Done(()));
    }
    slices::set_extended(
        alloc,
        list.as_mut_slice(),
        slice,
        items,
        count,
        Fault::Value,
    )
}

/// Takes the elements at the indices of a slice out of the list. Takes no memory.
pub(crate) fn delitem_by_slice<T: Twin>(list: &mut Vec<T>, slice: SaturatedSlice)
    requires { length list.old.items < 2 ^ 63 }
    ensures { list.new.items ≡ picks_off list.old.items slice }
{
    let left = close_up(list.as_mut_slice(), slice);
    do_delete_range(list, left);
}

/// Moves the elements between the indices of a slice to the front of its span, in order, each at most
/// once. The answer is the range that is left: without its elements, the list is the one from which
/// those at the indices are deleted.
///
/// Example: with the slice `0:3:2` of 1, 2, 3, 4 the answer is `1..3`, and the items off that range are then 2 and 4.
pub fn close_up<T: Twin>(items: &mut [T], slice: SaturatedSlice) -> Range<usize>
    requires { length items.old < 2 ^ 63 }
    ensures list { replaced_range items.new result.start result.end [] ≡ picks_off items.old slice }
    ensures ordered { result.start ≤ result.end }
    ensures inside { result.end ≤ length items.old }
    ensures length { length items.new ≡ length items.old }
{
    indices_of_a_span();
    let (range, step, count) = slice.adjust_indices(items.len());
    if step == 1 || step == -1 {
        return range;
    }
    let end = range.end;
    let indexes = SaturatedSliceIter::from_adjust_indices(range.start..range.end, step, count);
    let kept = close_up_indexes(items, range, indexes.positive_order());
    kept..end
}
