//! Reading and writing a slice of elements by indices. What is read and what is written are copies.
ghost use Rattle.std.specs.Prelude.{◌≡◌, ◌≢◌, ◌<◌, ◌≤◌, ◌^◌, ℕ, [], length, reverse, All, IfOk, OnOk, OnErr, IsSome, IsSomeAnd, true, false, pos, slice_get, slice_set, slice_range, Result, Option};
ghost use Rattle.pybuf_value.specs.declared.faults.Fault.TheVariants as fault;
ghost use Rattle.pybuf_slice.specs.Edits.{set_at, set_if_named, named_or_index_error, SetsIndices, Assigns, AssignsPicks, pick_answer};
ghost use Rattle.pybuf_index.specs.Parts.{SliceParts, picks_of};
ghost use Rattle.pybuf_index.specs.Places.{saturated_place, item_place};
ghost use Rattle.pybuf_slice.specs.Reads.{elements_at, item_at, SameOutcome, picked_elements, stepped_elements, MakesCopies};
ghost use Rattle.pybuf_value.specs.Halting.{Makes};

use pybuf_index::{
    SaturatedSlice, SaturatedSliceIter, SequenceIndexOp, indices_of_a_slice, indices_of_a_span,
};
use pybuf_value::{Fault, Made, Outcome, Tried, Twin, copy_all};
use std::alloc::Global;
use std::ops::Range;

/// A copy of the element at a place.
///
/// Example: `do_get(alloc, &[1, 2, 3], 1)` gives 2.
pub fn do_get<T: Twin>(alloc: Global, items: &[T], index: usize) -> Made<T>
    requires { index < length items.now }
    ensures { IfOk result (λ item. IsSomeAnd (slice_get items.now index) (λ source. T.same source item)) }
{
    items[index].copy(alloc)
}

/// Copies of the elements of a range, in order.
///
/// Example: `do_slice(alloc, &[1, 2, 3, 4], 1..3)` gives 2, 3.
pub fn do_slice<T: Twin>(alloc: Global, items: &[T], range: Range<usize>) -> Made<Vec<T>>
    requires ordered { range.start ≤ range.end }
    requires inside { range.end ≤ length items.now }
    ensures { MakesCopies T.same (slice_range items.now range.start range.end) result }
{
    copy_all(alloc, &items[range])
}

/// Copies of the elements of a range, the last first.
///
/// Example: `do_slice_reverse(alloc, &[1, 2, 3, 4], 1..3)` gives 3, 2.
pub fn do_slice_reverse<T: Twin>(alloc: Global, items: &[T], range: Range<usize>) -> Made<Vec<T>>
    requires ordered { range.start ≤ range.end }
    requires inside { range.end ≤ length items.now }
    ensures { MakesCopies T.same (reverse (slice_range items.now range.start range.end)) result }
{
    let mut list = do_slice(alloc, items, range)?;
    list.reverse();
    Ok(list)
}

/// Copies of every `step`-th element of a range, from its first.
///
/// Example: `do_stepped_slice(alloc, &[1, 2, 3, 4], 0..4, 2)` gives 1, 3.
pub fn do_stepped_slice<T: Twin>(
    alloc: Global,
    items: &[T],
    range: Range<usize>,
    step: usize,
) -> Made<Vec<T>>
    requires ordered { range.start ≤ range.end }
    requires inside { range.end ≤ length items.now }
    requires in_memory { length items.now < 2 ^ 63 }
    requires moves { 0 < step }
    ensures { MakesCopies T.same (stepped_elements items.now range false step) result }
{
    indices_of_a_span();
    gather(
        alloc,
        items,
        SaturatedSliceIter::in_span(range, step, false),
    )
}

/// Copies of every `step`-th element of a range, from its last down.
///
/// Example: `do_stepped_slice_reverse(alloc, &[1, 2, 3, 4], 0..4, 2)` gives 4, 2.
pub fn do_stepped_slice_reverse<T: Twin>(
    alloc: Global,
    items: &[T],
    range: Range<usize>,
    step: usize,
) -> Made<Vec<T>>
    requires ordered { range.start ≤ range.end }
    requires inside { range.end ≤ length items.now }
    requires in_memory { length items.now < 2 ^ 63 }
    requires moves { 0 < step }
    ensures { MakesCopies T.same (stepped_elements items.now range true step) result }
{
    indices_of_a_span();
    gather(alloc, items, SaturatedSliceIter::in_span(range, step, true))
}

/// A vector without elements. Takes no memory.
///
/// Example: `empty::<u8>(alloc).len()` is 0.
pub fn empty<T>(alloc: Global) -> Vec<T>
    ensures { result.items ≡ [] }
{
    Vec::new(alloc)
}

/// The number of elements.
///
/// Example: `len(&[1, 2, 3])` is 3.
pub fn len<T>(items: &[T]) -> usize
    ensures { result ≡ length items.now }
{
    items.len()
}

/// The place of the element that a number names: `None` exactly where there is none.
///
/// Example: `wrap_index(&[1, 2, 3], -1)` is `Some(2)`, and `wrap_index(&[1, 2, 3], 3)` is `None`.
pub fn wrap_index<T>(items: &[T], p: isize) -> Option<usize>
    requires { length items.now < 2 ^ 63 }
    ensures { result ≡ item_place (length items.now) p }
{
    p.wrapped_at(items.len())
}

/// The place from 0 to the length that is nearest to a number.
///
/// Example: `saturate_index(&[1, 2, 3], -1)` is 2, and `saturate_index(&[1, 2, 3], 9)` is 3.
pub fn saturate_index<T>(items: &[T], p: isize) -> usize
    requires { length items.now < 2 ^ 63 }
    ensures { result ≡ saturated_place (length items.now) p }
{
    p.saturated_at(items.len())
}

/// Copies of the elements at the indices of a slice, in the order of the indices.
///
/// Example: of 1, 2, 3 and the slice `::-1` it gives 3, 2, 1.
pub fn getitem_by_slice<T: Twin>(alloc: Global, items: &[T], slice: SaturatedSlice) -> Made<Vec<T>>
    requires { length items.now < 2 ^ 63 }
    ensures { MakesCopies T.same (picked_elements items.now slice) result }
{
    indices_of_a_slice();
    indices_of_a_span();
    let (range, step, _) = slice.adjust_indices(items.len());
    if step == 1 {
        return do_slice(alloc, items, range);
    }
    gather(alloc, items, slice.iter(items.len()))
}

/// A copy of the element that a number names; a negative number counts from the end.
///
/// Refused with `IndexError` exactly where there is no such element, and memory is taken only where
/// there is one.
///
/// Example: `getitem_by_index(alloc, &[1, 2, 3], -1)` gives 3, and 3 in place of -1 is refused.
pub fn getitem_by_index<T: Twin>(alloc: Global, items: &[T], index: isize) -> Tried<T>
    requires { length items.now < 2 ^ 63 }
    ensures item { IfOk result (λ outcome. SameOutcome T.same (item_at items.now index) outcome) }
    ensures memory { OnErr result (IsSome (item_place (length items.now) index)) }
{
    match wrap_index(items, index) {
        None => Ok(Outcome::Refused(Fault::Index)),
        Some(place) => {
            let item = do_get(alloc, items, place)?;
            Ok(Outcome::Done(item))
        }
    }
}

/// The elements at indices, in their order.
fn gather<T: Twin>(alloc: Global, items: &[T], mut indexes: SaturatedSliceIter) -> Made<Vec<T>>
    requires { All (λ i. i < length items.now) indexes }
    ensures { MakesCopies T.same (elements_at items.now indexes) result }
{
    let mut list = Vec::with_capacity(alloc, indexes.len())?;
    while let Some(index) = indexes.next() {
        list.push(items[index].copy(alloc)?)?;
    }
    Ok(list)
}

/// Puts a value in the place of an element.
///
/// Example: with the index 1 and the value 9 the elements 1, 2, 3 become 1, 9, 3.
pub fn do_set<T: Twin>(items: &mut [T], index: usize, value: T)
    requires { index < length items.old }
    ensures { items.new ≡ slice_set items.old index value }
{
    items[index] = value;
}

/// Puts copies of the items at as many indices. Where memory runs out, the elements are as before.
///
/// Example: with the indices 2 and 0 and the items 8 and 9 the elements 1, 2, 3 become 9, 2, 8.
pub fn do_set_indexes<T: Twin>(
    alloc: Global,
    places: &mut [T],
    indexes: SaturatedSliceIter,
    items: &[T],
) -> Made<()>
    requires count { length indexes ≡ length items.now }
    requires inside { All (λ i. i < length places.old) indexes }
    ensures ok { OnOk result (SetsIndices T.same items.now indexes places.old places.new) }
    ensures err { OnErr result (places.new ≡ places.old) }
{
    let copies = copy_all(alloc, items)?;
    scatter(places, indexes, copies);
    Ok(())
}

/// Puts the elements of a list at as many indices.
fn scatter<T: Twin>(places: &mut [T], mut indexes: SaturatedSliceIter, others: Vec<T>)
    requires count { length indexes ≡ length others.items }
    requires inside { All (λ i. i < length places.old) indexes }
    ensures { places.new ≡ set_at places.old indexes others.items }
{
    let mut rest = others.into_iter();
    while let Some(index) = indexes.next() {
        if let Some(item) = rest.next() {
            places[index] = item;
        }
    }
}

/// Puts a value in the place of the element that a number names; a negative number counts from the end.
///
/// Refused with `IndexError` exactly where there is no such element. After a refusal the elements are
/// as before.
///
/// Example: with -1 and the value 9 the elements 1, 2, 3 become 1, 2, 9, and 3 in place of -1 is refused.
pub fn setitem_by_index<T: Twin>(items: &mut [T], index: isize, value: T) -> Result<(), Fault>
    requires { length items.old < 2 ^ 63 }
    ensures answer { result ≡ named_or_index_error (item_place (length items.old) index) }
    ensures list { items.new ≡ set_if_named items.old (item_place (length items.old) index) value }
{
    match wrap_index(items, index) {
        None => Err(Fault::Index),
        Some(place) => {
            items[place] = value;
            Ok(())
        }
    }
}

/// Puts copies of the items in place of as many elements of a slice.
///
/// Refused with `BufferError` exactly where there are not as many items as indices. After a refusal,
/// or where memory runs out, the elements are as before.
///
/// Example: with the slice `::2` and the items 8, 9 the elements 1, 2, 3 become 8, 2, 9; one item is refused.
pub fn setitem_by_slice_no_resize<T: Twin>(
    alloc: Global,
    places: &mut [T],
    slice: SaturatedSlice,
    items: &[T],
) -> Tried<()>
    requires { length places.old < 2 ^ 63 }
    ensures answer { Makes (pick_answer fault.Buffer (length places.old) slice (length items.now)) result }
    ensures change { Assigns result T.same items.now slice places.old places.new }
    ensures memory { OnErr result (places.new ≡ places.old) }
{
    indices_of_a_span();
    let (range, step, count) = slice.adjust_indices(places.len());
    if step != 1 {
        return set_extended(alloc, places, slice, items, count, Fault::Buffer);
    }
    if count != items.len() {
        return Ok(Outcome::Refused(Fault::Buffer));
    }
    T::write_copies(alloc, items, &mut places[range])?;
    Ok(Outcome::Done(()))
}

/// Puts copies of the items at as many indices of a slice. Refused where there are not as many.
pub(crate) fn set_extended<T: Twin>(
    alloc: Global,
    places: &mut [T],
    slice: SaturatedSlice,
    items: &[T],
    count: usize,
    refusal: Fault,
) -> Tried<()>
    requires in_memory { length places.old < 2 ^ 63 }
    requires moves { slice.step ≢ pos 0 }
    requires count { count ≡ length (picks_of (length places.old) slice) }
    ensures answer { Makes (pick_answer refusal (length places.old) slice (length items.now)) result }
    ensures change { AssignsPicks result T.same items.now slice places.old places.new }
    ensures memory { OnErr result (places.new ≡ places.old) }
{
    indices_of_a_slice();
    if count != items.len() {
        return Ok(Outcome::Refused(refusal));
    }
    let indexes = slice.iter(places.len());
    do_set_indexes(alloc, places, indexes, items)?;
    Ok(Outcome::Done(()))
}
