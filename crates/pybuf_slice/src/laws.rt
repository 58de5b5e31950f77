//! What holds of reads and edits by slices.
ghost use Rattle.std.specs.Prelude.{ℤ, List, Option};
ghost use Rattle.pybuf_index.specs.Parts.{SliceParts};
ghost use Rattle.pybuf_slice.specs.EditLaws.{SlicePartsList, AsManyKeepTheLength, AsManyAreReadBack, AnyNumberTakesThePlace};

use pybuf_index::{indices_of_a_slice, indices_of_a_span, slices_have_spans};

/// Reading by a slice and deleting by it part a list in two: each element is in exactly one of the
/// two. What stays is in the order of the list, and what is read is in the direction of the step.
///
/// Example: by `::2` the list 1, 2, 3 reads as 1, 3, and what stays of it is 2.
pub fn reading_and_deleting_part_a_list<T>()
    ensures { (items : List T) (start stop : Option ℤ) (step : ℤ) → SlicePartsList items start stop step }
{
    indices_of_a_span();
    slices_have_spans();
}

/// As many elements in place of those of a slice keep the length of a list.
///
/// Example: 8, 9 in place of the elements of `::2` make 8, 2, 9 of 1, 2, 3: three elements, as before.
pub fn as_many_keep_the_length<T>()
    ensures { (items : List T) (parts : SliceParts) (others : List T) → AsManyKeepTheLength items parts others }
{
    indices_of_a_span();
    slices_have_spans();
}

/// As many elements in place of those of a slice are what the slice reads afterwards, in its order, and
/// every place that it doesn't pick has the element that it had.
///
/// Example: 8, 9 in place of the elements of `::2` make 8, 2, 9 of 1, 2, 3, which `::2` reads as 8, 9.
pub fn as_many_are_read_back<T>()
    ensures { (items : List T) (parts : SliceParts) (others : List T) → AsManyAreReadBack items parts others }
{
    indices_of_a_slice();
    indices_of_a_span();
    slices_have_spans();
}

/// Any number of elements in place of those of a slice with step 1 stand between what stood before its
/// start and what stood behind what it read; where it read nothing, they are put in at its start.
///
/// Example: 8, 9 in place of the elements of `1:2` make 1, 8, 9, 3 of 1, 2, 3.
pub fn any_number_takes_the_place<T>()
    ensures { (items : List T) (parts : SliceParts) (others : List T) → AnyNumberTakesThePlace items parts others }
{
    indices_of_a_span();
    slices_have_spans();
}
