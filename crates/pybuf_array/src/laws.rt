//! Laws of arrays.
ghost use Rattle.pybuf_array.specs.Laws.{LengthsStayWhileViewed, SlicesOfSlices};

use pybuf_index::indices_of_a_slice;

/// However the operations of a run are cut in two, the number of numbers doesn't change in the second part where a view
/// that was made in the first is unreleased at its end.
/// Example: after `append 1` and `view` an `append 2` is refused with `BufferError`, and the length stays 1.
pub fn lengths_stay_while_viewed()
    ensures { LengthsStayWhileViewed }
{}

/// A slice of a slice of a view shows those of its numbers that the second slice picks among the picks of the first.
/// Example: of the numbers 0 to 9 the slice `::2` of the slice `1:7` shows 1, 3 and 5.
pub fn slices_of_slices_pick_among_picks()
    ensures { SlicesOfSlices }
{
    indices_of_a_slice();
}
