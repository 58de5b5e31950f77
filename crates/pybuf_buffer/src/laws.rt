//! Laws of the definitions that the contracts cite. Each stands on a function whose body does nothing.
ghost use Rattle.pybuf_buffer.specs.Laws.{RangesAreCounted, RangeCountsAreBounded, RangeCountsAreBoundedByRows};

/// The number that `append_to` counts is that of the ranges of the walk over the items that takes a
/// block of items which lie one after the other as one range. None of these is empty.
/// Example: of the view `memoryview(b"abcdef")[::-2]` there are three ranges, of one byte each, and `append_to` counts 3.
pub fn ranges_are_counted()
    ensures { RangesAreCounted }
{}

/// The number that `append_to` counts is at most the product of the entries before the tail. It is 1 where all items
/// lie one after the other, and 0 without items.
/// Example: of a view of all bytes `b"abcdef"` it is 1, and of one of `b""` it is 0.
pub fn range_counts_are_bounded()
    ensures { RangeCountsAreBounded }
{
    pybuf_desc::tails_are_greatest();
}

/// The number that `append_to` counts is bounded by the shape. Where the last dimension's stride is the item size, it
/// is at most the product of the other entries of the shape. Everywhere it is at most the number of items, and
/// without a dimension at most 1.
/// Example: of a view in the shape `(4, 3)` whose rows of bytes lie apart it is at most 4.
pub fn range_counts_are_bounded_by_rows()
    ensures { RangeCountsAreBoundedByRows }
{
    pybuf_desc::tails_are_greatest();
}
