//! Laws of the definitions that the contracts cite.
ghost use Rattle.pybuf_equality.specs.Laws.{ViewEqualityIsEquivalence, LayoutsHaveTheirItems, EqualByteViewsHoldTheSameBytes, FittingSnapsHaveAllItems};

/// A view is equal to itself. Where it is equal to another, that is equal to it, and what both are equal to is the
/// same. That holds for exporters too, and whatever the formats are.
/// Example: where a view of the format `H` is equal to one of `q`, and that to one of `B`, the first is equal to the last.
pub fn view_equality_is_equivalence()
    ensures { ViewEqualityIsEquivalence }
{
    pybuf_value::item_equality_is_equivalence();
}

/// The items of a view that are compared are those that `get` reads. The item of each number is the same in both.
/// Example: of a view of `b"\x01\x00\x02\x00"` cast to `H` the items 1 and 2 are compared.
pub fn layouts_have_their_items()
    ensures { LayoutsHaveTheirItems }
{}

/// Views of formats `b`, `B` or `c` that are equal hold the same bytes. Where both can be hashed, they therefore
/// reply the same bytes to `hash`.
/// Example: two equal views of the formats `B` and `b` both hold `b"abc"`.
pub fn equal_byte_views_hold_the_same_bytes()
    ensures { EqualByteViewsHoldTheSameBytes }
{}

/// What is lent and fits has all its items, unless it is an iterator or a released view.
/// Example: a `Snap` of a view in the shape `[2, 3]` with items of one byte holds six bytes, where it fits.
pub fn fitting_snaps_have_all_items()
    ensures { FittingSnapsHaveAllItems }
{}
