//! Two views.
ghost use Rattle.std.specs.Prelude.{◌≡◌, length};
ghost use Rattle.pybuf_desc.specs.Layouts.{LiesInside};
ghost use Rattle.pybuf_equality.specs.Equality.{are_equal_views};
ghost use Rattle.pybuf_value.specs.Halting.{Makes};

use crate::items::equal_items;
use crate::shapes::dims_agree;
use pybuf_memoryview::KeptLayout;
use pybuf_value::Made;
use std::alloc::Global;

/// Whether two views over bytes, which may be the same, are equal.
///
/// They are exactly if they have as many dimensions, their shapes agree, and items of the same number are equal, each
/// read by the format of its own view, as Python's `view == other` (Library reference, "Memory Views", `__eq__`).
/// Shapes agree if they have the same entries, from the first dimension on; where both have an entry of 0, the rest
/// is ignored. An item of `?` is a truth value, and so equal to any other that is as true.
///
/// Nothing is copied. Two contiguous views of one simple format are compared as two slices, and the first difference
/// ends it. Memory is taken for the formats and for an item at a time.
/// Example: a view of `b"\x01\x00"` cast to `H` is equal to a view of `b"\x01"`, and not to one of `b"\x01\x00"`.
pub fn equal_views(
    alloc: Global,
    bytes: &[u8],
    layout: &KeptLayout,
    other: &[u8],
    other_layout: &KeptLayout,
) -> Made<bool>
    requires inside { LiesInside (length bytes.now) layout.now }
    requires other_inside { LiesInside (length other.now) other_layout.now }
    ensures { Makes (are_equal_views bytes.now layout.now other.now other_layout.now) result }
{
    let (descriptor, _) = layout.placed();
    let (other_descriptor, _) = other_layout.placed();
    if descriptor.ndim() != other_descriptor.ndim() {
        return Ok(false);
    }
    if !dims_agree(descriptor.dim_desc(), other_descriptor.dim_desc()) {
        return Ok(false);
    }
    if layout.has_zero() {
        return Ok(true);
    }
    equal_items(alloc, bytes, layout, other, other_layout)
}
