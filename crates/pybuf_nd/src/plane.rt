//! The items at one place of an axis.
ghost use Rattle.std.specs.Prelude.{◌≡◌, ◌<◌, length, remove, IfOk};
ghost use Rattle.pybuf_value.specs.Halting.{given_by};
ghost use Rattle.pybuf_value.specs.Refusing.{IfDone};
ghost use Rattle.pybuf_desc.specs.Layouts.{Layout};
ghost use Rattle.pybuf_desc.specs.Descriptor.{shape_of};
ghost use Rattle.pybuf_desc.specs.Places.{Stands};
ghost use Rattle.pybuf_desc.specs.Valid.{IsPlaced};
ghost use Rattle.pybuf_nd.specs.Planes.{plane_of, entry_of_place};
ghost use Rattle.pybuf_nd.specs.Answering.{RefusedAs, StaysValidAt};

use crate::made::{has_zero_entry, in_dims, place_after, way_to};
use pybuf_desc::BufferDescriptor;
use pybuf_index::entry_in;
use pybuf_value::{DimList, Fault, Made, Outcome, Tried};
use std::alloc::Global;

/// All dimensions but one.
fn dims_without(alloc: Global, dims: &[(usize, isize, isize)], axis: usize) -> Made<DimList>
    requires { axis < length dims.now }
    ensures { IfOk result (λ rest. rest ≡ remove dims.now axis) }
{
    let mut rest = DimList::from_slice(alloc, dims)?.into_vec();
    rest.remove(axis);
    Ok(DimList::from_vec(rest))
}

/// The items at one place of an axis, which is left out, and where the first of them lies, as NumPy's
/// `items.take(PLACE, AXIS)` (NumPy manual, "numpy.take"). A negative place counts from the end. Format, item size
/// and what may be written stay. It takes one block of memory, and one for the format where that is more than a
/// letter.
///
/// Refused with `IndexError` exactly where the place is out of bounds; then with `ValueError` exactly where a
/// dimension has no entry.
/// Example: of `[[1, 2, 3], [4, 5, 6]]` the axis 1 and the place -1 give `[3, 6]`.
pub fn pick(
    alloc: Global,
    desc: &BufferDescriptor,
    start: usize,
    axis: usize,
    place: isize,
) -> Tried<(BufferDescriptor, usize)>
    requires placed { IsPlaced desc.now start }
    requires axis_exists { axis < length desc.now.dims }
    ensures refused { IfOk result (λ answer. RefusedAs (entry_of_place (shape_of desc.now.dims) axis place) answer) }
    ensures valid { IfOk result (λ answer. StaysValidAt desc.now start answer) }
    ensures stands { IfOk result (λ answer. IfDone (λ made. (view : Layout) → Stands desc.now start view → IfDone (λ entry. Stands made.0 made.1 (plane_of view axis entry)) (entry_of_place view.shape axis place)) (given_by answer)) }
{
    let dims = desc.dim_desc();
    let entries = dims[axis].0;
    let stride = dims[axis].1;
    let entry = match entry_in(entries, place) {
        Ok(entry) => entry,
        Err(fault) => return Ok(Outcome::Refused(fault)),
    };
    if has_zero_entry(dims) {
        return Ok(Outcome::Refused(Fault::Value));
    }
    let rest = dims_without(alloc, dims, axis)?;
    let next = place_after(start, way_to(entry, stride));
    let made = in_dims(alloc, desc, rest)?;
    Ok(Outcome::Done((made, next)))
}
