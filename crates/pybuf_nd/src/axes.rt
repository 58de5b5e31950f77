//! The axes in another order.
ghost use Rattle.std.specs.Prelude.{◌≡◌, ◌<◌, ◌&&◌, ℕ, length, nat_lt, reverse, IfOk, All};
ghost use Rattle.pybuf_value.specs.Halting.{given_by};
ghost use Rattle.pybuf_value.specs.Refusing.{IfDone};
ghost use Rattle.pybuf_desc.specs.Layouts.{Layout};
ghost use Rattle.pybuf_desc.specs.Descriptor.{shape_of};
ghost use Rattle.pybuf_desc.specs.Places.{Stands};
ghost use Rattle.pybuf_desc.specs.Valid.{IsPlaceable};
ghost use Rattle.pybuf_nd.specs.Axes.{AreAxes, view_in_order, transposition_of, order_check};
ghost use Rattle.pybuf_nd.specs.Dims.{dims_in_order};
ghost use Rattle.pybuf_nd.specs.Selections.{has_zero};
ghost use Rattle.pybuf_nd.specs.Answering.{RefusedAs, StaysValid};

use crate::made::{has_zero_entry, in_dims};
use pybuf_desc::BufferDescriptor;
use pybuf_value::{DimList, Fault, Made, Outcome, Tried};
use std::alloc::Global;

/// The dimensions in the order of these axes.
fn dims_in_order(alloc: Global, dims: &[(usize, isize, isize)], axes: &[usize]) -> Made<DimList>
    requires { All (λ axis. axis < length dims.now) axes.now }
    ensures { IfOk result (λ list. list ≡ dims_in_order dims.now axes.now) }
{
    let mut list = DimList::from_vec(Vec::with_capacity(alloc, axes.len())?);
    for axis in axes {
        list.push(dims[*axis])?;
    }
    Ok(list)
}

/// The dimensions, the last first.
fn reversed_dims(alloc: Global, dims: &[(usize, isize, isize)]) -> Made<DimList>
    ensures { IfOk result (λ list. list ≡ reverse dims.now) }
{
    let mut list = DimList::from_slice(alloc, dims)?.into_vec();
    list.reverse();
    Ok(DimList::from_vec(list))
}

/// Whether a dimension of several has no entry.
fn has_zero_of_several(dims: &[(usize, isize, isize)]) -> bool
    ensures { result ≡ (has_zero (shape_of dims.now) && nat_lt 1 (length dims.now)) }
{
    has_zero_entry(dims) && 1 < dims.len()
}

/// The same items with their axes in another order. Dimension `d` is the one of axis `axes[d]`, as in NumPy's
/// `items.transpose(axes)` (NumPy manual, "numpy.transpose"). Format, item size and what may be written stay. It
/// takes one block of memory, and one for the format where that is more than a letter.
///
/// Refused with `ValueError` exactly where there is more than one dimension and one of them has no entry.
/// Example: of the shape `(2, 3, 4)` the axes `[2, 0, 1]` give the shape `(4, 2, 3)`.
pub fn permute(alloc: Global, desc: &BufferDescriptor, axes: &[usize]) -> Tried<BufferDescriptor>
    requires valid { IsPlaceable desc.now }
    requires each_once { AreAxes (length desc.now.dims) axes.now }
    ensures refused { IfOk result (λ answer. RefusedAs (order_check (shape_of desc.now.dims)) answer) }
    ensures valid { IfOk result (λ answer. StaysValid desc.now answer) }
    ensures stands { IfOk result (λ answer. IfDone (λ made. (start : ℕ) (view : Layout) → Stands desc.now start view → Stands made start (view_in_order view axes.now)) (given_by answer)) }
{
    let dims = desc.dim_desc();
    if has_zero_of_several(dims) {
        return Ok(Outcome::Refused(Fault::Value));
    }
    let list = dims_in_order(alloc, dims, axes)?;
    let made = in_dims(alloc, desc, list)?;
    Ok(Outcome::Done(made))
}

/// The same items with their axes in the reversed order, as NumPy's `items.T` (NumPy manual, "numpy.ndarray.T"). It
/// takes memory as `permute` does.
///
/// Refused with `ValueError` exactly where there is more than one dimension and one of them has no entry.
/// Example: of the items `[[1, 2, 3], [4, 5, 6]]` it gives `[[1, 4], [2, 5], [3, 6]]`.
pub fn transpose(alloc: Global, desc: &BufferDescriptor) -> Tried<BufferDescriptor>
    requires { IsPlaceable desc.now }
    ensures refused { IfOk result (λ answer. RefusedAs (order_check (shape_of desc.now.dims)) answer) }
    ensures valid { IfOk result (λ answer. StaysValid desc.now answer) }
    ensures stands { IfOk result (λ answer. IfDone (λ made. (start : ℕ) (view : Layout) → Stands desc.now start view → Stands made start (transposition_of view)) (given_by answer)) }
{
    let dims = desc.dim_desc();
    if has_zero_of_several(dims) {
        return Ok(Outcome::Refused(Fault::Value));
    }
    let list = reversed_dims(alloc, dims)?;
    let made = in_dims(alloc, desc, list)?;
    Ok(Outcome::Done(made))
}
