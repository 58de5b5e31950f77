//! The same items in the fewest dimensions.
ghost use Rattle.std.specs.Prelude.{◌≡◌, ◌*◌, ◌*ℤ◌, ◌^◌, ◌<◌, ◌∷◌, ℕ, pos, IfOk};
ghost use Rattle.std.specs.Ordering.{int_eq};
ghost use Rattle.pybuf_desc.specs.Layouts.{Layout, product};
ghost use Rattle.pybuf_desc.specs.Descriptor.{shape_of};
ghost use Rattle.pybuf_desc.specs.Places.{Stands};
ghost use Rattle.pybuf_desc.specs.Valid.{IsValid, IsPlaceable, nonzero_entries};
ghost use Rattle.pybuf_nd.specs.Merged.{lie_together, joined, merged_from, merged_dims, with_dims, HasNoneTogether};

use crate::made::in_dims;
use pybuf_desc::BufferDescriptor;
use pybuf_value::{DimList, Made};
use std::alloc::Global;

/// How far all entries of a dimension reach.
fn reach(dim: (usize, isize, isize)) -> i128
    ensures { result ≡ pos dim.0 *ℤ dim.1 }
{
    dim.0 as i128 * dim.1 as i128
}

/// Whether a stride is as long as a way.
fn is_way(stride: isize, way: i128) -> bool
    ensures { result ≡ int_eq stride way }
{
    stride as i128 == way
}

/// Whether the step of the outer dimension is as far as all entries of the inner one, or one of them has one entry.
fn lie_together(outer: (usize, isize, isize), inner: (usize, isize, isize)) -> bool
    ensures { result ≡ lie_together outer inner }
{
    if outer.0 == 1 {
        return true;
    }
    if inner.0 == 1 {
        return true;
    }
    is_way(outer.1, reach(inner))
}

/// One dimension of the entries of two that lie together.
fn joined(outer: (usize, isize, isize), inner: (usize, isize, isize)) -> (usize, isize, isize)
    requires { outer.0 * inner.0 < 2 ^ 63 }
    ensures { result ≡ joined outer inner }
{
    let stride = if inner.0 == 1 { outer.1 } else { inner.1 };
    (outer.0 * inner.0, stride, 0)
}

/// A dimension and those behind it, where each takes in the next one that lies together with it.
fn merged_from(
    alloc: Global,
    first: (usize, isize, isize),
    rest: &[(usize, isize, isize)],
) -> Made<DimList>
    requires { product (nonzero_entries (shape_of (first ∷ rest.now))) < 2 ^ 63 }
    ensures { IfOk result (λ list. list ≡ merged_from first rest.now) }
{
    let mut list = DimList::from_vec(Vec::with_capacity(alloc, rest.len())?);
    let mut last = first;
    for dim in rest {
        if lie_together(last, *dim) {
            last = joined(last, *dim);
        } else {
            list.push(last)?;
            last = *dim;
        }
    }
    list.push(last)?;
    Ok(list)
}

/// The dimensions, with neighbours that lie together made one.
fn merged_dims(alloc: Global, dims: &[(usize, isize, isize)]) -> Made<DimList>
    requires { product (nonzero_entries (shape_of dims.now)) < 2 ^ 63 }
    ensures { IfOk result (λ list. list ≡ merged_dims dims.now) }
{
    match dims.split_first() {
        None => Ok(DimList::new(alloc)),
        Some((first, rest)) => merged_from(alloc, *first, rest),
    }
}

/// The same items in the same order, with each two neighbouring dimensions made one wherever they lie together, so that
/// a copy goes by runs that are as long as they can be. Format, item size and what may be written stay. It takes one
/// block of memory, and one for the format where that is more than a letter.
/// Example: the shape `(2, 3)` with the strides `(3, 1)` of items of one byte becomes the shape `(6,)` with the stride 1.
pub fn merged(alloc: Global, desc: &BufferDescriptor) -> Made<BufferDescriptor>
    requires { IsPlaceable desc.now }
    ensures fewest { IfOk result (λ made. HasNoneTogether made.dims) }
    ensures valid { IfOk result (λ made. (start room : ℕ) → IsValid desc.now start room → IsValid made start room) }
    ensures stands { IfOk result (λ made. (start : ℕ) (view : Layout) → Stands desc.now start view → Stands made start (with_dims view made.dims)) }
{
    let list = merged_dims(alloc, desc.dim_desc())?;
    let made = in_dims(alloc, desc, list)?;
    Ok(made)
}
