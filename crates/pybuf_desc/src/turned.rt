//! The same items with their dimensions the last first.
ghost use Rattle.std.specs.Prelude.{◌≡◌, ◌<◌, ℕ, All, IfOk, reverse};
ghost use Rattle.pybuf_desc.specs.Valid.{IsValid, IsPlaceable};
ghost use Rattle.pybuf_desc.specs.ColumnOrder.{columns_of};
ghost use Rattle.pybuf_desc.specs.Places.{StandsChanged};

use crate::descriptor::BufferDescriptor;
use crate::dims::Dims;
use pybuf_value::{DimList, Made, Twin};
use std::alloc::Global;

/// The dimensions, the last first.
fn turned_dims(alloc: Global, dims: &[(usize, isize, isize)]) -> Made<Dims>
    ensures { IfOk result (λ turned. turned ≡ reverse dims.now) }
{
    match dims {
        [rows, items] => Ok(Dims::two(*items, *rows)),
        _ => {
            let mut list = DimList::from_slice(alloc, dims)?.into_vec();
            list.reverse();
            Ok(Dims::from_list(DimList::from_vec(list)))
        }
    }
}

impl BufferDescriptor {
    /// The same items with their dimensions in reversed order. The row-major order of what is made is the column
    /// order of this one.
    /// Example: of the dimensions `[(2, 3, 0), (3, 1, 0)]` it has `[(3, 1, 0), (2, 3, 0)]`.
    pub fn turned(&self, alloc: Global) -> Made<BufferDescriptor>
        requires placeable { IsPlaceable self.now }
        requires entries { All (λ dim. 0 < dim.0) self.now.dims }
        ensures made { IfOk result (λ d. d ≡ record self.now { dims = reverse self.now.dims }) }
        ensures valid { IfOk result (λ d. (start room : ℕ) → IsValid self.now start room → IsValid d start room) }
        ensures stands { IfOk result (λ d. StandsChanged self.now columns_of d) }
    {
        let format = self.format_text().copy(alloc)?;
        let dims = turned_dims(alloc, self.dim_desc())?;
        Ok(BufferDescriptor::from_dims(self.len(), self.readonly(), self.itemsize(), format, dims))
    }
}
