//! The same items one after the other, as they lie in a copy of their bytes.
ghost use Rattle.std.specs.Prelude.{◌≡◌, ◌*◌, ◌/◌, ◌^◌, ◌<◌, ℕ, All, IfOk, drop};
ghost use Rattle.pybuf_desc.specs.Layouts.{product};
ghost use Rattle.pybuf_desc.specs.Descriptor.{shape_of};
ghost use Rattle.pybuf_desc.specs.Valid.{IsValid, IsPlaceable, nonzero_entries};
ghost use Rattle.pybuf_desc.specs.RowMajor.{row_major_dims};
ghost use Rattle.pybuf_desc.specs.Packed.{row_major_of};
ghost use Rattle.pybuf_desc.specs.PackedDescriptor.{row_major_descriptor};
ghost use Rattle.pybuf_desc.specs.Places.{StandsMoved};

use crate::checks::extent;
use crate::descriptor::BufferDescriptor;
use crate::dims::Dims;
use pybuf_value::{DimList, Made, Twin};
use std::alloc::Global;

/// The item size times the entries that aren't 0, which fits.
fn fitting_extent(itemsize: usize, dims: &[(usize, isize, isize)]) -> usize
    requires size { itemsize < 2 ^ 63 }
    requires fits { itemsize * product (nonzero_entries (shape_of dims.now)) < 2 ^ 63 }
    ensures { result ≡ itemsize * product (nonzero_entries (shape_of dims.now)) }
{
    match extent(itemsize, dims) {
        Some(bytes) => bytes,
        None => 0,
    }
}

/// The bytes of one of so many entries, where there are any.
fn entry_size(bytes: usize, entries: usize) -> usize
    ensures none { entries ≡ 0 → result ≡ bytes }
    ensures some { 0 < entries → result ≡ bytes / entries }
{
    if entries == 0 { bytes } else { bytes / entries }
}

/// The dimensions of the same entries whose items lie one after the other, as a list.
///
/// The stride of a dimension is the bytes of one of its entries. Only the first may have none: its
/// stride is then that of the entries that there would be.
fn packed_list(
    alloc: Global,
    extent: usize,
    itemsize: usize,
    dims: &[(usize, isize, isize)],
) -> Made<DimList>
    requires later { All (λ dim. 0 < dim.0) (drop 1 dims.now) }
    requires whole { extent ≡ itemsize * product (nonzero_entries (shape_of dims.now)) }
    requires fits { extent < 2 ^ 63 }
    ensures { IfOk result (λ packed. packed ≡ row_major_dims itemsize (shape_of dims.now)) }
{
    let mut packed = DimList::new(alloc);
    let mut size = extent;
    for dim in dims {
        size = entry_size(size, dim.0);
        packed.push((dim.0, size as isize, 0))?;
    }
    Ok(packed)
}

/// The dimensions of the same entries whose items lie one after the other.
fn packed_dims(
    alloc: Global,
    extent: usize,
    itemsize: usize,
    dims: &[(usize, isize, isize)],
) -> Made<Dims>
    requires size_fits { itemsize < 2 ^ 63 }
    requires later { All (λ dim. 0 < dim.0) (drop 1 dims.now) }
    requires whole { extent ≡ itemsize * product (nonzero_entries (shape_of dims.now)) }
    requires fits { extent < 2 ^ 63 }
    ensures { IfOk result (λ packed. packed ≡ row_major_dims itemsize (shape_of dims.now)) }
{
    match dims {
        [items] => Ok(Dims::one((items.0, itemsize as isize, 0))),
        [rows, items] => Ok(Dims::two(
            (rows.0, entry_size(extent, rows.0) as isize, 0),
            (items.0, itemsize as isize, 0),
        )),
        _ => {
            let list = packed_list(alloc, extent, itemsize, dims)?;
            Ok(Dims::from_list(list))
        }
    }
}

impl BufferDescriptor {
    /// The same items one after the other without a gap, row-major, as they lie in a copy of their bytes from its
    /// start on.
    /// Example: of three bytes with the stride -2 it has the dimensions `[(3, 1, 0)]`.
    pub fn to_row_major(&self, alloc: Global) -> Made<BufferDescriptor>
        requires { IsPlaceable self.now }
        ensures made { IfOk result (λ d. d ≡ row_major_descriptor self.now) }
        ensures valid { IfOk result (λ d. IsValid d 0 self.now.len) }
        ensures stands { IfOk result (λ d. (start : ℕ) → StandsMoved self.now start row_major_of d 0) }
    {
        let bytes = fitting_extent(self.itemsize(), self.dim_desc());
        let format = self.format_text().copy(alloc)?;
        let dims = packed_dims(alloc, bytes, self.itemsize(), self.dim_desc())?;
        Ok(BufferDescriptor::from_dims(self.len(), self.readonly(), self.itemsize(), format, dims))
    }
}
