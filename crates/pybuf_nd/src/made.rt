//! The same items in other dimensions.
ghost use Rattle.std.specs.Prelude.{◌≡◌, ◌+ℤ◌, ◌*ℤ◌, ◌≤ℤ◌, ◌<ℤ◌, ◌*◌, ◌^◌, ◌<◌, pos, FitsSigned, nat_abs, IfOk};
ghost use Rattle.std.specs.Int.{w64};
ghost use Rattle.pybuf_desc.specs.Layouts.{product};
ghost use Rattle.pybuf_desc.specs.Descriptor.{shape_of};
ghost use Rattle.pybuf_desc.specs.Valid.{nonzero_entries};
ghost use Rattle.pybuf_nd.specs.Dims.{in_dims};
ghost use Rattle.pybuf_nd.specs.Selections.{has_zero};

use pybuf_desc::BufferDescriptor;
use pybuf_value::{DimList, Made, Text, Twin};
use std::alloc::Global;

/// The number of bytes of all items.
fn bytes_of_dims(itemsize: usize, dims: &[(usize, isize, isize)]) -> usize
    requires { itemsize * product (nonzero_entries (shape_of dims.now)) < 2 ^ 63 }
    ensures { result ≡ itemsize * product (shape_of dims.now) }
{
    let mut bytes = itemsize;
    for dim in dims {
        bytes *= dim.0;
    }
    bytes
}

/// What is kept of the same items in these dimensions. It takes memory for a format of more than a letter alone.
pub(crate) fn in_dims(
    alloc: Global,
    desc: &BufferDescriptor,
    dims: DimList,
) -> Made<BufferDescriptor>
    requires { desc.now.itemsize * product (nonzero_entries (shape_of dims)) < 2 ^ 63 }
    ensures { IfOk result (λ made. made ≡ in_dims desc.now dims) }
{
    let format = desc.format_text().copy(alloc)?;
    let bytes = bytes_of_dims(desc.itemsize(), dims.as_slice());
    let mut made = BufferDescriptor::raw(
        bytes,
        desc.readonly(),
        desc.itemsize(),
        Text::new(alloc),
        dims,
    );
    made.format = format;
    Ok(made)
}

/// Whether a dimension has no entry.
pub(crate) fn has_zero_entry(dims: &[(usize, isize, isize)]) -> bool
    ensures { result ≡ has_zero (shape_of dims.now) }
{
    for dim in dims {
        if dim.0 == 0 {
            return true;
        }
    }
    false
}

/// The place that lies so far from another.
pub(crate) fn place_after(place: usize, distance: isize) -> usize
    requires place_fits { place < 2 ^ 63 }
    requires low { pos 0 ≤ℤ (pos place +ℤ distance) }
    requires high { (pos place +ℤ distance) <ℤ pos (2 ^ 63) }
    ensures { result ≡ nat_abs (pos place +ℤ distance) }
{
    (place as isize + distance) as usize
}

/// How far an entry lies from the first one.
pub(crate) fn way_to(entry: usize, stride: isize) -> isize
    requires entry_fits { entry < 2 ^ 63 }
    requires product_fits { FitsSigned w64 (pos entry *ℤ stride) }
    ensures { result ≡ pos entry *ℤ stride }
{
    entry as isize * stride
}
