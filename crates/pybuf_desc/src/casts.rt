//! The bytes of a descriptor's items, read as items of another size.
ghost use Rattle.std.specs.Prelude.{◌≡◌, ◌*◌, ◌/◌, ◌%◌, ◌^◌, ◌<◌, ◌≤◌, ℕ, true, length, All, IfOk};
ghost use Rattle.pybuf_desc.specs.Layouts.{Layout, product};
ghost use Rattle.pybuf_desc.specs.Contiguous.{is_contiguous_layout};
ghost use Rattle.pybuf_desc.specs.Descriptor.{flat_descriptor};
ghost use Rattle.pybuf_desc.specs.Places.{Stands, StandsChanged};
ghost use Rattle.pybuf_desc.specs.Valid.{IsValid, IsPlaceable};
ghost use Rattle.pybuf_desc.specs.RowMajor.{row_major_dims, shaped_cast};
ghost use Rattle.pybuf_desc.specs.Casts.{cast_of};
ghost use Rattle.pybuf_desc.specs.ShapedCasts.{cast_to};
ghost use Rattle.pybuf_desc.specs.ColumnMajor.{column_major_dims, column_cast};
ghost use Rattle.pybuf_desc.specs.ColumnCasts.{column_cast_to};
ghost use Rattle.pybuf_value.specs.Halting.{Makes};

use crate::descriptor::BufferDescriptor;
use crate::dims::Dims;
use crate::kept_format::KeptFormat;
use pybuf_value::{DimList, Made, Text};
use std::alloc::Global;

/// The dimensions of a shape whose items lie one after the other and have `len` bytes together, as
/// a list.
///
/// The stride of a dimension is the bytes of one of its entries: those of all entries, divided by
/// their number.
fn row_major_list(alloc: Global, len: usize, itemsize: usize, shape: &[usize]) -> Made<DimList>
    requires entries { All (λ n. 0 < n) shape.now }
    requires whole { itemsize * product shape.now ≡ len }
    requires fits { len < 2 ^ 63 }
    ensures { IfOk result (λ dims. dims ≡ row_major_dims itemsize shape.now) }
{
    let mut dims = DimList::new(alloc);
    let mut size = len;
    for n in shape {
        size /= *n;
        dims.push((*n, size as isize, 0))?;
    }
    Ok(dims)
}

/// The dimensions of a shape whose items lie one after the other and have `len` bytes together.
fn row_major_dims(alloc: Global, len: usize, itemsize: usize, shape: &[usize]) -> Made<Dims>
    requires size_fits { itemsize < 2 ^ 63 }
    requires entries { All (λ n. 0 < n) shape.now }
    requires whole { itemsize * product shape.now ≡ len }
    requires fits { len < 2 ^ 63 }
    ensures { IfOk result (λ dims. dims ≡ row_major_dims itemsize shape.now) }
{
    match shape {
        [items] => Ok(Dims::one((*items, itemsize as isize, 0))),
        [rows, items] => Ok(Dims::two(
            (*rows, (len / *rows) as isize, 0),
            (*items, itemsize as isize, 0),
        )),
        _ => {
            let list = row_major_list(alloc, len, itemsize, shape)?;
            Ok(Dims::from_list(list))
        }
    }
}

/// The dimensions of a shape whose items lie one after the other in column order, as a list.
fn column_major_list(alloc: Global, itemsize: usize, shape: &[usize]) -> Made<DimList>
    requires entries { All (λ n. 0 < n) shape.now }
    requires fits { itemsize * product shape.now < 2 ^ 63 }
    ensures { IfOk result (λ dims. dims ≡ column_major_dims itemsize shape.now) }
{
    let mut dims = DimList::new(alloc);
    let mut size = itemsize;
    for n in shape {
        dims.push((*n, size as isize, 0))?;
        size *= *n;
    }
    Ok(dims)
}

impl BufferDescriptor {
    /// One dimension of items of another format and size over the same bytes, from the same start.
    ///
    /// The items must lie one after the other without a gap, as `is_contiguous` tells, and the new ones must make up
    /// their bytes, as in Python's `view.cast(format)` (Library reference, "Memory Views").
    /// Example: of six bytes the format `H` and the item size 2 give three items of two bytes.
    pub fn cast_flat(&self, _alloc: Global, format: Text, itemsize: usize) -> Made<BufferDescriptor>
        requires valid { IsPlaceable self.now }
        requires contiguous { (start : ℕ) (view : Layout) → Stands self.now start view → is_contiguous_layout view ≡ true }
        requires some_size { 0 < itemsize }
        requires size_fits { itemsize < 2 ^ 63 }
        requires whole_items { self.now.len % itemsize ≡ 0 }
        ensures made { Makes (flat_descriptor format itemsize (self.now.len / itemsize) self.now.readonly) result }
        ensures valid { IfOk result (λ d. (start room : ℕ) → IsValid self.now start room → IsValid d start room) }
        ensures stands { IfOk result (λ d. StandsChanged self.now (λ view. cast_of view format itemsize) d) }
    {
        Ok(self.cast_flat_as(KeptFormat::from_text(format), itemsize))
    }

    /// One dimension of items of another format and size over the same bytes, as `cast_flat`, of a format as it is
    /// kept. Takes no memory.
    /// Example: of six bytes the format `H` and the item size 2 give three items of two bytes.
    #[inline(always)]
    pub fn cast_flat_as(&self, format: KeptFormat, itemsize: usize) -> BufferDescriptor
        requires valid { IsPlaceable self.now }
        requires contiguous { (start : ℕ) (view : Layout) → Stands self.now start view → is_contiguous_layout view ≡ true }
        requires some_size { 0 < itemsize }
        requires size_fits { itemsize < 2 ^ 63 }
        requires whole_items { self.now.len % itemsize ≡ 0 }
        ensures made { result ≡ flat_descriptor format itemsize (self.now.len / itemsize) self.now.readonly }
        ensures valid { (start room : ℕ) → IsValid self.now start room → IsValid result start room }
        ensures stands { StandsChanged self.now (λ view. cast_of view format itemsize) result }
    {
        BufferDescriptor::flat(self.len(), self.readonly(), itemsize, format)
    }

    /// Items of another format and size over the same bytes, from the same start, in dimensions of these entries,
    /// row-major. Where there is no dimension, there is one item.
    ///
    /// The items must lie one after the other without a gap, as `is_contiguous` tells, and the new ones must make up
    /// their bytes, as in Python's `view.cast(format, shape)` (Library reference, "Memory Views"). There are at most
    /// 64 dimensions, each with an entry.
    /// Example: of six bytes the format `B`, the item size 1 and the shape `[2, 3]` give the strides 3 and 1.
    pub fn cast_shape(
        &self,
        alloc: Global,
        format: Text,
        itemsize: usize,
        shape: &[usize],
    ) -> Made<BufferDescriptor>
        requires valid { IsPlaceable self.now }
        requires contiguous { (start : ℕ) (view : Layout) → Stands self.now start view → is_contiguous_layout view ≡ true }
        requires some_size { 0 < itemsize }
        requires size_fits { itemsize < 2 ^ 63 }
        requires few_dimensions { length shape.now ≤ 64 }
        requires entries { All (λ n. 0 < n) shape.now }
        requires whole_items { itemsize * product shape.now ≡ self.now.len }
        ensures made { IfOk result (λ d. d ≡ shaped_cast self.now format itemsize shape.now) }
        ensures valid { IfOk result (λ d. (start room : ℕ) → IsValid self.now start room → IsValid d start room) }
        ensures stands { IfOk result (λ d. StandsChanged self.now (λ view. cast_to view format itemsize shape.now) d) }
    {
        self.cast_shape_as(alloc, KeptFormat::from_text(format), itemsize, shape)
    }

    /// Items of another format and size over the same bytes in dimensions of these entries, as `cast_shape`, of a
    /// format as it is kept. It takes memory for more dimensions than two.
    /// Example: of six bytes the format `B`, the item size 1 and the shape `[2, 3]` give the strides 3 and 1.
    pub fn cast_shape_as(
        &self,
        alloc: Global,
        format: KeptFormat,
        itemsize: usize,
        shape: &[usize],
    ) -> Made<BufferDescriptor>
        requires valid { IsPlaceable self.now }
        requires contiguous { (start : ℕ) (view : Layout) → Stands self.now start view → is_contiguous_layout view ≡ true }
        requires some_size { 0 < itemsize }
        requires size_fits { itemsize < 2 ^ 63 }
        requires few_dimensions { length shape.now ≤ 64 }
        requires entries { All (λ n. 0 < n) shape.now }
        requires whole_items { itemsize * product shape.now ≡ self.now.len }
        ensures made { IfOk result (λ d. d ≡ shaped_cast self.now format itemsize shape.now) }
        ensures valid { IfOk result (λ d. (start room : ℕ) → IsValid self.now start room → IsValid d start room) }
        ensures stands { IfOk result (λ d. StandsChanged self.now (λ view. cast_to view format itemsize shape.now) d) }
    {
        let dims = row_major_dims(alloc, self.len(), itemsize, shape)?;
        Ok(BufferDescriptor::from_dims(self.len(), self.readonly(), itemsize, format, dims))
    }

    /// Items of another format and size over the same bytes, from the same start, in dimensions of these entries, in
    /// column order. Item k in that order lies k item sizes after the first. Where there is no dimension, there is
    /// one item.
    ///
    /// The items of this one must lie one after the other without a gap, as `is_contiguous` tells, and the new ones
    /// must make up their bytes. There are at most 64 dimensions, each with an entry.
    /// Example: of six bytes the format `B`, the item size 1 and the shape `[2, 3]` give the strides 1 and 2.
    pub fn cast_shape_f(
        &self,
        alloc: Global,
        format: Text,
        itemsize: usize,
        shape: &[usize],
    ) -> Made<BufferDescriptor>
        requires valid { IsPlaceable self.now }
        requires contiguous { (start : ℕ) (view : Layout) → Stands self.now start view → is_contiguous_layout view ≡ true }
        requires some_size { 0 < itemsize }
        requires size_fits { itemsize < 2 ^ 63 }
        requires few_dimensions { length shape.now ≤ 64 }
        requires entries { All (λ n. 0 < n) shape.now }
        requires whole_items { itemsize * product shape.now ≡ self.now.len }
        ensures made { IfOk result (λ d. d ≡ column_cast self.now format itemsize shape.now) }
        ensures valid { IfOk result (λ d. (start room : ℕ) → IsValid self.now start room → IsValid d start room) }
        ensures stands { IfOk result (λ d. StandsChanged self.now (λ view. column_cast_to view format itemsize shape.now) d) }
    {
        let dims = column_major_list(alloc, itemsize, shape)?;
        let format = KeptFormat::from_text(format);
        let dims = Dims::from_list(dims);
        Ok(BufferDescriptor::from_dims(self.len(), self.readonly(), itemsize, format, dims))
    }
}
