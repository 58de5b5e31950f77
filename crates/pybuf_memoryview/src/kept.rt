//! Where the items of a view lie and how they read, as it is kept: by a descriptor and a start.
ghost use Rattle.std.specs.Prelude.{◌≡◌, ◌<◌, ◌≤◌, ◌+◌, ◌*◌, ◌%◌, ◌^◌, All, pos, ◌+ℤ◌, ◌≤ℤ◌, ◌<ℤ◌, nat_abs, true, length, map, replicate, slice_index, IfOk, ◌==◌, Ok};
ghost use Rattle.std.specs.List.{list_any};

use pybuf_desc::{BufferDescriptor, KeptFormat};
use pybuf_index::SaturatedSlice;
use pybuf_value::{CountList, Fault, Made, NumberList, Text, Twin};
use std::alloc::Global;
use std::marker::Model;

/// The layout of a view. It costs a few words, whatever it spans. A clause sees the whole layout,
/// with the place of each item.
/// Example: `KeptLayout::whole(alloc, 3, false)?` stands for three items of one byte, at 0, 1 and 2, that may be written.
#[derive(Debug, Drop)]
pub struct KeptLayout {
    descriptor: BufferDescriptor,
    start: usize,
}

impl Model for KeptLayout {
    ghost use Rattle.pybuf_desc.specs.Layouts.{Layout};
    ghost use Rattle.pybuf_desc.specs.Places.{layout_at};
    ghost use Rattle.pybuf_desc.specs.Valid.{IsPlaced};

    ghost Value = { Layout };

    ghost view = { λ v. layout_at v.descriptor v.start };

    ghost invariant = { λ v. IsPlaced v.descriptor v.start };
}

/// The number of entries of each dimension.
fn entries_of(alloc: Global, dims: &[(usize, isize, isize)]) -> Made<NumberList>
    ensures { IfOk result (λ list. list ≡ map (λ dim. pos dim.0) dims.now) }
{
    let mut list = NumberList::new(alloc);
    for dim in dims {
        list.push(dim.0 as i128)?;
    }
    Ok(list)
}

/// The same, as they are counted.
fn counts_of(alloc: Global, dims: &[(usize, isize, isize)]) -> Made<CountList>
    ensures { IfOk result (λ list. list ≡ map (λ dim. dim.0) dims.now) }
{
    let mut list = CountList::new(alloc);
    for dim in dims {
        list.push(dim.0)?;
    }
    Ok(list)
}

/// The stride of each dimension.
fn strides_of(alloc: Global, dims: &[(usize, isize, isize)]) -> Made<NumberList>
    ensures { IfOk result (λ list. list ≡ map (λ dim. dim.1) dims.now) }
{
    let mut list = NumberList::new(alloc);
    for dim in dims {
        list.push(dim.1 as i128)?;
    }
    Ok(list)
}

/// Whether a dimension has no entry.
fn is_zero_among(dims: &[(usize, isize, isize)]) -> bool
    ensures { result ≡ list_any (λ dim. dim.0 == 0) dims.now }
{
    dims.iter().any(|dim| dim.0 == 0)
}

/// So many zeros.
fn zeros(alloc: Global, count: usize) -> Made<NumberList>
    ensures { IfOk result (λ list. list ≡ replicate count (pos 0)) }
{
    let mut list = NumberList::new(alloc);
    for _ in 0..count {
        list.push(0)?;
    }
    Ok(list)
}

/// The place that lies so far from another.
fn place_after(place: usize, distance: isize) -> usize
    requires place_fits { place < 2 ^ 63 }
    requires low { pos 0 ≤ℤ (pos place +ℤ distance) }
    requires high { (pos place +ℤ distance) <ℤ pos (2 ^ 63) }
    ensures { result ≡ nat_abs (pos place +ℤ distance) }
{
    (place as isize + distance) as usize
}

impl KeptLayout {
    ghost use Rattle.pybuf_desc.specs.Layouts.{bytes_layout, bytes_layout_from, product, HasItemsOfItsShape};
    ghost use Rattle.pybuf_desc.specs.Contiguous.{is_contiguous_layout};
    ghost use Rattle.pybuf_desc.specs.Slices.{slice_of};
    ghost use Rattle.pybuf_desc.specs.Casts.{cast_of};
    ghost use Rattle.pybuf_desc.specs.ShapedCasts.{cast_to};
    ghost use Rattle.pybuf_desc.specs.Packed.{row_major_of};
    ghost use Rattle.pybuf_desc.specs.Places.{Stands, layout_at};
    ghost use Rattle.pybuf_desc.specs.Valid.{IsPlaced};
    ghost use Rattle.pybuf_desc.specs.ColumnCasts.{column_cast_to};
    ghost use Rattle.pybuf_desc.specs.ColumnOrder.{columns_of, is_f_contiguous_layout};
    ghost use Rattle.pybuf_memoryview.specs.Orders.{nbytes_of, has_zero_entry};
    ghost use Rattle.std.specs.Prelude.{false};
    ghost use Rattle.pybuf_memoryview.specs.Keys.{item_at_indices};
    ghost use Rattle.pybuf_memoryview.specs.KeyPlaces.{IsStartOf, GivesStartOf};

    /// The layout that a descriptor stands for where the first item starts at this place. Takes no
    /// memory.
    /// Example: of `BufferDescriptor::simple(alloc, 3, false)?` and the start 1 the items start at 1, 2 and 3.
    pub fn of_descriptor(descriptor: BufferDescriptor, start: usize) -> KeptLayout
        requires { IsPlaced descriptor start }
        ensures { result ≡ layout_at descriptor start }
    {
        KeptLayout { descriptor, start }
    }

    /// The layout of all of so many bytes, as items of one byte in one dimension.
    /// Example: of the length 3 the items start at 0, 1 and 2.
    #[inline(always)]
    pub fn whole(alloc: Global, len: usize, readonly: bool) -> Made<KeptLayout>
        requires { len < 2 ^ 63 }
        ensures { IfOk result (λ v. v ≡ bytes_layout len readonly) }
    {
        pybuf_desc::descriptors_stand_for_one_view();
        let descriptor = BufferDescriptor::simple(alloc, len, readonly)?;
        Ok(KeptLayout {
            descriptor,
            start: 0,
        })
    }

    /// The layout of so many bytes from a place on, as items of one byte in one dimension.
    /// Example: of the start 1 and the count 2 the items start at 1 and 2.
    pub fn range(alloc: Global, start: usize, count: usize, readonly: bool) -> Made<KeptLayout>
        requires { start + count < 2 ^ 63 }
        ensures { IfOk result (λ v. v ≡ bytes_layout_from start count readonly) }
    {
        pybuf_desc::descriptors_stand_for_one_view();
        let descriptor = BufferDescriptor::simple(alloc, count, readonly)?;
        Ok(KeptLayout { descriptor, start })
    }

    /// The layout of the items that a slice picks, along the first dimension.
    /// Example: of six bytes the slice `::-2` has items that start at 5, 3 and 1.
    #[inline(always)]
    pub fn sliced(&self, alloc: Global, slice: SaturatedSlice) -> Made<KeptLayout>
        requires { 0 < length self.now.shape }
        ensures { IfOk result (λ v. v ≡ slice_of self.now slice) }
    {
        pybuf_desc::placed_descriptors_stand();
        pybuf_desc::descriptors_stand_for_one_view();
        let (descriptor, start) = self.descriptor.sliced(alloc, self.start, &slice)?;
        Ok(KeptLayout { descriptor, start })
    }

    /// The layout of the same bytes as items of another format and size, in one dimension. Takes no memory.
    /// Example: of six bytes the format `H` and the item size 2 give items that start at 0, 2 and 4.
    #[inline(always)]
    pub fn cast(&self, format: KeptFormat, itemsize: usize) -> KeptLayout
        requires contiguous { is_contiguous_layout self.now ≡ true }
        requires some_size { 0 < itemsize }
        requires size_fits { itemsize < 2 ^ 63 }
        requires whole_items { nbytes_of self.now % itemsize ≡ 0 }
        ensures { result ≡ cast_of self.now format itemsize }
    {
        pybuf_desc::placed_descriptors_stand();
        pybuf_desc::descriptors_stand_for_one_view();
        pybuf_desc::contiguity_is_the_same_anywhere();
        let descriptor = self.descriptor.cast_flat_as(format, itemsize);
        KeptLayout {
            descriptor,
            start: self.start,
        }
    }

    /// The layout of the same bytes as items of another format and size, in dimensions of these entries, row by row.
    /// Example: of six bytes the format `B`, the item size 1 and the shape `[2, 3]` give the strides 3 and 1.
    pub fn cast_shape(
        &self,
        alloc: Global,
        format: KeptFormat,
        itemsize: usize,
        shape: &[usize],
    ) -> Made<KeptLayout>
        requires contiguous { is_contiguous_layout self.now ≡ true }
        requires some_size { 0 < itemsize }
        requires size_fits { itemsize < 2 ^ 63 }
        requires few_dimensions { length shape.now ≤ 64 }
        requires entries { All (λ n. 0 < n) shape.now }
        requires whole_items { itemsize * product shape.now ≡ nbytes_of self.now }
        ensures { IfOk result (λ v. v ≡ cast_to self.now format itemsize shape.now) }
    {
        pybuf_desc::placed_descriptors_stand();
        pybuf_desc::descriptors_stand_for_one_view();
        pybuf_desc::contiguity_is_the_same_anywhere();
        let descriptor = self
            .descriptor
            .cast_shape_as(alloc, format, itemsize, shape)?;
        Ok(KeptLayout {
            descriptor,
            start: self.start,
        })
    }

    /// The layout of the same bytes as items of another format and size, in dimensions of these entries, in column
    /// order.
    /// Example: of six bytes the format `B`, the item size 1 and the shape `[2, 3]` give the strides 1 and 2.
    pub fn cast_shape_f(
        &self,
        alloc: Global,
        format: Text,
        itemsize: usize,
        shape: &[usize],
    ) -> Made<KeptLayout>
        requires contiguous { is_contiguous_layout self.now ≡ true }
        requires some_size { 0 < itemsize }
        requires size_fits { itemsize < 2 ^ 63 }
        requires few_dimensions { length shape.now ≤ 64 }
        requires entries { All (λ n. 0 < n) shape.now }
        requires whole_items { itemsize * product shape.now ≡ nbytes_of self.now }
        ensures { IfOk result (λ v. v ≡ column_cast_to self.now format itemsize shape.now) }
    {
        pybuf_desc::placed_descriptors_stand();
        pybuf_desc::descriptors_stand_for_one_view();
        pybuf_desc::contiguity_is_the_same_anywhere();
        let descriptor = self
            .descriptor
            .cast_shape_f(alloc, format, itemsize, shape)?;
        Ok(KeptLayout {
            descriptor,
            start: self.start,
        })
    }

    /// The layout of the same items with the dimensions in reversed order. Its row-major order is the column order of
    /// this one.
    /// Example: of the shape `[2, 3]` it has the shape `[3, 2]`.
    pub fn columns(&self, alloc: Global) -> Made<KeptLayout>
        requires { has_zero_entry self.now.shape ≡ false }
        ensures { IfOk result (λ v. v ≡ columns_of self.now) }
    {
        pybuf_desc::placed_descriptors_stand();
        pybuf_desc::descriptors_stand_for_one_view();
        let descriptor = self.descriptor.turned(alloc)?;
        Ok(KeptLayout {
            descriptor,
            start: self.start,
        })
    }

    /// The layout of the same items one after the other, as they lie in a copy of their bytes.
    /// Example: of three items that start at 5, 3 and 1 it has items that start at 0, 1 and 2.
    pub fn to_row_major(&self, alloc: Global) -> Made<KeptLayout>
        ensures { IfOk result (λ v. v ≡ row_major_of self.now) }
    {
        pybuf_desc::placed_descriptors_stand();
        pybuf_desc::descriptors_stand_for_one_view();
        let descriptor = self.descriptor.to_row_major(alloc)?;
        Ok(KeptLayout {
            descriptor,
            start: 0,
        })
    }

    /// The layout of the same items, which may only be read.
    /// Example: `layout.to_readonly(alloc)?.is_readonly()` is true.
    pub fn to_readonly(&self, alloc: Global) -> Made<KeptLayout>
        ensures { IfOk result (λ v. v ≡ record self.now { readonly = true }) }
    {
        let descriptor = self.descriptor.to_readonly(alloc)?;
        let start = self.start;
        Ok(KeptLayout { descriptor, start })
    }

    /// The descriptor, lent, and where the first item starts, counted in bytes from 0. Takes no memory.
    /// Example: of `KeptLayout::range(alloc, 1, 2, false)?` it is a descriptor of two items, and 1.
    pub fn placed(&self) -> (&BufferDescriptor, usize)
        ensures stands { Stands result.0.now result.1 self.now }
        ensures placed { IsPlaced result.0.now result.1 }
        ensures counted { HasItemsOfItsShape self.now }
    {
        pybuf_desc::placed_descriptors_stand();
        pybuf_desc::described_views_have_their_shape();
        (&self.descriptor, self.start)
    }

    /// The number of entries of the first dimension, or 0 where there is no dimension. Takes no memory.
    /// Example: of the shape `[2, 3]` it is 2.
    pub fn first_entry(&self) -> usize
        ensures value { result ≡ slice_index self.now.shape 0 }
        ensures small { result < 2 ^ 63 }
    {
        match self.descriptor.dim_desc().first() {
            Some(dim) => dim.0,
            None => 0,
        }
    }

    /// The place of the first byte of an item, in a view of one dimension. Takes no memory.
    /// Example: of `KeptLayout::range(alloc, 1, 2, false)?` the item 1 has the place 2.
    pub fn place(&self, item: usize) -> usize
        requires one_dimension { length self.now.shape ≡ 1 }
        requires inside { item < slice_index self.now.shape 0 }
        ensures value { result ≡ slice_index self.now.starts item }
        ensures item { item < length self.now.starts }
    {
        pybuf_desc::placed_descriptors_stand();
        pybuf_desc::positions_are_places();
        let indices = [item];
        place_after(self.start, self.descriptor.fast_position(&indices))
    }

    /// The first place of the item at an index for each dimension, where a negative index counts from
    /// the end. Takes no memory.
    ///
    /// Refused with `IndexError` where an index is out of bounds.
    pub(crate) fn place_at(&self, indices: &[isize]) -> Result<usize, Fault>
        requires { length indices.now ≡ length self.now.shape }
        ensures { GivesStartOf self.now (item_at_indices self.now.shape indices.now) result }
    {
        pybuf_desc::placed_descriptors_stand();
        pybuf_desc::positions_are_places();
        let offset = self.descriptor.position(indices)?;
        Ok(place_after(self.start, offset))
    }

    /// The first place of the one item of a view without dimensions: the view's own start.
    pub(crate) fn first_place(&self) -> usize
        requires { length self.now.shape ≡ 0 }
        ensures { IsStartOf self.now (Ok 0) result }
    {
        self.start
    }

    /// The number of bytes of an item. Takes no memory.
    /// Example: of the format `H` it is 2.
    pub fn itemsize(&self) -> usize
        ensures { result ≡ self.now.itemsize }
    {
        self.descriptor.itemsize
    }

    /// Whether the items may only be read. Takes no memory.
    /// Example: of `KeptLayout::whole(alloc, 3, true)?` it is true.
    pub fn is_readonly(&self) -> bool
        ensures { result ≡ self.now.readonly }
    {
        self.descriptor.readonly
    }

    /// Whether the items lie one after the other, row by row. Takes no memory.
    /// Example: of `KeptLayout::whole(alloc, 3, false)?` it is true, and of its slice `::2` false.
    pub fn is_contiguous(&self) -> bool
        ensures { result ≡ is_contiguous_layout self.now }
    {
        pybuf_desc::placed_descriptors_stand();
        self.descriptor.is_contiguous()
    }

    /// The number of bytes of all items. Takes no memory.
    /// Example: of three items of two bytes it is 6.
    pub fn nbytes(&self) -> usize
        ensures { result ≡ nbytes_of self.now }
    {
        self.descriptor.len
    }

    /// The number of dimensions. Takes no memory.
    /// Example: of the shape `[2, 3]` it is 2.
    pub fn ndim(&self) -> usize
        ensures value { result ≡ length self.now.shape }
        ensures few { result ≤ 64 }
    {
        self.descriptor.dim_desc().len()
    }

    /// Whether a dimension has no entry. Takes no memory.
    /// Example: of `KeptLayout::whole(alloc, 0, false)?` it is true.
    pub fn has_zero(&self) -> bool
        ensures { result ≡ has_zero_entry self.now.shape }
    {
        is_zero_among(self.descriptor.dim_desc())
    }

    /// The number of entries of each dimension, as whole numbers.
    /// Example: of six bytes that were cast in the shape `[2, 3]` it has 2 and 3.
    pub fn shape(&self, alloc: Global) -> Made<NumberList>
        ensures { IfOk result (λ list. list ≡ map (λ n. pos n) self.now.shape) }
    {
        entries_of(alloc, self.descriptor.dim_desc())
    }

    /// The number of entries of each dimension, as counts.
    /// Example: of six bytes that were cast in the shape `[2, 3]` it has 2 and 3.
    pub fn counts(&self, alloc: Global) -> Made<CountList>
        ensures { IfOk result (λ list. list ≡ self.now.shape) }
    {
        counts_of(alloc, self.descriptor.dim_desc())
    }

    /// The stride of each dimension, in bytes.
    /// Example: of six bytes that were cast in the shape `[2, 3]` it has 3 and 1.
    pub fn strides(&self, alloc: Global) -> Made<NumberList>
        ensures { IfOk result (λ list. list ≡ self.now.strides) }
    {
        strides_of(alloc, self.descriptor.dim_desc())
    }

    /// The suboffset of each dimension, which is 0.
    /// Example: of the shape `[2, 3]` it has 0 and 0.
    pub fn suboffsets(&self, alloc: Global) -> Made<NumberList>
        ensures { IfOk result (λ list. list ≡ replicate (length self.now.shape) (pos 0)) }
    {
        zeros(alloc, self.descriptor.ndim())
    }

    /// The format of an item, lent. Takes no memory.
    /// Example: of `KeptLayout::whole(alloc, 3, false)?` it is the text `B`.
    pub fn format_text(&self) -> &KeptFormat
        ensures { result.now ≡ self.now.format }
    {
        &self.descriptor.format
    }

    /// Whether the items lie one after the other in column order. Takes no memory.
    /// Example: of six bytes it is true for `cast_shape_f` in the shape `[2, 3]`, and false for `cast_shape`.
    pub fn is_f_contiguous(&self) -> bool
        ensures { result ≡ is_f_contiguous_layout self.now }
    {
        pybuf_desc::placed_descriptors_stand();
        self.descriptor.is_f_contiguous()
    }
}

impl Twin for KeptLayout {
    fn copy(&self, alloc: Global) -> Made<KeptLayout> {
        let descriptor = self.descriptor.copy(alloc)?;
        let start = self.start;
        Ok(KeptLayout { descriptor, start })
    }
}
