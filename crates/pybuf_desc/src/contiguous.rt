//! Items one after the other without a gap.
ghost use Rattle.std.specs.Prelude.{◌≡◌, ℕ, ◌*◌, ◌-◌, ◌^◌, ◌<◌, ◌≤◌, ◌↔◌, ℤ, pos, length, drop, All, IsTrue, IsSomeAnd, slice_get};
ghost use Rattle.pybuf_desc.specs.Layouts.{Layout, product};
ghost use Rattle.pybuf_desc.specs.Contiguous.{is_contiguous_layout};
ghost use Rattle.pybuf_desc.specs.Descriptor.{shape_of};
ghost use Rattle.pybuf_desc.specs.Places.{places, Stands};
ghost use Rattle.pybuf_desc.specs.Valid.{IsPlaceable};
ghost use Rattle.pybuf_desc.specs.RowMajor.{IsContiguous, AreRowMajorStrides};
ghost use Rattle.pybuf_desc.specs.Tails.{tail_of};
ghost use Rattle.pybuf_desc.specs.ColumnOrder.{is_f_contiguous_layout};
ghost use Rattle.pybuf_desc.specs.ColumnMajor.{column_places, AreColumnMajorStrides};

use crate::checks::has_zero;
use crate::descriptor::BufferDescriptor;

/// Whether each dimension of more than one entry has as stride the item size times the number of
/// items of the later dimensions.
fn has_row_major_strides(dims: &[(usize, isize, isize)], itemsize: usize) -> bool
    requires entries { All (λ dim. 0 < dim.0) dims.now }
    requires fits { itemsize * product (shape_of dims.now) < 2 ^ 63 }
    ensures { IsTrue result ↔ AreRowMajorStrides itemsize dims.now }
{
    let mut size = itemsize;
    let mut k = dims.len();
    while k > 0 {
        k -= 1;
        let shape = dims[k].0;
        if shape > 1 {
            if dims[k].1 != size as isize {
                return false;
            }
            size *= shape;
        }
    }
    true
}

/// The number of dimensions before the greatest number of last ones of which each that has more than
/// one entry has as stride the item size times the number of items of the later dimensions.
fn dims_before_tail(dims: &[(usize, isize, isize)], itemsize: usize) -> usize
    requires entries { All (λ dim. 0 < dim.0) dims.now }
    requires fits { itemsize * product (shape_of dims.now) < 2 ^ 63 }
    ensures few { result ≤ length dims.now }
    ensures packed { AreRowMajorStrides itemsize (drop result dims.now) }
    ensures greatest { 0 < result → AreRowMajorStrides itemsize (drop (result - 1) dims.now) → ⊥ }
{
    let mut size = itemsize;
    let mut k = dims.len();
    while k > 0 {
        let shape = dims[k - 1].0;
        if shape > 1 {
            if dims[k - 1].1 != size as isize {
                return k;
            }
            size *= shape;
        }
        k -= 1;
    }
    0
}

/// Whether each dimension of more than one entry has as stride the item size times the product of
/// the earlier entries.
fn has_column_major_strides(dims: &[(usize, isize, isize)], itemsize: usize) -> bool
    requires entries { All (λ dim. 0 < dim.0) dims.now }
    requires fits { itemsize * product (shape_of dims.now) < 2 ^ 63 }
    ensures { IsTrue result ↔ AreColumnMajorStrides itemsize dims.now }
{
    let mut size = itemsize;
    for dim in dims {
        let shape = dim.0;
        if shape > 1 {
            if dim.1 != size as isize {
                return false;
            }
            size *= shape;
        }
    }
    true
}

impl BufferDescriptor {
    /// The tail: the greatest number of last dimensions of which each that has more than one entry has
    /// as stride the item size times the product of the entries after it, where there are items. Takes
    /// no memory.
    pub(crate) fn tail(&self) -> usize
        requires { IsPlaceable self.now }
        ensures few { result ≤ tail_of self.now }
        ensures whole { 0 < product (shape_of self.now.dims) → result ≡ tail_of self.now }
    {
        let dims = self.dim_desc();
        if has_zero(dims) {
            return 0;
        }
        dims.len() - dims_before_tail(dims, self.itemsize())
    }

    /// Whether the items lie one after the other, row-major, without a gap. That is C-contiguous (C API, "Buffer
    /// Protocol", "Contiguity requests"). It is true where there is no item. Takes no memory.
    /// Example: of bytes in the shape `[2, 3]` it is true with the strides 3 and 1, and false with 1 and 2.
    pub fn is_contiguous(&self) -> bool
        requires { IsPlaceable self.now }
        ensures view { (start : ℕ) (view : Layout) → Stands self.now start view → result ≡ is_contiguous_layout view }
        ensures places { (start : ℤ) → (IsTrue result ↔ IsContiguous self.now.itemsize start (places self.now.dims start)) }
        ensures strides { 0 < self.now.len → (IsTrue result ↔ AreRowMajorStrides self.now.itemsize self.now.dims) }
    {
        if self.len() == 0 {
            return true;
        }
        has_row_major_strides(self.dim_desc(), self.itemsize())
    }

    /// Whether the items lie one after the other, in column order, without a gap. That is F-contiguous (C API,
    /// "Buffer Protocol", "Contiguity requests"). It is true where there is no item. Takes no memory.
    /// Example: of bytes in the shape `[2, 3]` it is true with the strides 1 and 2, and false with 3 and 1.
    pub fn is_f_contiguous(&self) -> bool
        requires { IsPlaceable self.now }
        ensures view { (start : ℕ) (view : Layout) → Stands self.now start view → result ≡ is_f_contiguous_layout view }
        ensures places { (start : ℤ) → (IsTrue result ↔ IsContiguous self.now.itemsize start (column_places self.now.dims start)) }
        ensures strides { 0 < self.now.len → (IsTrue result ↔ AreColumnMajorStrides self.now.itemsize self.now.dims) }
    {
        if self.len() == 0 {
            return true;
        }
        has_column_major_strides(self.dim_desc(), self.itemsize())
    }

    /// Whether the items of a row, which differ in the last index alone, lie one after the other. Takes no memory.
    /// Example: of bytes in the shape `[2, 3]` it is true with the strides 4 and 1, and false with 1 and 2.
    pub fn is_last_dim_contiguous(&self) -> bool
        requires { 0 < length self.now.dims }
        ensures last { IsTrue result ↔ IsSomeAnd (slice_get self.now.dims (length self.now.dims - 1)) (λ dim. (dim.1 ≡ pos self.now.itemsize) × (dim.2 ≡ pos 0)) }
    {
        let dims = self.dim_desc();
        let last = dims[dims.len() - 1];
        if last.2 != 0 {
            return false;
        }
        if last.1 < 0 {
            return false;
        }
        last.1 as usize == self.itemsize
    }
}
