//! The slice of a descriptor along its first dimension.
ghost use Rattle.std.specs.Prelude.{◌≡◌, ◌+◌, ◌*◌, ◌^◌, ◌<◌, ◌≤◌, ℕ, ℤ, pos, [], ◌∷◌, ◌+ℤ◌, ◌*ℤ◌, ◌≤ℤ◌, ◌<ℤ◌, FitsSigned, IfOk, length, slice_set, slice_index_or};
ghost use Rattle.std.specs.Int.{w64};
ghost use Rattle.pybuf_index.specs.Parts.{picks_of, nearest_word};
ghost use Rattle.pybuf_desc.specs.Descriptor.{Descriptor, shape_of, strides_of};
ghost use Rattle.pybuf_desc.specs.Valid.{IsValid, IsPlaced};
ghost use Rattle.pybuf_desc.specs.Slices.{first_entry, first_stride, slice_of};
ghost use Rattle.pybuf_desc.specs.Places.{StandsMoved};

use crate::descriptor::BufferDescriptor;
use pybuf_index::SaturatedSlice;
use pybuf_value::{Made, saturate};
use std::alloc::Global;

/// The place of an entry of a dimension.
fn entry_place(start: usize, index: usize, stride: isize) -> usize
    requires index_fits { index < 2 ^ 63 }
    requires start_fits { start < 2 ^ 63 }
    requires product_fits { FitsSigned w64 (pos index *ℤ stride) }
    requires low { pos 0 ≤ℤ (pos start +ℤ pos index *ℤ stride) }
    requires high { (pos start +ℤ pos index *ℤ stride) <ℤ pos (2 ^ 63) }
    ensures { pos result ≡ pos start +ℤ pos index *ℤ stride }
{
    (start as isize + index as isize * stride) as usize
}

/// The bytes of `count` of the `shape` entries that a dimension has.
fn len_of_entries(len: usize, shape: usize, count: usize) -> usize
    requires { count ≤ shape }
    ensures { (entry : ℕ) → len ≡ shape * entry → result ≡ count * entry }
{
    if count == 0 {
        return 0;
    }
    // Most views have one dimension of single bytes. These need no division.
    if shape == len {
        return count;
    }
    len / shape * count
}

/// The first index of a span, which is its greatest where the step is negative.
fn first_of_span(low: usize, high: usize, step: isize) -> usize
    requires { low < high }
    ensures rises { pos 0 ≤ℤ step → result ≡ low }
    ensures falls { step <ℤ pos 0 → result + 1 ≡ high }
{
    if step < 0 { high - 1 } else { low }
}

/// A stride times a step, as the nearest that fits `isize`.
fn stride_after(stride: isize, step: isize) -> isize
    ensures { result ≡ nearest_word (stride *ℤ step) }
{
    saturate(stride as i128 * step as i128)
}

impl BufferDescriptor {
    /// The slice along the first dimension of the items that start at `start`, and where its own items start.
    ///
    /// The first dimension has the entries at the indices of the slice, in that order. Its number of entries is
    /// theirs, and its stride is the old one times the step, clamped to `isize`. Two items or more show that stride,
    /// and then it is exact; elsewhere no place depends on it. A slice without indices leaves the start where it was.
    /// All else stays, as in Python, where a slice of a view is a subview (Library reference, "Memory Views").
    /// Example: of six bytes from 0 on the slice `::-2` has the dimensions `[(3, -2, 0)]`, and starts at 5.
    #[inline(always)]
    pub fn sliced(
        &self,
        alloc: Global,
        start: usize,
        slice: &SaturatedSlice,
    ) -> Made<(BufferDescriptor, usize)>
        requires placed { IsPlaced self.now start }
        requires some_dimension { 0 < length self.now.dims }
        ensures stands { IfOk result (λ r. StandsMoved self.now start (λ view. slice_of view slice.now) r.0 r.1) }
        ensures valid { IfOk result (λ r. (room : ℕ) → IsValid self.now start room → IsValid r.0 r.1 room) }
        ensures exact { IfOk result (λ r. 1 < first_entry (shape_of r.0.dims) → first_stride (strides_of r.0.dims) ≡ first_stride (strides_of self.now.dims) *ℤ slice.now.step) }
        ensures unmoved { IfOk result (λ r. first_entry (shape_of r.0.dims) ≡ 0 → r.1 ≡ start) }
    {
        let dims = self.dim_desc();
        let shape = dims[0].0;
        let stride = dims[0].1;
        let (range, step, count) = slice.adjust_indices(shape);
        let len = len_of_entries(self.len, shape, count);
        let descriptor = self.with_first(alloc, len, count, stride_after(stride, step))?;
        if count == 0 {
            return Ok((descriptor, start));
        }
        let first = first_of_span(range.start, range.end, step);
        let next = entry_place(start, first, stride);
        Ok((descriptor, next))
    }
}
