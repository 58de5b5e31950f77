//! Slices in each dimension.
ghost use Rattle.std.specs.Prelude.{◌≡◌, ◌^◌, ◌<◌, ◌+ℤ◌, ◌*ℤ◌, pos, false, length, drop, IfOk, All};
ghost use Rattle.pybuf_value.specs.Halting.{given_by};
ghost use Rattle.pybuf_value.specs.Refusing.{IfDone};
ghost use Rattle.pybuf_index.specs.Parts.{IsSaturated, nearest_word};
ghost use Rattle.pybuf_desc.specs.Layouts.{Layout};
ghost use Rattle.pybuf_desc.specs.Descriptor.{shape_of};
ghost use Rattle.pybuf_desc.specs.Places.{Stands};
ghost use Rattle.pybuf_desc.specs.Positions.{AreIndices, offset_of};
ghost use Rattle.pybuf_desc.specs.Valid.{IsPlaced};
ghost use Rattle.pybuf_nd.specs.Dims.{cut_dim, cut_dims, firsts_of};
ghost use Rattle.pybuf_nd.specs.Selections.{has_zero, counts_of, picks_of_each, selection_of, selection_check};
ghost use Rattle.pybuf_nd.specs.Answering.{RefusedAs, StaysValidAt};

use crate::made::{has_zero_entry, in_dims, place_after};
use pybuf_desc::BufferDescriptor;
use pybuf_index::SaturatedSlice;
use pybuf_value::{DimList, Fault, Made, Outcome, Tried, saturate};
use std::alloc::Global;

/// A stride times a step, as the nearest that fits `isize`.
fn stride_after(stride: isize, step: isize) -> isize
    ensures { result ≡ nearest_word (stride *ℤ step) }
{
    saturate(stride as i128 * step as i128)
}

/// What a slice makes of a dimension: as many entries as it picks, and the stride of its step.
fn cut_dim(dim: (usize, isize, isize), slice: &SaturatedSlice) -> (usize, isize, isize)
    requires { dim.0 < 2 ^ 63 }
    ensures cut { result ≡ cut_dim dim slice.now }
    ensures saturated { IsSaturated slice.now }
{
    let (_, step, count) = slice.adjust_indices(dim.0);
    (count, stride_after(dim.1, step), dim.2)
}

/// What slices make of the dimensions, one slice for each.
fn cut_dims(
    alloc: Global,
    dims: &[(usize, isize, isize)],
    slices: &[SaturatedSlice],
) -> Made<DimList>
    requires one_each { length slices.now ≡ length dims.now }
    requires fits { All (λ dim. dim.0 < 2 ^ 63) dims.now }
    ensures cut { IfOk result (λ cut. cut ≡ cut_dims dims.now slices.now) }
    ensures saturated { IfOk result (λ cut. All IsSaturated slices.now) }
{
    let mut cut = DimList::from_vec(Vec::with_capacity(alloc, dims.len())?);
    for k in 0..dims.len() {
        cut.push(cut_dim(dims[k], &slices[k]))?;
    }
    Ok(cut)
}

/// Whether a dimension after the first has no entry.
fn lacks_later_entry(dims: &[(usize, isize, isize)]) -> bool
    ensures { result ≡ has_zero (shape_of (drop 1 dims.now)) }
{
    match dims.split_first() {
        None => false,
        Some((_, later)) => has_zero_entry(later),
    }
}

/// The place of the item at these indices.
fn place_at(desc: &BufferDescriptor, start: usize, indices: &[usize]) -> usize
    requires placed { IsPlaced desc.now start }
    requires in_range { AreIndices indices.now desc.now.dims }
    ensures { pos result ≡ pos start +ℤ offset_of indices.now desc.now.dims }
{
    pybuf_desc::placed_descriptors_stand();
    pybuf_desc::positions_are_places();
    place_after(start, desc.fast_position(indices))
}

/// Where the first item of the selection lies, and where nothing is picked, where the items start.
fn start_of_selection(desc: &BufferDescriptor, start: usize, slices: &[SaturatedSlice]) -> usize
    requires placed { IsPlaced desc.now start }
    requires one_each { length slices.now ≡ length desc.now.dims }
    requires saturated { All IsSaturated slices.now }
    ensures { has_zero (counts_of (picks_of_each (shape_of desc.now.dims) slices.now)) ≡ false → pos result ≡ pos start +ℤ offset_of (firsts_of (picks_of_each (shape_of desc.now.dims) slices.now)) desc.now.dims }
{
    pybuf_index::slices_have_spans();
    let mut firsts = [0; 64];
    let dims = desc.dim_desc();
    for k in 0..dims.len() {
        match slices[k].iter(dims[k].0).next() {
            None => return start,
            Some(first) => firsts[k] = first,
        }
    }
    place_at(desc, start, &firsts[..dims.len()])
}

/// The items at the indices that slices pick, one slice for each dimension, and where the first of them lies, as
/// NumPy's `items[SLICE, SLICE, ..]` (NumPy manual, "Indexing on ndarrays", "Slicing and striding"). Each dimension
/// has as many entries as its slice has indices, in their order, and its stride is the old one times the step,
/// clamped to `isize`. Format, item size and what may be written stay. It takes one block of memory, and one for the
/// format where that is more than a letter.
///
/// Refused with `ValueError` exactly where a slice has no index in a dimension after the first.
/// Example: of `[[1, 2, 3], [4, 5, 6]]` the slices `::-1` and `1:` give `[[5, 6], [2, 3]]`.
pub fn slice_all(
    alloc: Global,
    desc: &BufferDescriptor,
    start: usize,
    slices: &[SaturatedSlice],
) -> Tried<(BufferDescriptor, usize)>
    requires placed { IsPlaced desc.now start }
    requires some_dimension { 0 < length desc.now.dims }
    requires one_each { length slices.now ≡ length desc.now.dims }
    ensures refused { IfOk result (λ answer. RefusedAs (selection_check (shape_of desc.now.dims) slices.now) answer) }
    ensures valid { IfOk result (λ answer. StaysValidAt desc.now start answer) }
    ensures stands { IfOk result (λ answer. IfDone (λ made. (view : Layout) → Stands desc.now start view → Stands made.0 made.1 (selection_of view slices.now)) (given_by answer)) }
{
    pybuf_index::slices_have_spans();
    let cut = cut_dims(alloc, desc.dim_desc(), slices)?;
    if lacks_later_entry(cut.as_slice()) {
        return Ok(Outcome::Refused(Fault::Value));
    }
    let next = start_of_selection(desc, start, slices);
    let made = in_dims(alloc, desc, cut)?;
    Ok(Outcome::Done((made, next)))
}
