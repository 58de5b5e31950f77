//! Descriptors of the parts of a picture: cropped, flipped and turned.
ghost use Rattle.std.specs.Prelude.{◌≡◌, ◌≢◌, ◌<◌, ◌≤◌, ◌*◌, ◌^◌, ℕ, pos, [], ◌∷◌, length, IfOk};
ghost use Rattle.pybuf_desc.specs.Layouts.{Layout};
ghost use Rattle.pybuf_desc.specs.Places.{layout_at};
ghost use Rattle.pybuf_desc.specs.Valid.{IsValid, IsPlaced};
ghost use Rattle.pybuf_nd.specs.Selections.{selection_of};
ghost use Rattle.pybuf_nd.specs.Axes.{view_in_order};
ghost use Rattle.example_picture.specs.Parts.{IsCropped, IsFlipped, IsTurned, IsWhole};
ghost use Rattle.example_picture.specs.Cuts.{part_of, IsFrame, IsSome, between};

use pybuf_desc::{BufferDescriptor, KeptFormat};
use pybuf_index::SaturatedSlice;
use pybuf_memoryview::KeptLayout;
use pybuf_nd::{permute, slice_all};
use pybuf_value::{Made, Outcome, PySlice, Twin};
use std::alloc::Global;
use std::ops::Range;

/// The slice of these parts.
fn slice(start: Option<isize>, stop: Option<isize>, step: isize) -> SaturatedSlice
    requires { step ≢ pos 0 }
    ensures { result ≡ record { start = start; stop = stop; step = step } }
{
    match SaturatedSlice::with_slice(&PySlice::new(start, stop, Some(step))) {
        Ok(slice) => slice,
        Err(_) => unreachable!(),
    }
}

/// The slice of a range.
fn between(range: Range<usize>) -> SaturatedSlice
    requires start { range.start < 2 ^ 63 }
    requires end { range.end < 2 ^ 63 }
    ensures { result ≡ between range }
{
    slice(Some(range.start as isize), Some(range.end as isize), 1)
}

/// The items at the indices of slices, of which each has one.
fn selected(
    alloc: Global,
    desc: &BufferDescriptor,
    start: usize,
    slices: &[SaturatedSlice],
) -> Made<(BufferDescriptor, usize)>
    requires placed { IsPlaced desc.now start }
    requires some_dimension { 0 < length desc.now.dims }
    requires one_each { length slices.now ≡ length desc.now.dims }
    requires some { IsSome (layout_at desc.now start).shape slices.now }
    ensures valid { IfOk result (λ made. (room : ℕ) → IsValid desc.now start room → IsValid made.0 made.1 room) }
    ensures view { IfOk result (λ made. layout_at made.0 made.1 ≡ selection_of (layout_at desc.now start) slices.now) }
{
    pybuf_desc::placed_descriptors_stand();
    pybuf_desc::descriptors_stand_for_one_view();
    match slice_all(alloc, desc, start, slices)? {
        Outcome::Done(made) => Ok(made),
        Outcome::Refused(_) => unreachable!(),
    }
}

/// The rows and columns of a part in these ranges.
pub fn cropped_part(
    alloc: Global,
    desc: &BufferDescriptor,
    start: usize,
    rows: Range<usize>,
    columns: Range<usize>,
) -> Made<(BufferDescriptor, usize)>
    requires placed { IsPlaced desc.now start }
    requires frame { IsFrame (layout_at desc.now start) }
    requires some_row { rows.start < rows.end }
    requires row { rows.end ≤ (part_of (layout_at desc.now start)).rows }
    requires some_column { columns.start < columns.end }
    requires column { columns.end ≤ (part_of (layout_at desc.now start)).columns }
    ensures valid { IfOk result (λ made. (room : ℕ) → IsValid desc.now start room → IsValid made.0 made.1 room) }
    ensures frame { IfOk result (λ made. IsFrame (layout_at made.0 made.1)) }
    ensures part { IfOk result (λ made. IsCropped (part_of (layout_at desc.now start)) rows columns (part_of (layout_at made.0 made.1))) }
{
    pybuf_nd::views_go_by_indices();
    let slices = [between(rows), between(columns), slice(None, None, 1)];
    selected(alloc, desc, start, &slices)
}

/// A part with left and right in each other's place.
pub fn flipped_part(
    alloc: Global,
    desc: &BufferDescriptor,
    start: usize,
) -> Made<(BufferDescriptor, usize)>
    requires placed { IsPlaced desc.now start }
    requires frame { IsFrame (layout_at desc.now start) }
    ensures valid { IfOk result (λ made. (room : ℕ) → IsValid desc.now start room → IsValid made.0 made.1 room) }
    ensures frame { IfOk result (λ made. IsFrame (layout_at made.0 made.1)) }
    ensures part { IfOk result (λ made. IsFlipped (part_of (layout_at desc.now start)) (part_of (layout_at made.0 made.1))) }
{
    pybuf_nd::views_go_by_indices();
    let slices = [
        slice(None, None, 1),
        slice(None, None, -1),
        slice(None, None, 1),
    ];
    selected(alloc, desc, start, &slices)
}

/// Rows and columns in each other's place.
fn transposed(alloc: Global, desc: &BufferDescriptor, start: usize) -> Made<BufferDescriptor>
    requires placed { IsPlaced desc.now start }
    requires frame { IsFrame (layout_at desc.now start) }
    ensures valid { IfOk result (λ made. (room : ℕ) → IsValid desc.now start room → IsValid made start room) }
    ensures view { IfOk result (λ made. layout_at made start ≡ view_in_order (layout_at desc.now start) (1 ∷ 0 ∷ 2 ∷ [])) }
{
    pybuf_desc::placed_descriptors_stand();
    pybuf_desc::descriptors_stand_for_one_view();
    match permute(alloc, desc, &[1, 0, 2])? {
        Outcome::Done(made) => Ok(made),
        Outcome::Refused(_) => unreachable!(),
    }
}

/// A part turned to the right by a quarter.
pub fn turned_part(
    alloc: Global,
    desc: &BufferDescriptor,
    start: usize,
) -> Made<(BufferDescriptor, usize)>
    requires placed { IsPlaced desc.now start }
    requires frame { IsFrame (layout_at desc.now start) }
    ensures valid { IfOk result (λ made. (room : ℕ) → IsValid desc.now start room → IsValid made.0 made.1 room) }
    ensures frame { IfOk result (λ made. IsFrame (layout_at made.0 made.1)) }
    ensures part { IfOk result (λ made. IsTurned (part_of (layout_at desc.now start)) (part_of (layout_at made.0 made.1))) }
{
    pybuf_nd::views_go_by_indices();
    let made = transposed(alloc, desc, start)?;
    flipped_part(alloc, &made, start)
}

/// All of a picture.
pub fn whole_part(
    alloc: Global,
    rows: usize,
    columns: usize,
    channels: usize,
    count: usize,
) -> Made<(BufferDescriptor, usize)>
    requires some_row { 0 < rows }
    requires some_column { 0 < columns }
    requires some_channel { 0 < channels }
    requires count { count ≡ rows * (columns * channels) }
    requires fits { count < 2 ^ 63 }
    ensures valid { IfOk result (λ made. IsValid made.0 made.1 count) }
    ensures frame { IfOk result (λ made. IsFrame (layout_at made.0 made.1)) }
    ensures part { IfOk result (λ made. IsWhole rows columns channels (part_of (layout_at made.0 made.1))) }
{
    pybuf_desc::shaped_casts_stay_inside();
    pybuf_desc::valid_where_items_lie_inside();
    pybuf_desc::descriptors_stand_for_one_view();
    let bytes = KeptLayout::whole(alloc, count, false)?;
    let shape = [rows, columns, channels];
    let view = bytes.cast_shape(alloc, KeptFormat::of_bytes(alloc), 1, &shape)?;
    let (desc, start) = view.placed();
    Ok((desc.copy(alloc)?, start))
}
