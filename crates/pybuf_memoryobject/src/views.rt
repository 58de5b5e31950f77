//! New views of an exporter: of all its bytes, or of a range of a view's blocks.
ghost use Rattle.std.specs.Prelude.{◌≡◌, true, false, length, OnErr};
ghost use Rattle.pybuf_command.specs.Kinds.{holds_readonly};
ghost use Rattle.pybuf_desc.specs.Layouts.{bytes_layout};
ghost use Rattle.pybuf_state.specs.Live.{is_live, layout_of};
ghost use Rattle.pybuf_buffer.specs.Blocks.{LiesInFirst};
ghost use Rattle.pybuf_memoryobject.specs.Blocks.{blocks_of, range_parts};
ghost use Rattle.pybuf_buffer.specs.Making.{AddsView};

use pybuf_buffer::live_descriptor;
use pybuf_desc::{
    BufferDescriptor, descriptors_stand_for_one_view, slices_have_their_shape, slices_stay_inside,
};
use pybuf_exporter::ExporterState;
use pybuf_index::{SaturatedSlice, clamping_changes_no_index};
use pybuf_state::whole_layouts_are_sound;
use pybuf_value::{Made, PySlice, Scalar};
use std::alloc::Global;
use std::ops::Range;

/// One more view of all bytes of an exporter that may be written, as items of one byte. The answer is
/// its number.
pub(crate) fn add_all(alloc: Global, state: &mut ExporterState, readonly: bool) -> Made<usize>
    requires { holds_readonly state.old.exporter.kind ≡ false }
    ensures ok { AddsView (λ e. bytes_layout (length e.bytes) readonly) state.old result state.new }
    ensures err { OnErr result (state.new ≡ state.old) }
    ensures room { state.new.room ≡ state.old.room }
{
    whole_layouts_are_sound();
    descriptors_stand_for_one_view();
    let len = state.bytes().len();
    let descriptor = BufferDescriptor::simple(alloc, len, readonly)?;
    state.add_view(descriptor, 0)
}

/// The slice of a range, with step 1.
fn slice_of_range(range: Range<usize>) -> SaturatedSlice
    ensures { result ≡ range_parts range }
{
    let slice = PySlice {
        start: Scalar::Int(range.start as i128),
        stop: Scalar::Int(range.end as i128),
        step: Scalar::None,
    };
    match SaturatedSlice::with_slice(&slice) {
        Ok(slice) => slice,
        Err(_) => unreachable!(),
    }
}

/// One more view of the blocks of a view that a range of its first dimension has. The answer is its
/// number.
pub(crate) fn add_blocks(
    alloc: Global,
    state: &mut ExporterState,
    view: usize,
    range: Range<usize>,
) -> Made<usize>
    requires live { is_live state.old.exporter view ≡ true }
    requires range { LiesInFirst range (layout_of state.old.exporter view).shape }
    ensures ok { AddsView (λ e. blocks_of (layout_of e view) range) state.old result state.new }
    ensures err { OnErr result (state.new ≡ state.old) }
    ensures room { state.new.room ≡ state.old.room }
{
    descriptors_stand_for_one_view();
    slices_stay_inside();
    slices_have_their_shape();
    clamping_changes_no_index();
    let (descriptor, start) = live_descriptor(state, view);
    let slice = slice_of_range(range);
    let (sliced, first) = descriptor.sliced(alloc, start, &slice)?;
    state.add_view(sliced, first)
}
