//! New views of an exporter, of the items of a view, and what describes a view.
ghost use Rattle.std.specs.Prelude.{◌≡◌, ◌↔◌, true, length, IsTrue, OnErr};
ghost use Rattle.pybuf_desc.specs.Descriptor.{shape_of};
ghost use Rattle.pybuf_desc.specs.Places.{Stands};
ghost use Rattle.pybuf_desc.specs.Valid.{IsValid, IsPlaced};
ghost use Rattle.pybuf_state.specs.Laws.{IsSoundLayout};
ghost use Rattle.pybuf_state.specs.Live.{is_live, layout_of};
ghost use Rattle.pybuf_buffer.specs.Blocks.{LiesInFirst};
ghost use Rattle.pybuf_buffer.specs.Making.{AddsView};

use pybuf_desc::{BufferDescriptor, descriptors_stand_for_one_view};
use pybuf_exporter::ExporterState;
use pybuf_state::live_layouts_are_sound;
use pybuf_value::{Made, Twin};
use std::alloc::Global;
use std::ops::Range;

/// The descriptor of an unreleased view, and the place of its first item.
pub(crate) fn described(state: &ExporterState, view: usize) -> (&BufferDescriptor, usize)
    requires { is_live state.now.exporter view ≡ true }
    ensures stands { Stands result.0.now result.1 (layout_of state.now.exporter view) }
    ensures placed { IsPlaced result.0.now result.1 }
    ensures valid { IsValid result.0.now result.1 (length state.now.exporter.bytes) }
{
    match state.view_desc(view) {
        Some(described) => described,
        None => unreachable!(),
    }
}

/// The descriptor of an unreleased view, and the place of its first item. They stand for the view, and
/// its items lie inside the bytes of the exporter.
/// Example: of a view of all bytes of `b"abc"` it is a descriptor of three items of one byte, and the place 0.
pub fn live_descriptor(state: &ExporterState, view: usize) -> (&BufferDescriptor, usize)
    requires { is_live state.now.exporter view ≡ true }
    ensures stands { Stands result.0.now result.1 (layout_of state.now.exporter view) }
    ensures placed { IsPlaced result.0.now result.1 }
    ensures valid { IsValid result.0.now result.1 (length state.now.exporter.bytes) }
    ensures sound { IsSoundLayout state.now.exporter (layout_of state.now.exporter view) }
{
    live_layouts_are_sound();
    let _exports = state.exports();
    described(state, view)
}

/// One more view of the items of a view. The answer is its number.
pub(crate) fn add_same(alloc: Global, state: &mut ExporterState, view: usize) -> Made<usize>
    requires { is_live state.old.exporter view ≡ true }
    ensures ok { AddsView (λ e. layout_of e view) state.old result state.new }
    ensures err { OnErr result (state.new ≡ state.old) }
    ensures room { state.new.room ≡ state.old.room }
{
    live_layouts_are_sound();
    descriptors_stand_for_one_view();
    let _exports = state.exports();
    let (descriptor, start) = described(state, view);
    let twin = descriptor.copy(alloc)?;
    state.add_view(twin, start)
}

/// Whether a range lies in the first of these dimensions.
pub(crate) fn is_in_first(dims: &[(usize, isize, isize)], range: &Range<usize>) -> bool
    ensures { IsTrue result ↔ LiesInFirst range.now (shape_of dims.now) }
{
    match dims {
        [] => false,
        [first, ..] => range.start <= range.end && range.end <= first.0,
    }
}
