//! Bytes in a shape, cut and turned.
ghost use Rattle.std.specs.Prelude.{◌≡◌, ◌<◌, length, IfOk};
ghost use Rattle.pybuf_value.specs.Halting.{given_by};
ghost use Rattle.pybuf_value.specs.Refusing.{IfDone};
ghost use Rattle.pybuf_desc.specs.Layouts.{product, LiesInside};
ghost use Rattle.pybuf_nd.specs.Selections.{selection_of, selection_check};
ghost use Rattle.pybuf_nd.specs.Axes.{transposition_of, order_check};
ghost use Rattle.pybuf_nd_lines.specs.Shapes.{IsShape};
ghost use Rattle.pybuf_nd_lines.specs.Selections.{bytes_in_shape};
ghost use Rattle.pybuf_nd.specs.Answering.{RefusedAs, StaysInside};

use pybuf_desc::KeptFormat;
use pybuf_index::SaturatedSlice;
use pybuf_memoryview::KeptLayout;
use pybuf_nd::{slice_all, transpose};
use pybuf_value::{Made, Outcome, Tried};
use std::alloc::Global;

/// The bytes of an input in a shape.
pub(crate) fn in_shape(alloc: Global, count: usize, shape: &[usize]) -> Made<KeptLayout>
    requires shape { IsShape shape.now }
    requires whole { count ≡ product shape.now }
    ensures view { IfOk result (λ view. view ≡ bytes_in_shape shape.now) }
    ensures inside { IfOk result (λ view. LiesInside count view) }
{
    pybuf_desc::shaped_casts_stay_inside();
    let whole = KeptLayout::whole(alloc, count, true)?;
    whole.cast_shape(alloc, KeptFormat::of_bytes(alloc), 1, shape)
}

/// The items that slices pick, one slice for each dimension.
pub(crate) fn cut(alloc: Global, view: &KeptLayout, slices: &[SaturatedSlice]) -> Tried<KeptLayout>
    requires some_dimension { 0 < length view.now.shape }
    requires one_each { length slices.now ≡ length view.now.shape }
    ensures refused { IfOk result (λ answer. RefusedAs (selection_check view.now.shape slices.now) answer) }
    ensures cut { IfOk result (λ answer. IfDone (λ made. made ≡ selection_of view.now slices.now) (given_by answer)) }
    ensures inside { IfOk result (λ answer. StaysInside view.now answer) }
{
    pybuf_desc::descriptors_stand_for_one_view();
    pybuf_desc::valid_where_items_lie_inside();
    let (desc, start) = view.placed();
    match slice_all(alloc, desc, start, slices)? {
        Outcome::Done(cut) => {
            let (made, next) = cut;
            Ok(Outcome::Done(KeptLayout::of_descriptor(made, next)))
        }
        Outcome::Refused(fault) => Ok(Outcome::Refused(fault)),
    }
}

/// The transposition.
pub(crate) fn turn(alloc: Global, view: &KeptLayout) -> Tried<KeptLayout>
    ensures refused { IfOk result (λ answer. RefusedAs (order_check view.now.shape) answer) }
    ensures turned { IfOk result (λ answer. IfDone (λ made. made ≡ transposition_of view.now) (given_by answer)) }
    ensures inside { IfOk result (λ answer. StaysInside view.now answer) }
{
    pybuf_desc::descriptors_stand_for_one_view();
    pybuf_desc::valid_where_items_lie_inside();
    let (desc, start) = view.placed();
    match transpose(alloc, desc)? {
        Outcome::Done(made) => Ok(Outcome::Done(KeptLayout::of_descriptor(made, start))),
        Outcome::Refused(fault) => Ok(Outcome::Refused(fault)),
    }
}
