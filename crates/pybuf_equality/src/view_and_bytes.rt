//! A view and bytes that are no view.
ghost use Rattle.std.specs.Prelude.{◌≡◌, ◌*◌, ◌<◌, ◌≤◌, ◌^◌, ℕ, All, length, false, IfOk};
ghost use Rattle.pybuf_desc.specs.Layouts.{LiesInside, product};
ghost use Rattle.pybuf_memoryview.specs.Snaps.{snap_of_layout};
ghost use Rattle.pybuf_equality.specs.Equality.{same_view, snap_of_bytes};
ghost use Rattle.pybuf_equality.specs.Laws.{HasAllItems};
ghost use Rattle.pybuf_equality.specs.Packed.{IsPacked};
ghost use Rattle.pybuf_value.specs.Halting.{Makes};

use crate::equality::equal_views;
use crate::shapes::entries_agree;
use pybuf_desc::KeptFormat;
use pybuf_memoryview::KeptLayout;
use pybuf_value::{Made, Snap, Text};
use std::alloc::Global;

/// The layout of items that lie one after the other in bytes that they fill.
fn packed_layout(
    alloc: Global,
    content: &[u8],
    format: &Text,
    itemsize: usize,
    shape: &[usize],
) -> Made<KeptLayout>
    requires some_size { 0 < itemsize }
    requires few_dimensions { length shape.now ≤ 64 }
    requires entries { All (λ n. 0 < n) shape.now }
    requires filled { length content.now ≡ itemsize * product shape.now }
    ensures { IfOk result (λ layout. IsPacked content.now format.now itemsize shape.now layout) }
{
    pybuf_desc::shaped_casts_share_their_bytes();
    pybuf_desc::shaped_casts_stay_inside();
    let format = KeptFormat::of(alloc, format.as_str())?;
    let whole = KeptLayout::whole(alloc, content.len(), true)?;
    whole.cast_shape(alloc, format, itemsize, shape)
}

/// Whether a view is equal to what is lent with the bytes of all its items, one after the other. Those are compared
/// where they are, and memory is taken for the dimensions alone.
/// Example: a view of `b"abc"` is equal to a `Snap` of bytes with the content `b"abc"`.
pub fn equal_to_content(alloc: Global, bytes: &[u8], layout: &KeptLayout, snap: &Snap) -> Made<bool>
    requires inside { LiesInside (length bytes.now) layout.now }
    requires whole { HasAllItems snap.now }
    ensures { Makes (same_view (snap_of_layout bytes.now layout.now false) snap.now) result }
{
    let (descriptor, _) = layout.placed();
    if descriptor.ndim() != snap.shape.len() {
        return Ok(false);
    }
    if !entries_agree(descriptor.dim_desc(), snap.shape.as_slice()) {
        return Ok(false);
    }
    if layout.has_zero() {
        return Ok(true);
    }
    let content = snap.content.as_slice();
    let other = packed_layout(
        alloc,
        content,
        &snap.format,
        snap.itemsize,
        snap.shape.as_slice(),
    )?;
    equal_views(alloc, bytes, layout, content, &other)
}

/// Whether a view is equal to bytes, which count as one dimension of items of the format `B`.
/// Example: a view of `b"abc"` is equal to `b"abc"`, and one in the shape `[3, 1]` is not.
pub fn equal_to_bytes(alloc: Global, bytes: &[u8], layout: &KeptLayout, other: &[u8]) -> Made<bool>
    requires { LiesInside (length bytes.now) layout.now }
    ensures { Makes (same_view (snap_of_layout bytes.now layout.now false) (snap_of_bytes other.now)) result }
{
    let whole = KeptLayout::whole(alloc, other.len(), true)?;
    equal_views(alloc, bytes, layout, other, &whole)
}
