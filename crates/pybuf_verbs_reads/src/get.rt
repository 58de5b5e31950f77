//! `get`: the item at a key, or the bytes that a slice picks.
ghost use Rattle.std.specs.Prelude.{◌≡◌, ◌+◌, ◌≤◌, length, IfOk};
ghost use Rattle.pybuf_value.specs.declared.values.Scalar.TheVariants as scalars;
ghost use Rattle.pybuf_value.specs.declared.values.Value.TheVariants as values;
ghost use Rattle.pybuf_desc.specs.Items.{bytes_at};
ghost use Rattle.pybuf_memoryview.specs.Items.{item_by};
ghost use Rattle.pybuf_memoryview.specs.Keys.{item_of_key};
ghost use Rattle.pybuf_state.specs.Answers.{IsWhole, ReadsIn, as_item};
ghost use Rattle.pybuf_verbs_reads.specs.Get.{part_of_own, get_of_own, item_of_view, item_at_index, FindsStart};

use pybuf_command::{ExporterKind, LocalReply};
use pybuf_index::{SaturatedSlice, entry_in};
use pybuf_memoryview::{KeptLayout, byte_item, index_in, item_by, names_itself, place_of_key};
use pybuf_slice::slices::getitem_by_slice;
use pybuf_state::Parts;
use pybuf_value::{ByteList, Fault, Halt, Item, Made, PySlice, Value};

/// The bytes that a slice picks.
fn slice_of_own(parts: &Parts, slice: &PySlice) -> Result<LocalReply, Halt>
    ensures { ReadsIn parts.now (λ e. part_of_own e (values.Slice slice.now)) result }
{
    let slice = SaturatedSlice::with_slice(slice)?;
    let bytes = getitem_by_slice(parts.alloc, parts.bytes.as_slice(), slice)?;
    Ok(LocalReply::Bytes(ByteList::from_vec(bytes)))
}

fn part_of_own(parts: &Parts, key: &Value) -> Result<LocalReply, Halt>
    ensures { ReadsIn parts.now (λ e. part_of_own e key.now) result }
{
    if let Value::Slice(slice) = key {
        return slice_of_own(parts, slice);
    }
    let index = index_in(key)?;
    let place = entry_in(parts.bytes.len(), index)?;
    Ok(LocalReply::Item(byte_item(parts.bytes.as_slice()[place])))
}

/// The byte of an exporter at an index, or the bytes that a slice picks. Refused with `UnknownName` for a vector;
/// then with `TypeError` where the key is neither a number nor a slice, and with `IndexError` for an index out of
/// range; and as `SaturatedSlice::with_slice` refuses a slice.
/// Example: of `b"abc"` the key `-1` gets the item 99, and the key `0:2` gets `b"ab"`.
pub fn of_own(parts: &Parts, key: &Value) -> Result<LocalReply, Halt>
    ensures { ReadsIn parts.now (λ e. get_of_own e key.now) result }
{
    match parts.kind {
        ExporterKind::Vector { readonly: _ } => Err(Halt::Refused(Fault::UnknownName)),
        _ => part_of_own(parts, key),
    }
}

/// Where the item at an index starts.
fn place_of_index(layout: &KeptLayout, index: isize) -> Result<usize, Fault>
    ensures { FindsStart layout.now (item_of_key layout.now.shape (values.One (scalars.Int index))) result }
{
    if layout.ndim() == 0 {
        return Err(Fault::Kind);
    }
    if layout.ndim() != 1 {
        return Err(Fault::NotImplemented);
    }
    let entry = entry_in(layout.first_entry(), index)?;
    Ok(layout.place(entry))
}

/// The item of a view that starts at a place.
fn item_at(parts: &Parts, layout: &KeptLayout, place: usize) -> Made<Item>
    requires { place + layout.now.itemsize ≤ length parts.now.bytes.items }
    ensures { IfOk result (λ item. item ≡ item_by layout.now.format (bytes_at parts.now.bytes.items layout.now.itemsize place)) }
{
    let bytes = &parts.bytes.as_slice()[place..place + layout.itemsize()];
    item_by(parts.alloc, layout.format_text(), bytes)
}

/// The item of a view at an index, where a negative index counts from the end. It is refused as `of_view` is.
/// Example: of a view of `b"abc"` the index -1 gives `Item::One(Scalar::Int(99))`.
pub fn item(parts: &Parts, view: usize, index: isize) -> Result<Item, Halt>
    requires { IsWhole parts.now }
    ensures { ReadsIn parts.now (λ e. item_at_index e view index) (as_item result) }
{
    let layout = parts.live_layout(view)?;
    let place = place_of_index(layout, index)?;
    Ok(item_at(parts, layout, place)?)
}

/// The item of a view at a key, or the view itself by `...` where it has no dimension. Refused with `UnknownName` for
/// a view that was never given, and with `ValueError` for a released one; then as `place_of_key` refuses the key.
/// Example: of a view of `b"abc"` the key -1 gets the item 99.
pub fn of_view(parts: &Parts, view: usize, key: &Value) -> Result<LocalReply, Halt>
    requires { IsWhole parts.now }
    ensures { ReadsIn parts.now (λ e. item_of_view e view key.now) result }
{
    let layout = parts.live_layout(view)?;
    if names_itself(layout, key) {
        return Ok(LocalReply::Itself);
    }
    let place = place_of_key(layout, key)?;
    let item = item_at(parts, layout, place)?;
    Ok(LocalReply::Item(item))
}
