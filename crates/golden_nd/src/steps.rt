//! Views, and what a step makes of one.

use crate::orders::are_axes;
use pybuf_desc::BufferDescriptor;
use pybuf_index::SaturatedSlice;
use pybuf_nd::{permute, pick, slice_all, transpose};
use pybuf_value::{
    CountList, DimList, Items, Made, Outcome, PySlice, Scalar, Text, Value, number_in,
};
use std::alloc::Global;

/// As many bytes as the greatest array has.
pub const ROOM: usize = 81;

/// A view: a descriptor, where its items start, and how many bytes the array has.
#[derive(Debug, Drop)]
pub struct View {
    pub desc: BufferDescriptor,
    pub start: usize,
    pub bytes: usize,
}

/// How many items a shape has.
fn items_of(shape: &[usize]) -> usize {
    let mut items: usize = 1;
    for n in shape {
        items = items.wrapping_mul(*n);
    }
    items
}

/// Items one after the other in a shape, from place 0 on.
fn row_major(alloc: Global, shape: &[usize]) -> Made<BufferDescriptor> {
    let mut dims = DimList::new(alloc);
    for k in 0..shape.len() {
        let stride = items_of(&shape[k + 1..]);
        if stride > ROOM {
            return Ok(BufferDescriptor::raw(0, false, 0, Text::new(alloc), dims));
        }
        dims.push((shape[k], stride as isize, 0))?;
    }
    let format = Text::from_str(alloc, "B")?;
    Ok(BufferDescriptor::raw(items_of(shape), false, 1, format, dims))
}

/// Numbers from 0 on, as counts.
fn counts_of(alloc: Global, parts: &[Scalar]) -> Made<Option<CountList>> {
    let mut counts = CountList::new(alloc);
    for part in parts {
        let Ok(number) = number_in(part) else {
            return Ok(None);
        };
        let Ok(count) = usize::try_from(number) else {
            return Ok(None);
        };
        counts.push(count)?;
    }
    Ok(Some(counts))
}

/// The array of a shape.
pub fn whole(alloc: Global, told: Option<&Value>) -> Made<Option<View>> {
    let Some(Value::List(parts)) = told else {
        return Ok(None);
    };
    let Some(shape) = counts_of(alloc, parts.as_slice())? else {
        return Ok(None);
    };
    let desc = row_major(alloc, shape.as_slice())?;
    let bytes = desc.len();
    Ok(Some(View {
        desc,
        start: 0,
        bytes,
    }))
}

/// Slices, where none is refused.
fn accepted(alloc: Global, slices: &[PySlice]) -> Made<Option<Items<SaturatedSlice>>> {
    let mut list = Items::new(alloc);
    for slice in slices {
        let Ok(parts) = SaturatedSlice::with_slice(slice) else {
            return Ok(None);
        };
        list.push(parts)?;
    }
    Ok(Some(list))
}

/// What slices pick.
fn sliced(alloc: Global, view: &View, slices: &[PySlice]) -> Made<Option<View>> {
    let Some(list) = accepted(alloc, slices)? else {
        return Ok(None);
    };
    if view.desc.validate(view.start, ROOM).is_err() {
        return Ok(None);
    }
    if view.desc.ndim() == 0 {
        return Ok(None);
    }
    if list.len() != view.desc.ndim() {
        return Ok(None);
    }
    match slice_all(alloc, &view.desc, view.start, list.as_slice())? {
        Outcome::Done((desc, start)) => Ok(Some(View {
            desc,
            start,
            bytes: view.bytes,
        })),
        Outcome::Refused(_) => Ok(None),
    }
}

/// The axes in an order.
fn ordered(alloc: Global, view: &View, axes: &[usize]) -> Made<Option<View>> {
    if view.desc.validate(view.start, ROOM).is_err() {
        return Ok(None);
    }
    if !are_axes(alloc, axes, view.desc.ndim())? {
        return Ok(None);
    }
    match permute(alloc, &view.desc, axes)? {
        Outcome::Done(desc) => Ok(Some(View {
            desc,
            start: view.start,
            bytes: view.bytes,
        })),
        Outcome::Refused(_) => Ok(None),
    }
}

/// The axes in the reversed order.
fn turned(alloc: Global, view: &View) -> Made<Option<View>> {
    if view.desc.validate(view.start, ROOM).is_err() {
        return Ok(None);
    }
    match transpose(alloc, &view.desc)? {
        Outcome::Done(desc) => Ok(Some(View {
            desc,
            start: view.start,
            bytes: view.bytes,
        })),
        Outcome::Refused(_) => Ok(None),
    }
}

/// The items at a place of an axis.
fn picked(alloc: Global, view: &View, axis: &Scalar, place: &Scalar) -> Made<Option<View>> {
    let Ok(axis) = number_in(axis) else {
        return Ok(None);
    };
    let Ok(place) = number_in(place) else {
        return Ok(None);
    };
    let Ok(axis) = usize::try_from(axis) else {
        return Ok(None);
    };
    let Ok(place) = isize::try_from(place) else {
        return Ok(None);
    };
    if view.desc.validate(view.start, ROOM).is_err() {
        return Ok(None);
    }
    if axis >= view.desc.ndim() {
        return Ok(None);
    }
    match pick(alloc, &view.desc, view.start, axis, place)? {
        Outcome::Done((desc, start)) => Ok(Some(View {
            desc,
            start,
            bytes: view.bytes,
        })),
        Outcome::Refused(_) => Ok(None),
    }
}

/// What a step with numbers makes of a view.
fn after_numbers(
    alloc: Global,
    view: &View,
    word: &[u8],
    numbers: &[Scalar],
) -> Made<Option<View>> {
    if word == b"order".as_slice() {
        let Some(axes) = counts_of(alloc, numbers)? else {
            return Ok(None);
        };
        return ordered(alloc, view, axes.as_slice());
    }
    match numbers {
        [axis, place] => picked(alloc, view, axis, place),
        _ => Ok(None),
    }
}

/// What a step makes of a view, or none where it is refused.
pub fn after_step(
    alloc: Global,
    view: &View,
    word: &[u8],
    argument: Option<&Value>,
) -> Made<Option<View>> {
    match argument {
        None => turned(alloc, view),
        Some(Value::Slices(slices)) => sliced(alloc, view, slices.as_slice()),
        Some(Value::Tuple(numbers)) => after_numbers(alloc, view, word, numbers.as_slice()),
        Some(_) => Ok(None),
    }
}
