//! Which item of a view a key names, and where that item lies.
ghost use Rattle.std.specs.Prelude.{◌≡◌, ◌≤◌, ◌+ℤ◌, pos, nat_abs, true, length, map, take, Ok};
ghost use Rattle.std.specs.List.{list_all};
ghost use Rattle.pybuf_memoryview.specs.Keys as spec;
ghost use Rattle.pybuf_memoryview.specs.KeyPlaces as places;

use crate::items::index_in;
use crate::kept::KeptLayout;
use pybuf_index::entry_in;
use pybuf_value::{Fault, Scalar, Value, fit_index, number_in};

/// Whether a part of a tuple is a number.
fn is_number(part: &Scalar) -> bool
    ensures { result ≡ spec.is_number part.now }
{
    number_in(part).is_ok()
}

/// The number of a part of a tuple, 0 where it is none.
fn part_number(part: &Scalar) -> i128
    ensures { result ≡ spec.part_number part.now }
{
    match number_in(part) {
        Ok(number) => number,
        Err(_) => 0,
    }
}

/// Whether the number of a part fits `isize`.
fn fits_word(part: &Scalar) -> bool
    ensures { result ≡ spec.fits_word part.now }
{
    fit_index(part_number(part)).is_ok()
}

/// Whether all parts of a tuple are numbers.
fn are_numbers(parts: &[Scalar]) -> bool
    ensures { result ≡ list_all spec.is_number parts.now }
{
    parts.iter().all(is_number)
}

/// Whether the numbers of all parts fit `isize`.
fn all_fit(parts: &[Scalar]) -> bool
    ensures { result ≡ list_all spec.fits_word parts.now }
{
    parts.iter().all(fits_word)
}

/// The numbers of the parts of a tuple, which are followed by zeros.
fn indices_of(parts: &[Scalar]) -> [isize; 64]
    requires few { length parts.now ≤ 64 }
    requires fit { list_all spec.fits_word parts.now ≡ true }
    ensures { take (length parts.now) result ≡ map spec.part_number parts.now }
{
    let mut indices = [0; 64];
    for k in 0..parts.len() {
        indices[k] = part_number(&parts[k]) as isize;
    }
    indices
}

/// Whether a key names the view itself, as `...` does for a view without dimensions. Takes no memory.
/// Example: the key `...` names a view without dimensions itself, and no view of one dimension.
pub fn names_itself(layout: &KeptLayout, key: &Value) -> bool
    ensures { result ≡ spec.names_itself layout.now.shape key.now }
{
    match key {
        Value::One(Scalar::Ellipsis) => layout.ndim() == 0,
        _ => false,
    }
}

/// Where the one item of a view without dimensions starts.
///
/// Refused with `TypeError` where the key is neither `()` nor `...`.
fn place_of_only(layout: &KeptLayout, key: &Value) -> Result<usize, Fault>
    requires { length layout.now.shape ≡ 0 }
    ensures { places.GivesStartOf layout.now (spec.only_item key.now) result }
{
    match key {
        Value::Tuple(parts) => {
            if parts.is_empty() {
                return Ok(layout.first_place());
            }
            Err(Fault::Kind)
        }
        Value::One(Scalar::Ellipsis) => Ok(layout.first_place()),
        _ => Err(Fault::Kind),
    }
}

/// Where the item at an index starts.
///
/// Refused with `TypeError` where the key is no number, with `IndexError` where the number doesn't
/// fit `isize`, with `NotImplementedError` where the view isn't of one dimension, and with
/// `IndexError` where it has no such item.
fn place_of_index(layout: &KeptLayout, key: &Value) -> Result<usize, Fault>
    ensures { places.GivesStartOf layout.now (spec.item_of_index layout.now.shape key.now) result }
{
    let index = index_in(key)?;
    if layout.ndim() != 1 {
        return Err(Fault::NotImplemented);
    }
    let item = entry_in(layout.first_entry(), index)?;
    Ok(layout.place(item))
}

/// Where the item at the numbers of a tuple starts, one number for each dimension. Takes no memory.
///
/// Refused with `TypeError` where a part is no number, with `IndexError` where a number doesn't fit
/// `isize`, with `NotImplementedError` where there are fewer parts than dimensions, with `TypeError`
/// where there are more, and with `IndexError` where a number names no entry of its dimension.
fn place_of_tuple(layout: &KeptLayout, parts: &[Scalar]) -> Result<usize, Fault>
    ensures { places.GivesStartOf layout.now (spec.item_of_tuple layout.now.shape parts.now) result }
{
    if !are_numbers(parts) {
        return Err(Fault::Kind);
    }
    if !all_fit(parts) {
        return Err(Fault::Index);
    }
    if parts.len() < layout.ndim() {
        return Err(Fault::NotImplemented);
    }
    if parts.len() > layout.ndim() {
        return Err(Fault::Kind);
    }
    let indices = indices_of(parts);
    layout.place_at(&indices[..parts.len()])
}

/// Where the item starts that a key of a view of one dimension or more names.
fn place_among(layout: &KeptLayout, key: &Value) -> Result<usize, Fault>
    ensures { places.GivesStartOf layout.now (spec.item_among layout.now.shape key.now) result }
{
    match key {
        Value::Tuple(parts) => place_of_tuple(layout, parts.as_slice()),
        Value::Slices(slices) => {
            if slices.is_empty() {
                return Err(Fault::Kind);
            }
            Err(Fault::NotImplemented)
        }
        _ => place_of_index(layout, key),
    }
}

/// Where the item starts that a key of a view names. A key is an index in a view of one dimension, a tuple of an
/// index for each dimension, or `()` and `...` in a view without dimensions. Takes no memory.
///
/// In a view without dimensions every other key is refused with `TypeError`. Else an index is refused with
/// `IndexError` where it doesn't fit `isize`, with `NotImplementedError` where the view has more than one dimension,
/// and with `IndexError` where there is no such item. A tuple is refused with `TypeError` where a part is no number,
/// with `IndexError` where one doesn't fit `isize`, with `NotImplementedError` where it has fewer parts than there
/// are dimensions, with `TypeError` where it has more, and with `IndexError` where an index is out of bounds; one of
/// slices with `NotImplementedError`; and every other key with `TypeError`.
/// Example: of items in the shape `[2, 3]`, one byte each from 0 on, the key `(1, 2)` gives 5.
pub fn place_of_key(layout: &KeptLayout, key: &Value) -> Result<usize, Fault>
    ensures { places.GivesStartOf layout.now (spec.item_of_key layout.now.shape key.now) result }
{
    if layout.ndim() == 0 {
        return place_of_only(layout, key);
    }
    place_among(layout, key)
}
