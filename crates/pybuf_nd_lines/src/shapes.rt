//! Shapes as words spell them.
ghost use Rattle.std.specs.Prelude.{◌≡◌, ◌<◌, ◌≤◌, ◌*◌, All, nat_le, IfOk, IfSome};
ghost use Rattle.pybuf_desc.specs.Layouts.{product};
ghost use Rattle.pybuf_nd_lines.specs.Shapes.{each_gives, entry_in, most_items, if_shape, shape_of_value, shape_in, IsShape};

use pybuf_line::{Unread, value};
use pybuf_value::{CountList, Made, NoMemory, Scalar, Value, number_in};
use std::alloc::Global;

/// The most items that a shape may have.
const MOST_ITEMS: usize = 1_048_576;

/// The number of entries that a part of a list tells.
fn entry_of(part: &Scalar) -> Option<usize>
    ensures entry { result ≡ entry_in part.now }
{
    match number_in(part) {
        Ok(number) => {
            if number < 1 {
                return None;
            }
            if number > MOST_ITEMS as i128 {
                return None;
            }
            Some(number as usize)
        }
        Err(_) => None,
    }
}

/// The numbers of entries that the parts of a list tell.
fn entries_of(alloc: Global, parts: &[Scalar]) -> Made<Option<CountList>>
    ensures entries { IfOk result (λ entries. entries ≡ each_gives entry_in parts.now) }
{
    let mut entries = CountList::new(alloc);
    for part in parts {
        match entry_of(part) {
            Some(entry) => entries.push(entry)?,
            None => return Ok(None),
        }
    }
    Ok(Some(entries))
}

/// Whether a shape has no more items than one may have.
fn is_small(shape: &[usize]) -> bool
    requires { All (λ n. 0 < n) shape.now }
    ensures { result ≡ nat_le (product shape.now) most_items }
{
    let mut items: usize = 1;
    for entries in shape {
        match items.checked_mul(*entries) {
            Some(more) => {
                if more > MOST_ITEMS {
                    return false;
                }
                items = more;
            }
            None => return false,
        }
    }
    true
}

/// The numbers of entries, where they are a shape.
fn shape_of_entries(entries: CountList) -> Option<CountList>
    requires { All (λ n. 0 < n) entries }
    ensures { result ≡ if_shape entries }
{
    if entries.is_empty() {
        return None;
    }
    if entries.len() > 64 {
        return None;
    }
    if is_small(entries.as_slice()) {
        Some(entries)
    } else {
        None
    }
}

/// The shape that a value tells.
fn shape_of(alloc: Global, told: &Value) -> Made<Option<CountList>>
    ensures shape { IfOk result (λ shape. shape ≡ shape_of_value told.now) }
{
    match told {
        Value::List(parts) => match entries_of(alloc, parts.as_slice())? {
            Some(entries) => Ok(shape_of_entries(entries)),
            None => Ok(None),
        },
        _ => Ok(None),
    }
}

/// The shape that a word spells.
pub(crate) fn shape_of_word(alloc: Global, word: &[u8]) -> Made<Option<CountList>>
    ensures { IfOk result (λ shape. shape ≡ shape_in word.now) }
{
    match value(alloc, word) {
        Ok(told) => shape_of(alloc, &told),
        Err(Unread::NoCommand) => Ok(None),
        Err(Unread::NoMemory) => Err(NoMemory),
    }
}
