//! Slices as words spell them, one for each dimension.
ghost use Rattle.std.specs.Prelude.{◌≡◌, IfOk};
ghost use Rattle.pybuf_nd_lines.specs.Shapes.{each_gives};
ghost use Rattle.pybuf_nd_lines.specs.Keys.{parts_in, slices_of_value, slices_in};

use pybuf_index::SaturatedSlice;
use pybuf_line::{Unread, value};
use pybuf_value::{Items, Made, NoMemory, PySlice, Value};
use std::alloc::Global;

/// The slices, where none of them is refused.
fn accepted_slices(alloc: Global, slices: &[PySlice]) -> Made<Option<Items<SaturatedSlice>>>
    ensures { IfOk result (λ parts. parts ≡ each_gives parts_in slices.now) }
{
    let mut accepted = Items::new(alloc);
    for slice in slices {
        match SaturatedSlice::with_slice(slice) {
            Ok(parts) => accepted.push(parts)?,
            Err(_) => return Ok(None),
        }
    }
    Ok(Some(accepted))
}

/// The slices that a value tells.
fn slices_of(alloc: Global, told: &Value) -> Made<Option<Items<SaturatedSlice>>>
    ensures { IfOk result (λ slices. slices ≡ slices_of_value told.now) }
{
    match told {
        Value::Slices(slices) => accepted_slices(alloc, slices.as_slice()),
        _ => Ok(None),
    }
}

/// The slices that a word spells.
pub(crate) fn slices_of_word(alloc: Global, word: &[u8]) -> Made<Option<Items<SaturatedSlice>>>
    ensures { IfOk result (λ slices. slices ≡ slices_in word.now) }
{
    match value(alloc, word) {
        Ok(told) => slices_of(alloc, &told),
        Err(Unread::NoCommand) => Ok(None),
        Err(Unread::NoMemory) => Err(NoMemory),
    }
}
