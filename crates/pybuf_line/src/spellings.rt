//! Values as they are spelled on a line.
ghost use Rattle.std.specs.Prelude.{◌≡◌, ◌∷◌, [], map, MatchOption, Some, pos};
ghost use Rattle.pybuf_value.specs.declared.values.Scalar.TheVariants as scalars_of_values;
ghost use Rattle.pybuf_value.specs.declared.values.Value.TheVariants as values;
ghost use Rattle.pybuf_value.specs.Choosing.{◌or_else◌};
ghost use Rattle.pybuf_line.specs.Parts.{parts_at, each};
ghost use Rattle.pybuf_line.specs.Scalars.{scalar_in, handle_in};
ghost use Rattle.pybuf_line.specs.Spellings.{slice_in, scalars_in, slices_in, one_in, slice_value_in, tuple_in, list_in, tuple_of_slices_in, value_in};
ghost use Rattle.pybuf_line.specs.Reading.{Reads};

use crate::scalars::{between, plain, scalar, word_number};
use crate::splitting::parts_outside;
use crate::unread::Unread;
use bstr::ByteSlice;
use pybuf_value::{PySlice, Scalar, ScalarList, SliceList, Value};
use std::alloc::Global;

/// What stands before the first colon, and what after it.
fn around_colon(text: &[u8]) -> Option<(&[u8], &[u8])>
    ensures { MatchOption result (parts_at 58 text.now ≡ text.now ∷ []) (λ halves. parts_at 58 text.now ≡ halves.0.now ∷ parts_at 58 halves.1.now) }
{
    match text.find_byte(b':') {
        Some(at) => Some((&text[..at], &text[at + 1..])),
        None => None,
    }
}

/// The slice that a text spells.
fn slice(alloc: Global, text: &[u8]) -> Result<PySlice, Unread>
    ensures { Reads result (slice_in handle_in text.now) }
{
    let Some((start, bounds)) = around_colon(text) else {
        return Err(Unread::NoCommand);
    };
    let Some((stop, step)) = around_colon(bounds) else {
        return Err(Unread::NoCommand);
    };
    let None = around_colon(step) else {
        return Err(Unread::NoCommand);
    };
    let start = plain(alloc, start)?;
    let stop = plain(alloc, stop)?;
    let step = plain(alloc, step)?;
    Ok(PySlice { start, stop, step })
}

/// The scalars that parts spell, one each.
fn scalars_of(alloc: Global, parts: &[&[u8]]) -> Result<ScalarList, Unread>
    ensures { Reads result (each (scalar_in handle_in) (map (λ part. part.now) parts.now)) }
{
    let mut scalars = Vec::new(alloc);
    for part in parts {
        let one = scalar(alloc, part)?;
        scalars.push(one)?;
    }
    Ok(ScalarList::from_vec(scalars))
}

/// The scalars that a text spells, with commas between them.
fn scalars(alloc: Global, text: &[u8]) -> Result<ScalarList, Unread>
    ensures { Reads result (scalars_in handle_in text.now) }
{
    if text.is_empty() {
        return Ok(ScalarList::new(alloc));
    }
    let parts = parts_outside(alloc, text)?;
    scalars_of(alloc, &parts)
}

/// The slices that parts spell, one each.
fn slices_of(alloc: Global, parts: &[&[u8]]) -> Result<SliceList, Unread>
    ensures { Reads result (each (slice_in handle_in) (map (λ part. part.now) parts.now)) }
{
    let mut slices = Vec::new(alloc);
    for part in parts {
        let one = slice(alloc, part)?;
        slices.push(one)?;
    }
    Ok(SliceList::from_vec(slices))
}

/// The slices that a text spells, with commas between them.
fn slices(alloc: Global, text: &[u8]) -> Result<SliceList, Unread>
    ensures { Reads result (slices_in handle_in text.now) }
{
    let parts = parts_outside(alloc, text)?;
    slices_of(alloc, &parts)
}

/// A tuple of scalars.
fn tuple(alloc: Global, text: &[u8]) -> Result<Value, Unread>
    ensures { Reads result (tuple_in handle_in text.now) }
{
    let Some(inner) = between(b'(', b')', text) else {
        return Err(Unread::NoCommand);
    };
    let parts = scalars(alloc, inner)?;
    Ok(Value::Tuple(parts))
}

/// A list of scalars.
fn list(alloc: Global, text: &[u8]) -> Result<Value, Unread>
    ensures { Reads result (list_in handle_in text.now) }
{
    let Some(inner) = between(b'[', b']', text) else {
        return Err(Unread::NoCommand);
    };
    let parts = scalars(alloc, inner)?;
    Ok(Value::List(parts))
}

/// A tuple of slices.
fn tuple_of_slices(alloc: Global, text: &[u8]) -> Result<Value, Unread>
    ensures { Reads result (tuple_of_slices_in handle_in text.now) }
{
    let Some(inner) = between(b'(', b')', text) else {
        return Err(Unread::NoCommand);
    };
    let parts = slices(alloc, inner)?;
    Ok(Value::Slices(parts))
}

/// A value with parts.
#[inline(never)]
fn parted(alloc: Global, text: &[u8]) -> Result<Value, Unread>
    ensures { Reads result (slice_value_in handle_in text.now or_else tuple_in handle_in text.now or_else list_in handle_in text.now or_else tuple_of_slices_in handle_in text.now) }
{
    match slice(alloc, text) {
        Ok(slice) => return Ok(Value::Slice(slice)),
        Err(Unread::NoCommand) => {}
        Err(Unread::NoMemory) => return Err(Unread::NoMemory),
    }
    match tuple(alloc, text) {
        Err(Unread::NoCommand) => {}
        read => return read,
    }
    match list(alloc, text) {
        Err(Unread::NoCommand) => {}
        read => return read,
    }
    tuple_of_slices(alloc, text)
}

/// A value that is no number of a machine word.
#[inline(never)]
#[tactic(auto, unfolding(crate::specs::Spellings::value_in))]
fn other_value(alloc: Global, text: &[u8]) -> Result<Value, Unread>
    ensures { Reads result (value_in handle_in text.now) }
{
    match scalar(alloc, text) {
        Ok(one) => Ok(Value::One(one)),
        Err(Unread::NoCommand) => parted(alloc, text),
        Err(Unread::NoMemory) => Err(Unread::NoMemory),
    }
}

/// The one value that a word of a line spells.
///
/// It answers `NoCommand` where the word spells none, and `NoMemory` where memory runs out.
///
/// Example: of `b"(1,2)"` it gives `Value::Tuple` of 1 and 2, and of `b"1:3:None"` the slice `1:3:None`.
#[inline(never)]
#[tactic(auto, using(crate::proofs::Shorts::short_value))]
pub fn value(alloc: Global, text: &[u8]) -> Result<Value, Unread>
    ensures { Reads result (value_in handle_in text.now) }
{
    match word_number(text) {
        Some(number) => Ok(Value::One(Scalar::Int(i128::from(number)))),
        None => other_value(alloc, text),
    }
}
