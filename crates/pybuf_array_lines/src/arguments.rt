//! What stands behind the first word of an operation's line.
ghost use Rattle.std.specs.Prelude.{◌≡◌};
ghost use Rattle.pybuf_line.specs.Reading.{Reads};
ghost use Rattle.pybuf_array_lines.specs.Arguments as spec;

use pybuf_array::IntList;
use pybuf_line::{Unread, value, word_number};
use pybuf_value::{ByteList, PySlice, Scalar, Value};
use std::alloc::Global;

/// The whole number that a value without parts is.
fn whole_number(part: &Scalar) -> Option<i128>
    ensures { result ≡ spec.whole_number_of part.now }
{
    match part {
        Scalar::Int(number) => Some(*number),
        _ => None,
    }
}

/// The whole number that a value is.
fn number_of(found: Value) -> Result<i128, Unread>
    ensures { Reads result (spec.number_of found) }
{
    match found {
        Value::One(Scalar::Int(number)) => Ok(number),
        _ => Err(Unread::NoCommand),
    }
}

/// The whole number that a word spells.
pub fn number(alloc: Global, word: &[u8]) -> Result<i128, Unread>
    ensures { Reads result (spec.argument_in spec.number_of word.now) }
{
    let found = value(alloc, word)?;
    number_of(found)
}

/// The whole numbers that parts are.
fn each_number(alloc: Global, parts: &[Scalar]) -> Result<IntList, Unread>
    ensures { Reads result (spec.each_number parts.now) }
{
    let mut numbers = Vec::new(alloc);
    for part in parts {
        let Some(number) = whole_number(part) else {
            return Err(Unread::NoCommand);
        };
        numbers.push(number)?;
    }
    Ok(IntList::from_vec(numbers))
}

/// The list of whole numbers that a value is.
fn numbers_of(alloc: Global, found: Value) -> Result<IntList, Unread>
    ensures { Reads result (spec.numbers_of found) }
{
    match found {
        Value::List(parts) => each_number(alloc, parts.as_slice()),
        _ => Err(Unread::NoCommand),
    }
}

/// The list of whole numbers that a word spells.
pub fn numbers(alloc: Global, word: &[u8]) -> Result<IntList, Unread>
    ensures { Reads result (spec.argument_in spec.numbers_of word.now) }
{
    let found = value(alloc, word)?;
    numbers_of(alloc, found)
}

/// The bytes that a value is.
fn bytes_of(found: Value) -> Result<ByteList, Unread>
    ensures { Reads result (spec.bytes_of found) }
{
    match found {
        Value::One(Scalar::Bytes(bytes)) => Ok(bytes),
        _ => Err(Unread::NoCommand),
    }
}

/// The bytes that a word spells.
pub fn bytes(alloc: Global, word: &[u8]) -> Result<ByteList, Unread>
    ensures { Reads result (spec.argument_in spec.bytes_of word.now) }
{
    let found = value(alloc, word)?;
    bytes_of(found)
}

/// The slice that a value is.
fn slice_of(found: Value) -> Result<PySlice, Unread>
    ensures { Reads result (spec.slice_of found) }
{
    match found {
        Value::Slice(slice) => Ok(slice),
        _ => Err(Unread::NoCommand),
    }
}

/// The slice that a word spells.
pub fn slice(alloc: Global, word: &[u8]) -> Result<PySlice, Unread>
    ensures { Reads result (spec.argument_in spec.slice_of word.now) }
{
    let found = value(alloc, word)?;
    slice_of(found)
}

/// The number of a view that a word spells.
pub fn view(word: &[u8]) -> Result<usize, Unread>
    ensures { Reads result (spec.view_in word.now) }
{
    match word_number(word) {
        Some(number) => Ok(number as usize),
        None => Err(Unread::NoCommand),
    }
}
