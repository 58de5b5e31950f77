//! The operations that lines spell.
ghost use Rattle.std.specs.Prelude.{◌≡◌, map};
ghost use Rattle.pybuf_line.specs.Reading.{Reads};
ghost use Rattle.pybuf_array_lines.specs.Operations.{operation_alone, operation_of_one, operation_of_two, operation_of_three, operation_by, operation_in};

use crate::arguments::{bytes, number, numbers, slice, view};
use crate::words::{Word, first_word};
use pybuf_array::ArrayOp;
use pybuf_line::{Unread, fill_words};
use std::alloc::Global;

/// An operation by its word alone.
fn alone(word: Word) -> Result<ArrayOp, Unread>
    ensures { Reads result (operation_alone word) }
{
    match word {
        Word::Pop => Ok(ArrayOp::Pop { index: None }),
        Word::Len => Ok(ArrayOp::Len),
        Word::ToList => Ok(ArrayOp::ToList),
        Word::ToBytes => Ok(ArrayOp::ToBytes),
        Word::ByteSwap => Ok(ArrayOp::ByteSwap),
        Word::View => Ok(ArrayOp::View),
        _ => Err(Unread::NoCommand),
    }
}

/// An operation by its word and its one argument.
fn of_one(alloc: Global, word: Word, first: &[u8]) -> Result<ArrayOp, Unread>
    ensures { Reads result (operation_of_one word first.now) }
{
    match word {
        Word::Append => {
            let value = number(alloc, first)?;
            Ok(ArrayOp::Append { value })
        }
        Word::Extend => {
            let values = numbers(alloc, first)?;
            Ok(ArrayOp::Extend { values })
        }
        Word::Pop => {
            let index = number(alloc, first)?;
            Ok(ArrayOp::Pop { index: Some(index) })
        }
        Word::Remove => {
            let value = number(alloc, first)?;
            Ok(ArrayOp::Remove { value })
        }
        Word::FromBytes => {
            let bytes = bytes(alloc, first)?;
            Ok(ArrayOp::FromBytes { bytes })
        }
        Word::Get => {
            let index = number(alloc, first)?;
            Ok(ArrayOp::Get { index })
        }
        Word::Release => {
            let view = view(first)?;
            Ok(ArrayOp::Release { view })
        }
        _ => Err(Unread::NoCommand),
    }
}

/// An operation by its word and its two arguments.
fn of_two(alloc: Global, word: Word, first: &[u8], second: &[u8]) -> Result<ArrayOp, Unread>
    ensures { Reads result (operation_of_two word first.now second.now) }
{
    match word {
        Word::Insert => {
            let index = number(alloc, first)?;
            let value = number(alloc, second)?;
            Ok(ArrayOp::Insert { index, value })
        }
        Word::Set => {
            let index = number(alloc, first)?;
            let value = number(alloc, second)?;
            Ok(ArrayOp::Set { index, value })
        }
        Word::ViewSlice => {
            let view = view(first)?;
            let slice = slice(alloc, second)?;
            Ok(ArrayOp::ViewSlice { view, slice })
        }
        Word::ViewGet => {
            let view = view(first)?;
            let index = number(alloc, second)?;
            Ok(ArrayOp::ViewGet { view, index })
        }
        _ => Err(Unread::NoCommand),
    }
}

/// An operation by its word and its three arguments.
fn of_three(
    alloc: Global,
    word: Word,
    first: &[u8],
    second: &[u8],
    third: &[u8],
) -> Result<ArrayOp, Unread>
    ensures { Reads result (operation_of_three word first.now second.now third.now) }
{
    match word {
        Word::ViewSet => {
            let view = view(first)?;
            let index = number(alloc, second)?;
            let value = number(alloc, third)?;
            Ok(ArrayOp::ViewSet { view, index, value })
        }
        _ => Err(Unread::NoCommand),
    }
}

/// An operation by its word and its arguments.
fn operation_of(alloc: Global, word: Word, arguments: &[&[u8]]) -> Result<ArrayOp, Unread>
    ensures { Reads result (operation_by word (map (λ argument. argument.now) arguments.now)) }
{
    match arguments {
        [] => alone(word),
        [first] => of_one(alloc, word, first),
        [first, second] => of_two(alloc, word, first, second),
        [first, second, third] => of_three(alloc, word, first, second, third),
        _ => Err(Unread::NoCommand),
    }
}

/// The one operation that a line spells. The list of words is filled for the line, so that the lines of
/// an input share its memory.
///
/// It answers `NoCommand` where the line spells none, and `NoMemory` where memory runs out.
///
/// Example: of `b"append 3"` it gives `ArrayOp::Append` of 3.
#[tactic(auto, unfolding(crate::specs::Operations::operation_in))]
pub fn operation_of_line<'a>(
    alloc: Global,
    words: &mut Vec<&'a [u8]>,
    line: &'a [u8],
) -> Result<ArrayOp, Unread>
    ensures { Reads result (operation_in line.now) }
{
    fill_words(words, line)?;
    match words.as_slice() {
        [first, arguments @ ..] => match first_word(first) {
            Some(word) => operation_of(alloc, word, arguments),
            None => Err(Unread::NoCommand),
        },
        [] => Err(Unread::NoCommand),
    }
}
