//! Answers as one text, so that a test compares a whole script at once: a word for each, as it is shown, with "; "
//! between.
//!
//! A word for which there is no memory is left out, and so its test fails. So no script stops at a word, where each
//! reply, value and object that is alive would be let go.
ghost use Rattle.std.specs.Prelude.{◌≡◌, []};

use pybuf_command::{ExporterKind, LoanList, LocalReply};
use pybuf_desc::BufferDescriptor;
use pybuf_exporter::ExporterState;
use pybuf_value::{
    ByteList, DimList, Fault, Made, Scalar, Text, Value, push_bytes, push_number, push_truth,
};
use std::alloc::Global;

/// What is told by a word.
#[derive(Clone, Copy)]
pub(crate) enum Word<'a> {
    Bytes(&'a [u8]),
    Count(usize),
    Fault(Fault),
    Shown(&'a [u8]),
    Truth(bool),
}

/// No loans.
pub(crate) fn none(alloc: Global) -> LoanList
    ensures { result ≡ [] }
{
    LoanList::new(alloc)
}

pub(crate) fn number(n: i128) -> Value {
    Value::One(Scalar::Int(n))
}

/// Bytes as a value, and None where there is no memory.
pub(crate) fn bytes(alloc: Global, bytes: &[u8]) -> Value {
    match Value::bytes(alloc, bytes) {
        Ok(value) => value,
        Err(_) => Value::One(Scalar::None),
    }
}

/// A text as a value, and None where there is no memory.
pub(crate) fn text(alloc: Global, text: &str) -> Value {
    match Value::text(alloc, text) {
        Ok(value) => value,
        Err(_) => Value::One(Scalar::None),
    }
}

/// A bytearray of these bytes.
pub(crate) fn exporter_of(alloc: Global, bytes: &[u8]) -> Made<ExporterState> {
    let bytes = ByteList::from_slice(alloc, bytes)?;
    Ok(ExporterState::new(alloc, ExporterKind::ByteArray, bytes))
}

/// Items of a format and a size in these dimensions: entries and stride of each.
pub(crate) fn described(
    alloc: Global,
    format: &str,
    size: usize,
    dims: &[(usize, isize, isize)],
) -> Made<BufferDescriptor> {
    let mut len = size;
    for (entries, _, _) in dims {
        len = len.saturating_mul(*entries);
    }
    let dims = DimList::from_slice(alloc, dims)?;
    let format = Text::from_str(alloc, format)?;
    Ok(BufferDescriptor::raw(len, false, size, format, dims))
}

fn push_word(told: &mut Vec<u8>, word: Word<'_>) -> Made<()> {
    if !told.is_empty() {
        told.extend_from_slice(b"; ")?;
    }
    match word {
        Word::Bytes(bytes) => push_bytes(told, bytes),
        Word::Count(count) => push_number(told, count as i128),
        Word::Fault(fault) => {
            told.extend_from_slice(fault.python_name().as_bytes())?;
            Ok(())
        }
        Word::Shown(shown) => {
            told.extend_from_slice(shown)?;
            Ok(())
        }
        Word::Truth(truth) => push_truth(told, truth),
    }
}

/// Adds a word.
pub(crate) fn say(told: &mut Vec<u8>, word: Word<'_>) {
    let _ = push_word(told, word);
}

/// Adds what a call answers, as it is shown.
pub(crate) fn tell(told: &mut Vec<u8>, alloc: Global, answer: Made<LocalReply>) {
    if let Ok(reply) = answer {
        if let Ok(shown) = format!(in alloc; "{reply}") {
            say(told, Word::Shown(shown.as_bytes()));
        }
        drop(reply);
    }
}
