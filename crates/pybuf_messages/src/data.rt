//! Which record or byte is at fault where the length of the input doesn't fit.
use crate::texts::{push_count, push_shown, push_text, push_text_number};
use pybuf_line::is_word;
use pybuf_nd_lines::selection_of_words;
use pybuf_struct::FormatSpec;
use pybuf_table_lines::listing_of_words;
use pybuf_value::{Made, Outcome, Text};
use std::alloc::Global;

/// Adds which record begins at a byte and has not all of its bytes.
fn push_record(
    out: &mut Vec<u8>,
    record: usize,
    begin: usize,
    left: usize,
    format: &[u8],
    size: usize,
) -> Made<()> {
    push_text_number(out, b"record ", record)?;
    push_text_number(out, b", from byte ", begin)?;
    push_text(out, b" on, has ")?;
    push_count(out, left, b"byte")?;
    push_text(out, b", and a record of ")?;
    push_shown(out, format)?;
    push_text_number(out, b" has ", size)?;
    push_text(out, b" (records and bytes are counted from 0)\n")
}

/// Adds which record the input ends in, and says whether the words and the input are such.
fn push_table_fault(alloc: Global, out: &mut Vec<u8>, words: &[Text], input: &[u8]) -> Made<bool> {
    let Some(listing) = listing_of_words(alloc, words)? else {
        return Ok(false);
    };
    let left = listing.left_over(input);
    let [format, ..] = words else {
        return Ok(false);
    };
    let Outcome::Done(spec) = FormatSpec::parse(alloc, format.as_slice())? else {
        return Ok(false);
    };
    let size = spec.size();
    if size == 0 || left == 0 || left > input.len() {
        return Ok(false);
    }
    let begin = input.len() - left;
    push_record(out, begin / size, begin, left, format.as_slice(), size)?;
    Ok(true)
}

/// Adds how many bytes the input has and the shape takes, and which is the first that is missing or too many.
fn push_misfit(out: &mut Vec<u8>, count: usize, shape: &[u8], due: usize) -> Made<()> {
    push_text(out, b"the input has ")?;
    push_count(out, count, b"byte")?;
    push_text(out, b", and the shape ")?;
    push_shown(out, shape)?;
    push_text_number(out, b" takes ", due)?;
    push_first_wrong(out, count, due)?;
    push_text(out, b" (bytes are counted from 0)\n")
}

/// Adds the first byte that is missing or too many.
fn push_first_wrong(out: &mut Vec<u8>, count: usize, due: usize) -> Made<()> {
    if count < due {
        return push_text_number(out, b": the first that is missing is byte ", count);
    }
    push_text_number(out, b": the first that is too many is byte ", due)
}

/// Adds where the input ends or the shape does, and says whether the words and the input are such.
fn push_nd_fault(alloc: Global, out: &mut Vec<u8>, words: &[Text], input: &[u8]) -> Made<bool> {
    let Some(selection) = selection_of_words(alloc, words)? else {
        return Ok(false);
    };
    let [shape, ..] = words else {
        return Ok(false);
    };
    push_misfit(out, input.len(), shape.as_slice(), selection.bytes_due())?;
    Ok(true)
}

/// Adds which record or byte is at fault, by the words of the program, and says whether that is known.
///
/// Example: for the words `table` and `<BH`, of four bytes, it adds that record 1 has 1 byte, and gives `true`.
pub fn push_wrong_length(
    alloc: Global,
    out: &mut Vec<u8>,
    words: &[Text],
    input: &[u8],
) -> Made<bool> {
    match words {
        [form, rest @ ..] => {
            if is_word(form.as_slice(), "table") {
                return push_table_fault(alloc, out, rest, input);
            }
            push_nd_fault(alloc, out, rest, input)
        }
        [] => Ok(false),
    }
}
