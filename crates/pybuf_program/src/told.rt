//! What is told on standard error: what is wrong, and what would be right.
use pybuf_cli::Status;
use pybuf_messages::{push_wrong_length, push_wrong_line, push_wrong_word};
use pybuf_value::{Made, Text};
use std::alloc::Global;

/// What a status means, where neither the words nor the input have to be shown.
pub(crate) fn meaning(status: Status) -> Option<&'static str> {
    match status {
        Status::Done => None,
        Status::BadLine => Some("a line of the input is no command"),
        Status::NoMemory => Some("no memory"),
        Status::ReadFault => Some("the input could not be read"),
        Status::WriteFault => Some("the output could not be written"),
        Status::Usage => Some("the words behind the name of the program are none that it knows"),
        Status::TooLong => Some("the input has more than 1,048,576 bytes"),
        Status::Disagree => Some("the sessions disagree with their history"),
        Status::BadData => Some("the length of the input doesn't fit"),
    }
}

/// Adds which line or which byte of the input is at fault, and says whether that is known.
fn push_wrong_input(
    alloc: Global,
    out: &mut Vec<u8>,
    words: &[Text],
    status: Status,
    input: &[u8],
) -> Made<bool> {
    match status {
        Status::BadLine => push_wrong_line(alloc, out, words, input),
        Status::BadData => push_wrong_length(alloc, out, words, input),
        _ => Ok(false),
    }
}

/// Adds what a status means, and a line feed.
fn push_meaning(out: &mut Vec<u8>, status: Status) -> Made<()> {
    if let Some(text) = meaning(status) {
        out.extend_from_slice(text.as_bytes())?;
    }
    out.push(b'\n')?;
    Ok(())
}

/// Adds why the program ended with a status, which isn't that all was done, by its words and what it read.
fn push_reason(
    alloc: Global,
    out: &mut Vec<u8>,
    words: &[Text],
    status: Status,
    input: Option<&[u8]>,
) -> Made<()> {
    if status == Status::Usage {
        return push_wrong_word(alloc, out, words);
    }
    if let Some(input) = input {
        if push_wrong_input(alloc, out, words, status, input)? {
            return Ok(());
        }
    }
    push_meaning(out, status)
}

/// What is told where a run of the program ended with a status: nothing where all was done, and else lines of which the first begins
/// with the program's name and says what is wrong.
pub(crate) fn complaint(
    alloc: Global,
    words: &[Text],
    status: Status,
    input: Option<&[u8]>,
) -> Made<Vec<u8>> {
    let mut out = Vec::new(alloc);
    if status == Status::Done {
        return Ok(out);
    }
    out.extend_from_slice(b"pybuf: ")?;
    push_reason(alloc, &mut out, words, status, input)?;
    Ok(out)
}
