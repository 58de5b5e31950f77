//! Which line of the input is at fault, and which word of it.
use crate::names::{commands, is_one_of, kinds, methods, operations, operators, properties};
use crate::nearest::{nearest, nearest_first};
use crate::texts::{push_near, push_shown_text, push_text};
use pybuf_array_lines::check_operations;
use pybuf_line::{
    Misread, Unread, check_lines, fill_words, is_word, next_line, push_decimal, value, word_number,
};
use pybuf_sessions::read_sessions;
use pybuf_value::{Made, NoMemory, Text};
use std::alloc::Global;

/// The line of a number, counted from 1. Behind the last line it is empty.
fn line_at(input: &[u8], number: u64) -> &[u8] {
    let mut rest = input;
    for _line in 1..number {
        if let Some((_, after)) = next_line(rest) {
            rest = after;
        }
    }
    match next_line(rest) {
        Some((line, _)) => line,
        None => b"",
    }
}

/// The number of the line that stopped a reading.
fn number_of(stopped: Result<(), Misread>) -> Made<Option<u64>> {
    match stopped {
        Ok(()) => Ok(None),
        Err(Misread::BadLine(number)) => Ok(Some(number)),
        Err(Misread::NoMemory) => Err(NoMemory),
    }
}

/// Whether a word spells a value.
fn is_value(alloc: Global, word: &[u8]) -> Made<bool> {
    match value(alloc, word) {
        Ok(_) => Ok(true),
        Err(Unread::NoCommand) => Ok(false),
        Err(Unread::NoMemory) => Err(NoMemory),
    }
}

/// Adds that a word isn't what it should be, with the name that was meant, where one is near.
fn push_wrong(out: &mut Vec<u8>, word: &[u8], what: &[u8], near: Option<&'static str>) -> Made<()> {
    push_shown_text(out, word, b" is no ")?;
    push_text(out, what)?;
    push_near(out, near)
}

/// Adds how a line of a first word is written.
fn push_written(out: &mut Vec<u8>, written: &'static str) -> Made<()> {
    push_text(out, b"it is written `")?;
    push_text(out, written.as_bytes())?;
    push_text(out, b"`")
}

/// Adds the first of some words that is no value, or how the line is written where each is one.
fn push_wrong_value(
    alloc: Global,
    out: &mut Vec<u8>,
    words: &[&[u8]],
    written: &'static str,
) -> Made<()> {
    for word in words {
        if !is_value(alloc, word)? {
            push_shown_text(out, word, b" is no value; ")?;
            return push_written(out, written);
        }
    }
    push_written(out, written)
}

/// Adds that a word is none of some names, or what is wrong behind it where it is one.
fn push_named(
    alloc: Global,
    out: &mut Vec<u8>,
    words: &[&[u8]],
    what: &[u8],
    names: &[&'static str],
    written: &'static str,
) -> Made<()> {
    let [first, rest @ ..] = words else {
        return push_written(out, written);
    };
    if is_one_of(first, names) {
        return push_wrong_value(alloc, out, rest, written);
    }
    let near = nearest(alloc, first, names)?;
    push_wrong(out, first, what, near)
}

/// Adds what is wrong behind the subject of a command.
fn push_wrong_argument(
    alloc: Global,
    out: &mut Vec<u8>,
    command: &[u8],
    arguments: &[&[u8]],
    written: &'static str,
) -> Made<()> {
    if is_word(command, "call") {
        return push_named(alloc, out, arguments, b"method", &methods(), written);
    }
    if is_word(command, "prop") {
        return push_named(alloc, out, arguments, b"property", &properties(), written);
    }
    if is_word(command, "compare") {
        return push_named(alloc, out, arguments, b"operator", &operators(), written);
    }
    if is_word(command, "new") {
        return push_named(alloc, out, arguments, b"kind", &kinds(), written);
    }
    push_wrong_value(alloc, out, arguments, written)
}

/// How a line is written whose first word is one of some names.
fn written_of(word: &[u8], pairs: &[(&'static str, &'static str)]) -> Option<&'static str> {
    for (name, written) in pairs {
        if is_word(word, name) {
            return Some(*written);
        }
    }
    None
}

/// Whether a word names what a command may be told to: by lines `h` and a number, and by sessions `own`, or `m` or `i` and a number.
fn is_subject(word: &[u8], in_session: bool) -> bool {
    match word {
        [b'h', digits @ ..] => !in_session && word_number(digits).is_some(),
        [b'm', digits @ ..] => in_session && word_number(digits).is_some(),
        [b'i', digits @ ..] => in_session && word_number(digits).is_some(),
        _ => in_session && is_word(word, "own"),
    }
}

/// Adds that a word names nothing that a command may be told to.
fn push_wrong_subject(out: &mut Vec<u8>, word: &[u8], in_session: bool) -> Made<()> {
    if in_session {
        return push_shown_text(
            out,
            word,
            b" is no name of a session, which are `own`, `m0`, `i0` and so on",
        );
    }
    push_shown_text(out, word, b" is no handle, which are `h0`, `h1` and so on")
}

/// Adds what is wrong with the words of a command.
fn push_command_fault(
    alloc: Global,
    out: &mut Vec<u8>,
    words: &[&[u8]],
    in_session: bool,
) -> Made<()> {
    let [first, rest @ ..] = words else {
        return push_text(out, b"a command is missing");
    };
    let Some(written) = written_of(first, &commands()) else {
        let near = nearest_first(alloc, first, &commands())?;
        return push_wrong(out, first, b"command", near);
    };
    if is_word(first, "new") {
        if in_session {
            return push_text(out, b"`new` stands on the first line alone");
        }
        return push_wrong_argument(alloc, out, first, rest, written);
    }
    match rest {
        [] => push_written(out, written),
        [subject, arguments @ ..] => {
            if is_subject(subject, in_session) {
                return push_wrong_argument(alloc, out, first, arguments, written);
            }
            push_wrong_subject(out, subject, in_session)
        }
    }
}

/// Adds what is wrong with the words of an operation on a typed array.
fn push_operation_fault(alloc: Global, out: &mut Vec<u8>, words: &[&[u8]]) -> Made<()> {
    let [first, rest @ ..] = words else {
        return push_text(out, b"an operation is missing");
    };
    match written_of(first, &operations()) {
        Some(written) => push_wrong_value(alloc, out, rest, written),
        None => {
            let near = nearest_first(alloc, first, &operations())?;
            push_wrong(out, first, b"operation", near)
        }
    }
}

/// Whether a word is the number of a session.
fn is_session(word: &[u8]) -> bool {
    match word_number(word) {
        Some(number) => number < 16,
        None => false,
    }
}

/// Adds what is wrong with the words of a line of a session. The first line opens the exporter.
fn push_session_fault(alloc: Global, out: &mut Vec<u8>, words: &[&[u8]], number: u64) -> Made<()> {
    if number == 1 {
        return push_text(out, b"the first line is written `new KIND xHEX`");
    }
    let [session, command @ ..] = words else {
        return push_text(out, b"a session is missing");
    };
    if is_session(session) {
        return push_command_fault(alloc, out, command, true);
    }
    push_shown_text(out, session, b" is no session, which have numbers below 16")
}

/// What the lines of an input are.
#[derive(Clone, Copy, PartialEq, Eq)]
enum Lines {
    Commands,
    Operations,
    Sessions,
}

/// What the lines are that the words of the program ask for.
fn lines_of(words: &[Text]) -> Lines {
    match words {
        [form, ..] => {
            if is_word(form.as_slice(), "array") {
                return Lines::Operations;
            }
            if is_word(form.as_slice(), "share") {
                return Lines::Sessions;
            }
            Lines::Commands
        }
        [] => Lines::Commands,
    }
}

/// The number of the first line that is wrong.
fn first_wrong(alloc: Global, lines: Lines, input: &[u8]) -> Made<Option<u64>> {
    match lines {
        Lines::Commands => number_of(check_lines(alloc, input)),
        Lines::Operations => number_of(check_operations(alloc, input)),
        Lines::Sessions => match read_sessions(alloc, input) {
            Ok(_) => Ok(None),
            Err(misread) => number_of(Err(misread)),
        },
    }
}

/// Whether one of the words is empty.
fn has_empty(words: &[&[u8]]) -> bool {
    for word in words {
        if word.is_empty() {
            return true;
        }
    }
    false
}

/// Adds what is wrong with the words of a line.
fn push_words_fault(
    alloc: Global,
    out: &mut Vec<u8>,
    lines: Lines,
    words: &[&[u8]],
    number: u64,
) -> Made<()> {
    if has_empty(words) {
        return push_text(
            out,
            b"one blank stands between words, and none before the first or behind the last",
        );
    }
    match lines {
        Lines::Commands => push_command_fault(alloc, out, words, false),
        Lines::Operations => push_operation_fault(alloc, out, words),
        Lines::Sessions => push_session_fault(alloc, out, words, number),
    }
}

/// Adds what is wrong with a line.
fn push_line_fault(
    alloc: Global,
    out: &mut Vec<u8>,
    lines: Lines,
    line: &[u8],
    number: u64,
) -> Made<()> {
    if line.is_empty() {
        return push_text(out, b"it is empty");
    }
    let mut words = Vec::new(alloc);
    fill_words(&mut words, line)?;
    push_words_fault(alloc, out, lines, words.as_slice(), number)
}

/// Adds a line with its number, and what is wrong with it.
fn push_numbered_fault(
    alloc: Global,
    out: &mut Vec<u8>,
    lines: Lines,
    line: &[u8],
    number: u64,
) -> Made<()> {
    push_text(out, b"line ")?;
    push_decimal(out, number)?;
    push_text(out, b" is ")?;
    push_shown_text(out, line, b": ")?;
    push_line_fault(alloc, out, lines, line, number)?;
    push_text(out, b"\n")
}

/// Adds the first line that is wrong and what is wrong with it, by the words of the program, and says whether there is one.
///
/// Example: without words, of the input `b"lenn h0\n"`, it adds that `lenn` is no command and that `len` may be meant, and gives `true`.
pub fn push_wrong_line(
    alloc: Global,
    out: &mut Vec<u8>,
    words: &[Text],
    input: &[u8],
) -> Made<bool> {
    let lines = lines_of(words);
    let Some(number) = first_wrong(alloc, lines, input)? else {
        return Ok(false);
    };
    push_numbered_fault(alloc, out, lines, line_at(input, number), number)?;
    Ok(true)
}
