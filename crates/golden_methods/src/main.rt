//! Tries the methods of strings of bytes on all short texts over small alphabets, and prints for each
//! method and argument how many answers there were and the hash of their texts. What must come out is
//! written by `tools/python_methods.py` from the methods of Python's own `bytes`.
#![tactic(auto)]

mod letters;
mod methods;
mod needles;
mod shapes;
mod tally;
mod texts;

use methods::{Method, OF_LETTERS, OF_NEEDLES, OF_SHAPES, tally_of};
use pybuf_bytes::PyBytesInner;
use pybuf_value::{Made, push_number};
use shapes::tally_tables;
use std::alloc::Global;
use std::io::Write;
use std::process::ExitCode;
use tally::Tally;
use texts::{single_bytes, string, texts};

/// Adds the line of a method and its argument.
fn push_line(out: &mut Vec<u8>, method: &str, argument: &[u8], tally: &Tally) -> Made<()> {
    out.extend_from_slice(method.as_bytes())?;
    out.push(b' ')?;
    out.extend_from_slice(argument)?;
    out.push(b' ')?;
    push_number(out, tally.count as i128)?;
    out.push(b' ')?;
    let mut digits = [0u8; 16];
    // the room has a place for both digits of each of eight bytes, so this is never refused
    let _ = hex::encode_to_slice(tally.hash.to_be_bytes(), &mut digits);
    out.extend_from_slice(digits.as_slice())?;
    out.push(b'\n')?;
    Ok(())
}

/// Adds the lines of methods on texts, for a needle where they take one.
fn push_methods(
    alloc: Global,
    out: &mut Vec<u8>,
    methods: &[(&str, Method)],
    argument: &[u8],
    texts: &[PyBytesInner],
    needle: &PyBytesInner,
) -> Made<()> {
    for (name, method) in methods {
        let tally = tally_of(alloc, *method, texts, needle)?;
        push_line(out, name, argument, &tally)?;
    }
    Ok(())
}

/// Adds the lines of each needle, which is named by an `x` and its digits.
fn push_needles(
    alloc: Global,
    out: &mut Vec<u8>,
    words: &[PyBytesInner],
    needles: &[PyBytesInner],
) -> Made<()> {
    for needle in needles {
        let digits = hex::encode(alloc, needle.as_bytes())?;
        let mut shown = Vec::from_slice(alloc, b"x")?;
        shown.extend_from_slice(digits.as_bytes())?;
        push_methods(alloc, out, &OF_NEEDLES, shown.as_slice(), words, needle)?;
    }
    Ok(())
}

/// Texts that have a name: all over an alphabet up to a length.
const LETTERS: [(&[u8], &[u8], usize); 3] = [
    (b"letters", b"aB1 ", 5),
    (b"blanks", b"a \x0b\x1c", 5),
    (b"breaks", b"a\n\r", 6),
];

/// The same, for the methods that pad, write or read.
const SHAPES: [(&[u8], &[u8], usize); 3] = [
    (b"signs", b"+-1a", 4),
    (b"tabs", b"a\t\n\r", 5),
    (b"digits", b"1aF g", 5),
];

/// Adds the lines of methods without a needle on texts that have a name.
fn push_named(
    alloc: Global,
    out: &mut Vec<u8>,
    methods: &[(&str, Method)],
    name: &[u8],
    texts: &[PyBytesInner],
) -> Made<()> {
    let needle = string(alloc, b"")?;
    push_methods(alloc, out, methods, name, texts, &needle)
}

/// Adds the lines of methods on the texts over each alphabet.
fn push_alphabets(
    alloc: Global,
    out: &mut Vec<u8>,
    methods: &[(&str, Method)],
    alphabets: &[(&[u8], &[u8], usize)],
) -> Made<()> {
    for (name, letters, longest) in alphabets {
        let texts = texts(alloc, letters, *longest)?;
        push_named(alloc, out, methods, name, texts.as_slice())?;
    }
    Ok(())
}

/// Adds all lines.
fn push_all(alloc: Global, out: &mut Vec<u8>) -> Made<()> {
    let words = texts(alloc, b"ab", 6)?;
    let needles = texts(alloc, b"ab", 3)?;
    push_needles(alloc, out, words.as_slice(), needles.as_slice())?;
    push_alphabets(alloc, out, &OF_LETTERS, &LETTERS)?;
    let singles = single_bytes(alloc)?;
    push_named(alloc, out, &OF_LETTERS, b"bytes", singles.as_slice())?;
    push_alphabets(alloc, out, &OF_SHAPES, &SHAPES)?;
    let tables = tally_tables(alloc)?;
    push_line(out, "maketrans", b"ab", &tables)
}

fn main(rt: HostRuntime) -> ExitCode {
    let mut out = Vec::new(rt.alloc());
    if push_all(rt.alloc(), &mut out).is_err() {
        return ExitCode::from(3);
    }
    match rt.stdout().write_all(out.as_slice()) {
        Ok(()) => ExitCode::SUCCESS,
        Err(_) => ExitCode::from(5),
    }
}
