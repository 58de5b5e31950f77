//! Carries out the calls of a bytearray that is used as a queue, a line for each line that is read: what the call gave, and
//! how many bytes are left behind it. `tools/python_typed_queues.py` writes what is read and what must come out, by Python's own
//! `bytearray`.
//!
//! A line has a word and a number. `push`, `extend` and `write` add so many bytes, of a pattern that goes on from line to
//! line, and `front` puts them before all others. `take`, `drain`, `read` and `consume` take so many away at the front,
//! `line` takes all up to the first line feed, `all` takes all, and `peek` takes none. `reserve` takes memory ahead for so
//! many bytes, `huge` for more than there can be, and `shrink` gives it back. `view` does the call that its number names while a view is unreleased.
#![tactic(auto)]

mod calls;
mod input;

use calls::{Pattern, push_call};
use input::{call_of, read_input};
use pybuf_line::next_line;
use pybuf_object::PyByteArray;
use pybuf_value::Made;
use std::alloc::Global;
use std::io::{Read, Write};
use std::process::ExitCode;

/// Adds a line for each line.
fn push_lines(alloc: Global, out: &mut Vec<u8>, queue: &mut PyByteArray, input: &[u8]) -> Made<()> {
    let mut pattern = Pattern::new();
    let mut rest = input;
    for _line in 0..input.len() {
        let Some((line, after)) = next_line(rest) else {
            return Ok(());
        };
        let (word, count) = call_of(line);
        push_call(alloc, out, queue, &mut pattern, word, count)?;
        rest = after;
    }
    Ok(())
}

/// Adds the lines of what is read.
fn answer<R: Read>(alloc: Global, reader: &mut R, out: &mut Vec<u8>) -> Made<()> {
    let input = read_input(alloc, reader)?;
    let mut queue = PyByteArray::new(alloc);
    push_lines(alloc, out, &mut queue, input.as_slice())
}

fn main(rt: HostRuntime) -> ExitCode {
    let mut reader = rt.stdin();
    let mut out = Vec::new(rt.alloc());
    if answer(rt.alloc(), &mut reader, &mut out).is_err() {
        return ExitCode::from(3);
    }
    match rt.stdout().write_all(out.as_slice()) {
        Ok(()) => ExitCode::SUCCESS,
        Err(_) => ExitCode::from(5),
    }
}
