//! Prints the views that steps make of arrays, a line for each line that is read: the shape, the strides and the items of
//! the last view, and behind `=` the bytes of the array once others were assigned to these items, from 100 on; or that a step
//! was refused. What is read and what must come out is written by `tools/numpy_views.py`, by
//! NumPy's own views.
//!
//! A line has the shape of an array, whose items are bytes that lie one after the other, and steps: `slice` and a tuple of
//! slices, `order` and the axes, `turn`, `pick` and an axis and a place. An item is shown by its place.
#![tactic(auto)]

mod assigned;
mod orders;
mod shown;
mod steps;

use assigned::push_assigned;
use pybuf_line::{Unread, fill_words, next_line, value};
use pybuf_value::{Made, NoMemory, Value};
use shown::push_view;
use std::alloc::Global;
use std::io::{Read, Write};
use std::process::ExitCode;
use steps::{View, after_step, whole};

/// As many pieces of the input are read at most.
const PIECES: usize = 64;

/// The bytes of a piece at most.
const PIECE: usize = 65_536;

/// Adds the next piece to the input, and says whether there was one.
fn read_piece<R: Read>(reader: &mut R, input: &mut Vec<u8>) -> Made<bool> {
    let mut room = [0u8; PIECE];
    match reader.read(&mut room) {
        Ok(count) => {
            if count > PIECE {
                return Ok(false);
            }
            input.extend_from_slice(&room[..count])?;
            Ok(count > 0)
        }
        Err(_) => Ok(false),
    }
}

/// The bytes of the input.
fn read_input<R: Read>(alloc: Global, reader: &mut R) -> Made<Vec<u8>> {
    let mut input = Vec::new(alloc);
    for _piece in 0..PIECES {
        if !read_piece(reader, &mut input)? {
            return Ok(input);
        }
    }
    Ok(input)
}

/// The value that a word spells.
fn value_of(alloc: Global, word: &[u8]) -> Made<Option<Value>> {
    match value(alloc, word) {
        Ok(told) => Ok(Some(told)),
        Err(Unread::NoCommand) => Ok(None),
        Err(Unread::NoMemory) => Err(NoMemory),
    }
}

/// Takes the step that begins at a word. The result is whether it was taken, and how many words it has.
fn step(alloc: Global, view: &mut View, words: &[&[u8]], at: usize) -> Made<(bool, usize)> {
    let Some(word) = words.get(at) else {
        return Ok((false, 1));
    };
    let argument = match words.get(at.wrapping_add(1)) {
        Some(next) => value_of(alloc, next)?,
        None => None,
    };
    let count = if argument.is_none() { 1 } else { 2 };
    let made = after_step(alloc, view, word, argument.as_ref());
    drop(argument);
    match made? {
        Some(next) => {
            *view = next;
            Ok((true, count))
        }
        None => Ok((false, count)),
    }
}

/// Takes the steps behind the first word of a line. The result is whether all were taken.
fn take_steps(alloc: Global, view: &mut View, words: &[&[u8]]) -> Made<bool> {
    let mut at: usize = 1;
    for _step in 0..words.len() {
        if at >= words.len() {
            return Ok(true);
        }
        let (is_taken, count) = step(alloc, view, words, at)?;
        if !is_taken {
            return Ok(false);
        }
        at = at.wrapping_add(count);
    }
    Ok(true)
}

/// Adds a view, and the array once others were assigned to its items.
fn push_last(alloc: Global, out: &mut Vec<u8>, view: View) -> Made<()> {
    let is_valid = push_view(out, &view);
    if let Ok(true) = is_valid {
        return push_assigned(alloc, out, view);
    }
    drop(view);
    is_valid?;
    Ok(())
}

/// The array of the first word of a line.
fn first_view(alloc: Global, words: &[&[u8]]) -> Made<Option<View>> {
    let Some(shape) = words.first() else {
        return Ok(None);
    };
    let told = value_of(alloc, shape)?;
    let made = whole(alloc, told.as_ref());
    drop(told);
    made
}

/// Adds what the steps of a line make of a view.
fn push_steps(alloc: Global, out: &mut Vec<u8>, first: View, words: &[&[u8]]) -> Made<()> {
    let mut view = first;
    let taken = take_steps(alloc, &mut view, words);
    if let Ok(true) = taken {
        return push_last(alloc, out, view);
    }
    drop(view);
    taken?;
    out.extend_from_slice(b"refused")?;
    Ok(())
}

/// Adds the line of a line.
fn push_line(alloc: Global, out: &mut Vec<u8>, words: &[&[u8]]) -> Made<()> {
    match first_view(alloc, words)? {
        Some(first) => push_steps(alloc, out, first, words)?,
        None => out.extend_from_slice(b"refused")?,
    }
    out.push(b'\n')?;
    Ok(())
}

/// Adds all lines.
fn push_lines(alloc: Global, out: &mut Vec<u8>, input: &[u8]) -> Made<()> {
    let mut words = Vec::new(alloc);
    let mut rest = input;
    for _line in 0..input.len() {
        match next_line(rest) {
            Some((line, after)) => {
                fill_words(&mut words, line)?;
                push_line(alloc, out, words.as_slice())?;
                rest = after;
            }
            None => return Ok(()),
        }
    }
    Ok(())
}

/// Adds the lines of what is read.
fn answer<R: Read>(alloc: Global, reader: &mut R, out: &mut Vec<u8>) -> Made<()> {
    let input = read_input(alloc, reader)?;
    push_lines(alloc, out, input.as_slice())
}

fn main(rt: HostRuntime) -> ExitCode {
    let mut reader = rt.stdin();
    let mut out = Vec::new(rt.alloc());
    if answer(rt.alloc(), &mut reader, &mut out).is_err() {
        return ExitCode::from(3);
    }
    match rt.stdout().write_all(out.as_slice()) {
        Ok(()) => ExitCode::SUCCESS,
        Err(_) => ExitCode::from(5),
    }
}
