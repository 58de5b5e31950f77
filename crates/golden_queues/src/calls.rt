//! The calls.
use pybuf_memoryobject::PyMemoryView;
use pybuf_object::PyByteArray;
use pybuf_value::{Fault, Halt, Made, push_number};
use std::alloc::Global;
use std::io::{BufRead, Error, ErrorKind, Read, Write};

/// The bytes that are added: each is greater by 1 than the one before, and behind 63 comes 0. So each 64th is a line feed.
#[derive(Drop)]
pub struct Pattern {
    next: u8,
}

impl Pattern {
    pub fn new() -> Pattern {
        Pattern { next: 0 }
    }

    fn byte(&mut self) -> u8 {
        let byte = self.next;
        self.next = byte.wrapping_add(1) % 64;
        byte
    }

    fn bytes(&mut self, alloc: Global, count: usize) -> Made<Vec<u8>> {
        let mut bytes = Vec::with_capacity(alloc, count)?;
        for _byte in 0..count {
            bytes.push(self.byte())?;
        }
        Ok(bytes)
    }
}

fn push_bytes(out: &mut Vec<u8>, bytes: &[u8]) -> Made<()> {
    out.push(b'[')?;
    for byte in bytes {
        out.push(b' ')?;
        push_number(out, *byte as i128)?;
    }
    out.extend_from_slice(b" ]")?;
    Ok(())
}

fn push_fault(out: &mut Vec<u8>, fault: Fault) -> Made<()> {
    match fault {
        Fault::Index => out.extend_from_slice(b"IndexError")?,
        Fault::Buffer => out.extend_from_slice(b"BufferError")?,
        Fault::Overflow => out.extend_from_slice(b"OverflowError")?,
        _ => out.extend_from_slice(b"otherwise")?,
    }
    Ok(())
}

fn push_error(out: &mut Vec<u8>, error: Error) -> Made<()> {
    match error.kind() {
        ErrorKind::ResourceBusy => out.extend_from_slice(b"BufferError")?,
        _ => out.extend_from_slice(b"otherwise")?,
    }
    Ok(())
}

/// Adds that a call was done, or why it was not.
fn push_done(out: &mut Vec<u8>, answer: Result<(), Halt>) -> Made<()> {
    match answer {
        Ok(()) => out.extend_from_slice(b"done")?,
        Err(Halt::Refused(fault)) => push_fault(out, fault)?,
        Err(Halt::NoMemory) => out.extend_from_slice(b"no memory")?,
    }
    Ok(())
}

fn push_taken(alloc: Global, out: &mut Vec<u8>, queue: &mut PyByteArray, count: usize) -> Made<()> {
    match queue.take_front(alloc, count) {
        Ok(bytes) => push_bytes(out, bytes.as_slice()),
        Err(halt) => push_done(out, Err(halt)),
    }
}

fn push_all_taken(out: &mut Vec<u8>, queue: &mut PyByteArray) -> Made<()> {
    match queue.take() {
        Ok(bytes) => push_bytes(out, bytes.as_slice()),
        Err(halt) => push_done(out, Err(halt)),
    }
}

/// Puts so many bytes before all others, each as a call of its own, the last of the pattern first.
fn put_in_front(queue: &mut PyByteArray, bytes: &[u8]) -> Result<(), Halt> {
    for byte in bytes.iter().rev() {
        queue.insert_at(0, *byte)?;
    }
    Ok(())
}

fn push_peeked(out: &mut Vec<u8>, queue: &PyByteArray, count: usize) -> Made<()> {
    match queue.peek(count) {
        Some(bytes) => push_bytes(out, bytes),
        None => {
            out.extend_from_slice(b"none")?;
            Ok(())
        }
    }
}

fn push_read(alloc: Global, out: &mut Vec<u8>, queue: &mut PyByteArray, count: usize) -> Made<()> {
    let mut room = Vec::new(alloc);
    room.resize(count, 0)?;
    match queue.read(room.as_mut_slice()) {
        Ok(read) => {
            if read > room.len() {
                return Ok(());
            }
            push_bytes(out, &room[..read])
        }
        Err(error) => push_error(out, error),
    }
}

fn push_written(
    alloc: Global,
    out: &mut Vec<u8>,
    queue: &mut PyByteArray,
    bytes: &[u8],
) -> Made<()> {
    match queue.write(bytes) {
        Ok(count) => push_number(out, count as i128),
        Err(error) => push_error(out, error),
    }
}

fn push_line(alloc: Global, out: &mut Vec<u8>, queue: &mut PyByteArray) -> Made<()> {
    let mut line = Vec::new(alloc);
    match queue.read_until(b'\n', &mut line) {
        Ok(_) => push_bytes(out, line.as_slice()),
        Err(error) => push_error(out, error),
    }
}

/// Adds what a call gave. An unknown word gives nothing.
fn push_given(
    alloc: Global,
    out: &mut Vec<u8>,
    queue: &mut PyByteArray,
    pattern: &mut Pattern,
    word: &[u8],
    count: usize,
) -> Made<()> {
    match word {
        b"push" => push_done(out, queue.push((count % 256) as u8)),
        b"extend" => {
            let bytes = pattern.bytes(alloc, count)?;
            push_done(out, queue.extend_from_slice(bytes.as_slice()))
        }
        b"write" => {
            let bytes = pattern.bytes(alloc, count)?;
            push_written(alloc, out, queue, bytes.as_slice())
        }
        b"take" => push_taken(alloc, out, queue, count),
        b"drain" => push_done(out, queue.drain_front(count)),
        b"all" => push_all_taken(out, queue),
        b"front" => {
            let bytes = pattern.bytes(alloc, count)?;
            push_done(out, put_in_front(queue, bytes.as_slice()))
        }
        b"reserve" => push_done(out, queue.reserve(count)),
        b"huge" => push_done(out, queue.reserve(usize::MAX - count)),
        b"shrink" => push_done(out, queue.shrink_to_fit()),
        b"read" => push_read(alloc, out, queue, count),
        b"peek" => push_peeked(out, queue, count),
        b"line" => push_line(alloc, out, queue),
        b"consume" => {
            queue.consume(count);
            push_done(out, Ok(()))
        }
        _ => Ok(()),
    }
}

/// Does the calls with a view out.
fn push_refused(
    alloc: Global,
    out: &mut Vec<u8>,
    queue: &mut PyByteArray,
    pattern: &mut Pattern,
    count: usize,
) -> Made<()> {
    let word = match count {
        0 => b"take".as_slice(),
        1 => b"read".as_slice(),
        2 => b"line".as_slice(),
        3 => b"consume".as_slice(),
        4 => b"drain".as_slice(),
        5 => b"write".as_slice(),
        6 => b"push".as_slice(),
        7 => b"all".as_slice(),
        8 => b"front".as_slice(),
        9 => b"reserve".as_slice(),
        10 => b"huge".as_slice(),
        11 => b"shrink".as_slice(),
        _ => b"peek".as_slice(),
    };
    match PyMemoryView::of_all(queue.state_mut()) {
        Ok(view) => {
            let given = push_given(alloc, out, queue, pattern, word, 1);
            let state = queue.state_mut();
            if state.is_live(view.number()) {
                view.release(state);
            }
            given
        }
        Err(halt) => push_done(out, Err(halt)),
    }
}

/// Adds the line of a call: what it gave, and how many bytes are left.
pub fn push_call(
    alloc: Global,
    out: &mut Vec<u8>,
    queue: &mut PyByteArray,
    pattern: &mut Pattern,
    word: &[u8],
    count: usize,
) -> Made<()> {
    if word == b"view".as_slice() {
        push_refused(alloc, out, queue, pattern, count)?;
    } else {
        push_given(alloc, out, queue, pattern, word, count)?;
    }
    out.extend_from_slice(b" left ")?;
    push_number(out, queue.byte_count() as i128)?;
    out.push(b'\n')?;
    Ok(())
}
