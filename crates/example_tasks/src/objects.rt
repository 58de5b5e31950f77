//! A queue of bytes, and the objects of an interpreter.
use example_users::{Interpreter, Statement};
use pybuf::{ByteList, Halt, PyByteArray, Scalar, Text, place_of_byte};
use std::alloc::Global;
use std::fmt::Write;

/// Receives three pieces, and writes each line once it is whole.
pub fn receive(alloc: Global, queue: &mut PyByteArray, out: &mut String) -> Result<(), Halt> {
    for piece in [b"get a\npu".as_slice(), b"t b\n", b"qu"] {
        queue.extend_from_slice(piece)?;
        for _byte in piece {
            let Some(end) = place_of_byte(queue.as_slice(), b'\n') else {
                break;
            };
            let line = Scalar::bytes(alloc, &queue.as_slice()[..end])?;
            writeln!(out, "{line}")?;
            queue.drain_front(end + 1)?;
        }
    }
    writeln!(out, "{}", queue.byte_count())?;
    Ok(())
}

/// Carries out a program, and writes what is said of it: a refusal, and the bytes.
pub fn interpret(alloc: Global, python: &mut Interpreter, out: &mut String) -> Result<(), Halt> {
    let program = vec![in alloc;
        Statement::ByteArray(ByteList::from_slice(alloc, b"\x01\x00\x02\x00")?),
        Statement::MemoryView(0),
        Statement::Cast(1, Text::from_str(alloc, "H")?),
        Statement::SetItem(2, 0, 513),
        Statement::Append(0, 5),
        Statement::Bytes(0),
    ]?;
    let replies = python.run(program)?;
    for reply in replies.as_slice().iter().skip(4) {
        writeln!(out, "{reply}")?;
    }
    Ok(())
}
