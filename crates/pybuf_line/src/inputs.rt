//! Whether the lines of an input are commands.
ghost use Rattle.pybuf_line.specs.Scalars.{handle_in};
ghost use Rattle.pybuf_line.specs.Lines.{commands_in};
ghost use Rattle.pybuf_line.specs.Reading.{ChecksAll};

use crate::parsing::command_of_line;
use crate::splitting::next_line;
use crate::unread::{Misread, Unread};
use pybuf_command::Command;
use std::alloc::Global;

/// Lets go of a command that was read.
///
/// Example: of a command that appends `b"ab"` it gives the memory of `b"ab"` back.
pub fn let_go(read: Result<Command, Unread>) {
    if let Ok(command) = read {
        command.let_go();
    }
}

/// Checks that each line of an input is a command.
///
/// It answers `BadLine` with the number of the first line that is none, counted from 1, and `NoMemory`
/// where memory ran out before.
///
/// Example: of `b"new bytes x61\nlen h0\n"` it is `Ok(())`, and of `b"new bytes x61\nlen\n"` it is `Err(Misread::BadLine(2))`.
pub fn check_lines(alloc: Global, input: &[u8]) -> Result<(), Misread>
    ensures { ChecksAll result (commands_in handle_in input.now) }
{
    let mut words = Vec::new(alloc);
    let mut rest = input;
    let mut number: u64 = 0;
    while let Some((line, after)) = next_line(rest) {
        number += 1;
        match command_of_line(alloc, &mut words, line) {
            Ok(command) => command.let_go(),
            Err(Unread::NoCommand) => return Err(Misread::BadLine(number)),
            Err(Unread::NoMemory) => return Err(Misread::NoMemory),
        }
        rest = after;
    }
    Ok(())
}
