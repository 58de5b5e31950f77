//! The commands of an input.
ghost use Rattle.pybuf_line.specs.Scalars.{handle_in};
ghost use Rattle.pybuf_line.specs.Lines.{commands_in};
ghost use Rattle.pybuf_console.specs.Inputs.{ReadsAll};

use pybuf_command::Command;
use pybuf_line::{Misread, Unread, command_of_line, next_line};
use pybuf_value::Items;
use std::alloc::Global;

/// The commands of the lines of an input, or the first line that is none.
pub fn commands_of(alloc: Global, input: &[u8]) -> Result<Items<Command>, Misread>
    ensures { ReadsAll result (commands_in handle_in input.now) }
{
    let mut words = Vec::new(alloc);
    let mut commands = Items::new(alloc);
    let mut rest = input;
    'lines: while let Some((line, after)) = next_line(rest) {
        match command_of_line(alloc, &mut words, line) {
            Ok(command) => {
                let Ok(()) = commands.push(command) else {
                    return Err(Misread::NoMemory);
                };
            }
            Err(Unread::NoCommand) => return Err(Misread::BadLine(commands.len() as u64 + 1)),
            Err(Unread::NoMemory) => return Err(Misread::NoMemory),
        }
        rest = after;
    }
    Ok(commands)
}
