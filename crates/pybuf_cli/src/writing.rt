//! The lines of an input, run one after the other, with a line for each reply.
ghost use Rattle.std.specs.Prelude.{◌≡◌, ◌≤◌, OnOk, OnErr, IfErr};
ghost use Rattle.pybuf_cli.specs.Devices.{Rose, Puts, PutsPrefix};
ghost use Rattle.pybuf_cli.specs.Running.{IsSpelled, AreSpelled, IsCarriedOut, IsAnswered};
ghost use Rattle.pybuf_cli.specs.declared.devices.PutFault.{PutFault};
ghost use Rattle.pybuf_cli.specs.Program.{due_of};

use crate::devices::{PutFault, Sink};
use crate::loops::write_all;
use crate::putting::{send_front, send_reply};
use pybuf_command::Command;
use pybuf_line::{Unread, command_of_line, let_go, next_line, push_reply_line};
use pybuf_value::{Made, NoMemory};
use pybuf_world::World;
use std::alloc::Global;

/// Carries out a command, and adds the line of its reply to the text.
fn answer_command(world: &mut World, command: &Command, text: &mut Vec<u8>) -> Made<()>
    ensures { OnOk result (IsCarriedOut world.old command.now text.old.items world.new text.new.items) }
{
    match world.step(command) {
        Ok(reply) => push_reply_line(text, &reply),
        Err(NoMemory) => Err(NoMemory),
    }
}

/// Carries out the command of a line, and adds the line of its reply to the text.
fn answer_line<'a>(
    alloc: Global,
    world: &mut World,
    words: &mut Vec<&'a [u8]>,
    line: &'a [u8],
    text: &mut Vec<u8>,
) -> Made<()>
    requires { IsSpelled line.now }
    ensures { OnOk result (IsAnswered world.old line.now text.old.items world.new text.new.items) }
{
    // The command is lent from where it was read to. It is long, and each move would copy it.
    let read = command_of_line(alloc, words, line);
    let answered = match &read {
        Ok(command) => answer_command(world, command, text),
        Err(Unread::NoMemory) => Err(NoMemory),
        Err(Unread::NoCommand) => unreachable!(),
    };
    let_go(read);
    answered
}

/// Runs the lines of an input in a new world, and puts a line for each reply, a piece at a time. No
/// command is kept and no reply. Where memory runs out in a command, the replies of those before it are
/// put first.
pub fn run_lines<K: Sink>(alloc: Global, sink: &mut K, input: &[u8]) -> Result<(), PutFault>
    requires { AreSpelled input.now }
    ensures all { OnOk result (Puts K.bytes_held sink.old (due_of input.now) sink.new) }
    ensures prefix { OnErr result (PutsPrefix K.bytes_held sink.old (due_of input.now) sink.new) }
    ensures rose { IfErr result (λ fault. fault ≡ PutFault.Failed → Rose (K.faults sink.old) (K.faults sink.new)) }
    ensures later { K.faults sink.old ≤ K.faults sink.new }
{
    let mut world = World::new(alloc);
    let mut words = Vec::new(alloc);
    let mut text = Vec::new(alloc);
    // A reply is written into a text of its own, and not behind the replies that wait, since memory may run out while
    // it is written.
    let mut reply = Vec::new(alloc);
    let mut rest = input;
    'running: while let Some((line, after)) = next_line(rest) {
        let Ok(()) = answer_line(alloc, &mut world, &mut words, line, &mut reply) else {
            send_front(sink, text.as_slice());
            return Err(PutFault::NoMemory);
        };
        send_reply(sink, &mut text, &mut reply)?;
        rest = after;
    }
    write_all(sink, text.as_slice())
}
