//! One command, asked of the world of a handle.
ghost use Rattle.std.specs.Prelude.{◌≡◌};
ghost use Rattle.pybuf_console.specs.Held.{held};
ghost use Rattle.pybuf_c.specs.Holding.{NoneHold};
ghost use Rattle.pybuf_c.specs.Worlds.{CarriesOut};

use crate::status::{NO_MEMORY, NO_WORLD, answer_number};
use pybuf_command::Command;
use pybuf_console::WorldHandle;
use pybuf_value::NoMemory;
use std::alloc::Global;
use std::mem;

/// Asks a command, whose reply the world keeps.
#[inline(always)]
pub fn ask(handle: &mut WorldHandle, alloc: Global, command: Command) -> u32
    ensures memory { result ≡ 1 → held handle.new ≡ held handle.old }
    ensures none { result ≡ 2 → NoneHold (held handle.old) (held handle.new) }
    ensures answered { CarriesOut command result handle.old handle.new }
{
    let Some(mut console) = handle.take(alloc) else {
        command.let_go();
        return NO_WORLD;
    };
    let asked = console.ask(&command);
    let refusal = console.refusal();
    handle.put(console);
    command.let_go();
    match asked {
        Ok(()) => answer_number(refusal),
        Err(NoMemory) => NO_MEMORY,
    }
}

/// Asks a command that owns no memory, whose reply the world keeps. The command is forgotten where it lies, since to let go of it
/// would move its 416 bytes; of one that owned memory, that memory would stay.
#[inline(always)]
pub fn ask_unowned(handle: &mut WorldHandle, alloc: Global, command: Command) -> u32
    ensures memory { result ≡ 1 → held handle.new ≡ held handle.old }
    ensures none { result ≡ 2 → NoneHold (held handle.old) (held handle.new) }
    ensures answered { CarriesOut command result handle.old handle.new }
{
    let Some(mut console) = handle.take(alloc) else {
        mem::forget(command);
        return NO_WORLD;
    };
    let asked = console.ask(&command);
    mem::forget(command);
    let refusal = console.refusal();
    handle.put(console);
    match asked {
        Ok(()) => answer_number(refusal),
        Err(NoMemory) => NO_MEMORY,
    }
}
