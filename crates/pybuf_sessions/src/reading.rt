//! Inputs of sessions.
ghost use Rattle.std.specs.Prelude.{◌<◌, ◌≤◌, IfOk, length};
ghost use Rattle.std.specs.List.{All};
ghost use Rattle.pybuf_line.specs.Lines.{lines};
ghost use Rattle.pybuf_share.specs.Working.{ScriptFits};
ghost use Rattle.pybuf_sessions.specs.Sessions.{asks_from, scripts_for, sessions_in};
ghost use Rattle.pybuf_sessions.specs.Asks.{ask_in};
ghost use Rattle.pybuf_sessions.specs.Reading.{ReadsAll, Adds};

use crate::asks::{Ask, ask_of_line};
use crate::laws::sessions_are_runnable;
use crate::opening::opening;
use crate::scripts::add;
use crate::sessions::Sessions;
use pybuf_line::{Misread, Unread, next_line};
use pybuf_share::{LocalCommandList, ScriptList};
use pybuf_value::NoMemory;
use std::alloc::Global;

/// Adds what a line asks to the scripts.
fn read_line(
    alloc: Global,
    text: &mut Vec<u8>,
    scripts: &mut Vec<LocalCommandList>,
    line: &[u8],
) -> Result<(), Unread>
    ensures { Adds result (ask_in line.now) scripts.old.items scripts.new.items }
{
    let Ask { session, command } = ask_of_line(alloc, text, line)?;
    match add(alloc, scripts, session, command) {
        Ok(()) => Ok(()),
        Err(NoMemory) => Err(Unread::NoMemory),
    }
}

/// The scripts of the lines behind the first.
fn read_scripts(alloc: Global, input: &[u8]) -> Result<ScriptList, Misread>
    ensures { ReadsAll result (scripts_for (asks_from 2 (lines input.now))) }
{
    let mut scripts = Vec::new(alloc);
    scripts.push(LocalCommandList::new(alloc))?;
    let mut text = Vec::new(alloc);
    let mut rest = input;
    let mut number: u64 = 1;
    while let Some((line, after)) = next_line(rest) {
        number += 1;
        match read_line(alloc, &mut text, &mut scripts, line) {
            Ok(()) => {}
            Err(Unread::NoCommand) => return Err(Misread::BadLine(number)),
            Err(Unread::NoMemory) => return Err(Misread::NoMemory),
        }
        rest = after;
    }
    Ok(ScriptList::from_vec(scripts))
}

/// The sessions of an input, or its first line that is wrong.
fn read_all(alloc: Global, input: &[u8]) -> Result<Sessions, Misread>
    ensures { ReadsAll result (sessions_in input.now) }
{
    let Some((first, rest)) = next_line(input) else {
        return Err(Misread::BadLine(1));
    };
    match opening(alloc, first) {
        Ok((kind, bytes)) => {
            let scripts = read_scripts(alloc, rest)?;
            Ok(Sessions {
                kind,
                bytes,
                scripts,
            })
        }
        Err(Unread::NoCommand) => Err(Misread::BadLine(1)),
        Err(Unread::NoMemory) => Err(Misread::NoMemory),
    }
}

/// The sessions of an input.
///
/// The first line is `new KIND xHEX`: the kind of the exporter, and its bytes. Each line behind it is
/// `S WORD NAME ARGS`: the number of a session, one or two decimal digits of a number below 16, and a
/// command, in which names stand where other lines have handles. `own` names the exporter, `mK` the
/// K-th view and `iK` the K-th iterator that the session was given, counted from 0. The names among the
/// values of a command become the handles 0, 1 and so on, from the left, and are lent as what they
/// name. There is a script for each session up to the greatest number, also where a session has no
/// command.
///
/// It answers `BadLine` with the number of the first line that is wrong, counted from 1, and `NoMemory`
/// where memory ran out before. Each line is read once, and no list of lines is kept.
///
/// Example: of `new bytearray x6162` and `0 len own` it gives a bytearray of `b"ab"`, and one script of one command.
pub fn read_sessions(alloc: Global, input: &[u8]) -> Result<Sessions, Misread>
    ensures read { ReadsAll result (sessions_in input.now) }
    ensures some { IfOk result (λ s. 0 < length s.scripts) }
    ensures few { IfOk result (λ s. length s.scripts ≤ 16) }
    ensures fit { IfOk result (λ s. All ScriptFits s.scripts) }
{
    sessions_are_runnable();
    read_all(alloc, input)
}
