//! Scripts of sessions, which grow by what lines ask.
ghost use Rattle.std.specs.Prelude.{◌≡◌, ◌<◌, OnOk, vec_len};
ghost use Rattle.pybuf_command.specs.declared.commands.LocalCommand.{LocalCommand};
ghost use Rattle.pybuf_sessions.specs.Scripts.{added};

use pybuf_command::LocalCommand;
use pybuf_share::LocalCommandList;
use pybuf_value::{Made, NoMemory};
use std::alloc::Global;

/// Adds empty scripts until there is one for the session of a number.
fn fill(alloc: Global, scripts: &mut Vec<LocalCommandList>, session: usize) -> Made<()>
    ensures some { OnOk result (session < vec_len scripts.new) }
    ensures same { OnOk result ((c : LocalCommand) → added session c scripts.new.items ≡ added session c scripts.old.items) }
{
    while scripts.len() <= session {
        scripts.push(LocalCommandList::new(alloc))?;
    }
    Ok(())
}

/// Adds a command to a script that there is.
fn add_there(scripts: &mut Vec<LocalCommandList>, session: usize, command: LocalCommand) -> Made<()>
    requires { session < vec_len scripts.old }
    ensures { OnOk result (scripts.new.items ≡ added session command scripts.old.items) }
{
    let script = &mut scripts[session];
    script.push(command)?;
    Ok(())
}

/// Adds a command to the script of the session of a number. Sessions before it that have no script get an empty one.
pub fn add(
    alloc: Global,
    scripts: &mut Vec<LocalCommandList>,
    session: usize,
    command: LocalCommand,
) -> Made<()>
    ensures { OnOk result (scripts.new.items ≡ added session command scripts.old.items) }
{
    match fill(alloc, scripts, session) {
        Ok(()) => add_there(scripts, session, command),
        Err(NoMemory) => {
            // The command is dropped by a call. If it ended with its scope, the drop would spell out all its variants.
            drop(command);
            Err(NoMemory)
        }
    }
}
