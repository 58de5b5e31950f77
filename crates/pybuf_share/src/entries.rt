//! What is kept of each command, and what a session has to show for it.
ghost use Rattle.std.specs.Prelude.{◌≡◌, IfOk};

use pybuf_command::{LocalCommand, LocalReply};
use pybuf_value::{Items, Made, NoMemory, Twin};
use std::alloc::Global;
use std::marker::Model;
use std::sync::Arc;

/// A command that is kept once, however many entries and receipts hold it. A clause sees the command.
/// Example: the entry of a command and the receipt of its session hold one `SharedCommand` together.
#[derive(Debug, Drop)]
pub struct SharedCommand {
    command: Arc<LocalCommand, Global>,
}

impl Model for SharedCommand {
    ghost use Rattle.std.specs.Arc.{arc_value};
    ghost use Rattle.pybuf_command.specs.declared.commands.LocalCommand.{LocalCommand};

    ghost Value = { LocalCommand };

    ghost view = { λ c. arc_value c.command };
}

impl SharedCommand {
    /// A command that may be held together from now on. Where memory runs out, the command is dropped.
    /// Example: of the command `len` it is that command.
    pub fn new(alloc: Global, command: LocalCommand) -> Made<SharedCommand>
        ensures { IfOk result (λ c. c ≡ command) }
    {
        let command = Arc::new(alloc, command)?;
        Ok(SharedCommand { command })
    }

    /// The command, lent. Takes no memory.
    /// Example: of `SharedCommand::new(alloc, command)?` it is `&command`.
    pub fn as_command(&self) -> &LocalCommand
        ensures { result.now ≡ self.now }
    {
        &*self.command
    }
}

impl Twin for SharedCommand {
    /// The same command, held once more. Nothing of it is copied.
    fn copy(&self, _alloc: Global) -> Made<SharedCommand> {
        let command = Arc::try_clone(&self.command)?;
        Ok(SharedCommand { command })
    }
}

/// A command of a session, and its reply, as the history keeps them.
/// Example: session 2, `append 65` and the reply `Ok` stand for one byte that session 2 added.
#[derive(Debug, Drop)]
pub struct Entry {
    /// The number of the session that asked.
    pub session: u64,
    /// What it asked.
    pub command: SharedCommand,
    /// What the exporter replied.
    pub reply: LocalReply,
}

impl Twin for Entry {
    fn copy(&self, alloc: Global) -> Made<Entry> {
        let session = self.session;
        let command = self.command.copy(alloc)?;
        match self.reply.copy(alloc) {
            Ok(reply) => Ok(Entry {
                session,
                command,
                reply,
            }),
            Err(NoMemory) => {
                // The command is dropped by a call. If it ended with its scope, the drop would spell out all its
                // variants.
                drop(command);
                Err(NoMemory)
            }
        }
    }
}

/// What a session has to show for a command: the number of its entry in the history, and that entry.
/// Example: `at: 0` stands for the first entry of the history.
#[derive(Debug, Drop)]
pub struct Receipt {
    /// The number of the entry in the history, counted from 0.
    pub at: u64,
    /// The entry, as the session was answered.
    pub entry: Entry,
}

/// Entries, in the order in which their commands were carried out.
/// Example: the history of a new exporter is an `EntryList` of length 0.
pub type EntryList = Items<Entry>;

/// Receipts, in the order in which they were given.
/// Example: a session that called twice has a `ReceiptList` of length 2.
pub type ReceiptList = Items<Receipt>;

/// The commands of a session, in order. The number of a view or of an iterator, as a subject and as a loan, is the
/// session's own count: the first view that it is given is 0, and so is the first iterator.
/// Example: `view` and then `get 0` of `Subject::View(0)` read the first byte by the session's own first view.
pub type LocalCommandList = Items<LocalCommand>;

/// A script for each session.
/// Example: of three scripts `run_sessions` makes three sessions.
pub type ScriptList = Items<LocalCommandList>;
