//! One exporter that threads share, whose history is handed over in parts.
ghost use Rattle.std.specs.Prelude.{◌≡◌, ◌<◌, ◌≤◌, IfOk, IfErr, OnOk, OnErr};

use crate::begun::Begun;
use crate::entries::SharedCommand;
use crate::joined::{FinishFault, Part};
use crate::part_log::PartLog;
use crate::session::Session;
use pybuf_command::LocalCommand;
use pybuf_exporter::ExporterState;
use pybuf_value::{Made, NoMemory};
use std::alloc::Global;
use std::sync::ledger::{Blank, Ledger};
use std::sync::{Mutex, Wait};

/// An exporter that threads share, as `SharedExporter`, whose history is handed over in parts. So an audit of a long run
/// takes the memory of one part: `start_from` begins a part with a state, `finish_part` hands over what was recorded
/// and the state as it is then, and `start_from` of that state goes on. The parts together are one history
/// (`parts_make_one_history`).
///
/// Each part has a ledger and sessions of its own. Views and iterators live on in the state, by their numbers. The
/// receipts of a part, and with them a session's count of its views, are handed in with the part.
///
/// A clause names the state in which the part began by `L.opening`, which a proof picks where `Brand` is passed for `L`.
/// Example: after `finish` of a `SharedExporter` an exporter goes on by `start_from(alloc, blank, joined.state, 2)?`.
#[derive(Drop)]
pub struct PartExporter<L: Ledger + Begun> {
    alloc: Global,
    locked: Mutex<PartLog<L>>,
}

impl<L: Ledger + Begun> PartExporter<L> {
    ghost use Rattle.pybuf_state.specs.Fits.{LoansFit};
    ghost use Rattle.pybuf_share.specs.Sessions.{sessions_from, IsAnswered};
    ghost use Rattle.pybuf_share.specs.Finishing.{AreAll, ArePlain, AreTheirs};
    ghost use Rattle.pybuf_share.specs.Parts.{IsPart, RefusesPart};

    /// An exporter that already lives, with nothing recorded, and so many sessions, numbered from 0, each of which has
    /// one part of the ledger. The number of sessions is from 1 to 1,024. Nothing of the exporter is copied. Where
    /// memory runs out, it is dropped.
    /// Example: of the state of a part that was handed over the next part begins.
    pub fn start_from(
        alloc: Global,
        blank: Blank,
        state: ExporterState,
        sessions: usize,
    ) -> Made<(PartExporter<L>, Vec<Session<L>>)>
        requires some { 0 < sessions }
        requires most { sessions ≤ 1024 }
        requires name { blank.name ≡ L.name }
        requires parts { blank.parts ≡ L.parts }
        requires each { blank.parts ≡ sessions }
        requires begun { state.exporter ≡ L.opening }
        ensures sessions { IfOk result (λ r. r.1.items ≡ sessions_from 0 sessions) }
        ensures all { IfOk result (λ r. AreAll L.parts r.1.items) }
    {
        let (log, made) = PartLog::start_from(alloc, blank, state, sessions)?;
        let exporter = PartExporter {
            alloc,
            locked: Mutex::new(log),
        };
        Ok((exporter, made))
    }

    /// Carries out a command of a session, with the lock held, and gives the session a receipt with its number in the
    /// part, the command, and the reply. A refusal is a reply. It waits while another call holds the lock.
    ///
    /// Where memory runs out, the session is as before, and the exporter and what was recorded too.
    /// Example: after a call with `len` of three bytes `session.last()` is the item 3.
    pub fn call<R: Wait>(&self, rt: &R, session: &mut Session<L>, command: LocalCommand) -> Made<()>
        requires { LoansFit command.loans }
        ensures ok { OnOk result (IsAnswered session.old command session.new) }
        ensures err { OnErr result (session.new ≡ session.old) }
        ensures number { session.new.number ≡ session.old.number }
        ensures parts { session.new.parts ≡ session.old.parts }
    {
        match session.prepare(self.alloc, command) {
            Ok((kept, own)) => self.call_prepared(rt, session, kept, own),
            Err(NoMemory) => Err(NoMemory),
        }
    }

    /// The same of a command that is held twice: for the part, and for the receipt.
    fn call_prepared<R: Wait>(
        &self,
        rt: &R,
        session: &mut Session<L>,
        kept: SharedCommand,
        own: SharedCommand,
    ) -> Made<()>
        requires fit { LoansFit own.loans }
        requires same { kept ≡ own }
        ensures ok { OnOk result (IsAnswered session.old own session.new) }
        ensures err { OnErr result (session.new ≡ session.old) }
        ensures number { session.new.number ≡ session.old.number }
        ensures parts { session.new.parts ≡ session.old.parts }
    {
        let mut log = self.locked.lock(rt);
        session.ask_part(&mut log, kept, own)
    }

    /// Hands over what was recorded since the part began, where all sessions agree with it, and the exporter as it is
    /// now. The entries are a legal history from the state in which the part began to that state. Sessions agree if
    /// the receipt numbers of each rise, and the entry of each receipt stands at its number. It waits for nobody.
    ///
    /// `Order` is answered where the receipt numbers of a session don't rise, and else `Disagree` where the entry at the
    /// number of a receipt is another or none. `Opening` is never answered.
    /// Example: of two sessions that appended a byte each, the part has two entries, and its state two bytes more.
    pub fn finish_part(self, sessions: Vec<Session<L>>) -> Result<Part, FinishFault>
        requires all { AreAll L.parts sessions.items }
        ensures part { IfOk result (λ p. IsPart L.opening sessions.items p) }
        ensures theirs { ArePlain sessions.items → IfOk result (λ p. AreTheirs sessions.items p.entries) }
        ensures err { IfErr result (λ f. RefusesPart sessions.items f) }
    {
        let PartExporter { alloc: _, locked } = self;
        // This is a match, since the proof of each clause belongs to an arm of its own.
        match locked.into_inner().finish_part(sessions) {
            Ok(part) => Ok(part),
            Err(fault) => Err(fault),
        }
    }
}
