//! One exporter that threads share.
ghost use Rattle.std.specs.Prelude.{◌≡◌, ◌<◌, ◌≤◌, IfOk, IfErr, OnOk, OnErr};

use crate::entries::SharedCommand;
use crate::gate::{Gate, OpenGate};
use crate::joined::{FinishFault, Joined};
use crate::logged::Logged;
use crate::session::Session;
use crate::worker::Worker;
use pybuf_command::{ExporterKind, LocalCommand};
use pybuf_value::{ByteList, Made, NoMemory, Twin};
use std::alloc::Global;
use std::marker::Model;
use std::sync::ledger::{Blank, Ledger};
use std::sync::{Mutex, Wait};

/// An exporter that threads share. It lies under a lock with its history (`Logged`). One call is one step, with the
/// lock held.
///
/// A clause sees the kind and the bytes that it was made with. No clause of a call can speak of what lies under the
/// lock, since other threads may ask for it at any time. A receipt tells what was replied.
/// Example: `SharedExporter::start(alloc, blank, kind, bytes, 2)?` stands for one that two sessions share.
#[derive(Drop)]
pub struct SharedExporter<L: Ledger> {
    kind: ExporterKind,
    opening: ByteList,
    alloc: Global,
    locked: Mutex<Logged<L>>,
}

impl<L: Ledger> Model for SharedExporter<L> {
    ghost use Rattle.pybuf_share.specs.History.{Opening};

    ghost Value = { Opening };

    ghost view = { λ s. record { kind = s.kind; bytes = s.opening } };
}

impl<L: Ledger> SharedExporter<L> {
    ghost use Rattle.pybuf_state.specs.Fits.{LoansFit};
    ghost use Rattle.pybuf_share.specs.Sessions.{sessions_from, IsAnswered};
    ghost use Rattle.pybuf_share.specs.Finishing.{AreAll, IsJoined, ArePlain, AreTheirs, RefusesAtLast};
    ghost use Rattle.pybuf_share.specs.Working.{post_of};

    /// An exporter of a kind and of these bytes, and so many sessions, numbered from 0, each of which has one part of
    /// the ledger. The number of sessions is from 1 to 1,024.
    /// Example: with 2 sessions these have the numbers 0 and 1.
    pub fn start(
        alloc: Global,
        blank: Blank,
        kind: ExporterKind,
        bytes: ByteList,
        sessions: usize,
    ) -> Made<(SharedExporter<L>, Vec<Session<L>>)>
        requires some { 0 < sessions }
        requires most { sessions ≤ 1024 }
        requires name { blank.name ≡ L.name }
        requires parts { blank.parts ≡ L.parts }
        requires each { blank.parts ≡ sessions }
        ensures opening { IfOk result (λ r. r.0 ≡ record { kind = kind; bytes = bytes }) }
        ensures sessions { IfOk result (λ r. r.1.items ≡ sessions_from 0 sessions) }
        ensures all { IfOk result (λ r. AreAll L.parts r.1.items) }
    {
        let opening = bytes.copy(alloc)?;
        let (logged, made) = Logged::start(alloc, blank, kind, bytes, sessions)?;
        let shared = SharedExporter {
            kind,
            opening,
            alloc,
            locked: Mutex::new(logged),
        };
        Ok((shared, made))
    }

    /// Carries out a command of a session, with the lock held, and gives the session a receipt with its number, the
    /// command, and the reply. A refusal is a reply. It waits while another call holds the lock.
    ///
    /// Where memory runs out, the session is as before, and the exporter and its history too.
    /// Example: after a call with `len` of three bytes `session.last()` is the item 3.
    pub fn call<R: Wait>(&self, rt: &R, session: &mut Session<L>, command: LocalCommand) -> Made<()>
        requires { LoansFit command.loans }
        ensures ok { OnOk result (IsAnswered session.old command session.new) }
        ensures err { OnErr result (session.new ≡ session.old) }
        ensures number { session.new.number ≡ session.old.number }
        ensures parts { session.new.parts ≡ session.old.parts }
    {
        self.call_gated(rt, session, command, &OpenGate)
    }

    /// Carries out a command of a session as `call` does, by a gate. The gate's `before` is called without the lock,
    /// and its `inside` with the lock held, each with the session's number and the number of its receipts so far.
    /// Where memory runs out, the session is as before, and the exporter and its history too.
    /// Example: with `&OpenGate` it does what `call` does.
    pub fn call_gated<R: Wait, G: Gate>(
        &self,
        rt: &R,
        session: &mut Session<L>,
        command: LocalCommand,
        gate: &G,
    ) -> Made<()>
        requires { LoansFit command.loans }
        ensures ok { OnOk result (IsAnswered session.old command session.new) }
        ensures err { OnErr result (session.new ≡ session.old) }
        ensures number { session.new.number ≡ session.old.number }
        ensures parts { session.new.parts ≡ session.old.parts }
    {
        match session.prepare(self.alloc, command) {
            Ok((kept, own)) => self.call_prepared(rt, session, kept, own, gate),
            Err(NoMemory) => Err(NoMemory),
        }
    }

    /// The same of a command that is held twice: for the history, and for the receipt.
    fn call_prepared<R: Wait, G: Gate>(
        &self,
        rt: &R,
        session: &mut Session<L>,
        kept: SharedCommand,
        own: SharedCommand,
        gate: &G,
    ) -> Made<()>
        requires fit { LoansFit own.loans }
        requires same { kept ≡ own }
        ensures ok { OnOk result (IsAnswered session.old own session.new) }
        ensures err { OnErr result (session.new ≡ session.old) }
        ensures number { session.new.number ≡ session.old.number }
        ensures parts { session.new.parts ≡ session.old.parts }
    {
        let number = session.number();
        let turn = session.receipts().len() as u64;
        gate.before(number, turn);
        let mut logged = self.locked.lock(rt);
        gate.inside(number, turn);
        session.ask(&mut logged, kept, own)
    }

    /// Carries out the next commands of a worker, at most so many, while it holds the lock once. Each is one step and
    /// has an entry of its own. It stops where memory runs out.
    pub(crate) fn call_at_once<R: Wait, G: Gate>(
        &self,
        rt: &R,
        worker: &mut Worker<L>,
        most: u64,
        gate: &G,
    ) -> Made<()>
        ensures { post_of worker.new ≡ post_of worker.old }
    {
        let number = worker.number();
        let turn = worker.turn();
        gate.before(number, turn);
        let mut logged = self.locked.lock(rt);
        gate.inside(number, turn);
        worker.carry_out_here(self.alloc, &mut logged, most)
    }

    /// What all sessions did, put together (`Logged::join`), by the kind and the bytes that it was made with. It
    /// waits for nobody, and answers a `FinishFault` as `Logged::join` does.
    /// Example: of two sessions that appended a byte each to `b""`, the exporter has two bytes, and there are two entries.
    pub fn finish(self, sessions: Vec<Session<L>>) -> Result<Joined, FinishFault>
        requires all { AreAll L.parts sessions.items }
        ensures joined { IfOk result (λ j. IsJoined self.kind self.bytes sessions.items j) }
        ensures theirs { ArePlain sessions.items → IfOk result (λ j. AreTheirs sessions.items j.entries) }
        ensures err { IfErr result (λ f. RefusesAtLast self sessions.items f) }
    {
        let SharedExporter {
            kind,
            opening,
            alloc: _,
            locked,
        } = self;
        // This is a match, since the proof of each clause belongs to an arm of its own.
        match locked.into_inner().join(kind, opening, sessions) {
            Ok(joined) => Ok(joined),
            Err(fault) => Err(fault),
        }
    }
}
