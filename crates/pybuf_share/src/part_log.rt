//! What lies under the lock of an exporter whose history is handed over in parts.
ghost use Rattle.std.specs.Prelude.{◌≡◌, ◌+◌, ◌<◌, ◌≤◌, [], ◌∷◌, ◌++◌, length, IfOk, IfErr, OnOk, OnErr};

use crate::begun::Begun;
use crate::checks::{check_sessions, order_fault};
use crate::entries::{Entry, EntryList, Receipt, SharedCommand};
use crate::joined::{FinishFault, Part};
use crate::logged::{count_calls, sessions_by};
use crate::session::Session;
use pybuf_exporter::ExporterState;
use pybuf_value::{Made, push_reserved};
use std::alloc::Global;
use std::marker::Model;
use std::sync::ledger::{Blank, Book, Ledger, Share};

/// An exporter with what was recorded since a part of its history began. A clause sees the entries.
#[derive(Drop)]
pub(crate) struct PartLog<L: Ledger + Begun> {
    state: ExporterState,
    history: Vec<Entry>,
    calls: Book<L>,
    // A share of no part. The shares of all sessions are added to it at the end.
    none: Share<L>,
    alloc: Global,
}

impl<L: Ledger + Begun> Model for PartLog<L> {
    ghost use Rattle.std.specs.Prelude.{◌≡◌, List};
    ghost use Rattle.pybuf_share.specs.declared.entries.Entry.{Entry};
    ghost use Rattle.pybuf_share.specs.Parts.{IsKeptFrom};

    ghost Value = { List Entry };

    ghost view = { λ l. l.history.items };

    ghost invariant = { λ l. IsKeptFrom L.opening l.history.items l.state.exporter l.calls.total × (l.none.parts ≡ 0) };
}

impl<L: Ledger + Begun> PartLog<L> {
    ghost use Rattle.pybuf_state.specs.Fits.{LoansFit};
    ghost use Rattle.pybuf_share.specs.Sessions.{sessions_from};
    ghost use Rattle.pybuf_share.specs.Finishing.{AreAll, ArePlain, AreTheirs};
    ghost use Rattle.pybuf_share.specs.Parts.{IsPart, AgreeWith, RefusesEntries, RefusesPart, entry_from, receipt_from};

    /// An exporter of this state, with no entry, and so many sessions.
    pub(crate) fn start_from(
        alloc: Global,
        blank: Blank,
        state: ExporterState,
        sessions: usize,
    ) -> Made<(PartLog<L>, Vec<Session<L>>)>
        requires some { 0 < sessions }
        requires most { sessions ≤ 1024 }
        requires name { blank.name ≡ L.name }
        requires parts { blank.parts ≡ L.parts }
        requires each { blank.parts ≡ sessions }
        requires begun { state.exporter ≡ L.opening }
        ensures log { IfOk result (λ r. r.0 ≡ []) }
        ensures sessions { IfOk result (λ r. r.1.items ≡ sessions_from 0 sessions) }
        ensures all { IfOk result (λ r. AreAll L.parts r.1.items) }
    {
        let (calls, mut share) = blank.open::<L>();
        let none = share.empty();
        let made = sessions_by(alloc, share, sessions)?;
        let log = PartLog {
            state,
            history: Vec::new(alloc),
            calls,
            none,
            alloc,
        };
        Ok((log, made))
    }

    /// Carries out a command of a session, and notes it. Where memory runs out, nothing is changed.
    pub(crate) fn note_kept(
        &mut self,
        session: u64,
        share: &mut Share<L>,
        kept: SharedCommand,
        own: SharedCommand,
    ) -> Made<Receipt>
        requires fit { LoansFit own.loans }
        requires same { kept ≡ own }
        requires part { 0 < share.old.parts }
        ensures receipt { IfOk result (λ r. r ≡ receipt_from L.opening self.old session own) }
        ensures noted { OnOk result (self.new ≡ self.old ++ entry_from L.opening self.old session own ∷ []) }
        ensures amount { OnOk result (share.new.amount ≡ share.old.amount + 1) }
        ensures parts { share.new.parts ≡ share.old.parts }
        ensures err { OnErr result (self.new ≡ self.old) }
        ensures err_amount { OnErr result (share.new.amount ≡ share.old.amount) }
    {
        self.history.reserve(1)?;
        let at = self.history.len() as u64;
        let (reply, copy) = self.state.step_copied(own.as_command())?;
        push_reserved(
            &mut self.history,
            Entry {
                session,
                command: kept,
                reply,
            },
        );
        self.calls.add(share, 1);
        Ok(Receipt {
            at,
            entry: Entry {
                session,
                command: own,
                reply: copy,
            },
        })
    }

    /// What was recorded, where all sessions agree with it.
    pub(crate) fn finish_part(self, sessions: Vec<Session<L>>) -> Result<Part, FinishFault>
        requires all { AreAll L.parts sessions.items }
        ensures part { IfOk result (λ p. IsPart L.opening sessions.items p) }
        ensures theirs { ArePlain sessions.items → IfOk result (λ p. AreTheirs sessions.items p.entries) }
        ensures err { IfErr result (λ f. RefusesPart sessions.items f) }
    {
        let checked = self.check(sessions.as_slice());
        let PartLog {
            state,
            history,
            calls,
            none,
            alloc: _,
        } = self;
        count_calls(calls, none, sessions);
        match checked {
            Ok(()) => Ok(Part {
                entries: EntryList::from_vec(history),
                state,
            }),
            Err(fault) => Err(fault),
        }
    }

    /// Whether sessions agree with what was recorded.
    fn check(&self, sessions: &[Session<L>]) -> Result<(), FinishFault>
        ensures ok { OnOk result (AgreeWith self.now sessions.now) }
        ensures err { IfErr result (λ f. RefusesEntries self.now sessions.now f) }
    {
        if let Some(fault) = order_fault(sessions) {
            return Err(fault);
        }
        // This is a match, since the proof of each clause belongs to an arm of its own.
        match check_sessions(self.alloc, self.history.as_slice(), sessions) {
            Ok(()) => Ok(()),
            Err(fault) => Err(fault),
        }
    }
}
