//! A session that carries out a script.
ghost use Rattle.std.specs.Prelude.{◌≡◌, length, IfOk};

use crate::entries::LocalCommandList;
use crate::gate::Gate;
use crate::logged::Logged;
use crate::resolving::resolved;
use crate::session::Session;
use crate::shared::SharedExporter;
use pybuf_value::{Made, NoMemory};
use std::alloc::Global;
use std::marker::Model;
use std::sync::Wait;
use std::sync::ledger::Ledger;

/// A session with its script, and how many commands of it are carried out.
///
/// A clause sees these three. That the receipts of the session follow the commands that are carried out is the invariant
/// of the type; it speaks of no other session, so no schedule stands in it.
#[derive(Drop)]
pub(crate) struct Worker<L: Ledger> {
    session: Session<L>,
    script: LocalCommandList,
    done: usize,
}

impl<L: Ledger> Model for Worker<L> {
    ghost use Rattle.pybuf_share.specs.Working.{Work, IsWorking};

    ghost Value = { Work };

    ghost view = { λ w. record { asker = w.session; script = w.script; done = w.done } };

    ghost invariant = { λ w. IsWorking (record { asker = w.session; script = w.script; done = w.done }) };
}

impl<L: Ledger> Worker<L> {
    ghost use Rattle.pybuf_share.specs.Sessions.{new_session};
    ghost use Rattle.pybuf_share.specs.Working.{ScriptFits, HasDone, new_work, post_of};

    /// A new session before its script.
    pub(crate) fn new(session: Session<L>, script: LocalCommandList) -> Worker<L>
        requires new { session ≡ new_session session.number }
        requires fit { ScriptFits script }
        ensures { result ≡ new_work session.number script }
    {
        Worker {
            session,
            script,
            done: 0,
        }
    }

    /// Carries out the next command, where there is one. Where memory runs out, it is still to be carried out.
    fn carry_out_next<R: Wait, G: Gate>(
        &mut self,
        rt: &R,
        alloc: Global,
        shared: &SharedExporter<L>,
        gate: &G,
    ) -> Made<()>
        ensures { post_of self.new ≡ post_of self.old }
    {
        let Some(command) = self.script.as_slice().get(self.done) else {
            return Ok(());
        };
        match resolved(alloc, command, &self.session) {
            Ok(command) => match shared.call_gated(rt, &mut self.session, command, gate) {
                Ok(()) => {
                    self.done += 1;
                    Ok(())
                }
                Err(NoMemory) => Err(NoMemory),
            },
            Err(NoMemory) => Err(NoMemory),
        }
    }

    /// The number of the session.
    pub(crate) fn number(&self) -> u64
        ensures { result ≡ self.now.asker.number }
    {
        self.session.number()
    }

    /// How many receipts the session has.
    pub(crate) fn turn(&self) -> u64
        ensures { result ≡ length self.now.asker.receipts }
    {
        self.session.receipts().len() as u64
    }

    /// Carries out the next command on what lies under the lock, where there is one. Where memory runs out, it is still
    /// to be carried out.
    fn carry_out_one(&mut self, alloc: Global, logged: &mut Logged<L>) -> Made<()>
        ensures { post_of self.new ≡ post_of self.old }
    {
        let Some(command) = self.script.as_slice().get(self.done) else {
            return Ok(());
        };
        match resolved(alloc, command, &self.session) {
            Ok(command) => match logged.note_call(&mut self.session, command) {
                Ok(()) => {
                    self.done += 1;
                    Ok(())
                }
                Err(NoMemory) => Err(NoMemory),
            },
            Err(NoMemory) => Err(NoMemory),
        }
    }

    /// Carries out the next commands, at most so many, on what lies under the lock.
    pub(crate) fn carry_out_here(
        &mut self,
        alloc: Global,
        logged: &mut Logged<L>,
        most: u64,
    ) -> Made<()>
        ensures { post_of self.new ≡ post_of self.old }
    {
        for _ in 0..most {
            if self.carry_out_one(alloc, logged).is_err() {
                return Err(NoMemory);
            }
        }
        Ok(())
    }

    /// Carries out the next commands: one, or as many as the gate lets it carry out at once.
    fn carry_out_some<R: Wait, G: Gate>(
        &mut self,
        rt: &R,
        alloc: Global,
        shared: &SharedExporter<L>,
        gate: &G,
    ) -> Made<()>
        ensures { post_of self.new ≡ post_of self.old }
    {
        let most = gate.at_once();
        if most > 1 {
            return shared.call_at_once(rt, self, most, gate);
        }
        self.carry_out_next(rt, alloc, shared, gate)
    }

    /// Carries out the commands of the script, in order, and stops where memory runs out.
    pub(crate) fn carry_out<R: Wait, G: Gate>(
        &mut self,
        rt: &R,
        alloc: Global,
        shared: &SharedExporter<L>,
        gate: &G,
    )
        ensures { post_of self.new ≡ post_of self.old }
    {
        for _ in 0..self.script.len() {
            if self.done >= self.script.len() {
                return;
            }
            if self.carry_out_some(rt, alloc, shared, gate).is_err() {
                return;
            }
        }
    }

    /// The session, where it has carried out its whole script. Else memory ran out.
    pub(crate) fn into_session(self) -> Made<Session<L>>
        ensures session { IfOk result (λ s. s ≡ self.asker) }
        ensures done { IfOk result (λ s. HasDone self.script s) }
    {
        if self.done < self.script.len() {
            return Err(NoMemory);
        }
        let Worker {
            session,
            script: _,
            done: _,
        } = self;
        Ok(session)
    }
}
