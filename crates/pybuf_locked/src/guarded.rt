//! What lies under the lock of a locked exporter.
ghost use Rattle.std.specs.Prelude.{◌≡◌, IfOk, OnOk, OnErr};

use crate::invariant::Invariant;
use pybuf_command::{LocalCommand, LocalReply};
use pybuf_exporter::ExporterState;
use pybuf_value::Made;
use std::marker::Model;

/// An exporter, and the value of its user's invariant beside it. The invariant holds of both.
///
/// A clause sees the exporter as it is kept, and the value as `fact`.
/// Example: `shared.write(rt)` lends one that no other thread reads or writes meanwhile.
#[derive(Drop)]
pub struct Guarded<I: Invariant> {
    state: ExporterState,
    fact: I,
}

impl<I: Invariant> Model for Guarded<I> {
    ghost use Rattle.pybuf_locked.specs.Locked.{Held};

    ghost Value = { Held I };

    ghost view = { λ g. record { state = g.state; fact = g.fact } };

    ghost invariant = { λ g. I.holds g.fact g.state.exporter };
}

impl<I: Invariant> Guarded<I> {
    ghost use Rattle.pybuf_state.specs.Fits.{LoansFit};
    ghost use Rattle.pybuf_state.specs.Sound.{IsSoundExporter};
    ghost use Rattle.pybuf_locked.specs.Locked.{stepped, HoldsAfter};

    /// An exporter that lives already, with a value of which and of the exporter the invariant holds. Nothing is
    /// copied.
    /// Example: `Guarded::new(state, Anything)` takes any exporter.
    pub fn new(state: ExporterState, fact: I) -> Guarded<I>
        requires { I.holds fact state.exporter }
        ensures { result ≡ record { state = state; fact = fact } }
    {
        Guarded { state, fact }
    }

    /// The exporter, lent to be read: its bytes, and the items and the content of its views. Takes no memory.
    /// Example: `shared.read(rt).state().bytes()` are its bytes, which other threads may read at the same time.
    pub fn state(&self) -> &ExporterState
        ensures value { result.now ≡ self.now.state }
        ensures held { I.holds self.now.fact self.now.state.exporter }
    {
        &self.state
    }

    /// The value that lies beside the exporter, lent. Takes no memory.
    /// Example: of an exporter that was started with `Anything` it is `Anything`.
    pub fn fact(&self) -> &I
        ensures value { result.now ≡ self.now.fact }
        ensures held { I.holds self.now.fact self.now.state.exporter }
    {
        &self.fact
    }

    /// Carries out a command, as `ExporterState::step`: a refusal is a reply, and changes nothing. The invariant has
    /// to hold afterwards, with the same value; that it held before, and that the exporter is sound, may be used to
    /// show it. Where memory runs out, nothing is changed.
    /// Example: with the verb `Verb::Len` of three bytes it replies the item 3.
    pub fn step(&mut self, command: &LocalCommand) -> Made<LocalReply>
        requires fit { LoansFit command.now.loans }
        requires keeps { HoldsAfter I.holds self.old.fact self.old.state.exporter command.now self.old.fact }
        ensures ok { IfOk result (λ r. stepped self.old.state.exporter command.now ≡ (self.new.state.exporter, r)) }
        ensures fact { self.new.fact ≡ self.old.fact }
        ensures err { OnErr result (self.new ≡ self.old) }
        ensures was_sound { IsSoundExporter self.old.state.exporter }
        ensures was_held { I.holds self.old.fact self.old.state.exporter }
    {
        self.state
            .carry_out(command.subject, &command.verb, &command.loans)
    }

    /// Carries out a command as `step` does, and puts another value beside the exporter, with which the invariant has
    /// to hold afterwards. Where memory runs out, nothing is changed, and the value that was given ends.
    /// Example: an invariant that bounds the length by its value goes on with a greater bound, before an `extend`.
    pub fn step_to(&mut self, command: &LocalCommand, fact: I) -> Made<LocalReply>
        requires fit { LoansFit command.now.loans }
        requires keeps { HoldsAfter I.holds self.old.fact self.old.state.exporter command.now fact }
        ensures ok { IfOk result (λ r. stepped self.old.state.exporter command.now ≡ (self.new.state.exporter, r)) }
        ensures fact { OnOk result (self.new.fact ≡ fact) }
        ensures err { OnErr result (self.new ≡ self.old) }
        ensures was_sound { IsSoundExporter self.old.state.exporter }
        ensures was_held { I.holds self.old.fact self.old.state.exporter }
    {
        let reply = self
            .state
            .carry_out(command.subject, &command.verb, &command.loans)?;
        self.fact = fact;
        Ok(reply)
    }

    /// The exporter and the value, given back. Nothing is copied.
    /// Example: of `Guarded::new(state, Anything)` they are `state` and `Anything`.
    pub fn into_parts(self) -> (ExporterState, I)
        ensures state { result.0 ≡ self.state }
        ensures fact { result.1 ≡ self.fact }
        ensures held { I.holds self.fact self.state.exporter }
    {
        let Guarded { state, fact } = self;
        (state, fact)
    }
}
