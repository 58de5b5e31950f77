//! Commands of which it is told how many bytes they move, and what room they leave before the bytes.
ghost use Rattle.std.specs.Prelude.{◌≡◌, false, OnOk, OnErr};
ghost use Rattle.pybuf_state.specs.Fits.{LoansFit};
ghost use Rattle.pybuf_state.specs.Answers.{exporter_of, IsWhole};
ghost use Rattle.pybuf_exporter.specs.Stepping.{CarriesOut};
ghost use Rattle.pybuf_exporter.specs.Stored.{stored_of};
ghost use Rattle.pybuf_exporter.specs.Counting.{Moves, edits_by};

use crate::closing::closed;
use crate::exporter::ExporterState;
use crate::pick::answer;
use pybuf_command::{LocalCommand, LocalReply};
use pybuf_state::Parts;
use pybuf_value::{Made, Steps};
use std::sync::ledger::Ledger;

/// A command on the parts of an exporter, with a counter of the bytes that it moves.
pub(crate) fn step_of_parts<L: Ledger>(
    parts: &mut Parts,
    command: &LocalCommand,
    moved: &mut Steps<L>,
) -> Made<LocalReply>
    requires whole { IsWhole parts.old }
    requires fit { LoansFit command.now.loans }
    ensures ok { CarriesOut command.now (exporter_of parts.old) result (exporter_of parts.new) }
    ensures err { OnErr result (stored_of parts.new ≡ stored_of parts.old) }
    ensures moves { OnOk result (Moves (stored_of parts.old) command.now moved.old (stored_of parts.new) moved.new) }
    ensures err_counter { OnErr result (moved.new ≡ moved.old) }
    ensures kept { edits_by command.now.subject command.now.verb ≡ false → parts.new.bytes.room ≡ parts.old.bytes.room }
    ensures whole { IsWhole parts.new }
{
    crate::laws::commands_keep_sound();
    closed(answer(parts, command.subject, &command.verb, &command.loans, moved))
}

impl ExporterState {
    /// How many bytes of free room lie before the first byte. Takes no memory.
    /// Example: after `del a[:2]` of a bytearray `b"abcd"` without room it is 2.
    pub fn front_room(&self) -> usize
        ensures { result ≡ self.now.room }
    {
        self.parts.bytes.front_room()
    }

    /// Carries out a command, as `step` does, with a counter of the bytes that it moves to another place within.
    ///
    /// Taking the first bytes out moves nothing, and leaves them as room; adding bytes at the end moves the bytes to
    /// the start only where there is as much room as there are bytes. Where memory runs out, exporter, room and
    /// counter are as before.
    /// Example: `pop 0` of a bytearray leaves the counter as it is, and makes the room one byte greater.
    pub fn step_counted<L: Ledger>(
        &mut self,
        command: &LocalCommand,
        moved: &mut Steps<L>,
    ) -> Made<LocalReply>
        requires { LoansFit command.now.loans }
        ensures ok { CarriesOut command.now self.old.exporter result self.new.exporter }
        ensures moves { OnOk result (Moves self.old command.now moved.old self.new moved.new) }
        ensures err { OnErr result (self.new ≡ self.old) }
        ensures err_counter { OnErr result (moved.new ≡ moved.old) }
    {
        step_of_parts(&mut self.parts, command, moved)
    }
}
