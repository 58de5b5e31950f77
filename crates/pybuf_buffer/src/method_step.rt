//! One command on an exporter, whose verb and loans are handed over.
ghost use Rattle.std.specs.Prelude.{◌≡◌, [], false, OnErr};
ghost use Rattle.pybuf_state.specs.Fits.{LoansFit};
ghost use Rattle.pybuf_exporter.specs.Counting.{edits_by};
ghost use Rattle.pybuf_exporter.specs.Stepping.{StateStepsBy};

use pybuf_command::{LoanList, LocalReply, Subject, Verb};
use pybuf_exporter::ExporterState;
use pybuf_value::Made;
use std::alloc::Global;

/// One command on an exporter, whose verb and loans are handed over. Every method of an object that takes loans is
/// this, with its own verb. A refusal is a reply, and changes nothing. Where memory runs out, nothing is changed.
/// Example: `step_of(state, Subject::Own, Verb::Len, loans)` of three bytes replies the item 3.
pub fn step_of(
    state: &mut ExporterState,
    subject: Subject,
    verb: Verb,
    loans: LoanList,
) -> Made<LocalReply>
    requires { LoansFit loans }
    ensures ok { StateStepsBy subject verb loans state.old result state.new }
    ensures err { OnErr result (state.new ≡ state.old) }
    ensures kept { edits_by subject verb ≡ false → state.new.room ≡ state.old.room }
{
    let answer = state.carry_out(subject, &verb, &loans);
    // The verb is dropped by a call here. If it ended with its scope, the drop would spell out all its variants.
    drop(verb);
    answer
}

/// One command on an exporter, whose verb has no values, so that nothing is lent to it. A refusal is a reply, and
/// changes nothing. Where memory runs out, nothing is changed.
/// Example: `step_without_loans(alloc, state, Subject::Iter(0), Verb::Next)` over `b"a"` replies the item 97.
pub fn step_without_loans(
    alloc: Global,
    state: &mut ExporterState,
    subject: Subject,
    verb: Verb,
) -> Made<LocalReply>
    ensures ok { StateStepsBy subject verb [] state.old result state.new }
    ensures err { OnErr result (state.new ≡ state.old) }
    ensures kept { edits_by subject verb ≡ false → state.new.room ≡ state.old.room }
{
    step_of(state, subject, verb, LoanList::new(alloc))
}
