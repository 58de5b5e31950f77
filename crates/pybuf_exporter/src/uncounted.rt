//! Commands of which nobody reads how many bytes they move: each has a counter of its own.
ghost use Rattle.std.specs.Prelude.{◌≡◌, false, OnErr};
ghost use Rattle.pybuf_state.specs.Exporter.{exports_of};
ghost use Rattle.pybuf_state.specs.Answers.{exporter_of, IsWhole, AnswersIn};
ghost use Rattle.pybuf_state.specs.Fits.{LoansFit};
ghost use Rattle.pybuf_exporter.specs.Step as spec;
ghost use Rattle.pybuf_exporter.specs.Stepping.{CarriesOut};
ghost use Rattle.pybuf_exporter.specs.Counting.{edits_by};
ghost use Rattle.pybuf_exporter.specs.Stored.{stored_of};
ghost use Rattle.pybuf_verbs_edits.specs.Growing as growing;
ghost use Rattle.pybuf_verbs_edits.specs.Shrinking as shrinking;

use crate::counted::step_of_parts;
use crate::pick;
use pybuf_command::{LocalCommand, LocalReply, Subject, Verb};
use pybuf_state::{Names, Parts};
use pybuf_value::{Halt, Made, Steps, Value};
use pybuf_verbs_edits::{append as append_of_own, pop as pop_of_own};
use std::marker::Brand;
use std::sync::ledger::{Blank, Ledger};

fn step_by<L: Ledger>(parts: &mut Parts, command: &LocalCommand, blank: Blank) -> Made<LocalReply>
    requires whole { IsWhole parts.old }
    requires fit { LoansFit command.now.loans }
    requires name { blank.name ≡ L.name }
    requires parts { blank.parts ≡ L.parts }
    requires one { blank.parts ≡ 1 }
    ensures ok { CarriesOut command.now (exporter_of parts.old) result (exporter_of parts.new) }
    ensures err { OnErr result (stored_of parts.new ≡ stored_of parts.old) }
    ensures kept { edits_by command.now.subject command.now.verb ≡ false → parts.new.bytes.room ≡ parts.old.bytes.room }
    ensures whole { IsWhole parts.new }
{
    let mut moved = Steps::<L>::new(blank);
    step_of_parts(parts, command, &mut moved)
}

/// A command on the parts of an exporter.
pub fn step(parts: &mut Parts, command: &LocalCommand) -> Made<LocalReply>
    requires whole { IsWhole parts.old }
    requires fit { LoansFit command.now.loans }
    ensures ok { CarriesOut command.now (exporter_of parts.old) result (exporter_of parts.new) }
    ensures err { OnErr result (stored_of parts.new ≡ stored_of parts.old) }
    ensures kept { edits_by command.now.subject command.now.verb ≡ false → parts.new.bytes.room ≡ parts.old.bytes.room }
    ensures whole { IsWhole parts.new }
{
    step_by::<Brand>(parts, command, Blank::new(1))
}

fn answer_by<N: Names, L: Ledger>(
    parts: &mut Parts,
    subject: Subject,
    verb: &Verb,
    names: &N,
    blank: Blank,
) -> Result<LocalReply, Halt>
    requires whole { IsWhole parts.old }
    requires fit { N.fit names.now }
    requires name { blank.name ≡ L.name }
    requires parts { blank.parts ≡ L.parts }
    requires one { blank.parts ≡ 1 }
    ensures answer { AnswersIn parts.old (λ e. spec.answer_by e subject verb.now (N.named names.now)) result parts.new }
    ensures counted { parts.new.exports ≡ exports_of (exporter_of parts.new) }
    ensures kept { edits_by subject verb.now ≡ false → parts.new.bytes.room ≡ parts.old.bytes.room }
    ensures err_room { OnErr result (parts.new.bytes.room ≡ parts.old.bytes.room) }
{
    let mut moved = Steps::<L>::new(blank);
    pick::answer(parts, subject, verb, names, &mut moved)
}

/// What a command answers.
pub fn answer<N: Names>(
    parts: &mut Parts,
    subject: Subject,
    verb: &Verb,
    names: &N,
) -> Result<LocalReply, Halt>
    requires whole { IsWhole parts.old }
    requires fit { N.fit names.now }
    ensures answer { AnswersIn parts.old (λ e. spec.answer_by e subject verb.now (N.named names.now)) result parts.new }
    ensures counted { parts.new.exports ≡ exports_of (exporter_of parts.new) }
    ensures kept { edits_by subject verb.now ≡ false → parts.new.bytes.room ≡ parts.old.bytes.room }
    ensures err_room { OnErr result (parts.new.bytes.room ≡ parts.old.bytes.room) }
{
    answer_by::<N, Brand>(parts, subject, verb, names, Blank::new(1))
}

fn append_by<L: Ledger>(parts: &mut Parts, value: &Value, blank: Blank) -> Result<LocalReply, Halt>
    requires whole { IsWhole parts.old }
    requires name { blank.name ≡ L.name }
    requires parts { blank.parts ≡ L.parts }
    requires one { blank.parts ≡ 1 }
    ensures answer { AnswersIn parts.old (λ e. growing.append_of_own e value.now) result parts.new }
    ensures counted { parts.new.exports ≡ exports_of (exporter_of parts.new) }
    ensures err_room { OnErr result (parts.new.bytes.room ≡ parts.old.bytes.room) }
{
    let mut moved = Steps::<L>::new(blank);
    append_of_own(parts, value, &mut moved)
}

/// Adds a byte at the end of a bytearray.
pub fn append(parts: &mut Parts, value: &Value) -> Result<LocalReply, Halt>
    requires { IsWhole parts.old }
    ensures answer { AnswersIn parts.old (λ e. growing.append_of_own e value.now) result parts.new }
    ensures counted { parts.new.exports ≡ exports_of (exporter_of parts.new) }
    ensures err_room { OnErr result (parts.new.bytes.room ≡ parts.old.bytes.room) }
{
    append_by::<Brand>(parts, value, Blank::new(1))
}

fn pop_by<L: Ledger>(
    parts: &mut Parts,
    index: &Option<Value>,
    blank: Blank,
) -> Result<LocalReply, Halt>
    requires whole { IsWhole parts.old }
    requires name { blank.name ≡ L.name }
    requires parts { blank.parts ≡ L.parts }
    requires one { blank.parts ≡ 1 }
    ensures answer { AnswersIn parts.old (λ e. shrinking.pop_of_own e index.now) result parts.new }
    ensures counted { parts.new.exports ≡ exports_of (exporter_of parts.new) }
    ensures err_room { OnErr result (parts.new.bytes.room ≡ parts.old.bytes.room) }
{
    let mut moved = Steps::<L>::new(blank);
    pop_of_own(parts, index, &mut moved)
}

/// Takes the byte of a bytearray at an index out.
pub fn pop(parts: &mut Parts, index: &Option<Value>) -> Result<LocalReply, Halt>
    requires { IsWhole parts.old }
    ensures answer { AnswersIn parts.old (λ e. shrinking.pop_of_own e index.now) result parts.new }
    ensures counted { parts.new.exports ≡ exports_of (exporter_of parts.new) }
    ensures err_room { OnErr result (parts.new.bytes.room ≡ parts.old.bytes.room) }
{
    pop_by::<Brand>(parts, index, Blank::new(1))
}
