//! What threads ask in these tests.
ghost use Rattle.std.specs.Prelude.{◌≡◌, [], pos};
ghost use Rattle.pybuf_value.specs.declared.values.Value.TheVariants as values;
ghost use Rattle.pybuf_value.specs.declared.values.Scalar.TheVariants as scalars;
ghost use Rattle.pybuf_command.specs.declared.kinds.Subject.TheVariants as subjects;
ghost use Rattle.pybuf_command.specs.declared.commands.Verb.TheVariants as verbs;

use pybuf_command::{LoanList, LocalCommand, LocalReply, Subject, Verb};
use pybuf_value::{Fault, Made, Scalar, Value};
use std::alloc::Global;

/// A command to which nothing is lent.
pub(crate) fn asked(alloc: Global, subject: Subject, verb: Verb) -> LocalCommand
    ensures subject { result.subject ≡ subject }
    ensures verb { result.verb ≡ verb }
    ensures loans { result.loans ≡ [] }
{
    LocalCommand {
        subject,
        verb,
        loans: LoanList::new(alloc),
    }
}

/// The command that appends a byte.
pub(crate) fn append(alloc: Global, byte: u8) -> LocalCommand
    ensures subject { result.subject ≡ subjects.Own }
    ensures verb { result.verb ≡ verbs.Append (values.One (scalars.Int (pos byte))) }
    ensures loans { result.loans ≡ [] }
{
    let value = Value::One(Scalar::Int(byte as i128));
    asked(alloc, Subject::Own, Verb::Append { value })
}

/// Whether a command was done, and its reply says nothing.
pub(crate) fn is_done(answer: Made<LocalReply>) -> bool {
    let is_done = matches!(&answer, Ok(LocalReply::Ok));
    drop(answer);
    is_done
}

/// Whether a command was refused with `BufferError`.
pub(crate) fn is_buffer_error(answer: Made<LocalReply>) -> bool {
    let is_refused = matches!(&answer, Ok(LocalReply::Refused(Fault::Buffer)));
    drop(answer);
    is_refused
}

/// Whether a command made the first view.
pub(crate) fn is_first_view(answer: Made<LocalReply>) -> bool {
    let is_view = matches!(&answer, Ok(LocalReply::View(0)));
    drop(answer);
    is_view
}
