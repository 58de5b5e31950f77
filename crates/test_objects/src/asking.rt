//! What sessions ask in these tests.
ghost use Rattle.std.specs.Prelude.{◌≡◌, []};

use pybuf_command::{LoanList, LocalCommand, Subject, Verb};
use pybuf_value::{Scalar, Value};
use std::alloc::Global;

/// A command of an exporter, to which nothing is lent.
pub(crate) fn own(alloc: Global, verb: Verb) -> LocalCommand
    ensures { result.loans ≡ [] }
{
    LocalCommand {
        subject: Subject::Own,
        verb,
        loans: LoanList::new(alloc),
    }
}

pub(crate) fn append(alloc: Global, byte: u8) -> LocalCommand
    ensures { result.loans ≡ [] }
{
    let value = Value::One(Scalar::Int(byte as i128));
    own(alloc, Verb::Append { value })
}
