//! The commands of a round, which a thread makes once and asks often.
ghost use Rattle.pybuf_state.specs.Fits.{LoansFit};

use pybuf_command::{LoanList, LocalCommand, Subject, Verb};
use pybuf_value::{Scalar, Value};
use std::alloc::Global;

fn number(number: i128) -> Value {
    Value::One(Scalar::Int(number))
}

/// A command to which nothing is lent.
fn asked(alloc: Global, verb: Verb) -> LocalCommand
    ensures { LoansFit result.loans }
{
    LocalCommand {
        subject: Subject::Own,
        verb,
        loans: LoanList::new(alloc),
    }
}

/// Puts another byte into a `set` or an `append`.
fn put(command: &mut LocalCommand, byte: i128)
    requires { LoansFit command.old.loans }
    ensures { LoansFit command.new.loans }
{
    match &mut command.verb {
        Verb::Set { key: _, value } => *value = number(byte),
        Verb::Append { value } => *value = number(byte),
        _ => {}
    }
}

/// The commands of a round.
#[derive(Drop)]
pub struct Round {
    pub(crate) get: LocalCommand,
    pub(crate) set: LocalCommand,
    pub(crate) append: LocalCommand,
    pub(crate) pop: LocalCommand,
    ghost get_fits: { LoansFit get.loans },
    ghost set_fits: { LoansFit set.loans },
    ghost append_fits: { LoansFit append.loans },
    ghost pop_fits: { LoansFit pop.loans },
}

impl Round {
    /// The commands of a round that writes the byte 0.
    pub fn new(alloc: Global) -> Round {
        let set = Verb::Set {
            key: number(0),
            value: number(0),
        };
        Round {
            get: asked(alloc, Verb::Get { key: number(0) }),
            set: asked(alloc, set),
            append: asked(alloc, Verb::Append { value: number(0) }),
            pop: asked(alloc, Verb::Pop { index: None }),
        }
    }

    /// Lets the round write another byte.
    pub fn write(&mut self, byte: u8) {
        put(&mut self.set, byte as i128);
        put(&mut self.append, byte as i128);
    }
}
