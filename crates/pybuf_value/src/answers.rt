//! Answers of calls as one result, so that a body can use `?` alone.
ghost use Rattle.std.specs.Prelude.{◌≡◌, Result};
ghost use Rattle.pybuf_value.specs.Halting.{given_by, stopped_by, done_by};
ghost use Rattle.pybuf_value.specs.declared.faults.Fault as faults;
ghost use Rattle.pybuf_value.specs.declared.halt.Halt as halts;

use crate::faults::{Fault, Outcome};
use crate::halt::Halt;
use pybuf_copy::NoMemory;

/// What may be a refusal, among other things that a call answers.
///
/// Example: `Outcome::Refused(Fault::Value)` is a refusal, and `Outcome::Done(5)` is the value 5.
pub trait Refusable: Sized {
    /// What it is otherwise.
    type Given;

    /// What it is, or why it is refused.
    ghost given: { Self → Result Self.Given faults.Fault };

    /// What it is, or why it is refused.
    ///
    /// Example: of `Outcome::Done(5)` it is `Ok(5)`, and of `Outcome::Refused(Fault::Value)` it is `Err(Fault::Value)`.
    fn into_result(self) -> Result<Self::Given, Fault>
        ensures { result ≡ given self };
}

impl<T> Refusable for Outcome<T> {
    type Given = T;

    ghost given = { given_by };

    fn into_result(self) -> Result<T, Fault> {
        match self {
            Outcome::Done(value) => Ok(value),
            Outcome::Refused(fault) => Err(fault),
        }
    }
}

/// What a call answers, in whichever shape, where it may be a refusal or want of memory.
///
/// Example: `Made<Outcome<T>>`, `Result<T, Fault>` and `Made<LocalReply>` are such answers.
pub trait Answer: Sized {
    /// What is answered where it is neither.
    type Given;

    /// The answer as one result.
    ghost settled: { Self → Result Self.Given halts.Halt };

    /// What is answered, or why nothing is: a refusal, or want of memory.
    ///
    /// Example: of `Ok(Outcome::Refused(Fault::Value))` it is `Err(Halt::Refused(Fault::Value))`.
    fn done(self) -> Result<Self::Given, Halt>
        ensures { result ≡ settled self };
}

impl<T> Answer for Result<T, Fault> {
    type Given = T;

    ghost settled = { stopped_by };

    fn done(self) -> Result<T, Halt> {
        match self {
            Ok(value) => Ok(value),
            Err(fault) => Err(Halt::Refused(fault)),
        }
    }
}

impl<O: Refusable> Answer for Result<O, NoMemory> {
    type Given = O::Given;

    ghost settled = { done_by O.given };

    fn done(self) -> Result<O::Given, Halt> {
        match self {
            Ok(answer) => answer.into_result().done(),
            Err(_) => Err(Halt::NoMemory),
        }
    }
}
