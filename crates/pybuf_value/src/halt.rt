//! Why an effect of the command table stops: it is refused, or memory ran out.
ghost use Rattle.std.specs.Prelude.{◌≡◌, Result, Ok, IfOk};
ghost use Rattle.pybuf_value.specs.Halting.{Gives, outcome_of, items_of};
ghost use Rattle.pybuf_value.specs.declared.faults.Fault as faults;
ghost use Rattle.pybuf_value.specs.declared.halt.Halt.TheVariants as halts;

use crate::faults::{Fault, Outcome, Tried};
use crate::list::ByteList;
use pybuf_copy::NoMemory;
use std::alloc::{AllocError, AllocFailed};
use thiserror::Error;

/// Why a call gives nothing, so that a body can use `?` alone. Its `Display` is Python's name of the
/// exception.
///
/// Example: `Halt::Refused(Fault::Value)` is displayed as `ValueError`.
#[derive(Clone, Copy, Debug, PartialEq, Eq, Error)]
pub enum Halt {
    /// The call is refused, and why.
    /// Example: `Refused(Fault::Value)` is a refusal that is Python's `ValueError`.
    #[error("{0}")]
    Refused(Fault),
    /// Memory ran out. What the call was lent is as before, if the call doesn't say otherwise.
    /// Example: `NoMemory` is displayed as `MemoryError`.
    #[error("MemoryError")]
    NoMemory,
}

/// The answer of a public call, by the result of its body, which may stop for either cause.
///
/// Example: of `Ok(5)` it is `Ok(Outcome::Done(5))`, and of `Err(Halt::NoMemory)` it is `Err(NoMemory)`.
pub fn tried<T>(answer: Result<T, Halt>) -> Tried<T>
    ensures { (wanted : Result T faults.Fault) → Gives wanted answer → IfOk result (λ o. o ≡ outcome_of wanted) }
{
    match answer {
        Ok(value) => Ok(Outcome::Done(value)),
        Err(Halt::Refused(fault)) => Ok(Outcome::Refused(fault)),
        Err(Halt::NoMemory) => Err(NoMemory),
    }
}

/// The bytes of an answer, as a vector. Takes no memory.
///
/// Example: of `Ok(Outcome::Done(..))` of the list `b"ab"` it gives the vector of `b"ab"`.
pub fn as_vec(answer: Tried<ByteList>) -> Tried<Vec<u8>>
    ensures { IfOk result (λ outcome. answer ≡ Ok (items_of outcome)) }
{
    match answer? {
        Outcome::Done(bytes) => Ok(Outcome::Done(bytes.into_vec())),
        Outcome::Refused(fault) => Ok(Outcome::Refused(fault)),
    }
}

impl From<Fault> for Halt {
    ghost from_gives = { λ fault halt. halt ≡ halts.Refused fault };

    fn from(fault: Fault) -> Halt {
        Halt::Refused(fault)
    }
}

impl From<NoMemory> for Halt {
    ghost from_gives = { λ _ halt. halt ≡ halts.NoMemory };

    fn from(_e: NoMemory) -> Halt {
        Halt::NoMemory
    }
}

impl From<AllocError> for Halt {
    ghost from_gives = { λ _ halt. halt ≡ halts.NoMemory };

    fn from(_e: AllocError) -> Halt {
        Halt::NoMemory
    }
}

impl<T: Drop> From<AllocFailed<T>> for Halt {
    ghost from_gives = { λ _ halt. halt ≡ halts.NoMemory };

    fn from(_e: AllocFailed<T>) -> Halt {
        Halt::NoMemory
    }
}
