//! What is searched for.
ghost use Rattle.std.specs.Prelude.{◌≡◌};
ghost use Rattle.pybuf_value.specs.Halting.{Gives, GivesOutcome};
ghost use Rattle.pybuf_bytes.specs.Needles as spec;

use crate::inner::PyBytesInner;
use pybuf_value::{
    Answer, ByteOr, Fault, Halt, Lender, Tried, Value, bytes_from_object, index_of, tried,
};
use std::alloc::Global;

/// What is searched for: bytes, or a number that stands for one byte.
///
/// Example: `Needle::Number(98)` and the needle of `b"b"` stand at the same places.
#[derive(Debug, Drop)]
pub enum Needle {
    /// Bytes, which may be none.
    /// Example: `Bytes` of `b"bc"` stands in `b"abc"` at 1.
    Bytes(PyBytesInner),
    /// A number that stands for one byte; a number outside `0..256` is refused where it is searched
    /// for.
    /// Example: `Number(98)` stands in `b"abc"` at 1.
    Number(i128),
}

/// The needle that a value is.
fn needle_in<L: Lender>(alloc: Global, value: &Value, lender: &L) -> Result<Needle, Halt>
    ensures { Gives (spec.needle_in (L.pairs lender.now) value.now) result }
{
    match index_of(value) {
        Ok(number) => {
            let _byte = number.byte_or()?;
            Ok(Needle::Number(number))
        }
        Err(_) => {
            let bytes = bytes_from_object(alloc, value, lender).done()?;
            Ok(Needle::Bytes(PyBytesInner::from(bytes.into_vec())))
        }
    }
}

impl Needle {
    /// The needle that a value is: a whole number, or a truth value as 0 or 1, stands for one byte,
    /// and any other value for the bytes that it is read as.
    ///
    /// Refused with `ValueError` for a number outside `0..256`, and else as `bytes_from_object`
    /// refuses.
    ///
    /// Example: of the value 98 it is `Needle::Number(98)`, and of 256 it is refused with `ValueError`.
    pub fn try_from_value<L: Lender>(alloc: Global, value: &Value, lender: &L) -> Tried<Needle>
        ensures { GivesOutcome (spec.needle_in (L.pairs lender.now) value.now) result }
    {
        tried(needle_in(alloc, value, lender))
    }
}

/// The bytes of a needle.
///
/// Refused with `ValueError` exactly for a number outside `0..256`.
pub(crate) fn needle_bytes(alloc: Global, needle: Needle) -> Result<PyBytesInner, Halt>
    ensures { Gives (spec.needle_bytes needle) result }
{
    match needle {
        Needle::Bytes(bytes) => Ok(bytes),
        Needle::Number(number) => {
            let byte = number.byte_or()?;
            let one = Vec::from_slice(alloc, &[byte])?;
            Ok(PyBytesInner::from(one))
        }
    }
}
