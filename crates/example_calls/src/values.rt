//! The values and the loans that the examples give to commands.
ghost use Rattle.std.specs.Prelude.{◌≡◌, []};

use pybuf::{LoanList, Made, PySlice, Scalar, Value};
use std::alloc::Global;

/// No loans, which every call takes.
pub(crate) fn none(alloc: Global) -> LoanList
    ensures { result ≡ [] }
{
    LoanList::new(alloc)
}

/// A whole number as a value.
pub(crate) fn int(number: i128) -> Value {
    Value::One(Scalar::Int(number))
}

/// Bytes as a value.
pub(crate) fn bytes(alloc: Global, bytes: &[u8]) -> Made<Value> {
    Value::bytes(alloc, bytes)
}

/// A text as a value.
pub(crate) fn text(alloc: Global, text: &str) -> Made<Value> {
    Value::text(alloc, text)
}

/// The slice `start:stop` as a value.
pub(crate) fn part(start: i128, stop: i128) -> Value {
    Value::Slice(PySlice {
        start: Scalar::Int(start),
        stop: Scalar::Int(stop),
        step: Scalar::None,
    })
}

/// The slice `::step` as a value.
pub(crate) fn every(step: i128) -> Value {
    Value::Slice(PySlice {
        start: Scalar::None,
        stop: Scalar::None,
        step: Scalar::Int(step),
    })
}
