//! Values made of Rust's numbers, truth values, ranges, bytes and texts.
ghost use Rattle.std.specs.Prelude.{◌≡◌, pos, length, Some, None, IfOk};
ghost use Rattle.pybuf_value.specs.Halting.{AnsweredAtOnce};
ghost use Rattle.pybuf_value.specs.declared.values.Scalar as scalars;
ghost use Rattle.pybuf_value.specs.declared.values.Scalar.TheVariants as scalar;
ghost use Rattle.pybuf_value.specs.declared.values.PySlice as slices;
ghost use Rattle.pybuf_value.specs.declared.values.Value.TheVariants as value;
ghost use Rattle.pybuf_value.specs.Making.{bound_of, slice_of, numbers_in, so_many_numbers, number_of_item};

use crate::faults::Fault;
use crate::list::{ByteList, ScalarList};
use crate::numbers::number_in;
use crate::text::Text;
use crate::values::{Item, PySlice, Scalar, Value};
use pybuf_copy::Made;
use std::alloc::Global;
use std::ops::{Range, RangeFrom, RangeFull, RangeTo};

impl From<bool> for Scalar {
    ghost from_gives = { λ truth s. s ≡ scalar.Bool truth };

    fn from(truth: bool) -> Scalar {
        Scalar::Bool(truth)
    }
}

impl From<u8> for Scalar {
    ghost from_gives = { λ number s. s ≡ scalar.Int (pos number) };

    fn from(number: u8) -> Scalar {
        Scalar::Int(number as i128)
    }
}

impl From<usize> for Scalar {
    ghost from_gives = { λ number s. s ≡ scalar.Int (pos number) };

    fn from(number: usize) -> Scalar {
        Scalar::Int(number as i128)
    }
}

impl From<i32> for Scalar {
    ghost from_gives = { λ number s. s ≡ scalar.Int number };

    fn from(number: i32) -> Scalar {
        Scalar::Int(number as i128)
    }
}

impl From<i64> for Scalar {
    ghost from_gives = { λ number s. s ≡ scalar.Int number };

    fn from(number: i64) -> Scalar {
        Scalar::Int(number as i128)
    }
}

impl From<i128> for Scalar {
    ghost from_gives = { λ number s. s ≡ scalar.Int number };

    fn from(number: i128) -> Scalar {
        Scalar::Int(number)
    }
}

impl<T: Into<Scalar>> From<T> for Value {
    ghost from_gives = { λ part v. (s : scalars.Scalar) × T.converts part s × (v ≡ value.One s) };

    fn from(part: T) -> Value {
        Value::One(part.into())
    }
}

impl From<PySlice> for Value {
    ghost from_gives = { λ slice v. v ≡ value.Slice slice };

    fn from(slice: PySlice) -> Value {
        Value::Slice(slice)
    }
}

impl Scalar {
    /// A copy of the bytes, as a scalar.
    ///
    /// Example: `Scalar::bytes(alloc, b"ab")` gives `Scalar::Bytes` of `b"ab"`.
    pub fn bytes(alloc: Global, bytes: &[u8]) -> Made<Scalar>
        ensures { IfOk result (λ s. s ≡ scalar.Bytes bytes.now) }
    {
        Ok(Scalar::Bytes(ByteList::from_slice(alloc, bytes)?))
    }

    /// A copy of the text, as a scalar.
    ///
    /// Example: `Scalar::text(alloc, "H")` gives `Scalar::Text` of `H`.
    pub fn text(alloc: Global, text: &str) -> Made<Scalar>
        ensures { IfOk result (λ s. s ≡ scalar.Text text.now) }
    {
        Ok(Scalar::Text(Text::from_str(alloc, text)?))
    }
}

impl Value {
    /// A copy of the bytes, as a value.
    ///
    /// Example: `Value::bytes(alloc, b"ab")` gives `Value::One(Scalar::Bytes(..))` of `b"ab"`.
    pub fn bytes(alloc: Global, bytes: &[u8]) -> Made<Value>
        ensures { IfOk result (λ v. v ≡ value.One (scalar.Bytes bytes.now)) }
    {
        Ok(Value::One(Scalar::bytes(alloc, bytes)?))
    }

    /// A copy of the text, as a value.
    ///
    /// Example: `Value::text(alloc, "H")` gives `Value::One(Scalar::Text(..))` of `H`.
    pub fn text(alloc: Global, text: &str) -> Made<Value>
        ensures { IfOk result (λ v. v ≡ value.One (scalar.Text text.now)) }
    {
        Ok(Value::One(Scalar::text(alloc, text)?))
    }

    /// A slice, also one that is written as a range of Rust, as a value.
    ///
    /// Example: `Value::slice(1..3)` is the slice `1:3`, whose step is `None`.
    pub fn slice<S: Into<PySlice>>(slice: S) -> Value
        ensures { (s : slices.PySlice) × S.converts slice s × (result ≡ value.Slice s) }
    {
        Value::Slice(slice.into())
    }
}

impl ScalarList {
    /// The numbers that the values are, where they are as many as are asked for; a truth value counts
    /// as 0 or 1.
    ///
    /// Refused with `ValueError` where the values are more or fewer, and else with `TypeError` where
    /// one of them is no number.
    ///
    /// Example: of the values -1, true it is `Ok([-1, 1])` where two are asked for, and `Err(Fault::Value)` where three are.
    pub fn numbers<const N: usize>(&self) -> Result<[i128; N], Fault>
        ensures { result ≡ so_many_numbers N self.now }
    {
        if self.len() != N {
            return Err(Fault::Value);
        }
        let mut numbers = [0i128; N];
        put_numbers(self.as_slice(), &mut numbers)?;
        Ok(numbers)
    }
}

/// Puts the numbers that the values are in as many places.
fn put_numbers(values: &[Scalar], places: &mut [i128]) -> Result<(), Fault>
    requires { length places.old ≡ length values.now }
    ensures { AnsweredAtOnce result (λ _. places.new) (numbers_in values.now) }
{
    for at in 0..places.len() {
        places[at] = number_in(&values[at])?;
    }
    Ok(())
}

impl Item {
    /// The number of an item that is a single whole number. None exactly for every other item.
    ///
    /// Example: of `Item::One(Scalar::Int(5))` it is `Some(5)`, and of `Item::One(Scalar::Bool(true))` it is `None`.
    pub fn number(&self) -> Option<i128>
        ensures { result ≡ number_of_item self.now }
    {
        match self {
            Item::One(Scalar::Int(number)) => Some(*number),
            _ => None,
        }
    }
}

/// A bound of a slice, or none.
fn bound(number: Option<isize>) -> Scalar
    ensures { result ≡ bound_of number }
{
    match number {
        None => Scalar::None,
        Some(number) => Scalar::Int(number as i128),
    }
}

impl PySlice {
    /// The slice `start:stop:step`; None stands for what isn't written.
    ///
    /// Example: `PySlice::new(Some(1), None, Some(2))` is the slice `1:None:2`.
    pub fn new(start: Option<isize>, stop: Option<isize>, step: Option<isize>) -> PySlice
        ensures { result ≡ slice_of start stop step }
    {
        PySlice {
            start: bound(start),
            stop: bound(stop),
            step: bound(step),
        }
    }
}

impl From<Range<isize>> for PySlice {
    ghost from_gives = { λ range slice. slice ≡ slice_of (Some range.start) (Some range.end) None };

    fn from(range: Range<isize>) -> PySlice {
        PySlice::new(Some(range.start), Some(range.end), None)
    }
}

impl From<RangeFrom<isize>> for PySlice {
    ghost from_gives = { λ range slice. slice ≡ slice_of (Some range.start) None None };

    fn from(range: RangeFrom<isize>) -> PySlice {
        PySlice::new(Some(range.start), None, None)
    }
}

impl From<RangeTo<isize>> for PySlice {
    ghost from_gives = { λ range slice. slice ≡ slice_of None (Some range.end) None };

    fn from(range: RangeTo<isize>) -> PySlice {
        PySlice::new(None, Some(range.end), None)
    }
}

impl From<RangeFull> for PySlice {
    ghost from_gives = { λ _ slice. slice ≡ slice_of None None None };

    fn from(_range: RangeFull) -> PySlice {
        PySlice::new(None, None, None)
    }
}
