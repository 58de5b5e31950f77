//! The values that commands are given, and the items that views hold.
use crate::list::{ByteList, ScalarList, SliceList};
use crate::text::Text;
use pybuf_copy::{Exact, Made, Twin};
use std::alloc::Global;

/// A value that has no parts.
///
/// Example: Python's `None`, `True`, `5`, `'H'`, `b'ab'` and `...` are such values.
#[derive(Debug, Drop, PartialEq)]
pub enum Scalar {
    /// Python's `None`.
    /// Example: an argument `None` is `Scalar::None`.
    None,
    /// A truth value, which counts as 0 or 1 where a number is asked.
    /// Example: `Bool(true)` is Python's `True`, and the item at it is the item at 1.
    Bool(bool),
    /// A whole number of at most 128 bits.
    /// Example: `Int(-5)` is Python's `-5`.
    Int(i128),
    /// A text.
    /// Example: `Text` of `H` is Python's `'H'`.
    Text(Text),
    /// Bytes.
    /// Example: `Bytes` of `b"ab"` is Python's `b'ab'`.
    Bytes(ByteList),
    /// Python's `...`.
    /// Example: the key `...` is `Ellipsis`.
    Ellipsis,
    /// What a handle of the world names.
    /// Example: `Handle(0)` stands for the first thing that a world has made.
    Handle(u64),
}

/// A slice, as Python's `slice(start, stop, step)`.
///
/// Example: `PySlice` of `1:None:2` picks the places 1, 3 and 5 of six.
#[derive(Debug, Drop, PartialEq)]
pub struct PySlice {
    pub start: Scalar,
    pub stop: Scalar,
    pub step: Scalar,
}

/// An argument of a command.
///
/// Example: the key of `view[1:3]` is `Value::Slice`, and that of `view[1, 2]` is `Value::Tuple`.
#[derive(Debug, Drop, PartialEq)]
pub enum Value {
    /// A value without parts.
    /// Example: the key of `view[5]` is `One` of `Scalar::Int(5)`.
    One(Scalar),
    /// A slice.
    /// Example: the key of `view[1:3]` is `Slice` of `1:3:None`.
    Slice(PySlice),
    /// A tuple of values without parts.
    /// Example: the key of `view[1, 2]` is `Tuple` of 1 and 2.
    Tuple(ScalarList),
    /// A list of values without parts.
    /// Example: the argument of `bytes([97, 98])` is `List` of 97 and 98.
    List(ScalarList),
    /// A tuple of one or more slices.
    /// Example: the key of `view[1:2, ::2]` is `Slices` of two slices.
    Slices(SliceList),
}

/// An item of a view: one value, or as many as its format says.
///
/// Example: an item of the format `B` is `Item::One` of a number, and one of `<hI` is `Item::Many` of two.
#[derive(Debug, Drop, PartialEq)]
pub enum Item {
    /// The one value of a format with one field.
    /// Example: the first item of a view of `b"ab"` is `One` of `Scalar::Int(97)`.
    One(Scalar),
    /// The values of a format with no field, or with several.
    /// Example: an item of the format `<hI` is `Many` of two numbers.
    Many(ScalarList),
}

/// Python's comparison operators.
///
/// Example: `CompareOp::Lt` is `<`.
#[derive(Clone, Copy, Debug, PartialEq, Eq)]
pub enum CompareOp {
    /// `==`, which asks whether both are equal.
    /// Example: of `b"a"` and `b"a"` it answers true.
    Eq,
    /// `!=`, which asks whether they are unequal.
    /// Example: of `b"a"` and `b"b"` it answers true.
    Ne,
    /// `<`, which asks whether the first is less.
    /// Example: of `b"a"` and `b"b"` it answers true.
    Lt,
    /// `<=`, which asks whether the first is less or equal.
    /// Example: of `b"a"` and `b"a"` it answers true.
    Le,
    /// `>`, which asks whether the first is greater.
    /// Example: of `b"a"` and `b"b"` it answers false.
    Gt,
    /// `>=`, which asks whether the first is greater or equal.
    /// Example: of `b"a"` and `b"a"` it answers true.
    Ge,
}

impl Twin for Scalar {
    fn copy(&self, alloc: Global) -> Made<Scalar> {
        match self {
            Scalar::None => Ok(Scalar::None),
            Scalar::Bool(truth) => Ok(Scalar::Bool(*truth)),
            Scalar::Int(number) => Ok(Scalar::Int(*number)),
            Scalar::Text(text) => {
                let text = text.copy(alloc)?;
                Ok(Scalar::Text(text))
            }
            Scalar::Bytes(bytes) => {
                let bytes = bytes.copy(alloc)?;
                Ok(Scalar::Bytes(bytes))
            }
            Scalar::Ellipsis => Ok(Scalar::Ellipsis),
            Scalar::Handle(handle) => Ok(Scalar::Handle(*handle)),
        }
    }
}

impl Exact for Scalar {
    ghost exact = { λ x y e. e };
}

impl Twin for PySlice {
    fn copy(&self, alloc: Global) -> Made<PySlice> {
        let start = self.start.copy(alloc)?;
        let stop = self.stop.copy(alloc)?;
        let step = self.step.copy(alloc)?;
        Ok(PySlice { start, stop, step })
    }
}

impl Exact for PySlice {
    ghost exact = { λ x y e. e };
}

impl Twin for Value {
    fn copy(&self, alloc: Global) -> Made<Value> {
        match self {
            Value::One(scalar) => {
                let scalar = scalar.copy(alloc)?;
                Ok(Value::One(scalar))
            }
            Value::Slice(slice) => {
                let slice = slice.copy(alloc)?;
                Ok(Value::Slice(slice))
            }
            Value::Tuple(parts) => {
                let parts = parts.copy(alloc)?;
                Ok(Value::Tuple(parts))
            }
            Value::List(parts) => {
                let parts = parts.copy(alloc)?;
                Ok(Value::List(parts))
            }
            Value::Slices(slices) => {
                let slices = slices.copy(alloc)?;
                Ok(Value::Slices(slices))
            }
        }
    }
}

impl Exact for Value {
    ghost exact = { λ x y e. e };
}

impl Twin for Item {
    fn copy(&self, alloc: Global) -> Made<Item> {
        match self {
            Item::One(scalar) => {
                let scalar = scalar.copy(alloc)?;
                Ok(Item::One(scalar))
            }
            Item::Many(parts) => {
                let parts = parts.copy(alloc)?;
                Ok(Item::Many(parts))
            }
        }
    }
}

impl Exact for Item {
    ghost exact = { λ x y e. e };
}
