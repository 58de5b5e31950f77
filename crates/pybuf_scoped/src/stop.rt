//! Why a call on a scoped view gives nothing.
ghost use Rattle.std.specs.Prelude.{◌≡◌};
ghost use Rattle.pybuf_scoped.specs.Stops.{fault_of};

use pybuf_value::{Fault, Halt};
use std::fmt;

/// What a call on a scoped view was asked, with its numbers. A length is the number of entries of the view's first
/// dimension, and 0 if it has none.
/// Example: of `view.get(7)` of three items it is `Cause::Index { index: 7, length: 3 }`.
#[derive(Clone, Copy, Debug, PartialEq, Eq)]
pub enum Cause {
    /// A view of all bytes was asked for.
    /// Example: `View::of(state)` has it where memory runs out.
    Whole,
    /// The item at an index was to be read.
    /// Example: `view.get(7)` of three items has it, with the index 7 and the length 3.
    Index {
        /// The index as it was passed; a negative one counts from the end.
        /// Example: of `view.get(-7)` it is -7.
        index: isize,
        /// The length of the view.
        /// Example: of a view of three items it is 3.
        length: usize,
    },
    /// A number was to be written as the item at an index.
    /// Example: `view.set(0, 256)` of three bytes has it, with the number 256, the index 0 and the length 3.
    Number {
        /// The number.
        /// Example: of `view.set(0, 256)` it is 256.
        number: i128,
        /// The index as it was passed.
        /// Example: of `view.set(0, 256)` it is 0.
        index: isize,
        /// The length of the view.
        /// Example: of a view of three items it is 3.
        length: usize,
    },
    /// A slice of the view was asked for.
    /// Example: `view.slice(PySlice::new(None, None, Some(0)))` has it, since the step is 0.
    Slice {
        /// The length of the view.
        /// Example: of a view of three items it is 3.
        length: usize,
    },
    /// Items of another format were asked for.
    /// Example: `view.cast("H")` of three bytes has it, since they make no whole number of items.
    Format {
        /// The length of the view.
        /// Example: of a view of three items it is 3.
        length: usize,
    },
    /// Bytes were to be written over a slice of the view.
    /// Example: `view.assign(0..2, b"abc")` has it, since three bytes aren't as many as two items.
    Bytes {
        /// The number of bytes that were passed.
        /// Example: of `view.assign(0..2, b"abc")` it is 3.
        given: usize,
        /// The length of the view.
        /// Example: of a view of six items it is 6.
        length: usize,
    },
    /// Items of another view were to be written over a slice of the view.
    /// Example: `view.assign_from(0..2, &other)` has it, where the other view has three items.
    Items {
        /// The length of the other view.
        /// Example: of another view of three items it is 3.
        given: usize,
        /// The length of the view.
        /// Example: of a view of six items it is 6.
        length: usize,
    },
    /// The bytes of the view were to be cut into parts.
    /// Example: `view.split(alloc, Some(b""), -1)` has it, since the separator has no bytes.
    Parts,
    /// Other bytes were to be put in place of some of the view's, in a copy.
    /// Example: `view.replace(alloc, b"a", b"bc", -1)` has it, where memory runs out.
    Replaced,
    /// The bytes of the view were to be written as hexadecimal digits.
    /// Example: `view.hex(alloc, Some(b"--"), 1)` has it, since the separator isn't one byte.
    Digits,
    /// The bytes of the view were asked for.
    /// Example: `view.bytes()` of every second byte has it, since these don't lie one after the other.
    Content,
}

/// Why a call on a scoped view gives nothing: the refusal, or want of memory, and what was asked. It is displayed as
/// one sentence, for which no memory is taken.
/// Example: that of `view.get(7)` of three items is displayed as `the item at index 7 of 3 can't be read, since there is no such item`.
#[derive(Clone, Copy, Debug, PartialEq, Eq)]
pub struct Stop {
    halt: Halt,
    cause: Cause,
}

impl Stop {
    /// Why, and what was asked. Takes no memory.
    pub(crate) fn new(halt: Halt, cause: Cause) -> Stop
        ensures { result ≡ record { halt = halt; cause = cause } }
    {
        Stop { halt, cause }
    }

    /// What the call by number answers: its refusal, or that memory ran out. Takes no memory.
    /// Example: of `view.get(7)` of three items it is `Halt::Refused(Fault::Index)`.
    pub fn halt(&self) -> Halt
        ensures { result ≡ self.now.halt }
    {
        self.halt
    }

    /// The refusal; None if memory ran out. Takes no memory.
    /// Example: of `view.get(7)` of three items it is `Some(Fault::Index)`.
    pub fn fault(&self) -> Option<Fault>
        ensures { result ≡ fault_of self.now.halt }
    {
        match self.halt {
            Halt::Refused(fault) => Some(fault),
            Halt::NoMemory => None,
        }
    }

    /// What was asked. Takes no memory.
    /// Example: of `view.get(7)` of three items it is `Cause::Index { index: 7, length: 3 }`.
    pub fn cause(&self) -> Cause
        ensures { result ≡ self.now.cause }
    {
        self.cause
    }
}

/// So `?` hands a stop on where a call answers a `Halt`.
impl From<Stop> for Halt {
    ghost from_gives = { λ stop halt. halt ≡ stop.halt };

    fn from(stop: Stop) -> Halt {
        stop.halt
    }
}

/// What was asked, as the first half of a sentence.
fn write_cause<W: fmt::Write>(cause: Cause, f: &mut fmt::Formatter<W>) -> fmt::Result {
    match cause {
        Cause::Whole => f.write_str("a view of all bytes can't be made"),
        Cause::Index { index, length } => write!(
            f,
            "the item at index {index} of {length} can't be read"
        ),
        Cause::Number {
            number,
            index,
            length,
        } => write!(
            f,
            "the number {number} can't be written at index {index} of {length}"
        ),
        Cause::Slice { length } => write!(
            f,
            "this slice of a view of length {length} can't be made"
        ),
        Cause::Format { length } => write!(
            f,
            "a view of length {length} can't be cast to this format"
        ),
        Cause::Bytes { given, length } => {
            write!(
                f,
                "bytes of length {given} can't be written over this slice of a view of length {length}"
            )
        }
        Cause::Items { given, length } => {
            write!(
                f,
                "items of a view of length {given} can't be written over this slice of a view of length {length}"
            )
        }
        Cause::Parts => f.write_str("the bytes of the view can't be split"),
        Cause::Replaced => f.write_str("no bytes of the view can be replaced"),
        Cause::Digits => f.write_str("the digits of the view can't be written"),
        Cause::Content => f.write_str("the bytes of the view can't be lent"),
    }
}

/// Why a slice, a cast or a write of bytes is refused with `ValueError`.
fn value_text(cause: Cause) -> &'static str {
    match cause {
        Cause::Slice { length: _ } => "the step is 0",
        Cause::Bytes {
            given: _,
            length: _,
        } =>
            "the step is 0, the items aren't single bytes, or the slice picks another number of them",
        Cause::Items {
            given: _,
            length: _,
        } => "the step is 0, or the items have another format, size or shape",
        Cause::Parts => "the separator has no bytes",
        Cause::Digits => "the separator isn't one ASCII byte",
        _ => "the value can't be used",
    }
}

/// Why a call is refused with `TypeError`.
fn kind_text(cause: Cause) -> &'static str {
    match cause {
        Cause::Number {
            number: _,
            index: _,
            length: _,
        } =>
            "the view may only be read, or has no dimension, or its format doesn't take the number",
        Cause::Format { length: _ } =>
            "its bytes don't lie together, or make no whole number of such items, or the format isn't one",
        Cause::Bytes {
            given: _,
            length: _,
        } => "the view may only be read, or has no dimension",
        Cause::Items {
            given: _,
            length: _,
        } => "the view may only be read, or has no dimension",
        Cause::Content => "its items don't lie one after the other",
        _ => "the view has no dimension",
    }
}

/// Why it is refused, as the second half of a sentence.
fn reason(halt: Halt, cause: Cause) -> &'static str {
    match halt {
        Halt::NoMemory => "there is not enough memory",
        Halt::Refused(fault) => match fault {
            Fault::Index => "there is no such item",
            Fault::Value => value_text(cause),
            Fault::Kind => kind_text(cause),
            Fault::Buffer => "a view is unreleased",
            Fault::Struct => "the format can't be read",
            Fault::Overflow => "a number is too large",
            Fault::NotImplemented => "the view has several dimensions, or its format can't be read",
            Fault::UnknownName => "the view isn't one of this group",
        },
    }
}

/// One sentence: what was asked, and why it isn't done.
impl fmt::Display for Stop {
    fn fmt<W: fmt::Write>(&self, f: &mut fmt::Formatter<W>) -> fmt::Result {
        write_cause(self.cause, f)?;
        f.write_str(", since ")?;
        f.write_str(reason(self.halt, self.cause))
    }
}
