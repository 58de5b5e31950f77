//! Why a call is refused.
ghost use Rattle.std.specs.Prelude.{◌≡◌};
ghost use Rattle.pybuf_value.specs.Names.{python_name_of};

use pybuf_copy::NoMemory;
use thiserror::Error;

/// A refusal, as the kind of Python's exception. Its `Display` is Python's name of that exception.
///
/// Example: the item at 9 of three items is refused with `Fault::Index`, which is displayed as `IndexError`.
#[derive(Clone, Copy, Debug, PartialEq, Eq, Error)]
pub enum Fault {
    /// Python's `IndexError`: there is no such item.
    /// Example: the item at 9 of three items is refused with `Index`.
    #[error("IndexError")]
    Index,
    /// Python's `ValueError`: the value is of the right kind, but not one that can be used.
    /// Example: the byte 256 is refused with `Value`.
    #[error("ValueError")]
    Value,
    /// Python's `TypeError`: the value is of another kind than is asked for.
    /// Example: a text in place of bytes is refused with `Kind`.
    #[error("TypeError")]
    Kind,
    /// Python's `BufferError`: the bytes can't be lent, or can't be resized while they are lent.
    /// Example: `append` to a bytearray with an unreleased view is refused with `Buffer`.
    #[error("BufferError")]
    Buffer,
    /// Python's `struct.error`: the format, or what it is to write or read, is none.
    /// Example: `FormatSpec::from_str(alloc, "<h 2")` is refused with `Struct`.
    #[error("StructError")]
    Struct,
    /// Python's `OverflowError`: a number or a length is too large.
    /// Example: the count `2**63` is refused with `Overflow`, since it doesn't fit `isize`.
    #[error("OverflowError")]
    Overflow,
    /// Python's `NotImplementedError`: what is asked isn't there for such a format or shape.
    /// Example: one item of a view with two dimensions at one index is refused with `NotImplemented`.
    #[error("NotImplementedError")]
    NotImplemented,
    /// There is no such handle, or the command has no subject of such a kind. Python has no such
    /// exception.
    /// Example: a command for a view that was never made is refused with `UnknownName`.
    #[error("UnknownName")]
    UnknownName,
}

impl Fault {
    /// The name of the exception, as Python's library reference spells it under "Built-in
    /// Exceptions"; `StructError` stands for `struct.error`.
    ///
    /// Example: `Fault::Kind.python_name()` is `"TypeError"`.
    pub fn python_name(&self) -> &'static str
        ensures { result.now ≡ python_name_of self.now }
    {
        match self {
            Fault::Index => "IndexError",
            Fault::Value => "ValueError",
            Fault::Kind => "TypeError",
            Fault::Buffer => "BufferError",
            Fault::Struct => "StructError",
            Fault::Overflow => "OverflowError",
            Fault::NotImplemented => "NotImplementedError",
            Fault::UnknownName => "UnknownName",
        }
    }
}

/// The answer of a call that may be refused: what it gives, or why it gives nothing.
///
/// Example: `Outcome::Done(5)` is the answer 5, and `Outcome::Refused(Fault::Value)` is a refusal.
#[derive(Debug, Drop)]
pub enum Outcome<T> {
    /// What the call gives.
    /// Example: `Done(5)` is the answer 5.
    Done(T),
    /// The call is refused, and why.
    /// Example: `Refused(Fault::Value)` is a refusal that is Python's `ValueError`.
    Refused(Fault),
}

/// The answer of a call that may be refused, or fail for want of memory.
///
/// Example: `Ok(Outcome::Done(5))` is the answer 5, and `Err(NoMemory)` says that memory ran out.
pub type Tried<T> = Result<Outcome<T>, NoMemory>;
