//! Arguments that are a text, or are borrowed as bytes.
ghost use Rattle.std.specs.Prelude.{◌≡◌, ◌==◌, length, IfOk};
ghost use Rattle.std.specs.Fn.{FnOnceReturnsAt};
ghost use Rattle.pybuf_value.specs.Halting.{outcome_of};

use crate::bytes::ArgBytesLike;
use pybuf_value::{Fault, Lender, Made, Outcome, Scalar, Text, Tried, Twin, Value, is_ascii};
use std::alloc::Global;

/// An argument that is a text, or is borrowed as bytes.
/// Example: the value `'ab'` stands for `Str` of the text `ab`, and `x6162` for `Buf` of the bytes `b"ab"`.
#[derive(Debug, Drop)]
pub enum ArgStrOrBytesLike<'a> {
    /// Bytes that are borrowed.
    /// Example: the value `x6162` gives it, with the bytes `b"ab"`.
    Buf(ArgBytesLike<'a>),
    /// A copy of a text.
    /// Example: the value `'ab'` gives it, with the text `ab`.
    Str(Text),
}

impl<'a> ArgStrOrBytesLike<'a> {
    ghost use Rattle.pybuf_borrow.specs.Texts.{text_or_bytes, object_of, bytes_of};

    /// A copy of a text, or the bytes of any other value, borrowed.
    ///
    /// Refused as `ArgBytesLike::try_from_value` refuses what is no text.
    /// Example: the value `'ab'` is done as `Str`, and the value 5 is refused with `TypeError`.
    pub fn try_from_value<L: Lender>(
        alloc: Global,
        value: &'a Value,
        lender: &'a L,
    ) -> Tried<ArgStrOrBytesLike<'a>>
        ensures { IfOk result (λ outcome. outcome ≡ outcome_of (text_or_bytes (L.pairs lender.now) value.now)) }
    {
        if let Value::One(Scalar::Text(text)) = value {
            let text = text.copy(alloc)?;
            return Ok(Outcome::Done(ArgStrOrBytesLike::Str(text)));
        }
        match ArgBytesLike::try_from_value(value, lender) {
            Ok(argument) => Ok(Outcome::Done(ArgStrOrBytesLike::Buf(argument))),
            Err(fault) => Ok(Outcome::Refused(fault)),
        }
    }

    /// A copy of the value that the argument is of.
    /// Example: of the argument that is made of `'ab'` it is the value `'ab'`.
    pub fn as_object(&self, alloc: Global) -> Made<Value>
        ensures { IfOk result (λ value. value ≡ object_of self.now) }
    {
        match self {
            ArgStrOrBytesLike::Buf(argument) => argument.as_object().copy(alloc),
            ArgStrOrBytesLike::Str(text) => {
                let text = text.copy(alloc)?;
                Ok(Value::One(Scalar::Text(text)))
            }
        }
    }

    /// The bytes, lent without a copy. Those of a text are its UTF-8. Takes no memory.
    /// Example: of the text `é` it is `b"\xc3\xa9"`.
    pub fn borrow_bytes(&self) -> &[u8]
        ensures { result.now ≡ bytes_of self.now }
    {
        match self {
            ArgStrOrBytesLike::Buf(argument) => argument.borrow_buf(),
            ArgStrOrBytesLike::Str(text) => text.as_slice(),
        }
    }
}

/// An argument that is a text of ASCII, or is borrowed as bytes.
/// Example: the value `'ab'` stands for `Text` of the text `ab`, and `x6162` for `Buffer` of the bytes `b"ab"`.
#[derive(Debug, Drop)]
pub enum ArgAsciiBuffer<'a> {
    /// A copy of a text of ASCII.
    /// Example: the value `'ab'` gives it, with the text `ab`.
    Text(Text),
    /// Bytes that are borrowed.
    /// Example: the value `xff` gives it, with the byte 255.
    Buffer(ArgBytesLike<'a>),
}

impl<'a> ArgAsciiBuffer<'a> {
    ghost use Rattle.pybuf_borrow.specs.Texts.{ascii_or_bytes, ascii_bytes_of};

    /// A copy of a text, or the bytes of any other value, borrowed.
    ///
    /// Refused with `ValueError` for a text with a character past ASCII, and as
    /// `ArgBytesLike::try_from_value` refuses what is no text.
    /// Example: the value `'ab'` is done as `Text`, and the text `é` is refused with `ValueError`.
    pub fn try_from_value<L: Lender>(
        alloc: Global,
        value: &'a Value,
        lender: &'a L,
    ) -> Tried<ArgAsciiBuffer<'a>>
        ensures { IfOk result (λ outcome. outcome ≡ outcome_of (ascii_or_bytes (L.pairs lender.now) value.now)) }
    {
        if let Value::One(Scalar::Text(text)) = value {
            if !is_ascii(text.as_slice()) {
                return Ok(Outcome::Refused(Fault::Value));
            }
            let text = text.copy(alloc)?;
            return Ok(Outcome::Done(ArgAsciiBuffer::Text(text)));
        }
        match ArgBytesLike::try_from_value(value, lender) {
            Ok(argument) => Ok(Outcome::Done(ArgAsciiBuffer::Buffer(argument))),
            Err(fault) => Ok(Outcome::Refused(fault)),
        }
    }

    /// The bytes, lent.
    fn borrow_bytes(&self) -> &[u8]
        ensures { result.now ≡ ascii_bytes_of self.now }
    {
        match self {
            ArgAsciiBuffer::Text(text) => text.as_slice(),
            ArgAsciiBuffer::Buffer(argument) => argument.borrow_buf(),
        }
    }

    /// The number of bytes. Takes no memory.
    /// Example: of the text `ab` it is 2.
    pub fn len(&self) -> usize
        ensures { result ≡ length (ascii_bytes_of self.now) }
    {
        self.borrow_bytes().len()
    }

    /// Whether there is no byte. Takes no memory.
    /// Example: of the value `x`, which has no byte, it is true.
    pub fn is_empty(&self) -> bool
        ensures { result ≡ (length (ascii_bytes_of self.now) == 0) }
    {
        self.borrow_bytes().is_empty()
    }

    /// What a function makes of the bytes.
    /// Example: of the text `ab` and the function `|bytes| bytes.len()` it is 2.
    pub fn with_ref<R, F: FnOnce(&[u8]) -> R>(&self, f: F) -> R
        requires { F.IsAlwaysCallable f }
        ensures { FnOnceReturnsAt F.FnOnce f (ascii_bytes_of self.now) result }
    {
        f(self.borrow_bytes())
    }
}
