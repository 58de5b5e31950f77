//! An argument that is borrowed as bytes.
ghost use Rattle.std.specs.Prelude.{◌≡◌, ◌==◌, ℕ, List, Ok, Err, length, IfOk, IfErr};
ghost use Rattle.std.specs.Fn.{FnOnceReturnsAt};
ghost use Rattle.pybuf_value.specs.Snaps.{like_in};
ghost use Rattle.pybuf_borrow.specs.Arguments.{argument_of};

use pybuf_value::{Fault, Lender, Value, bytes_like};
use std::marker::Model;

/// An argument that is borrowed as bytes, where Python's documents ask for a bytes-like object (Glossary, "bytes-like
/// object"). It is a bytes value, or a handle of an exporter or of a view whose items lie one after the other. Its
/// bytes are lent by the value or by the lender, and aren't copied.
/// Example: of the value `x616263` it lends `b"abc"`.
#[derive(Debug, Drop)]
pub struct ArgBytesLike<'a> {
    object: &'a Value,
    bytes: &'a [u8],
}

impl<'a> Model for ArgBytesLike<'a> {
    ghost use Rattle.pybuf_borrow.specs.Arguments.{BytesArgument};

    ghost Value = { BytesArgument };

    ghost view = { λ a. record { object = a.object.now; bytes = a.bytes.now } };
}

/// The bytes of a value that has them.
fn like_in<'a, L: Lender>(value: &'a Value, lender: &'a L) -> Result<&'a [u8], Fault>
    ensures ok { IfOk result (λ bytes. like_in (L.pairs lender.now) value.now ≡ Ok bytes.now) }
    ensures err { IfErr result (λ fault. like_in (L.pairs lender.now) value.now ≡ Err fault) }
{
    match value {
        Value::One(scalar) => bytes_like(scalar, lender),
        _ => Err(Fault::Kind),
    }
}

impl<'a> ArgBytesLike<'a> {
    /// The bytes of a value, borrowed. Takes no memory.
    ///
    /// Refused with `UnknownName` where the lender hasn't the handle, with `ValueError` where it names a released
    /// view, and with `TypeError` where it names a view whose items don't lie one after the other or an iterator, and
    /// for every other value.
    /// Example: of the value `x616263` it lends `b"abc"`, and the value 5 is refused with `TypeError`.
    pub fn try_from_value<L: Lender>(
        value: &'a Value,
        lender: &'a L,
    ) -> Result<ArgBytesLike<'a>, Fault>
        ensures ok { IfOk result (λ argument. argument_of (L.pairs lender.now) value.now ≡ Ok argument) }
        ensures err { IfErr result (λ fault. argument_of (L.pairs lender.now) value.now ≡ Err fault) }
    {
        match like_in(value, lender) {
            Ok(bytes) => Ok(ArgBytesLike {
                object: value,
                bytes,
            }),
            Err(fault) => Err(fault),
        }
    }

    /// The bytes, lent without a copy. Takes no memory.
    /// Example: of the value `x616263` it is `b"abc"`.
    pub fn borrow_buf(&self) -> &[u8]
        ensures { result.now ≡ self.now.bytes }
    {
        self.bytes
    }

    /// What a function makes of the bytes.
    /// Example: of `b"abc"` and the function `|bytes| bytes.len()` it is 3.
    pub fn with_ref<R, F: FnOnce(&[u8]) -> R>(&self, f: F) -> R
        requires { F.IsAlwaysCallable f }
        ensures { FnOnceReturnsAt F.FnOnce f self.now.bytes result }
    {
        f(self.bytes)
    }

    /// The number of bytes. Takes no memory.
    /// Example: of `b"abc"` it is 3.
    pub fn len(&self) -> usize
        ensures { result ≡ length self.now.bytes }
    {
        self.bytes.len()
    }

    /// Whether there is no byte. Takes no memory.
    /// Example: of `b""` it is true.
    pub fn is_empty(&self) -> bool
        ensures { result ≡ (length self.now.bytes == 0) }
    {
        self.bytes.is_empty()
    }

    /// The value whose bytes they are, lent. Takes no memory.
    /// Example: of an argument that is a handle it is that handle.
    pub fn as_object(&self) -> &Value
        ensures { result.now ≡ self.now.object }
    {
        self.object
    }
}

/// What a function makes of the bytes of a value, which are borrowed for the call.
///
/// Refused as `ArgBytesLike::try_from_value` refuses the value. The function isn't called then.
/// Example: of the value `x616263` and the function `|bytes| bytes.len()` it is `Ok(3)`.
pub fn try_bytes_like<L: Lender, R, F: FnOnce(&[u8]) -> R>(
    value: &Value,
    lender: &L,
    f: F,
) -> Result<R, Fault>
    requires { F.IsAlwaysCallable f }
    ensures ok { IfOk result (λ made. (bytes : List ℕ) × (like_in (L.pairs lender.now) value.now ≡ Ok bytes) × FnOnceReturnsAt F.FnOnce f bytes made) }
    ensures err { IfErr result (λ fault. like_in (L.pairs lender.now) value.now ≡ Err fault) }
{
    match like_in(value, lender) {
        Ok(bytes) => Ok(f(bytes)),
        Err(fault) => Err(fault),
    }
}
