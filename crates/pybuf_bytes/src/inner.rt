//! A string of bytes.
ghost use Rattle.std.specs.Prelude.{◌≡◌, ◌==◌, ◌<◌, ◌^◌, ◌++◌, List, [], ℕ, length, codes};
ghost use Rattle.pybuf_value.specs.Halting.{GivesOutcome};
ghost use Rattle.pybuf_value.specs.Order.{order_of, answers};
ghost use Rattle.pybuf_value.specs.Texts.{fitted};
ghost use Rattle.pybuf_value.specs.Quotes.{repr_of};

use pybuf_value::{
    CompareOp, Exact, Made, Text, Tried, Twin, compare_bytes, named_repr_text, repr_text,
};
use std::alloc::Global;
use std::convert::AsSlice;
use std::hash::Hasher;
use std::marker::Model;
use std::ops::DerefSlice;

/// A string of bytes, as the value of Python's `bytes` and `bytearray`. A clause sees the list of its
/// bytes.
///
/// Example: `PyBytesInner::from(vec)` of the bytes 97 and 98 stands for `b"ab"`.
#[derive(Debug, Drop)]
pub struct PyBytesInner {
    bytes: Vec<u8>,
}

impl Model for PyBytesInner {
    ghost Value = { List ℕ };

    ghost view = { λ inner. inner.bytes.items };
}

impl PyBytesInner {
    /// The string of these bytes. Takes no memory.
    ///
    /// Example: of the vector of 97 and 98 it is the string `b"ab"`.
    pub fn from(bytes: Vec<u8>) -> PyBytesInner
        ensures { result ≡ bytes.items }
    {
        PyBytesInner { bytes }
    }

    /// The bytes, in order. Takes no memory.
    ///
    /// Example: of `b"ab"` it is the vector of 97 and 98.
    pub fn into_vec(self) -> Vec<u8>
        ensures { result.items ≡ self }
    {
        let PyBytesInner { bytes } = self;
        bytes
    }

    /// The bytes, lent.
    ///
    /// Example: of the string `b"ab"` it is `b"ab"`.
    pub fn as_bytes(&self) -> &[u8]
        ensures { result.now ≡ self.now }
    {
        self.bytes.as_slice()
    }

    /// The number of bytes, at most `isize::MAX`.
    ///
    /// Example: of `b"ab"` it is 2.
    pub fn len(&self) -> usize
        ensures value { result ≡ length self.now }
        ensures small { result < 2 ^ 63 }
    {
        self.bytes.len()
    }

    /// Whether there is no byte.
    ///
    /// Example: of `b""` it is `true`, and of `b"ab"` it is `false`.
    pub fn is_empty(&self) -> bool
        ensures { result ≡ (length self.now == 0) }
    {
        self.bytes.is_empty()
    }

    /// What a comparison operator answers of these bytes and others: the first bytes that differ
    /// decide, and of two strings that don't differ so far the shorter one is less (Python's language
    /// reference, "Value comparisons").
    ///
    /// Example: of `b"ab"` and `b"b"` by `CompareOp::Lt` it is `true`.
    pub fn cmp(&self, other: &[u8], op: CompareOp) -> bool
        ensures { result ≡ answers op (order_of self.now other.now) }
    {
        compare_bytes(self.bytes.as_slice(), other, op)
    }

    /// Feeds the bytes to a hasher, in one call of its `write`, and nothing else.
    ///
    /// Example: of `b"ab"` it calls `hasher.write(b"ab")`.
    pub fn hash<H: Hasher>(&self, hasher: &mut H)
        ensures { hasher.new ≡ H.write hasher.old self.now }
    {
        hasher.write(self.bytes.as_slice());
    }

    /// The bytes as Python's `repr` writes them: `b'..'` (library reference, "Bytes Objects").
    ///
    /// Refused with `OverflowError` exactly where that is more than `isize::MAX` bytes.
    ///
    /// Example: of the bytes 97 and 0 it gives the text `b'a\x00'`.
    pub fn repr_bytes(&self, alloc: Global) -> Tried<Text>
        ensures { GivesOutcome (fitted (repr_of (codes "b") self.now [])) result }
    {
        repr_text(alloc, b"b", self.bytes.as_slice(), b"")
    }

    /// The bytes as the argument of a call of a class, as Python's `repr` of a bytearray writes them:
    /// `NAME(b'..')` (library reference, "Bytearray Objects").
    ///
    /// Refused with `OverflowError` exactly where that is more than `isize::MAX` bytes.
    ///
    /// Example: of `b"ab"` and `bytearray` it gives the text `bytearray(b'ab')`.
    pub fn repr_with_name(&self, alloc: Global, class_name: &Text) -> Tried<Text>
        ensures { GivesOutcome (fitted (repr_of (class_name.now ++ codes "(b") self.now (codes ")"))) result }
    {
        named_repr_text(alloc, class_name.as_str(), self.bytes.as_slice())
    }
}

impl From<Vec<u8>> for PyBytesInner {
    ghost from_gives = { λ bytes inner. inner ≡ bytes.items };

    fn from(bytes: Vec<u8>) -> PyBytesInner {
        PyBytesInner { bytes }
    }
}

impl DerefSlice for PyBytesInner {
    type Elem = u8;

    ghost deref_gives = { λ inner bytes. bytes ≡ inner };

    fn deref(&self) -> &[u8] {
        self.bytes.as_slice()
    }
}

impl AsSlice<u8> for PyBytesInner {
    ghost items = { λ inner. inner };

    fn as_slice(&self) -> &[u8] {
        self.bytes.as_slice()
    }
}

impl Twin for PyBytesInner {
    fn copy(&self, alloc: Global) -> Made<PyBytesInner> {
        Ok(PyBytesInner {
            bytes: Vec::from_slice(alloc, self.bytes.as_slice())?,
        })
    }
}

impl Exact for PyBytesInner {
    ghost exact = { λ x y e. e };
}
