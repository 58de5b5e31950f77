//! Bytes as a string of any kind.
ghost use Rattle.std.specs.Prelude.{◌≡◌, ℕ, Bool, false, List, IfOk};
ghost use Rattle.std.specs.Option.{option_copied};
ghost use Rattle.std.specs.Str.{chars};
ghost use Rattle.pybuf_letters.specs.Classes as letters;
ghost use Rattle.pybuf_anystr.specs.Cases.{IsTestOfByte, IsInCase};

use crate::any_str::{AnyStr, AnyStrContainer};
use pybuf_bytes::{ByteInnerSplitOptions, PyBytesInner, SplitLinesArgs, partition_at, split_at};
use pybuf_search::{AnyStrWrapper, first_place_in_range, number_in_range, single_or_tuple_any};
use pybuf_shaping::ByteInnerPaddingOptions;
use pybuf_value::{ByteLists, Fault, Lender, Made, Outcome, Text, Tried, Value, as_vec};
use std::alloc::{AllocError, Global};
use std::marker::Model;
use std::ops::Range;
use std::str;

/// A string whose elements are bytes. A clause sees the list of its bytes.
///
/// Example: the `Bytes` of `b"ab"` has the elements 97 and 98.
#[derive(Debug, Drop)]
pub struct Bytes {
    bytes: Vec<u8>,
}

impl Model for Bytes {
    ghost Value = { List ℕ };

    ghost view = { λ string. string.bytes.items };
}

impl Bytes {
    /// The string of these bytes. Takes no memory.
    ///
    /// Example: of the vector of 97 and 98 it is the string `b"ab"`.
    pub fn from(bytes: Vec<u8>) -> Bytes
        ensures { result ≡ bytes.items }
    {
        Bytes { bytes }
    }
}

impl AnyStrWrapper for Bytes {
    ghost bytes = { λ string. string };

    fn as_ref(&self) -> &[u8] {
        self.bytes.as_slice()
    }
}

impl AnyStrContainer for Bytes {
    ghost bytes = { λ string. string };

    fn new(alloc: Global) -> Bytes {
        Bytes {
            bytes: Vec::new(alloc),
        }
    }

    fn with_capacity(alloc: Global, capacity: usize) -> Made<Bytes> {
        Ok(Bytes {
            bytes: Vec::with_capacity(alloc, capacity)?,
        })
    }

    fn push_str(&mut self, s: &[u8]) -> Made<()> {
        self.bytes.extend_from_slice(s)?;
        Ok(())
    }
}

/// The bytes that are named, if any are.
fn bytes_given(chars: Option<&PyBytesInner>) -> Option<&[u8]>
    ensures { option_copied result ≡ option_copied chars.entry }
{
    match chars {
        None => None,
        Some(chars) => Some(chars.as_bytes()),
    }
}

impl AnyStr for Bytes {
    ghost bytes = { λ string. string };

    fn element_bytes_len(_c: u8) -> usize {
        1
    }

    fn to_container(&self, alloc: Global) -> Made<Bytes> {
        Ok(Bytes {
            bytes: Vec::from_slice(alloc, self.bytes.as_slice())?,
        })
    }

    fn as_bytes(&self) -> &[u8] {
        self.bytes.as_slice()
    }

    fn elements(&self) -> &[u8] {
        self.bytes.as_slice()
    }

    fn bytes_len(&self) -> usize {
        self.bytes.len()
    }

    fn is_empty(&self) -> bool {
        self.bytes.is_empty()
    }

    fn as_utf8_str(&self, alloc: Global) -> Tried<Text> {
        match str::from_utf8(self.bytes.as_slice()) {
            Ok(text) => {
                let text = String::from_str(alloc, text)?;
                Ok(Outcome::Done(Text::from_string(text)))
            }
            Err(_) => Ok(Outcome::Refused(Fault::Value)),
        }
    }

    fn chars(&self, alloc: Global) -> Tried<Vec<char>> {
        match str::from_utf8(self.bytes.as_slice()) {
            Ok(text) => {
                let found = characters_of(alloc, text)?;
                Ok(Outcome::Done(found))
            }
            Err(_) => Ok(Outcome::Refused(Fault::Value)),
        }
    }

    fn get_bytes(&self, range: Range<usize>) -> &[u8] {
        &self.bytes[range]
    }

    fn get_chars(&self, range: Range<usize>) -> &[u8] {
        &self.bytes[range]
    }

    fn py_add(&self, alloc: Global, other: &[u8]) -> Tried<Vec<u8>> {
        pybuf_search::added(alloc, self.bytes.as_slice(), other)
    }

    fn py_join(&self, alloc: Global, parts: &ByteLists) -> Tried<Vec<u8>> {
        pybuf_search::joined(alloc, self.bytes.as_slice(), parts.as_slice())
    }

    fn py_split(&self, alloc: Global, options: ByteInnerSplitOptions) -> Tried<ByteLists> {
        split_at(alloc, self.bytes.as_slice(), options)
    }

    fn py_split_whitespace(&self, alloc: Global, maxsplit: isize) -> Made<ByteLists> {
        pybuf_letters::split_at_blanks(alloc, self.bytes.as_slice(), maxsplit)
    }

    fn py_rsplit_whitespace(&self, alloc: Global, maxsplit: isize) -> Made<ByteLists> {
        pybuf_letters::blank_parts_from_last(alloc, self.bytes.as_slice(), maxsplit)
    }

    fn py_startsendswith<L: Lender, F: Fn(&[u8], &[u8]) -> bool>(
        &self,
        alloc: Global,
        affix: &Value,
        func: &F,
        lender: &L,
    ) -> Tried<bool> {
        let bytes = self.bytes.as_slice();
        single_or_tuple_any(alloc, affix, &|part: &[u8]| func(bytes, part), lender)
    }

    fn py_strip(&self, chars: Option<&PyBytesInner>) -> &[u8] {
        pybuf_letters::strip(self.bytes.as_slice(), bytes_given(chars))
    }

    fn py_removeprefix(&self, prefix: &PyBytesInner) -> &[u8] {
        pybuf_search::without_prefix(self.bytes.as_slice(), prefix.as_bytes())
    }

    fn py_removesuffix(&self, suffix: &PyBytesInner) -> &[u8] {
        pybuf_search::without_suffix(self.bytes.as_slice(), suffix.as_bytes())
    }

    fn py_find(&self, needle: &[u8], range: Range<usize>) -> Option<usize> {
        first_place_in_range(self.bytes.as_slice(), needle, range)
    }

    fn py_count(&self, needle: &[u8], range: Range<usize>) -> usize {
        number_in_range(self.bytes.as_slice(), needle, range)
    }

    fn py_partition(&self, alloc: Global, sub: &PyBytesInner) -> Tried<(Vec<u8>, bool, Vec<u8>)> {
        partition_at(alloc, self.bytes.as_slice(), sub.as_bytes())
    }

    fn py_bytes_splitlines(&self, alloc: Global, options: SplitLinesArgs) -> Made<ByteLists> {
        pybuf_letters::split_lines(alloc, self.bytes.as_slice(), options.keepends)
    }

    fn py_pad(&self, alloc: Global, left: usize, right: usize, fillchar: u8) -> Made<Vec<u8>> {
        let list = pybuf_shaping::pad(alloc, self.bytes.as_slice(), left, right, fillchar)?;
        Ok(list.into_vec())
    }

    fn py_center<L: Lender>(
        &self,
        alloc: Global,
        options: &ByteInnerPaddingOptions,
        lender: &L,
    ) -> Tried<Vec<u8>> {
        as_vec(pybuf_shaping::center_with(alloc, self.bytes.as_slice(), options, lender))
    }

    fn py_ljust<L: Lender>(
        &self,
        alloc: Global,
        options: &ByteInnerPaddingOptions,
        lender: &L,
    ) -> Tried<Vec<u8>> {
        as_vec(pybuf_shaping::justify_left_with(alloc, self.bytes.as_slice(), options, lender))
    }

    fn py_rjust<L: Lender>(
        &self,
        alloc: Global,
        options: &ByteInnerPaddingOptions,
        lender: &L,
    ) -> Tried<Vec<u8>> {
        as_vec(pybuf_shaping::justify_right_with(alloc, self.bytes.as_slice(), options, lender))
    }

    fn py_zfill(&self, alloc: Global, width: isize) -> Made<Vec<u8>> {
        let list = pybuf_shaping::zero_fill(alloc, self.bytes.as_slice(), width)?;
        Ok(list.into_vec())
    }

    fn py_iscase<F: Fn(u8) -> bool, G: Fn(u8) -> bool>(&self, is_case: F, is_opposite: G) -> bool {
        all_in_case(self.bytes.as_slice(), &is_case, &is_opposite)
    }
}

/// Whether one test is true of some byte and another of none.
fn all_in_case<F: Fn(u8) -> bool, G: Fn(u8) -> bool>(
    bytes: &[u8],
    is_case: &F,
    is_opposite: &G,
) -> bool
    requires in_case { F.IsAlwaysCallable is_case.now }
    requires opposite { G.IsAlwaysCallable is_opposite.now }
    ensures function { (case_test opposite_test : ℕ → Bool) → IsTestOfByte (F.post is_case.now) case_test → IsTestOfByte (G.post is_opposite.now) opposite_test → result ≡ letters.all_in_case case_test opposite_test bytes.now }
    ensures calls { IsInCase (F.post is_case.now) (G.post is_opposite.now) false bytes.now result }
{
    let mut found = false;
    for b in bytes {
        if is_opposite(*b) {
            return false;
        }
        found = found || is_case(*b);
    }
    found
}

/// The characters of a text.
fn characters_of(alloc: Global, text: &str) -> Result<Vec<char>, AllocError>
    ensures { IfOk result (λ found. found.items ≡ chars text.now) }
{
    text.chars().collect(alloc)
}
