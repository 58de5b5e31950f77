//! Bytes that are lent, with Python's methods of strings of bytes by plain arguments.
ghost use Rattle.std.specs.Prelude.{◌≡◌, [], Ok, IfOk, ok_or};
ghost use Rattle.std.specs.Option.{option_copied};
ghost use Rattle.pybuf_value.specs.declared.faults.Fault as faults;
ghost use Rattle.pybuf_value.specs.declared.values.Scalar.TheVariants as scalars;
ghost use Rattle.pybuf_value.specs.declared.values.Value.TheVariants as values;
ghost use Rattle.pybuf_value.specs.Halting.{Gives};
ghost use Rattle.pybuf_value.specs.Settling.{GivesItems};
ghost use Rattle.pybuf_search.specs.Affixes.{startswith_of, endswith_of};
ghost use Rattle.pybuf_search.specs.Places.{first_place, last_place};
ghost use Rattle.pybuf_shaping.specs.Replacing.{count_given, replacement};
ghost use Rattle.pybuf_bytes.specs.ByteStrs.{str_bytes};
ghost use Rattle.pybuf_bytes.specs.Searching.{split_of, place_between, number_between};
ghost use Rattle.pybuf_bytes.specs.Shaping.{decoded};

use crate::decoding::{DecodeArgs, bytes_decode};
use pybuf_letters::split_at_blanks;
use pybuf_search::{
    adjust_indices, begins_with, between, ends_with, first_place_in_range, last_place_in_range,
    number_in_range,
};
use pybuf_value::{Answer, ByteLists, Fault, Halt, Made, Text};
use std::alloc::Global;

/// Bytes that are lent. They have the methods of Python's `bytes` with plain arguments (Library
/// reference, "Bytes and Bytearray Operations"); a bound or a number that isn't given is None.
///
/// Example: `ByteStr::new(b"key=value").find(b"=", None, None)` is `Some(3)`.
#[derive(Clone, Copy, Debug)]
pub struct ByteStr<'a> {
    bytes: &'a [u8],
}

/// A bound as wide as those of the arguments.
fn wide(bound: Option<isize>) -> Option<i128>
    ensures { result ≡ bound }
{
    match bound {
        None => None,
        Some(number) => Some(number as i128),
    }
}

/// The text of a name, if one is given.
fn name_given(alloc: Global, name: Option<&str>) -> Made<Option<Text>>
    ensures { IfOk result (λ text. text ≡ option_copied name.entry) }
{
    match name {
        None => Ok(None),
        Some(name) => Ok(Some(Text::from_string(String::from_str(alloc, name)?))),
    }
}

impl<'a> ByteStr<'a> {
    /// Lends these bytes, so that the methods can be called on them. Takes no memory.
    ///
    /// Example: `ByteStr::new(b"ab")` stands for the bytes `b"ab"`.
    pub fn new(bytes: &'a [u8]) -> ByteStr<'a>
        ensures { str_bytes result ≡ bytes.now }
    {
        ByteStr { bytes }
    }

    /// The first place between the bounds where `sub` stands, None where it stands at none.
    ///
    /// Example: `ByteStr::new(b"abcabc").find(b"bc", Some(2), None)` is `Some(4)`.
    pub fn find(self, sub: &[u8], start: Option<isize>, end: Option<isize>) -> Option<usize>
        ensures { result ≡ place_between first_place sub.now start end (str_bytes self.entry) }
    {
        let range = adjust_indices(wide(start), wide(end), self.bytes.len());
        first_place_in_range(self.bytes, sub, range)
    }

    /// The last place between the bounds where `sub` stands, None where it stands at none.
    ///
    /// Example: `ByteStr::new(b"abcabc").rfind(b"bc", None, None)` is `Some(4)`.
    pub fn rfind(self, sub: &[u8], start: Option<isize>, end: Option<isize>) -> Option<usize>
        ensures { result ≡ place_between last_place sub.now start end (str_bytes self.entry) }
    {
        let range = adjust_indices(wide(start), wide(end), self.bytes.len());
        last_place_in_range(self.bytes, sub, range)
    }

    /// The place that `find` gives.
    ///
    /// Refused with `ValueError` exactly where it gives none.
    ///
    /// Example: `ByteStr::new(b"abc").index(b"x", None, None)` is `Err(Fault::Value)`.
    pub fn index(self, sub: &[u8], start: Option<isize>, end: Option<isize>) -> Result<usize, Fault>
        ensures { result ≡ ok_or (place_between first_place sub.now start end (str_bytes self.entry)) faults.Fault.Value }
    {
        match self.find(sub, start, end) {
            Some(place) => Ok(place),
            None => Err(Fault::Value),
        }
    }

    /// The number of matches of `sub` between the bounds, of which no two overlap.
    ///
    /// Example: `ByteStr::new(b"aaaa").count(b"aa", None, None)` is 2.
    pub fn count(self, sub: &[u8], start: Option<isize>, end: Option<isize>) -> usize
        ensures { result ≡ number_between sub.now start end (str_bytes self.entry) }
    {
        let range = adjust_indices(wide(start), wide(end), self.bytes.len());
        number_in_range(self.bytes, sub, range)
    }

    /// Whether the bytes between the bounds begin with the prefix.
    ///
    /// Example: `ByteStr::new(b"a.py").startswith(b"py", Some(2), None)` is `true`.
    pub fn startswith(self, prefix: &[u8], start: Option<isize>, end: Option<isize>) -> bool
        ensures { startswith_of [] (values.One (scalars.Bytes prefix.now)) start end (str_bytes self.entry) ≡ Ok result }
    {
        match between(self.bytes, wide(start), wide(end)) {
            None => false,
            Some(part) => begins_with(part, prefix),
        }
    }

    /// Whether the bytes between the bounds end with the suffix.
    ///
    /// Example: `ByteStr::new(b"a.py").endswith(b".py", None, Some(3))` is `false`.
    pub fn endswith(self, suffix: &[u8], start: Option<isize>, end: Option<isize>) -> bool
        ensures { endswith_of [] (values.One (scalars.Bytes suffix.now)) start end (str_bytes self.entry) ≡ Ok result }
    {
        match between(self.bytes, wide(start), wide(end)) {
            None => false,
            Some(part) => ends_with(part, suffix),
        }
    }

    /// The parts between the first matches of a separator, or without one between runs of blanks, with
    /// at most so many cuts; a negative number is no bound.
    ///
    /// Refused with `ValueError` exactly for an empty separator.
    ///
    /// Example: `ByteStr::new(b"a,b,c").split(alloc, Some(b","), Some(1))` gives `b"a"` and `b"b,c"`.
    pub fn split(
        self,
        alloc: Global,
        separator: Option<&[u8]>,
        most: Option<isize>,
    ) -> Result<ByteLists, Halt>
        ensures { Gives (split_of (option_copied separator.entry) (count_given most) (str_bytes self.entry)) result }
    {
        let most = most.unwrap_or(-1);
        match separator {
            None => Ok(split_at_blanks(alloc, self.bytes, most)?),
            Some([]) => Err(Halt::Refused(Fault::Value)),
            Some(separator) => Ok(pybuf_search::split(alloc, self.bytes, separator, most)?),
        }
    }

    /// The bytes with others in place of the first matches of `old`, at most so many; a negative number
    /// is no bound.
    ///
    /// Refused with `OverflowError` exactly where that is more than `isize::MAX` bytes.
    ///
    /// Example: `ByteStr::new(b"aaa").replace(alloc, b"a", b"xy", Some(2))` gives `b"xyxya"`.
    pub fn replace(
        self,
        alloc: Global,
        old: &[u8],
        new: &[u8],
        most: Option<isize>,
    ) -> Result<Vec<u8>, Halt>
        ensures { GivesItems (replacement (count_given most) old.now new.now (str_bytes self.entry)) result }
    {
        let most = most.unwrap_or(-1);
        let bytes = pybuf_shaping::replace(alloc, self.bytes, old, new, most).done()?;
        Ok(bytes.into_vec())
    }

    /// The text that the bytes are by a codec, `utf-8`, `utf8` or `ascii`; without one by UTF-8.
    ///
    /// Refused with `ValueError` exactly for another codec, for another handler of errors than
    /// `strict`, for a byte past ASCII under `ascii`, and for bytes that are no UTF-8.
    ///
    /// Example: `ByteStr::new(b"ab").decode(alloc, Some("ascii"), None)` gives the text `ab`.
    pub fn decode(
        self,
        alloc: Global,
        encoding: Option<&str>,
        errors: Option<&str>,
    ) -> Result<Text, Halt>
        ensures { Gives (decoded (str_bytes self.entry) (option_copied encoding.entry) (option_copied errors.entry)) result }
    {
        let args = DecodeArgs {
            encoding: name_given(alloc, encoding)?,
            errors: name_given(alloc, errors)?,
        };
        bytes_decode(alloc, self.bytes, &args).done()
    }
}
