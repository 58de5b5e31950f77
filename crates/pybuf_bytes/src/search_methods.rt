//! The searches, cuts and sums of strings of bytes.
ghost use Rattle.std.specs.Prelude.{◌≡◌, ◌≤◌, ◌++◌, Option, Some, IfOk, OnOk, OnErr};
ghost use Rattle.std.specs.Fn.{FnReturnsAtPair};
ghost use Rattle.bstr.specs.Owned.{joined};
ghost use Rattle.pybuf_value.specs.Halting.{refusal_of, GivesOutcome, GivesOutcomeAs, GivesOutcomeOfBytes};
ghost use Rattle.pybuf_value.specs.Texts.{fitted};
ghost use Rattle.pybuf_search.specs.Ends.{without_prefix, without_suffix};
ghost use Rattle.pybuf_search.specs.Ranges.{IsSearch};
ghost use Rattle.pybuf_bytes.specs.Searching as spec;

use crate::arguments::{ByteInnerFindOptions, ByteInnerSplitOptions};
use crate::inner::PyBytesInner;
use crate::needles::Needle;
use crate::searching::{
    concat_with, contains_needle, count_between, find_between, partition_at, rpartition_at,
    rsplit_at, split_at,
};
use pybuf_value::{ByteLists, Fault, Lender, Made, Outcome, Tried, Value};
use std::alloc::Global;

impl PyBytesInner {
    /// The bytes, and others behind them (Library reference, "Common Sequence Operations", `s + t`).
    ///
    /// Refused with `OverflowError` exactly where both are more than `isize::MAX` bytes.
    ///
    /// Example: of `b"ab"` and `b"cd"` it gives `b"abcd"`.
    pub fn add(&self, alloc: Global, other: &[u8]) -> Tried<Vec<u8>>
        ensures { GivesOutcomeOfBytes (fitted (self.now ++ other.now)) result }
    {
        pybuf_search::added(alloc, self.as_bytes(), other)
    }

    /// The bytes, and behind them those of a bytes value, or of the exporter or the view that a handle
    /// names, contiguous or not (Library reference, "Common Sequence Operations", `s + t`).
    ///
    /// Refused with `UnknownName` where the lender hasn't the handle, with `ValueError` where it names
    /// a released view, with `TypeError` for every other value, and then with `OverflowError` exactly
    /// where both are more than `isize::MAX` bytes.
    ///
    /// Example: of `b"ab"` and the bytes value `b"cd"` it gives `b"abcd"`, and of the number 5 it is refused with `TypeError`.
    pub fn concat<L: Lender>(&self, alloc: Global, other: &Value, lender: &L) -> Tried<Vec<u8>>
        ensures { GivesOutcomeOfBytes (spec.concat_of (L.pairs lender.now) other.now self.now) result }
    {
        concat_with(alloc, self.as_bytes(), other, lender)
    }

    /// The bytes `n` times, one after another, and none where `n` is negative (Library reference,
    /// "Common Sequence Operations", `s * n`).
    ///
    /// Refused with `OverflowError` exactly where that is more than `isize::MAX` bytes.
    ///
    /// Example: of `b"ab"` and 3 it gives `b"ababab"`, and of -1 it gives `b""`.
    pub fn mul(&self, alloc: Global, n: isize) -> Tried<Vec<u8>>
        ensures { GivesOutcomeOfBytes (spec.repeated_of n self.now) result }
    {
        pybuf_search::repeated(alloc, self.as_bytes(), n)
    }

    /// Puts the bytes `n` times in their own place, and none where `n` is negative (Library reference,
    /// "Mutable Sequence Types", `s *= n`).
    ///
    /// Refused with `OverflowError` exactly where that is more than `isize::MAX` bytes. After a
    /// refusal, or where memory runs out, the bytes are as before.
    ///
    /// Example: with 2 it makes `b"abab"` of `b"ab"`.
    pub fn imul(&mut self, alloc: Global, n: isize) -> Tried<()>
        ensures answer { GivesOutcome (refusal_of (spec.repeated_of n self.old)) result }
        ensures bytes { OnOk result (self.new ≡ spec.or_before self.old (spec.repeated_of n self.old)) }
        ensures memory { OnErr result (self.new ≡ self.old) }
    {
        // The prover asks for this length. It tells that there are at most `isize::MAX` bytes, which the prover needs
        // if they stay as they are.
        let _length = self.len();
        if n == 1 {
            return Ok(Outcome::Done(()));
        }
        match pybuf_search::repeated(alloc, self.as_bytes(), n)? {
            Outcome::Refused(fault) => Ok(Outcome::Refused(fault)),
            Outcome::Done(bytes) => {
                *self = PyBytesInner::from(bytes);
                Ok(Outcome::Done(()))
            }
        }
    }

    /// Whether the needle stands anywhere, as Python's `in` asks (Library reference, "Common Sequence
    /// Operations"). Takes no memory.
    ///
    /// Refused with `ValueError` exactly for a number outside `0..256`.
    ///
    /// Example: of `b"abc"` and the needle 98 it is `Ok(true)`, and of the needle 256 it is `Err(Fault::Value)`.
    pub fn contains(&self, needle: &Needle) -> Result<bool, Fault>
        ensures { result ≡ spec.contains_of needle.now self.now }
    {
        contains_needle(self.as_bytes(), needle)
    }

    /// The number of matches of the needle between the bounds, of which no two overlap (Library
    /// reference, "Bytes and Bytearray Operations", `bytes.count`); none where the start passes the
    /// end.
    ///
    /// Refused with `ValueError` exactly for a number outside `0..256`.
    ///
    /// Example: of `b"aaaa"` and the needle `b"aa"` without bounds it gives 2.
    pub fn count(&self, alloc: Global, options: ByteInnerFindOptions) -> Tried<usize>
        ensures { GivesOutcome (spec.count_of options.sub options.start options.end self.now) result }
    {
        count_between(alloc, self.as_bytes(), options)
    }

    /// The place in the bytes that a search finds between the bounds; none where the start passes the
    /// end (Library reference, "Bytes and Bytearray Operations", `bytes.find`). The search is handed
    /// the bytes between the bounds and those of the needle.
    ///
    /// Refused with `ValueError` exactly for a number outside `0..256`.
    ///
    /// Example: of `b"abcabc"`, the needle `b"bc"` with the start 2, and the search `first_place` it gives `Some(4)`.
    pub fn find<F: Fn(&[u8], &[u8]) -> Option<usize>>(
        &self,
        alloc: Global,
        options: ByteInnerFindOptions,
        find: F,
    ) -> Tried<Option<usize>>
        requires callable { F.IsAlwaysCallable find }
        requires inside { spec.FindsInside (F.post find) }
        ensures function { spec.FindsAsSearch (F.post find) options.sub options.start options.end self.now result }
        ensures call { IfOk result (λ outcome. spec.IsFound (FnReturnsAtPair F.Fn find) options.sub options.start options.end self.now outcome) }
    {
        find_between(alloc, self.as_bytes(), options, find)
    }

    /// The parts between the matches of a separator from the left, or without a separator between runs
    /// of blanks, in order; the greatest number of cuts is no bound where it is negative (Library
    /// reference, "Bytes and Bytearray Operations", `bytes.split`).
    ///
    /// Refused with `ValueError` exactly for an empty separator.
    ///
    /// Example: of `b"a,b,c"`, the separator `b","` and at most one cut it gives `b"a"` and `b"b,c"`.
    pub fn split(&self, alloc: Global, options: ByteInnerSplitOptions) -> Tried<ByteLists>
        ensures { GivesOutcome (spec.split_of options.sep options.maxsplit self.now) result }
    {
        split_at(alloc, self.as_bytes(), options)
    }

    /// The parts between the matches of a separator from the right, or without a separator between runs
    /// of blanks; the parts are in the order of the bytes, and the greatest number of cuts is no bound
    /// where it is negative (Library reference, "Bytes and Bytearray Operations", `bytes.rsplit`).
    ///
    /// Refused with `ValueError` exactly for an empty separator.
    ///
    /// Example: of `b"a,b,c"`, the separator `b","` and at most one cut it gives `b"a,b"` and `b"c"`.
    pub fn rsplit(&self, alloc: Global, options: ByteInnerSplitOptions) -> Tried<ByteLists>
        ensures { GivesOutcome (spec.rsplit_of options.sep options.maxsplit self.now) result }
    {
        rsplit_at(alloc, self.as_bytes(), options)
    }

    /// What stands before the first match of a separator, whether there is one, and what stands
    /// behind it; without a match all the bytes are the front (Library reference, "Bytes and Bytearray
    /// Operations", `bytes.partition`).
    ///
    /// Refused with `ValueError` exactly for an empty separator.
    ///
    /// Example: of `b"a=b=c"` and `b"="` it gives `b"a"`, `true` and `b"b=c"`.
    pub fn partition(&self, alloc: Global, sub: &PyBytesInner) -> Tried<(Vec<u8>, bool, Vec<u8>)>
        ensures { GivesOutcomeAs spec.parts_answered (spec.partition_by sub.now self.now) result }
    {
        partition_at(alloc, self.as_bytes(), sub.as_bytes())
    }

    /// What stands behind the last match of a separator, whether there is one, and what stands before
    /// it; without a match all the bytes are the back (Library reference, "Bytes and Bytearray
    /// Operations", `bytes.rpartition`).
    ///
    /// Refused with `ValueError` exactly for an empty separator.
    ///
    /// Example: of `b"a=b=c"` and `b"="` it gives `b"c"`, `true` and `b"a=b"`.
    pub fn rpartition(&self, alloc: Global, sub: &PyBytesInner) -> Tried<(Vec<u8>, bool, Vec<u8>)>
        ensures { GivesOutcomeAs spec.parts_answered (spec.rpartition_by sub.now self.now) result }
    {
        rpartition_at(alloc, self.as_bytes(), sub.as_bytes())
    }

    /// The parts, with these bytes between each two (Library reference, "Bytes and Bytearray
    /// Operations", `bytes.join`).
    ///
    /// Refused with `OverflowError` exactly where that is more than `isize::MAX` bytes.
    ///
    /// Example: of the string `b", "` and the parts `b"a"` and `b"b"` it gives `b"a, b"`.
    pub fn join(&self, alloc: Global, parts: &ByteLists) -> Tried<Vec<u8>>
        ensures { GivesOutcomeOfBytes (fitted (joined self.now parts.now)) result }
    {
        pybuf_search::joined(alloc, self.as_bytes(), parts.as_slice())
    }

    /// The bytes without a prefix, where they begin with it; it is removed once (Library reference,
    /// "Bytes and Bytearray Operations", `bytes.removeprefix`).
    ///
    /// Example: of `b"ababc"` and `b"ab"` it gives `b"abc"`.
    pub fn removeprefix(&self, alloc: Global, prefix: &PyBytesInner) -> Made<Vec<u8>>
        ensures { IfOk result (λ bytes. bytes.items ≡ without_prefix self.now prefix.now) }
    {
        let rest = pybuf_search::without_prefix(self.as_bytes(), prefix.as_bytes());
        Ok(Vec::from_slice(alloc, rest)?)
    }

    /// The bytes without a suffix, where they end with it; it is removed once (Library reference,
    /// "Bytes and Bytearray Operations", `bytes.removesuffix`).
    ///
    /// Example: of `b"abcbc"` and `b"bc"` it gives `b"abc"`.
    pub fn removesuffix(&self, alloc: Global, suffix: &PyBytesInner) -> Made<Vec<u8>>
        ensures { IfOk result (λ bytes. bytes.items ≡ without_suffix self.now suffix.now) }
    {
        let rest = pybuf_search::without_suffix(self.as_bytes(), suffix.as_bytes());
        Ok(Vec::from_slice(alloc, rest)?)
    }
}
