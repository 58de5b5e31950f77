//! What strings of any kind have in common.
ghost use Rattle.std.specs.Prelude.{◌≡◌, ◌==◌, ◌+◌, ◌<◌, ◌≤◌, ◌^◌, ◌++◌, ℕ, Bool, List, [], length, IfOk, OnOk, OnErr, Option, Result, false, slice_range};
ghost use Rattle.std.specs.Fn.{FnReturnsAtPair};
ghost use Rattle.std.specs.Option.{option_copied};
ghost use Rattle.bstr.specs.Owned.{joined};
ghost use Rattle.pybuf_value.specs.declared.faults.Fault.{Fault};
ghost use Rattle.pybuf_value.specs.Halting.{outcome_of, GivesOutcome, GivesOutcomeAs, GivesOutcomeOfBytes};
ghost use Rattle.pybuf_value.specs.Texts.{fitted};
ghost use Rattle.pybuf_search.specs.Ends.{without_prefix, without_suffix};
ghost use Rattle.pybuf_search.specs.Places.{first_place};
ghost use Rattle.pybuf_search.specs.Ranges.{place_in_range, number_in_range};
ghost use Rattle.pybuf_letters.specs.Blanks.{blank_parts, blank_parts_from_last};
ghost use Rattle.pybuf_letters.specs.Classes.{all_in_case};
ghost use Rattle.pybuf_letters.specs.Lines.{split_lines};
ghost use Rattle.pybuf_letters.specs.Strips.{stripped, goes};
ghost use Rattle.pybuf_search.specs.Affixes.{single_or_any_of, IsSingleOrAnyOf};
ghost use Rattle.pybuf_shaping.specs.Arguments.{filled};
ghost use Rattle.pybuf_shaping.specs.Padding.{padded, centered, justified_left, justified_right, zero_filled};
ghost use Rattle.pybuf_bytes.specs.Searching.{split_of, partition_by, parts_answered};
ghost use Rattle.pybuf_anystr.specs.Cases.{IsTestOfByte, IsInCase};
ghost use Rattle.pybuf_anystr.specs.Texts.{IsTextOf, AreCharactersOf};
ghost use Rattle.pybuf_anystr.specs.Pairs.{IsTestOfTwo};

use crate::bytes::Bytes;
use pybuf_bytes::{ByteInnerSplitOptions, PyBytesInner, SplitLinesArgs};
use pybuf_shaping::ByteInnerPaddingOptions;
use pybuf_value::{ByteLists, Lender, Made, Text, Tried, Value};
use std::alloc::Global;
use std::ops::Range;

/// A string that grows.
///
/// Example: `Bytes` is one: a new one to which `b"ab"` is added holds `b"ab"`.
pub trait AnyStrContainer: Sized {
    // The bytes that it holds.
    ghost bytes: { Self → List ℕ };

    /// A string without bytes. Takes no memory.
    ///
    /// Example: `Bytes::new(alloc).bytes_len()` is 0.
    fn new(alloc: Global) -> Self
        ensures { bytes result ≡ [] };

    /// A string without bytes, with room for so many.
    ///
    /// Example: `Bytes::with_capacity(alloc, 8)` gives a string of no bytes.
    fn with_capacity(alloc: Global, capacity: usize) -> Made<Self>
        ensures { IfOk result (λ made. bytes made ≡ []) };

    /// Adds bytes at the end. Where memory runs out, the string is as before.
    ///
    /// Example: with `b"cd"` the string `b"ab"` becomes `b"abcd"`.
    fn push_str(&mut self, s: &[u8]) -> Made<()>
        ensures ok { OnOk result (bytes self.new ≡ bytes self.old ++ s.now) }
        ensures err { OnErr result (bytes self.new ≡ bytes self.old) };
}

/// A string whose elements are bytes. Each call whose name begins with `py_` is Python's method of
/// bytes of the rest of that name (Library reference, "Bytes and Bytearray Operations").
///
/// Example: of the `Bytes` of `b"abcabc"`, `py_find` of `b"bc"` in `2..6` is `Some(4)`.
pub trait AnyStr {
    // The bytes that it holds.
    ghost bytes: { Self → List ℕ };

    /// How many bytes an element takes, which is one.
    ///
    /// Example: `Bytes::element_bytes_len(b'a')` is 1.
    fn element_bytes_len(c: u8) -> usize
        ensures { result ≡ 1 };

    /// A copy of the bytes, as a string that grows.
    ///
    /// Example: of `b"ab"` it gives the `Bytes` of `b"ab"`.
    fn to_container(&self, alloc: Global) -> Made<Bytes>
        ensures { IfOk result (λ made. made ≡ bytes self.now) };

    /// The bytes, lent.
    ///
    /// Example: of the `Bytes` of `b"ab"` it is `b"ab"`.
    fn as_bytes(&self) -> &[u8]
        ensures { result.now ≡ bytes self.now };

    /// The elements, which are the bytes, lent.
    ///
    /// Example: of the `Bytes` of `b"ab"` it is `b"ab"`.
    fn elements(&self) -> &[u8]
        ensures { result.now ≡ bytes self.now };

    /// The number of bytes.
    ///
    /// Example: of `b"ab"` it is 2.
    fn bytes_len(&self) -> usize
        ensures { result ≡ length (bytes self.now) };

    /// Whether there is no byte.
    ///
    /// Example: of `b"ab"` it is `false`.
    fn is_empty(&self) -> bool
        ensures { result ≡ (length (bytes self.now) == 0) };

    /// The bytes as a text.
    ///
    /// Refused with `ValueError` exactly where they aren't UTF-8.
    ///
    /// Example: of `b"\xc3\xa9"` it gives the text `é`, and `b"\xff"` is refused with `ValueError`.
    fn as_utf8_str(&self, alloc: Global) -> Tried<Text>
        ensures { IfOk result (λ outcome. IsTextOf (bytes self.now) outcome) };

    /// The characters of the bytes as a text, in order.
    ///
    /// Refused with `ValueError` exactly where they aren't UTF-8.
    ///
    /// Example: of `b"\xc3\xa9a"` it gives `é` and `a`, and `b"\xff"` is refused with `ValueError`.
    fn chars(&self, alloc: Global) -> Tried<Vec<char>>
        ensures { IfOk result (λ outcome. AreCharactersOf (bytes self.now) outcome) };

    /// The bytes at a range, lent.
    ///
    /// Example: of `b"abcd"` at `1..3` it is `b"bc"`.
    fn get_bytes(&self, range: Range<usize>) -> &[u8]
        requires ordered { range.start ≤ range.end }
        requires inside { range.end ≤ length (bytes self.now) }
        ensures { result.now ≡ slice_range (bytes self.now) range.start range.end };

    /// The elements at a range, which are its bytes, lent.
    ///
    /// Example: of `b"abcd"` at `1..3` it is `b"bc"`.
    fn get_chars(&self, range: Range<usize>) -> &[u8]
        requires ordered { range.start ≤ range.end }
        requires inside { range.end ≤ length (bytes self.now) }
        ensures { result.now ≡ slice_range (bytes self.now) range.start range.end };

    /// The bytes, and others behind them.
    ///
    /// Refused with `OverflowError` exactly where both are more than `isize::MAX` bytes.
    ///
    /// Example: of `b"ab"` and `b"cd"` it gives `b"abcd"`.
    fn py_add(&self, alloc: Global, other: &[u8]) -> Tried<Vec<u8>>
        ensures { GivesOutcomeOfBytes (fitted (bytes self.now ++ other.now)) result };

    /// The parts, with these bytes between each two.
    ///
    /// Refused with `OverflowError` exactly where that is more than `isize::MAX` bytes.
    ///
    /// Example: of `b", "` and the parts `b"a"` and `b"b"` it gives `b"a, b"`.
    fn py_join(&self, alloc: Global, parts: &ByteLists) -> Tried<Vec<u8>>
        ensures { GivesOutcomeOfBytes (fitted (joined (bytes self.now) parts.now)) result };

    /// The parts between the matches of a separator from the left, or without a separator between
    /// runs of blanks, in order; the greatest number of cuts is no bound where it is negative.
    ///
    /// Refused with `ValueError` exactly for an empty separator.
    ///
    /// Example: of `b"a,b,c"`, the separator `b","` and at most one cut it gives `b"a"` and `b"b,c"`.
    fn py_split(&self, alloc: Global, options: ByteInnerSplitOptions) -> Tried<ByteLists>
        ensures { GivesOutcome (split_of options.sep options.maxsplit (bytes self.now)) result };

    /// The parts between runs of blanks, cut from the left at most so many times, in order; a negative
    /// number is no bound.
    ///
    /// Example: of `b" a b c "` and at most one cut it gives `b"a"` and `b"b c "`.
    fn py_split_whitespace(&self, alloc: Global, maxsplit: isize) -> Made<ByteLists>
        ensures { IfOk result (λ parts. parts ≡ blank_parts maxsplit (bytes self.now)) };

    /// The parts between runs of blanks, cut from the right at most so many times, from the last to the
    /// first; a negative number is no bound.
    ///
    /// Example: of `b" a b c "` and at most one cut it gives `b"c"` and `b" a b"`.
    fn py_rsplit_whitespace(&self, alloc: Global, maxsplit: isize) -> Made<ByteLists>
        ensures { IfOk result (λ parts. parts ≡ blank_parts_from_last maxsplit (bytes self.now)) };

    /// Whether `func` is true of these bytes and those of the affix, or of one of a tuple of them,
    /// which are tested in order, up to the first of which it is.
    ///
    /// Refused as `single_or_tuple_any` refuses.
    ///
    /// Example: of `b"abc"`, the affix `(b"x", b"ab")` and the test whether the first begins with the second, it is true.
    fn py_startsendswith<L: Lender, F: Fn(&[u8], &[u8]) -> bool>(
        &self,
        alloc: Global,
        affix: &Value,
        func: &F,
        lender: &L,
    ) -> Tried<bool>
        requires { F.IsAlwaysCallable func.now }
        ensures function { (test : List ℕ → List ℕ → Bool) → IsTestOfTwo (F.post func.now) test → GivesOutcome (single_or_any_of (test (bytes self.now)) (L.pairs lender.now) affix.now) result }
        ensures calls { IfOk result (λ outcome. (answer : Result Bool Fault) × (outcome ≡ outcome_of answer) × IsSingleOrAnyOf (FnReturnsAtPair F.Fn func.now (bytes self.now)) (L.pairs lender.now) affix.now answer) };

    /// The bytes without those at both ends that are among `chars`, or are blanks where no `chars`
    /// are given, lent.
    ///
    /// Example: of `b" ab "` without `chars` it is `b"ab"`.
    fn py_strip(&self, chars: Option<&PyBytesInner>) -> &[u8]
        ensures { result.now ≡ stripped (goes (option_copied chars.entry)) (bytes self.now) };

    /// The bytes without a prefix, where they begin with it, lent; it is removed once.
    ///
    /// Example: of `b"ababc"` and `b"ab"` it is `b"abc"`.
    fn py_removeprefix(&self, prefix: &PyBytesInner) -> &[u8]
        ensures { result.now ≡ without_prefix (bytes self.now) prefix.now };

    /// The bytes without a suffix, where they end with it, lent; it is removed once.
    ///
    /// Example: of `b"abcbc"` and `b"bc"` it is `b"abc"`.
    fn py_removesuffix(&self, suffix: &PyBytesInner) -> &[u8]
        ensures { result.now ≡ without_suffix (bytes self.now) suffix.now };

    /// The first place of the needle in a range, counted from the front of the bytes; `None` too where
    /// the range's start passes its end.
    ///
    /// Example: of `b"abcabc"`, `b"bc"` and `2..6` it is `Some(4)`.
    fn py_find(&self, needle: &[u8], range: Range<usize>) -> Option<usize>
        requires { range.end ≤ length (bytes self.now) }
        ensures { result ≡ place_in_range first_place (bytes self.now) needle.now range };

    /// The number of matches of the needle in a range, of which no two overlap; 0 where the range's
    /// start passes its end.
    ///
    /// Example: of `b"aaaa"`, `b"aa"` and `0..4` it is 2.
    fn py_count(&self, needle: &[u8], range: Range<usize>) -> usize
        requires { range.end ≤ length (bytes self.now) }
        ensures { result ≡ number_in_range (bytes self.now) needle.now range };

    /// What stands before the first match of a separator, whether there is one, and what stands
    /// behind it; without a match all the bytes are the front.
    ///
    /// Refused with `ValueError` exactly for an empty separator.
    ///
    /// Example: of `b"a=b=c"` and `b"="` it gives `b"a"`, `true` and `b"b=c"`.
    fn py_partition(&self, alloc: Global, sub: &PyBytesInner) -> Tried<(Vec<u8>, bool, Vec<u8>)>
        ensures { GivesOutcomeAs parts_answered (partition_by sub.now (bytes self.now)) result };

    /// The lines, each of which ends with `\n`, `\r` or `\r\n`; the last line may end without one. The
    /// ends are kept if the options say so. There is no empty line behind the last end.
    ///
    /// Example: of `b"a\n\nb\r\n"` without the ends it gives `b"a"`, `b""` and `b"b"`.
    fn py_bytes_splitlines(&self, alloc: Global, options: SplitLinesArgs) -> Made<ByteLists>
        ensures { IfOk result (λ lines. lines ≡ split_lines options.keepends (bytes self.now)) };

    /// The bytes between so many fill bytes on the left and on the right.
    ///
    /// Example: of `b"ab"`, 1, 2 and `b'*'` it gives `b"*ab**"`.
    fn py_pad(&self, alloc: Global, left: usize, right: usize, fillchar: u8) -> Made<Vec<u8>>
        requires { left + length (bytes self.now) + right < 2 ^ 63 }
        ensures { IfOk result (λ made. made.items ≡ padded left right fillchar (bytes self.now)) };

    /// The bytes in the middle of a width, filled up on both sides; the bytes where they are long
    /// enough. Of an odd number of missing bytes one more stands on the left where the width is odd
    /// too, and else on the right.
    ///
    /// Refused as `ByteInnerPaddingOptions::fill` is.
    ///
    /// Example: of `b"abc"` with the width 6 and the fill byte `b"*"` it gives `b"*abc**"`.
    fn py_center<L: Lender>(
        &self,
        alloc: Global,
        options: &ByteInnerPaddingOptions,
        lender: &L,
    ) -> Tried<Vec<u8>>
        ensures { GivesOutcomeOfBytes (filled (centered options.now.width) (L.pairs lender.now) options.now.fillchar (bytes self.now)) result };

    /// The bytes on the left of a width, filled up on the right; the bytes where they are long enough.
    ///
    /// Refused as `ByteInnerPaddingOptions::fill` is.
    ///
    /// Example: of `b"ab"` with the width 4 and no fill byte it gives `b"ab  "`.
    fn py_ljust<L: Lender>(
        &self,
        alloc: Global,
        options: &ByteInnerPaddingOptions,
        lender: &L,
    ) -> Tried<Vec<u8>>
        ensures { GivesOutcomeOfBytes (filled (justified_left options.now.width) (L.pairs lender.now) options.now.fillchar (bytes self.now)) result };

    /// The bytes on the right of a width, filled up on the left; the bytes where they are long enough.
    ///
    /// Refused as `ByteInnerPaddingOptions::fill` is.
    ///
    /// Example: of `b"ab"` with the width 4 and no fill byte it gives `b"  ab"`.
    fn py_rjust<L: Lender>(
        &self,
        alloc: Global,
        options: &ByteInnerPaddingOptions,
        lender: &L,
    ) -> Tried<Vec<u8>>
        ensures { GivesOutcomeOfBytes (filled (justified_right options.now.width) (L.pairs lender.now) options.now.fillchar (bytes self.now)) result };

    /// The bytes with digits `0` before them up to a width, behind one sign that they begin with; the
    /// bytes where they are long enough.
    ///
    /// Example: of `b"-5"` and the width 4 it gives `b"-005"`.
    fn py_zfill(&self, alloc: Global, width: isize) -> Made<Vec<u8>>
        ensures { IfOk result (λ made. made.items ≡ zero_filled width (bytes self.now)) };

    /// Whether `is_case` is true of some byte and `is_opposite` of none, as Python's `bytes.islower`
    /// asks of lower case and upper case, and `bytes.isupper` of upper case and lower case.
    ///
    /// Example: of `b"a1"` with the tests for lower case and upper case it is `true`, and of `b"aB"` it is `false`.
    fn py_iscase<F: Fn(u8) -> bool, G: Fn(u8) -> bool>(&self, is_case: F, is_opposite: G) -> bool
        requires in_case { F.IsAlwaysCallable is_case }
        requires opposite { G.IsAlwaysCallable is_opposite }
        ensures function { (case_test opposite_test : ℕ → Bool) → IsTestOfByte (F.post is_case) case_test → IsTestOfByte (G.post is_opposite) opposite_test → result ≡ all_in_case case_test opposite_test (bytes self.now) }
        ensures calls { IsInCase (F.post is_case) (G.post is_opposite) false (bytes self.now) result };
}
