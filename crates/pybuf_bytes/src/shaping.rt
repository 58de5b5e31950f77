//! Strings of bytes in other shapes.
ghost use Rattle.std.specs.Prelude.{◌≡◌, IfOk, length};
ghost use Rattle.std.specs.Option.{option_copied};
ghost use Rattle.pybuf_value.specs.Halting.{GivesOutcome, GivesOutcomeOfBytes};
ghost use Rattle.pybuf_shaping.specs.Arguments.{filled, translation};
ghost use Rattle.pybuf_shaping.specs.Digits.{hex_text, bytes_of_hex};
ghost use Rattle.pybuf_shaping.specs.Padding.{centered, justified_left, justified_right, zero_filled};
ghost use Rattle.pybuf_shaping.specs.Replacing.{replacement, replaced, count_given, limit_given};
ghost use Rattle.pybuf_shaping.specs.Tables.{table_of};
ghost use Rattle.pybuf_shaping.specs.Tabs.{expanded, tab_size};
ghost use Rattle.pybuf_bytes.specs.Shaping.{group_given};

use crate::inner::PyBytesInner;
use pybuf_shaping::{ByteInnerPaddingOptions, ByteInnerTranslateOptions, ExpandTabsArgs};
use pybuf_value::{Lender, Made, Text, Tried, as_vec};
use std::alloc::Global;

/// The bytes as pairs of lower-case hexadecimal digits (Python's library reference, "Bytes Objects",
/// `bytes.hex`). A separator, where one is given, stands between each two groups of bytes. The size is
/// the number of bytes of a group, and 1 where none is given. Groups are counted from the right for a
/// positive size and from the left for a negative one, and for 0 there is no separator. No bytes give
/// the empty text.
///
/// Refused with `ValueError` exactly where there are bytes, the size isn't 0, and a separator is given
/// that isn't one byte below 128; and then with `OverflowError` exactly where the text is more than
/// `isize::MAX` bytes.
///
/// Example: of `b"\x01\xab\xff"`, the separator `b":"` and the size 2 it gives the text `01:abff`.
pub fn bytes_to_hex(
    alloc: Global,
    bytes: &[u8],
    sep: Option<&[u8]>,
    bytes_per_sep: Option<isize>,
) -> Tried<Text>
    ensures { GivesOutcome (hex_text (option_copied sep.entry) (group_given bytes_per_sep) bytes.now) result }
{
    pybuf_shaping::hex_text(alloc, bytes, sep, bytes_per_sep.unwrap_or(1))
}

impl PyBytesInner {
    /// The bytes as hexadecimal digits, as `bytes_to_hex` gives and refuses them.
    ///
    /// Example: of `b"\x01\xab"` without a separator it gives the text `01ab`.
    pub fn hex(
        &self,
        alloc: Global,
        sep: Option<&[u8]>,
        bytes_per_sep: Option<isize>,
    ) -> Tried<Text>
        ensures { GivesOutcome (hex_text (option_copied sep.entry) (group_given bytes_per_sep) self.now) result }
    {
        bytes_to_hex(alloc, self.as_bytes(), sep, bytes_per_sep)
    }

    /// The bytes that a text writes as pairs of hexadecimal digits of either case; blanks of ASCII
    /// between pairs are skipped (Python's library reference, "Bytes Objects", `bytes.fromhex`).
    ///
    /// Refused with `ValueError` exactly for every other text.
    ///
    /// Example: of `b"01 aB"` it gives `b"\x01\xab"`, and of `b"1"` it is refused with `ValueError`.
    pub fn fromhex(alloc: Global, text: &[u8]) -> Tried<Vec<u8>>
        ensures { GivesOutcomeOfBytes (bytes_of_hex text.now) result }
    {
        as_vec(pybuf_shaping::bytes_of_hex(alloc, text))
    }

    /// The bytes without those to be dropped, each other mapped by its entry of a table of 256 bytes
    /// (library reference, "Bytes and Bytearray Operations", `bytes.translate`).
    ///
    /// Refused as `ByteInnerTranslateOptions::get_value` is.
    ///
    /// Example: of `b"abc"` without a table, where `b"b"` is to be dropped, it gives `b"ac"`.
    pub fn translate<L: Lender>(
        &self,
        alloc: Global,
        options: &ByteInnerTranslateOptions,
        lender: &L,
    ) -> Tried<Vec<u8>>
        ensures { GivesOutcomeOfBytes (translation (L.pairs lender.now) options.now.table options.now.delete self.now) result }
    {
        as_vec(pybuf_shaping::translate_by(
            alloc,
            self.as_bytes(),
            options.table.as_ref(),
            options.delete.as_ref(),
            lender,
        ))
    }

    /// The table of 256 bytes that maps each byte of `from` to the one at the same place of `to`, and
    /// every other byte to itself (library reference, "Bytes and Bytearray Operations",
    /// `bytes.maketrans`). Of a byte that stands in `from` more than once the first place counts, where
    /// Python takes the last.
    ///
    /// Refused with `ValueError` exactly where the lengths differ.
    ///
    /// Example: of `b"ab"` and `b"xy"` it gives a table whose bytes at 97, 98 and 99 are `b"xyc"`.
    pub fn maketrans(alloc: Global, from: &PyBytesInner, to: &PyBytesInner) -> Tried<Vec<u8>>
        ensures { GivesOutcomeOfBytes (table_of from.now to.now) result }
    {
        as_vec(pybuf_shaping::make_table(alloc, from.as_bytes(), to.as_bytes()))
    }

    /// The bytes in the middle of a width, filled up on both sides; the bytes where they are long
    /// enough. Of an odd number of missing bytes one more stands on the left where the width is odd too,
    /// and else on the right (library reference, "Bytes and Bytearray Operations", `bytes.center`).
    ///
    /// Refused as `ByteInnerPaddingOptions::fill` is.
    ///
    /// Example: of `b"ab"` in the width 5 it gives `b"  ab "`.
    pub fn center<L: Lender>(
        &self,
        alloc: Global,
        options: &ByteInnerPaddingOptions,
        lender: &L,
    ) -> Tried<Vec<u8>>
        ensures { GivesOutcomeOfBytes (filled (centered options.now.width) (L.pairs lender.now) options.now.fillchar self.now) result }
    {
        as_vec(pybuf_shaping::center_with(alloc, self.as_bytes(), options, lender))
    }

    /// The bytes on the left of a width, filled up on the right; the bytes where they are long enough
    /// (library reference, "Bytes and Bytearray Operations", `bytes.ljust`).
    ///
    /// Refused as `ByteInnerPaddingOptions::fill` is.
    ///
    /// Example: of `b"ab"` in the width 4 it gives `b"ab  "`.
    pub fn ljust<L: Lender>(
        &self,
        alloc: Global,
        options: &ByteInnerPaddingOptions,
        lender: &L,
    ) -> Tried<Vec<u8>>
        ensures { GivesOutcomeOfBytes (filled (justified_left options.now.width) (L.pairs lender.now) options.now.fillchar self.now) result }
    {
        as_vec(pybuf_shaping::justify_left_with(alloc, self.as_bytes(), options, lender))
    }

    /// The bytes on the right of a width, filled up on the left; the bytes where they are long enough
    /// (library reference, "Bytes and Bytearray Operations", `bytes.rjust`).
    ///
    /// Refused as `ByteInnerPaddingOptions::fill` is.
    ///
    /// Example: of `b"ab"` in the width 4 it gives `b"  ab"`.
    pub fn rjust<L: Lender>(
        &self,
        alloc: Global,
        options: &ByteInnerPaddingOptions,
        lender: &L,
    ) -> Tried<Vec<u8>>
        ensures { GivesOutcomeOfBytes (filled (justified_right options.now.width) (L.pairs lender.now) options.now.fillchar self.now) result }
    {
        as_vec(pybuf_shaping::justify_right_with(alloc, self.as_bytes(), options, lender))
    }

    /// The bytes with digits `0` before them up to a width, behind one sign that they begin with; the
    /// bytes where they are long enough (library reference, "Bytes and Bytearray Operations",
    /// `bytes.zfill`).
    ///
    /// Example: of `b"-5"` and the width 4 it gives `b"-005"`.
    pub fn zfill(&self, alloc: Global, width: isize) -> Made<Vec<u8>>
        ensures { IfOk result (λ bytes. bytes.items ≡ zero_filled width self.now) }
    {
        let list = pybuf_shaping::zero_fill(alloc, self.as_bytes(), width)?;
        Ok(list.into_vec())
    }

    /// The bytes with spaces in place of each tab, up to the next column that is a multiple of the size,
    /// or none for a size of 0 or less. Columns count bytes from 0, and begin anew behind `\n` and `\r`
    /// (library reference, "Bytes and Bytearray Operations", `bytes.expandtabs`).
    ///
    /// Refused with `OverflowError` exactly where that is more than `isize::MAX` bytes.
    ///
    /// Example: of `b"a\tb"` and the size 4 it gives `b"a   b"`.
    pub fn expandtabs(&self, alloc: Global, options: ExpandTabsArgs) -> Tried<Vec<u8>>
        ensures { GivesOutcomeOfBytes (expanded (tab_size options.tabsize) self.now) result }
    {
        as_vec(pybuf_shaping::expand_tabs(alloc, self.as_bytes(), options.tabsize()))
    }

    /// The bytes with others in place of the first matches of a needle from the left, and of all where no
    /// number or a negative one is given. An empty needle stands before each byte and at the end (library
    /// reference, "Bytes and Bytearray Operations", `bytes.replace`).
    ///
    /// Refused with `OverflowError` exactly where that is more than `isize::MAX` bytes.
    ///
    /// Example: of `b"aaa"`, `b"a"`, `b"xy"` and the number 2 it gives `b"xyxya"`.
    pub fn replace(
        &self,
        alloc: Global,
        from: &PyBytesInner,
        to: &PyBytesInner,
        maxcount: Option<isize>,
    ) -> Tried<Vec<u8>>
        ensures { GivesOutcomeOfBytes (replacement (count_given maxcount) from.now to.now self.now) result }
    {
        let most = maxcount.unwrap_or(-1);
        as_vec(pybuf_shaping::replace(alloc, self.as_bytes(), from.as_bytes(), to.as_bytes(), most))
    }

    /// The bytes with others in place of the first matches of a needle from the left, and of all where
    /// no number is given. Both are of one length, so that each byte keeps its place.
    ///
    /// Example: of `b"aaa"`, `b"a"`, `b"x"` and the number 2 it gives `b"xxa"`.
    pub fn replace_in_place(
        &self,
        alloc: Global,
        from: &PyBytesInner,
        to: &PyBytesInner,
        maxcount: Option<usize>,
    ) -> Made<Vec<u8>>
        requires { length to.now ≡ length from.now }
        ensures { IfOk result (λ bytes. bytes.items ≡ replaced (limit_given maxcount) from.now to.now self.now) }
    {
        let list = pybuf_shaping::replace_in_place(
            alloc,
            self.as_bytes(),
            from.as_bytes(),
            to.as_bytes(),
            maxcount,
        )?;
        Ok(list.into_vec())
    }
}
