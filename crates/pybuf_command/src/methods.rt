//! Calls of the methods of strings of bytes, by name.
use pybuf_value::{Exact, Made, Twin, ValueList};
use std::alloc::Global;

/// The name of a method that bytes and bytearrays have (Python's library reference, "Bytes and
/// Bytearray Operations"). `Add`, `Concat` and `Mul` stand for the operators `+` and `*`. `Concat`
/// takes also views whose items lie apart, and `Add` doesn't.
///
/// Example: `MethodName::Find` with `b"c"` asks `b"Abc"` for the place of `b"c"`, which is 2.
#[derive(Clone, Copy, Debug, PartialEq, Eq)]
pub enum MethodName {
    /// `subject + other`: the bytes, and others behind them.
    /// Example: of `b"Abc"` with `b"d"` it is `b"Abcd"`.
    Add,
    /// `subject + other`, where the other may also be a view whose items lie apart.
    /// Example: of `b"Abc"` with `b"d"` it is `b"Abcd"`.
    Concat,
    /// `subject * count`: the bytes so many times.
    /// Example: of `b"Abc"` with 2 it is `b"AbcAbc"`.
    Mul,
    /// `isalnum`: whether there are bytes and all are letters or digits.
    /// Example: of `b"Abc1"` it is true.
    IsAlnum,
    /// `isalpha`: whether there are bytes and all are letters.
    /// Example: of `b"Abc"` it is true.
    IsAlpha,
    /// `isascii`: whether all bytes are below 128.
    /// Example: of `b"Abc"` it is true.
    IsAscii,
    /// `isdigit`: whether there are bytes and all are digits.
    /// Example: of `b"Abc"` it is false.
    IsDigit,
    /// `islower`: whether there is a letter in lower case, and none in upper case.
    /// Example: of `b"Abc"` it is false.
    IsLower,
    /// `isspace`: whether there are bytes and all are blanks.
    /// Example: of `b" "` it is true.
    IsSpace,
    /// `istitle`: whether there is a letter, and letters are in lower case exactly behind a letter.
    /// Example: of `b"Abc"` it is true.
    IsTitle,
    /// `isupper`: whether there is a letter in upper case, and none in lower case.
    /// Example: of `b"Abc"` it is false.
    IsUpper,
    /// `lower`: the bytes with letters in lower case.
    /// Example: of `b"Abc"` it is `b"abc"`.
    Lower,
    /// `upper`: the bytes with letters in upper case.
    /// Example: of `b"Abc"` it is `b"ABC"`.
    Upper,
    /// `swapcase`: the bytes with each letter in the other case.
    /// Example: of `b"Abc"` it is `b"aBC"`.
    SwapCase,
    /// `capitalize`: the bytes with the first in upper case, and the others in lower case.
    /// Example: of `b"aBC"` it is `b"Abc"`.
    Capitalize,
    /// `title`: the bytes with letters in lower case exactly behind a letter.
    /// Example: of `b"aB c"` it is `b"Ab C"`.
    Title,
    /// `hex`: two hexadecimal digits for each byte, as a text.
    /// Example: of `b"Abc"` with `':'` and 2 it is `'41:6263'`.
    Hex,
    /// `fromhex`: the bytes that pairs of digits spell, whatever the subject is.
    /// Example: with `'4a4B'` it is `b"JK"`.
    FromHex,
    /// `center`: the bytes in the middle of a width, filled up on both sides.
    /// Example: of `b"Abc"` with 6 and `b"*"` it is `b"*Abc**"`.
    Center,
    /// `ljust`: the bytes on the left of a width, filled up behind them.
    /// Example: of `b"Abc"` with 5 and `b"."` it is `b"Abc.."`.
    LJust,
    /// `rjust`: the bytes on the right of a width, filled up before them.
    /// Example: of `b"Abc"` with 5 and `b"."` it is `b"..Abc"`.
    RJust,
    /// `find`: the first place of a needle, or -1.
    /// Example: of `b"Abc"` with `b"c"` it is 2.
    Find,
    /// `rfind`: the last place of a needle, or -1.
    /// Example: of `b"abab"` with `b"ab"` it is 2.
    RFind,
    /// `index`: the first place of a needle, refused with `ValueError` where there is none.
    /// Example: of `b"Abc"` with 98 it is 1.
    Index,
    /// `rindex`: the last place of a needle, refused with `ValueError` where there is none.
    /// Example: of `b"abab"` with `b"ab"` it is 2.
    RIndex,
    /// `count`: how often a needle stands in the bytes, without overlaps.
    /// Example: of `b"Abc"` with `b""` it is 4.
    Count,
    /// `startswith`: whether the bytes begin with others, or with one of a tuple of them.
    /// Example: of `b"Abc"` with the tuple of `b"b"` and `b"A"` it is true.
    StartsWith,
    /// `endswith`: whether the bytes end with others, or with one of a tuple of them.
    /// Example: of `b"Abc"` with `b"bc"` it is true.
    EndsWith,
    /// `join`: parts, with the subject's bytes between each two.
    /// Example: of `b"Abc"` with the list of `b"-"` and `b"."` it is `b"-Abc."`.
    Join,
    /// `maketrans`: the table of 256 bytes that maps each byte of the first to that at its place in the
    /// second.
    /// Example: with `b"ab"` and `b"xy"` the bytes at 97 and 98 are `b"xy"`.
    MakeTrans,
    /// `translate`: each byte by a table of 256 bytes, after some bytes are dropped.
    /// Example: of `b"Abc"` with `None` and `b"b"` it is `b"Ac"`.
    Translate,
    /// `strip`: the bytes without those at both ends that are named, or are blanks.
    /// Example: of `b"Abc"` with `b"cA"` it is `b"b"`.
    Strip,
    /// `lstrip`: the bytes without those in front that are named, or are blanks.
    /// Example: of `b" ab "` it is `b"ab "`.
    LStrip,
    /// `rstrip`: the bytes without those at the end that are named, or are blanks.
    /// Example: of `b" ab "` it is `b" ab"`.
    RStrip,
    /// `removeprefix`: the bytes without others that they begin with.
    /// Example: of `b"Abc"` with `b"Ab"` it is `b"c"`.
    RemovePrefix,
    /// `removesuffix`: the bytes without others that they end with.
    /// Example: of `b"Abc"` with `b"bc"` it is `b"A"`.
    RemoveSuffix,
    /// `split`: the parts between separators, or between runs of blanks, cut from the left.
    /// Example: of `b"Abc"` with `b"b"` it is `b"A"` and `b"c"`.
    Split,
    /// `rsplit`: the parts between separators, or between runs of blanks, cut from the right.
    /// Example: of `b"a,b,c"` with `b","` and 1 it is `b"a,b"` and `b"c"`.
    RSplit,
    /// `partition`: what is before the first separator, the separator, and what is behind it.
    /// Example: of `b"Abc"` with `b"b"` it is `b"A"`, `b"b"` and `b"c"`.
    Partition,
    /// `rpartition`: what is before the last separator, the separator, and what is behind it.
    /// Example: of `b"a=b=c"` with `b"="` it is `b"a=b"`, `b"="` and `b"c"`.
    RPartition,
    /// `expandtabs`: the bytes with spaces for tabs, up to multiples of a size.
    /// Example: of `b"a\tb"` with 4 it is `b"a   b"`.
    ExpandTabs,
    /// `splitlines`: the lines, with their ends or without.
    /// Example: of `b"a\nb"` it is `b"a"` and `b"b"`.
    SplitLines,
    /// `zfill`: the bytes with zeros in front up to a width, but behind a sign.
    /// Example: of `b"-5"` with 4 it is `b"-005"`.
    ZFill,
    /// `replace`: the bytes with others in place of the matches of some.
    /// Example: of `b"Abc"` with `b"b"` and `b"--"` it is `b"A--c"`.
    Replace,
    /// `decode`: the text that the bytes are by a codec.
    /// Example: of `b"Abc"` with `'ascii'` it is `'Abc'`.
    Decode,
}

/// A call of a method: its name, and the arguments that are given, in order.
///
/// Example: the name `MethodName::Replace` with `b"b"` and `b"--"` asks `b"Abc"` for `b"A--c"`.
#[derive(Debug, Drop, PartialEq)]
pub struct MethodCall {
    pub name: MethodName,
    pub args: ValueList,
}

impl Twin for MethodName {
    fn copy(&self, _alloc: Global) -> Made<MethodName> {
        Ok(*self)
    }
}

impl Exact for MethodName {
    ghost exact = { λ x y e. e };
}

impl Twin for MethodCall {
    fn copy(&self, alloc: Global) -> Made<MethodCall> {
        let args = self.args.copy(alloc)?;
        Ok(MethodCall {
            name: self.name,
            args,
        })
    }
}

impl Exact for MethodCall {
    ghost exact = { λ x y e. e };
}
