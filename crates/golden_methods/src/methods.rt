//! The methods by their names, and their answers.

use crate::letters::{Bare, add_bare};
use crate::needles::{Bounded, Plain, add_bounded, add_plain};
use crate::shapes::{Numbered, Padding, add_numbered, add_padded, add_replaced, add_translated};
use crate::tally::Tally;
use crate::texts::Case;
use pybuf_bytes::PyBytesInner;
use pybuf_value::Made;
use std::alloc::Global;

/// A method, by what it is tried with on each text.
#[derive(Clone, Copy)]
pub enum Method {
    /// Nothing.
    Bare(Bare),
    /// A needle.
    Plain(Plain),
    /// A needle and all bounds.
    Bounded(Bounded),
    /// All numbers.
    Numbered(Numbered),
    /// All widths.
    Padding(Padding),
    /// A needle, all replacements and all numbers.
    Replace,
    /// Tables, without the bytes of a needle.
    Translate,
}

/// The methods that take a needle.
pub const OF_NEEDLES: [(&str, Method); 20] = [
    ("find", Method::Bounded(Bounded::Find)),
    ("rfind", Method::Bounded(Bounded::RightFind)),
    ("count", Method::Bounded(Bounded::Count)),
    ("startswith", Method::Bounded(Bounded::StartsWith)),
    ("endswith", Method::Bounded(Bounded::EndsWith)),
    ("contains", Method::Plain(Plain::Contains)),
    ("add", Method::Plain(Plain::Add)),
    ("concat", Method::Plain(Plain::Concat)),
    ("join", Method::Plain(Plain::Join)),
    ("strip", Method::Plain(Plain::Strip)),
    ("lstrip", Method::Plain(Plain::LeftStrip)),
    ("rstrip", Method::Plain(Plain::RightStrip)),
    ("removeprefix", Method::Plain(Plain::RemovePrefix)),
    ("removesuffix", Method::Plain(Plain::RemoveSuffix)),
    ("partition", Method::Plain(Plain::Partition)),
    ("rpartition", Method::Plain(Plain::RightPartition)),
    ("split", Method::Numbered(Numbered::Split)),
    ("rsplit", Method::Numbered(Numbered::RightSplit)),
    ("replace", Method::Replace),
    ("translate", Method::Translate),
];

/// The methods that are tried on letters, blanks, line ends and all bytes.
pub const OF_LETTERS: [(&str, Method); 21] = [
    ("isalnum", Method::Bare(Bare::IsAlnum)),
    ("isalpha", Method::Bare(Bare::IsAlpha)),
    ("isascii", Method::Bare(Bare::IsAscii)),
    ("isdigit", Method::Bare(Bare::IsDigit)),
    ("islower", Method::Bare(Bare::IsLower)),
    ("isspace", Method::Bare(Bare::IsSpace)),
    ("istitle", Method::Bare(Bare::IsTitle)),
    ("isupper", Method::Bare(Bare::IsUpper)),
    ("lower", Method::Bare(Bare::Lower)),
    ("upper", Method::Bare(Bare::Upper)),
    ("swapcase", Method::Bare(Bare::SwapCase)),
    ("capitalize", Method::Bare(Bare::Capitalize)),
    ("title", Method::Bare(Bare::Title)),
    ("strip", Method::Bare(Bare::Strip)),
    ("lstrip", Method::Bare(Bare::LeftStrip)),
    ("rstrip", Method::Bare(Bare::RightStrip)),
    ("splitlines", Method::Bare(Bare::Lines)),
    ("splitlines-keepends", Method::Bare(Bare::WholeLines)),
    ("split", Method::Numbered(Numbered::SplitAtBlanks)),
    ("rsplit", Method::Numbered(Numbered::RightSplitAtBlanks)),
    ("mul", Method::Numbered(Numbered::Repeat)),
];

/// The methods that pad, write or read texts.
pub const OF_SHAPES: [(&str, Method); 7] = [
    ("center", Method::Padding(Padding::Center)),
    ("ljust", Method::Padding(Padding::LeftJustify)),
    ("rjust", Method::Padding(Padding::RightJustify)),
    ("zfill", Method::Padding(Padding::ZeroFill)),
    ("expandtabs", Method::Numbered(Numbered::ExpandTabs)),
    ("hex", Method::Numbered(Numbered::Hex)),
    ("fromhex", Method::Bare(Bare::FromHex)),
];

/// The answers on one text.
fn add_answers(case: &Case, method: Method, tally: &mut Tally) -> Made<()> {
    match method {
        Method::Bare(bare) => add_bare(case, bare, tally),
        Method::Plain(plain) => add_plain(case, plain, tally),
        Method::Bounded(bounded) => add_bounded(case, bounded, tally),
        Method::Numbered(numbered) => add_numbered(case, numbered, tally),
        Method::Padding(padding) => add_padded(case, padding, tally),
        Method::Replace => add_replaced(case, tally),
        Method::Translate => add_translated(case, tally),
    }
}

/// The answers on each text, for a needle where the method takes one.
pub fn tally_of(
    alloc: Global,
    method: Method,
    texts: &[PyBytesInner],
    needle: &PyBytesInner,
) -> Made<Tally> {
    let mut tally = Tally::new();
    for text in texts {
        let case = Case {
            alloc,
            text,
            needle,
        };
        add_answers(&case, method, &mut tally)?;
    }
    Ok(tally)
}
