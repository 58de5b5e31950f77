//! Methods that take no argument.

use crate::tally::Tally;
use crate::texts::Case;
use pybuf_bytes::{PyBytesInner, SplitLinesArgs};
use pybuf_value::{ByteLists, Made};
use std::alloc::Global;

/// Methods without an argument; of `splitlines` both forms.
#[derive(Clone, Copy)]
pub enum Bare {
    IsAlnum,
    IsAlpha,
    IsAscii,
    IsDigit,
    IsLower,
    IsSpace,
    IsTitle,
    IsUpper,
    Lower,
    Upper,
    SwapCase,
    Capitalize,
    Title,
    Strip,
    LeftStrip,
    RightStrip,
    Lines,
    WholeLines,
    FromHex,
}

/// The lines of a text, with their ends or without.
fn lines(alloc: Global, text: &PyBytesInner, keepends: bool) -> Made<ByteLists> {
    text.splitlines(alloc, SplitLinesArgs { keepends })
}

/// The answer of one call.
pub fn add_bare(case: &Case, method: Bare, tally: &mut Tally) -> Made<()> {
    let (alloc, text) = (case.alloc, case.text);
    match method {
        Bare::IsAlnum => tally.add(Ok(text.isalnum())),
        Bare::IsAlpha => tally.add(Ok(text.isalpha())),
        Bare::IsAscii => tally.add(Ok(text.isascii())),
        Bare::IsDigit => tally.add(Ok(text.isdigit())),
        Bare::IsLower => tally.add(Ok(text.islower())),
        Bare::IsSpace => tally.add(Ok(text.isspace())),
        Bare::IsTitle => tally.add(Ok(text.istitle())),
        Bare::IsUpper => tally.add(Ok(text.isupper())),
        Bare::Lower => tally.add(text.lower(alloc)),
        Bare::Upper => tally.add(text.upper(alloc)),
        Bare::SwapCase => tally.add(text.swapcase(alloc)),
        Bare::Capitalize => tally.add(text.capitalize(alloc)),
        Bare::Title => tally.add(text.title(alloc)),
        Bare::Strip => tally.add(text.strip(alloc, None)),
        Bare::LeftStrip => tally.add(Ok(text.lstrip(None))),
        Bare::RightStrip => tally.add(Ok(text.rstrip(None))),
        Bare::Lines => tally.add(lines(alloc, text, false)),
        Bare::WholeLines => tally.add(lines(alloc, text, true)),
        Bare::FromHex => tally.add(PyBytesInner::fromhex(alloc, text.as_bytes())),
    }
}
