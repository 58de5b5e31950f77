//! Methods that are tried with several numbers, fill bytes or tables.

use crate::tally::Tally;
use crate::texts::{Case, string, value};
use pybuf_bytes::{
    ByteInnerPaddingOptions, ByteInnerSplitOptions, ByteInnerTranslateOptions, ExpandTabsArgs,
    PyBytesInner, SplitArgs,
};
use pybuf_value::{Made, Outcome, SnapList, Tried};
use std::alloc::Global;

/// Methods that take a number: a greatest number of cuts, a number of repeats, or the size of a tab or of a group.
#[derive(Clone, Copy)]
pub enum Numbered {
    Split,
    RightSplit,
    SplitAtBlanks,
    RightSplitAtBlanks,
    Repeat,
    ExpandTabs,
    Hex,
}

/// The numbers that are tried.
const NUMBERS: [isize; 7] = [-2, -1, 0, 1, 2, 3, 4];

/// At the needle.
fn at_needle(case: &Case, maxsplit: isize) -> Made<ByteInnerSplitOptions> {
    let sep = Some(string(case.alloc, case.needle.as_bytes())?);
    Ok(SplitArgs { sep, maxsplit })
}

/// At runs of blanks.
fn at_blanks(maxsplit: isize) -> ByteInnerSplitOptions {
    let sep = None;
    SplitArgs { sep, maxsplit }
}

/// The answer of one call.
fn add_number(case: &Case, method: Numbered, number: isize, tally: &mut Tally) -> Made<()> {
    let (alloc, text) = (case.alloc, case.text);
    match method {
        Numbered::Split => tally.add(text.split(alloc, at_needle(case, number)?)),
        Numbered::RightSplit => tally.add(text.rsplit(alloc, at_needle(case, number)?)),
        Numbered::SplitAtBlanks => tally.add(text.split(alloc, at_blanks(number))),
        Numbered::RightSplitAtBlanks => tally.add(text.rsplit(alloc, at_blanks(number))),
        Numbered::Repeat => tally.add(text.mul(alloc, number)),
        Numbered::ExpandTabs => {
            tally.add(text.expandtabs(alloc, ExpandTabsArgs { tabsize: number }))
        }
        Numbered::Hex => tally.add(text.hex(alloc, Some(b":"), Some(number))),
    }
}

/// The answers by each number.
pub fn add_numbered(case: &Case, method: Numbered, tally: &mut Tally) -> Made<()> {
    if let Numbered::Hex = method {
        tally.add(case.text.hex(case.alloc, None, None))?;
    }
    for number in &NUMBERS {
        add_number(case, method, *number, tally)?;
    }
    Ok(())
}

/// What stands in place of a match.
const REPLACEMENTS: [&[u8]; 3] = [b"", b"a", b"bb"];

/// The answers of `replace` by one replacement and by each greatest number.
fn add_replacement(case: &Case, to: &PyBytesInner, tally: &mut Tally) -> Made<()> {
    for count in &NUMBERS {
        tally.add(case.text.replace(case.alloc, case.needle, to, Some(*count)))?;
    }
    Ok(())
}

/// The answers of `replace` of the needle, by each replacement.
pub fn add_replaced(case: &Case, tally: &mut Tally) -> Made<()> {
    for to in &REPLACEMENTS {
        let to = string(case.alloc, to)?;
        add_replacement(case, &to, tally)?;
    }
    Ok(())
}

/// A table or none, and the bytes of the needle, which are left out.
fn by_table(case: &Case, table: Option<Vec<u8>>) -> Made<ByteInnerTranslateOptions> {
    let delete = Vec::from_slice(case.alloc, case.needle.as_bytes())?;
    Ok(ByteInnerTranslateOptions {
        table: table.map(value),
        delete: Some(value(delete)),
    })
}

/// The answer of one `translate`.
fn add_with(case: &Case, options: &ByteInnerTranslateOptions, tally: &mut Tally) -> Made<()> {
    let lender = SnapList::new(case.alloc);
    tally.add(case.text.translate(case.alloc, options, &lender))
}

/// The answer of `translate` by a table or by none, without the bytes of the needle.
fn add_by(case: &Case, table: Option<Vec<u8>>, tally: &mut Tally) -> Made<()> {
    let options = by_table(case, table)?;
    add_with(case, &options, tally)
}

/// The table that has each byte of one text in place of that of the other.
fn table_of(alloc: Global, from: &[u8], to: &[u8]) -> Tried<Vec<u8>> {
    let from = string(alloc, from)?;
    let to = string(alloc, to)?;
    PyBytesInner::maketrans(alloc, &from, &to)
}

/// The table that swaps `a` and `b`; none where it is refused.
fn swapping(alloc: Global) -> Made<Option<Vec<u8>>> {
    match table_of(alloc, b"ab", b"ba")? {
        Outcome::Done(table) => Ok(Some(table)),
        Outcome::Refused(_) => Ok(None),
    }
}

/// The answers of `translate` by no table, by one, and by two bytes, which are none.
pub fn add_translated(case: &Case, tally: &mut Tally) -> Made<()> {
    add_by(case, None, tally)?;
    add_by(case, swapping(case.alloc)?, tally)?;
    add_by(case, Some(Vec::from_slice(case.alloc, b"ab")?), tally)
}

/// Bytes that differ from each other, and bytes that stand for them.
const MAPPED: [&[u8]; 5] = [b"", b"a", b"b", b"ab", b"ba"];

/// The answers of `maketrans` of each two of them.
pub fn tally_tables(alloc: Global) -> Made<Tally> {
    let mut tally = Tally::new();
    for from in &MAPPED {
        for to in &MAPPED {
            tally.add(table_of(alloc, from, to))?;
        }
    }
    Ok(tally)
}

/// Methods that pad.
#[derive(Clone, Copy)]
pub enum Padding {
    Center,
    LeftJustify,
    RightJustify,
    ZeroFill,
}

/// The widths that are tried.
const WIDTHS: [isize; 10] = [-1, 0, 1, 2, 3, 4, 5, 6, 7, 8];

/// To a width, with stars or with blanks.
fn options_for(alloc: Global, width: isize, starred: bool) -> Made<ByteInnerPaddingOptions> {
    let mut star = None;
    if starred {
        star = Some(Vec::from_slice(alloc, b"*")?);
    }
    Ok(ByteInnerPaddingOptions {
        width,
        fillchar: star.map(value),
    })
}

/// The answer of one call.
fn add_width(
    case: &Case,
    method: Padding,
    options: &ByteInnerPaddingOptions,
    lender: &SnapList,
    tally: &mut Tally,
) -> Made<()> {
    let (alloc, text) = (case.alloc, case.text);
    match method {
        Padding::Center => tally.add(text.center(alloc, options, lender)),
        Padding::LeftJustify => tally.add(text.ljust(alloc, options, lender)),
        Padding::RightJustify => tally.add(text.rjust(alloc, options, lender)),
        Padding::ZeroFill => tally.add(text.zfill(alloc, options.width)),
    }
}

/// The answer by one width, with stars or with blanks.
fn add_padding(
    case: &Case,
    method: Padding,
    width: isize,
    starred: bool,
    tally: &mut Tally,
) -> Made<()> {
    let options = options_for(case.alloc, width, starred)?;
    add_width(case, method, &options, &SnapList::new(case.alloc), tally)
}

/// The answers of a method that pads, by each width, with blanks and with stars.
pub fn add_padded(case: &Case, method: Padding, tally: &mut Tally) -> Made<()> {
    for width in &WIDTHS {
        add_padding(case, method, *width, false, tally)?;
        add_padding(case, method, *width, true, tally)?;
    }
    Ok(())
}
