//! Methods that take a needle.
ghost use Rattle.std.specs.Prelude.{◌≤◌, length, IfSome};

use crate::tally::Tally;
use crate::texts::{Case, string, value};
use bstr::ByteSlice;
use pybuf_bytes::{
    ByteInnerFindOptions, Needle, PyBytesInner, StartsEndsWithArgs, endswith, startswith,
};
use pybuf_value::{ByteList, ByteLists, Made, Outcome, SnapList, Tried};
use std::alloc::Global;

/// Methods that take a needle and bounds.
#[derive(Clone, Copy)]
pub enum Bounded {
    Find,
    RightFind,
    Count,
    StartsWith,
    EndsWith,
}

/// The bounds that are tried, each as a start and as an end.
const BOUNDS: [Option<i128>; 16] = [
    None,
    Some(-7),
    Some(-6),
    Some(-5),
    Some(-4),
    Some(-3),
    Some(-2),
    Some(-1),
    Some(0),
    Some(1),
    Some(2),
    Some(3),
    Some(4),
    Some(5),
    Some(6),
    Some(7),
];

/// What stands between two bounds, of which the second may be none.
type Bounds = (Option<i128>, Option<i128>);

/// What is searched for, and where.
fn options(alloc: Global, needle: &[u8], bounds: Bounds) -> Made<ByteInnerFindOptions> {
    let sub = Needle::Bytes(string(alloc, needle)?);
    let (start, end) = bounds;
    Ok(ByteInnerFindOptions { sub, start, end })
}

/// What a text begins or ends with, and where.
fn affix(alloc: Global, needle: &[u8], bounds: Bounds) -> Made<StartsEndsWithArgs> {
    let needle = Vec::from_slice(alloc, needle)?;
    let (start, end) = bounds;
    Ok(StartsEndsWithArgs {
        affix: value(needle),
        start,
        end,
    })
}

/// The first place of a needle.
fn first_place(bytes: &[u8], needle: &[u8]) -> Option<usize>
    ensures { IfSome result (λ place. place ≤ length bytes.now) }
{
    bytes.find(needle)
}

/// The last place of a needle.
fn last_place(bytes: &[u8], needle: &[u8]) -> Option<usize>
    ensures { IfSome result (λ place. place ≤ length bytes.now) }
{
    bytes.rfind(needle)
}

/// Whether a text begins with an affix, or ends with it.
fn stands_at(case: &Case, args: &StartsEndsWithArgs, at_end: bool) -> Tried<bool> {
    let (alloc, text) = (case.alloc, case.text.as_bytes());
    let lender = SnapList::new(alloc);
    if at_end {
        endswith(alloc, text, args, &lender)
    } else {
        startswith(alloc, text, args, &lender)
    }
}

/// Whether a text begins with the needle, or ends with it.
fn stands_between(case: &Case, bounds: Bounds, at_end: bool) -> Tried<bool> {
    let args = affix(case.alloc, case.needle.as_bytes(), bounds)?;
    stands_at(case, &args, at_end)
}

/// The answer of one call.
fn add_between(case: &Case, method: Bounded, bounds: Bounds, tally: &mut Tally) -> Made<()> {
    let (alloc, text, needle) = (case.alloc, case.text, case.needle.as_bytes());
    match method {
        Bounded::Find => {
            tally.add(text.find(alloc, options(alloc, needle, bounds)?, first_place))
        }
        Bounded::RightFind => {
            tally.add(text.find(alloc, options(alloc, needle, bounds)?, last_place))
        }
        Bounded::Count => tally.add(text.count(alloc, options(alloc, needle, bounds)?)),
        Bounded::StartsWith => tally.add(stands_between(case, bounds, false)),
        Bounded::EndsWith => tally.add(stands_between(case, bounds, true)),
    }
}

/// The answers between each two bounds.
pub fn add_bounded(case: &Case, method: Bounded, tally: &mut Tally) -> Made<()> {
    for start in &BOUNDS {
        for end in &BOUNDS {
            add_between(case, method, (*start, *end), tally)?;
        }
    }
    Ok(())
}

/// Methods that take a needle alone.
#[derive(Clone, Copy)]
pub enum Plain {
    Contains,
    Add,
    Concat,
    Join,
    Strip,
    LeftStrip,
    RightStrip,
    RemovePrefix,
    RemoveSuffix,
    Partition,
    RightPartition,
}

/// Whether bytes are found, or the refusal to look for them.
pub fn found(text: &PyBytesInner, needle: &Needle) -> Outcome<bool> {
    match text.contains(needle) {
        Ok(truth) => Outcome::Done(truth),
        Err(fault) => Outcome::Refused(fault),
    }
}

/// The parts of a partition from the right, which come from the last to the first, in order.
fn turned(parts: Tried<(Vec<u8>, bool, Vec<u8>)>) -> Tried<(Vec<u8>, bool, Vec<u8>)> {
    match parts? {
        Outcome::Done((last, found, first)) => Ok(Outcome::Done((first, found, last))),
        Outcome::Refused(fault) => Ok(Outcome::Refused(fault)),
    }
}

/// The bytes of a text, each as a list of its own.
fn bytes_apart(alloc: Global, text: &PyBytesInner) -> Made<ByteLists> {
    let mut lists = ByteLists::new(alloc);
    for byte in text.as_bytes() {
        let list = ByteList::from_vec(Vec::from_slice(alloc, &[*byte])?);
        lists.push(list)?;
    }
    Ok(lists)
}

/// The needle between the bytes of a text.
fn joined(case: &Case) -> Tried<Vec<u8>> {
    let parts = bytes_apart(case.alloc, case.text)?;
    case.needle.join(case.alloc, &parts)
}

/// The needle, as a value, behind a text.
fn concatenated(case: &Case) -> Tried<Vec<u8>> {
    let needle = Vec::from_slice(case.alloc, case.needle.as_bytes())?;
    case.text
        .concat(case.alloc, &value(needle), &SnapList::new(case.alloc))
}

/// The answer of one call.
pub fn add_plain(case: &Case, method: Plain, tally: &mut Tally) -> Made<()> {
    let (alloc, text, needle) = (case.alloc, case.text, case.needle);
    match method {
        Plain::Contains => {
            let needle = Needle::Bytes(string(alloc, needle.as_bytes())?);
            tally.add(Ok(found(text, &needle)))
        }
        Plain::Add => tally.add(text.add(alloc, needle.as_bytes())),
        Plain::Concat => tally.add(concatenated(case)),
        Plain::Join => tally.add(joined(case)),
        Plain::Strip => tally.add(text.strip(alloc, Some(needle))),
        Plain::LeftStrip => tally.add(Ok(text.lstrip(Some(needle)))),
        Plain::RightStrip => tally.add(Ok(text.rstrip(Some(needle)))),
        Plain::RemovePrefix => tally.add(text.removeprefix(alloc, needle)),
        Plain::RemoveSuffix => tally.add(text.removesuffix(alloc, needle)),
        Plain::Partition => tally.add(text.partition(alloc, needle)),
        Plain::RightPartition => tally.add(turned(text.rpartition(alloc, needle))),
    }
}
