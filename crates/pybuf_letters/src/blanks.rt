//! Bytes cut at their blanks.
ghost use Rattle.std.specs.Prelude.{◌≡◌, ◌≤◌, ◌-◌, ◌++◌, length, map, reverse, not, IfOk};
ghost use Rattle.std.specs.List.{position_or_len, suffix_len};
ghost use Rattle.pybuf_letters.specs.Blanks as spec;
ghost use Rattle.pybuf_letters.specs.Classes.{is_blank};

use crate::parts::push_part;
use crate::strips::{blanks, strip_left, strip_right};
use bstr::ByteSlice;
use pybuf_value::{ByteList, ByteLists, Made};
use std::alloc::Global;

/// Where the first blank stands, or the number of bytes.
fn run_end(bytes: &[u8]) -> usize
    ensures value { result ≡ position_or_len is_blank bytes.now }
    ensures inside { result ≤ length bytes.now }
{
    match bytes.find_byteset(blanks()) {
        None => bytes.len(),
        Some(end) => end,
    }
}

/// Where the run begins that the bytes end with: after the last blank, or at 0.
fn run_start(bytes: &[u8]) -> usize
    ensures value { result ≡ length bytes.now - suffix_len (λ b. not (is_blank b)) bytes.now }
    ensures inside { result ≤ length bytes.now }
{
    match bytes.rfind_byteset(blanks()) {
        None => 0,
        Some(blank) => blank + 1,
    }
}

/// The parts, and then what is left, if it isn't nothing.
fn with_rest(alloc: Global, mut parts: Vec<ByteList>, rest: &[u8]) -> Made<ByteLists>
    ensures { IfOk result (λ made. made ≡ parts.items ++ spec.part_if_any rest.now) }
{
    if rest.is_empty() {
        return Ok(ByteLists::from_vec(parts));
    }
    push_part(alloc, &mut parts, rest)?;
    Ok(ByteLists::from_vec(parts))
}

/// So many runs, and then the rest.
fn cut_from_left(alloc: Global, bytes: &[u8], cuts: usize) -> Made<ByteLists>
    ensures { IfOk result (λ parts. parts ≡ spec.runs_up_to cuts bytes.now) }
{
    let mut parts = Vec::new(alloc);
    let mut rest = strip_left(bytes, None);
    for _ in 0..cuts {
        if rest.is_empty() {
            return Ok(ByteLists::from_vec(parts));
        }
        let end = run_end(rest);
        push_part(alloc, &mut parts, &rest[..end])?;
        rest = strip_left(&rest[end..], None);
    }
    with_rest(alloc, parts, rest)
}

/// So many runs from the end, the last first, and then the rest.
fn cut_from_right(alloc: Global, bytes: &[u8], cuts: usize) -> Made<ByteLists>
    ensures { IfOk result (λ parts. parts ≡ map reverse (spec.runs_up_to cuts (reverse bytes.now))) }
{
    let mut parts = Vec::new(alloc);
    let mut rest = strip_right(bytes, None);
    for _ in 0..cuts {
        if rest.is_empty() {
            return Ok(ByteLists::from_vec(parts));
        }
        let start = run_start(rest);
        push_part(alloc, &mut parts, &rest[start..])?;
        rest = strip_right(&rest[..start], None);
    }
    with_rest(alloc, parts, rest)
}

/// The parts between runs of blanks, as of Python's `bytes.split()` without a separator (Library
/// reference, "Bytes and Bytearray Operations"): none is empty, and after `max` parts the rest from
/// the next part on, with the blanks at its end, is the last. A negative `max` is no bound: there are
/// no more parts than bytes.
///
/// Example: `split_at_blanks(alloc, b" a b c ", 1)` gives `b"a"` and `b"b c "`.
pub fn split_at_blanks(alloc: Global, bytes: &[u8], max: isize) -> Made<ByteLists>
    ensures { IfOk result (λ parts. parts ≡ spec.blank_parts max bytes.now) }
{
    if max < 0 {
        return cut_from_left(alloc, bytes, bytes.len());
    }
    cut_from_left(alloc, bytes, max as usize)
}

/// The parts between runs of blanks from the last to the first, cut from the right: none is empty, and
/// after `max` parts the rest up to the next part, with the blanks at its beginning, is the last of the
/// list. A negative `max` is no bound.
///
/// Example: `blank_parts_from_last(alloc, b" a b c ", 1)` gives `b"c"` and `b" a b"`.
pub fn blank_parts_from_last(alloc: Global, bytes: &[u8], max: isize) -> Made<ByteLists>
    ensures { IfOk result (λ parts. parts ≡ spec.blank_parts_from_last max bytes.now) }
{
    if max < 0 {
        return cut_from_right(alloc, bytes, bytes.len());
    }
    cut_from_right(alloc, bytes, max as usize)
}

/// The parts between runs of blanks cut from the right, in the order of the bytes, as of Python's
/// `bytes.rsplit()` without a separator (Library reference, "Bytes and Bytearray Operations"): none is
/// empty, and after `max` parts from the right the rest, with the blanks at its beginning, is the first
/// of the list. A negative `max` is no bound.
///
/// Example: `rsplit_at_blanks(alloc, b" a b c ", 1)` gives `b" a b"` and `b"c"`.
pub fn rsplit_at_blanks(alloc: Global, bytes: &[u8], max: isize) -> Made<ByteLists>
    ensures { IfOk result (λ parts. parts ≡ spec.blank_rparts max bytes.now) }
{
    let mut parts = blank_parts_from_last(alloc, bytes, max)?.into_vec();
    parts.reverse();
    Ok(ByteLists::from_vec(parts))
}
