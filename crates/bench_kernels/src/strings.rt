//! Methods of strings of bytes.
ghost use Rattle.std.specs.Prelude.{◌≤◌, length, IfSome};

use crate::answers::Answer;
use crate::data::{drawn, drawn_text, padded};
use crate::measuring::Kernel;
use crate::plan::Plan;
use bstr::ByteSlice;
use pybuf_bytes::{
    ByteInnerFindOptions, ByteInnerTranslateOptions, Needle, PyBytesInner, SplitArgs,
    SplitLinesArgs,
};
use pybuf_value::{ByteList, ByteLists, Halt, Made, Outcome, Scalar, SnapList, Value};
use std::alloc::Global;

/// A method, and what it is called with.
#[derive(Clone, Copy)]
pub enum Method {
    Find(&'static [u8]),
    /// `find` of the last 1,000 bytes.
    FindEnd,
    Count(&'static [u8]),
    /// `join` of the parts between commas.
    Join,
    /// `replace` of `ab`.
    Replace(&'static [u8]),
    /// `translate` by the table that maps each byte to what is missing of it to 255.
    Translate,
    SplitAtCommas,
    SplitAtBlanks,
    SplitLines,
    Upper,
    Strip,
    Hex,
    FromHex,
}

/// A method of a string of bytes, with a needle, what takes its place, and the parts between commas, where it is called
/// with these.
#[derive(Drop)]
pub struct Call {
    method: Method,
    text: PyBytesInner,
    needle: PyBytesInner,
    to: PyBytesInner,
    parts: ByteLists,
    table: ByteInnerTranslateOptions,
}

/// A string of these bytes.
fn inner(alloc: Global, bytes: &[u8]) -> Made<PyBytesInner> {
    Ok(PyBytesInner::from(Vec::from_slice(alloc, bytes)?))
}

/// A needle that is searched for everywhere.
fn everywhere(alloc: Global, needle: &PyBytesInner) -> Made<ByteInnerFindOptions> {
    Ok(ByteInnerFindOptions {
        sub: Needle::Bytes(inner(alloc, needle.as_bytes())?),
        start: None,
        end: None,
    })
}

/// The first place of a needle, of which `find` asks that it lies within the bytes.
fn first_place(bytes: &[u8], needle: &[u8]) -> Option<usize>
    ensures { IfSome result (λ place. place ≤ length bytes.now) }
{
    bytes.find(needle)
}

/// The place of a needle; -1 where it stands nowhere.
fn find(alloc: Global, text: &PyBytesInner, needle: &PyBytesInner) -> Result<Answer, Halt> {
    match text.find(alloc, everywhere(alloc, needle)?, first_place)? {
        Outcome::Done(Some(place)) => Ok(Answer::Number(place as i128)),
        Outcome::Done(None) => Ok(Answer::Number(-1)),
        Outcome::Refused(fault) => Err(Halt::Refused(fault)),
    }
}

/// The number of a needle's matches.
fn count(alloc: Global, text: &PyBytesInner, needle: &PyBytesInner) -> Result<Answer, Halt> {
    match text.count(alloc, everywhere(alloc, needle)?)? {
        Outcome::Done(number) => Ok(Answer::Number(number as i128)),
        Outcome::Refused(fault) => Err(Halt::Refused(fault)),
    }
}

/// The parts between separators, or between blanks.
fn split(alloc: Global, text: &PyBytesInner, sep: Option<PyBytesInner>) -> Result<ByteLists, Halt> {
    match text.split(alloc, SplitArgs { sep, maxsplit: -1 })? {
        Outcome::Done(parts) => Ok(parts),
        Outcome::Refused(fault) => Err(Halt::Refused(fault)),
    }
}

/// The parts between commas.
fn split_at_commas(alloc: Global, text: &PyBytesInner) -> Result<ByteLists, Halt> {
    let comma = inner(alloc, b",")?;
    split(alloc, text, Some(comma))
}

/// The digits.
fn hex(alloc: Global, text: &PyBytesInner) -> Result<Vec<u8>, Halt> {
    match text.hex(alloc, None, None)? {
        Outcome::Done(digits) => Ok(digits.into_string().into_bytes()),
        Outcome::Refused(fault) => Err(Halt::Refused(fault)),
    }
}

/// The table that maps each byte to what is missing of it to 255.
fn table(alloc: Global) -> Made<ByteInnerTranslateOptions> {
    let mut bytes = Vec::with_capacity(alloc, 256)?;
    for byte in 0..=255u8 {
        bytes.push(255 - byte)?;
    }
    Ok(ByteInnerTranslateOptions {
        table: Some(Value::One(Scalar::Bytes(ByteList::from_vec(bytes)))),
        delete: None,
    })
}

/// The digits of drawn bytes.
fn drawn_digits(alloc: Global, plan: Plan) -> Result<Vec<u8>, Halt> {
    let bytes = PyBytesInner::from(drawn(alloc, plan.seed, plan.size)?);
    hex(alloc, &bytes)
}

/// The bytes that a method is called on: a drawn text, drawn bytes, their digits, or bytes between blanks.
fn bytes_for(alloc: Global, plan: Plan, method: Method) -> Result<Vec<u8>, Halt> {
    match method {
        Method::Strip => Ok(padded(alloc, plan.size)?),
        Method::Hex => Ok(drawn(alloc, plan.seed, plan.size)?),
        Method::FromHex => drawn_digits(alloc, plan),
        _ => Ok(drawn_text(alloc, plan.seed, plan.size)?),
    }
}

/// What a method searches for in a text.
fn needle_for<'a>(method: Method, text: &'a [u8]) -> &'a [u8] {
    match method {
        Method::Find(needle) | Method::Count(needle) => needle,
        Method::FindEnd => text.get(text.len().saturating_sub(1_000)..).unwrap_or(b""),
        Method::Join => b", ",
        _ => b"ab",
    }
}

/// What stands in place of a match.
fn replacement_for(method: Method) -> &'static [u8] {
    match method {
        Method::Replace(to) => to,
        _ => b"",
    }
}

/// The parts that a method joins.
fn parts_for(alloc: Global, text: &PyBytesInner, method: Method) -> Result<ByteLists, Halt> {
    match method {
        Method::Join => split_at_commas(alloc, text),
        _ => Ok(ByteLists::new(alloc)),
    }
}

impl Call {
    /// A method, on what it is called on.
    pub fn of(alloc: Global, plan: Plan, method: Method) -> Result<Call, Halt> {
        let text = PyBytesInner::from(bytes_for(alloc, plan, method)?);
        let needle = inner(alloc, needle_for(method, text.as_bytes()))?;
        let to = inner(alloc, replacement_for(method))?;
        let parts = parts_for(alloc, &text, method)?;
        let table = table(alloc)?;
        Ok(Call {
            method,
            text,
            needle,
            to,
            parts,
            table,
        })
    }
}

fn split_answer(parts: Result<ByteLists, Halt>) -> Result<Answer, Halt> {
    Ok(Answer::Parts(parts?))
}

fn split_lines(alloc: Global, text: &PyBytesInner) -> Result<Answer, Halt> {
    let lines = text.splitlines(alloc, SplitLinesArgs { keepends: false })?;
    Ok(Answer::Parts(lines))
}

fn hex_answer(alloc: Global, text: &PyBytesInner) -> Result<Answer, Halt> {
    let digits = hex(alloc, text)?;
    Ok(Answer::Bytes(digits))
}

fn made(bytes: Made<Vec<u8>>) -> Result<Answer, Halt> {
    let bytes = bytes?;
    Ok(Answer::Bytes(bytes))
}

impl Kernel for Call {
    fn call(&mut self, alloc: Global) -> Result<Answer, Halt> {
        let text = &self.text;
        match self.method {
            Method::Find(_) | Method::FindEnd => find(alloc, text, &self.needle),
            Method::Count(_) => count(alloc, text, &self.needle),
            Method::Join => Answer::of_bytes(self.needle.join(alloc, &self.parts)),
            Method::Replace(_) => {
                Answer::of_bytes(text.replace(alloc, &self.needle, &self.to, None))
            }
            Method::Translate => {
                Answer::of_bytes(text.translate(alloc, &self.table, &SnapList::new(alloc)))
            }
            Method::SplitAtCommas => split_answer(split_at_commas(alloc, text)),
            Method::SplitAtBlanks => split_answer(split(alloc, text, None)),
            Method::SplitLines => split_lines(alloc, text),
            Method::Upper => made(text.upper(alloc)),
            Method::Strip => made(text.strip(alloc, None)),
            Method::Hex => hex_answer(alloc, text),
            Method::FromHex => Answer::of_bytes(PyBytesInner::fromhex(alloc, text.as_bytes())),
        }
    }
}
