//! Values as the methods of objects take them, and what they reply.

use crate::answers::{Answer, count_of, count_of_values};
use pybuf_command::LocalReply;
use pybuf_value::{Halt, Item, Made, PySlice, Scalar, Text, Value};
use std::alloc::Global;

/// A whole number.
pub fn number(number: usize) -> Value {
    Value::One(Scalar::Int(number as i128))
}

/// What the handle 0 names.
pub fn lent() -> Value {
    Value::One(Scalar::Handle(0))
}

/// The slice `start:stop:step`.
pub fn slice(start: Option<isize>, stop: Option<isize>, step: Option<isize>) -> Value {
    Value::Slice(PySlice::new(start, stop, step))
}

/// A text.
pub fn text(alloc: Global, text: &str) -> Made<Value> {
    let text = Text::from_str(alloc, text)?;
    Ok(Value::One(Scalar::Text(text)))
}

/// The answer that a reply is.
#[inline(always)]
pub fn answer_of(reply: Made<LocalReply>) -> Result<Answer, Halt> {
    match reply? {
        LocalReply::Ok => Ok(Answer::Nothing),
        LocalReply::Bytes(bytes) => Ok(Answer::Bytes(bytes.into_vec())),
        LocalReply::Truth(truth) => Ok(Answer::Number(truth as i128)),
        _ => Ok(Answer::Refused),
    }
}

/// Whether a reply says that it is done, and nothing else.
#[inline(always)]
pub fn is_done(reply: Made<LocalReply>) -> Made<bool> {
    let reply = reply?;
    Ok(matches!(reply, LocalReply::Ok))
}

/// What an item counts.
pub fn count_of_item(item: &Item) -> i128 {
    match item {
        Item::One(value) => count_of(value),
        Item::Many(values) => count_of_values(values.as_slice()),
    }
}

/// What the item of a reply counts.
#[inline(always)]
pub fn count_of_reply(reply: Made<LocalReply>) -> Made<i128> {
    let reply = reply?;
    match &reply {
        LocalReply::Item(item) => Ok(count_of_item(item)),
        _ => Ok(-1),
    }
}
