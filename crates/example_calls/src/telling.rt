//! What the examples ask of answers.
//!
//! Each takes what it looks at, so that no example drops a reply at each place where it may stop; and values are
//! compared here, since each comparison in an example itself is proved anew.
use pybuf::{Fault, Halt, Item, LocalReply, Made, Reply, Scalar};
use std::process::Abort;

/// What is told by a reply that has no parts, as the examples compare it.
#[derive(Clone, Copy, PartialEq)]
pub(crate) enum Told {
    Done,
    Handle(u64),
    View(usize),
    Iterator(usize),
    Number(i128),
    Truth(bool),
    Stop,
    Refused(Fault),
    More,
}

fn told_by(reply: &LocalReply) -> Told {
    match reply {
        LocalReply::Ok => Told::Done,
        LocalReply::View(view) => Told::View(*view),
        LocalReply::Iter(iterator) => Told::Iterator(*iterator),
        LocalReply::Item(Item::One(Scalar::Int(number))) => Told::Number(*number),
        LocalReply::Item(Item::One(Scalar::Bool(truth))) => Told::Truth(*truth),
        LocalReply::Truth(truth) => Told::Truth(*truth),
        LocalReply::Stop => Told::Stop,
        LocalReply::Refused(fault) => Told::Refused(*fault),
        _ => Told::More,
    }
}

/// What an answer tells, and None for want of memory.
fn said(answer: Made<LocalReply>) -> Option<Told> {
    match answer {
        Ok(reply) => {
            let told = told_by(&reply);
            drop(reply);
            Some(told)
        }
        Err(_) => None,
    }
}

/// The answer tells this.
pub(crate) fn tells<R: Abort>(rt: &R, answer: Made<LocalReply>, wanted: Told) {
    let told = said(answer);
    assert!(*rt; told == Some(wanted));
}

fn heard_by(reply: &Reply) -> Told {
    match reply {
        Reply::Ok => Told::Done,
        Reply::Handle(handle) => Told::Handle(*handle),
        Reply::Item(Item::One(Scalar::Int(number))) => Told::Number(*number),
        Reply::Refused(fault) => Told::Refused(*fault),
        _ => Told::More,
    }
}

/// The reply of a world tells this.
pub(crate) fn hears<R: Abort>(rt: &R, reply: Option<&Reply>, wanted: Told) {
    let heard = reply.map(heard_by);
    assert!(*rt; heard == Some(wanted));
}

fn bytes_in(reply: &LocalReply) -> &[u8] {
    match reply {
        LocalReply::Bytes(bytes) => bytes.as_slice(),
        LocalReply::Text(text) | LocalReply::Shown(text) => text.as_slice(),
        _ => b"",
    }
}

fn has(answer: Made<LocalReply>, wanted: &[u8]) -> bool {
    match answer {
        Ok(reply) => {
            let has = bytes_in(&reply) == wanted;
            drop(reply);
            has
        }
        Err(_) => false,
    }
}

/// The answer has these bytes, or is this text.
pub(crate) fn gives<R: Abort>(rt: &R, answer: Made<LocalReply>, wanted: &[u8]) {
    let has = has(answer, wanted);
    assert!(*rt; has);
}

/// The call is refused so.
pub(crate) fn refuses<T: Drop, R: Abort>(rt: &R, answer: Result<T, Halt>, wanted: Fault) {
    let halt = answer.err();
    assert!(*rt; halt == Some(Halt::Refused(wanted)));
}

/// The bytes are these.
pub(crate) fn same<R: Abort>(rt: &R, bytes: &[u8], wanted: &[u8]) {
    assert!(*rt; bytes == wanted);
}

/// The value is this.
pub(crate) fn equal<T: PartialEq + Drop, R: Abort>(rt: &R, value: T, wanted: T) {
    assert!(*rt; value == wanted);
}
