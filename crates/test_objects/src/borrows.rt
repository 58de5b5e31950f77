//! Arguments that are borrowed as bytes for a call: no line of the program borrows one.
use crate::answers::{Word, bytes, none, number, say, tell, text};
use pybuf_borrow::{
    ArgAsciiBuffer, ArgBytesLike, ArgMemoryBuffer, ArgStrOrBytesLike, try_bytes_like,
};
use pybuf_command::Subject;
use pybuf_exporter::ExporterState;
use pybuf_object::PyByteArray;
use pybuf_value::{Fault, Made, NoHandles, Outcome, Value};
use std::alloc::Global;
use std::test::Fail;

/// A number of bytes, or why there are none.
fn say_length(told: &mut Vec<u8>, length: Result<usize, Fault>) {
    match length {
        Ok(length) => say(told, Word::Count(length)),
        Err(fault) => say(told, Word::Fault(fault)),
    }
}

/// The number of bytes that are borrowed of a value, by both calls.
fn borrow(value: &Value, told: &mut Vec<u8>) {
    say_length(told, try_bytes_like(value, &NoHandles, |bytes| bytes.len()));
    if let Ok(argument) = ArgBytesLike::try_from_value(value, &NoHandles) {
        say(told, Word::Count(argument.with_ref(|bytes| bytes.len())));
    }
}

/// The bytes of a text or bytes, and what is borrowed of a copy of the value.
fn borrow_text(value: &Value, alloc: Global, told: &mut Vec<u8>) -> Made<()> {
    if let Outcome::Done(argument) = ArgStrOrBytesLike::try_from_value(alloc, value, &NoHandles)? {
        say(told, Word::Bytes(argument.borrow_bytes()));
        if let Ok(object) = argument.as_object(alloc) {
            borrow(&object, told);
            drop(object);
        }
    }
    Ok(())
}

/// The number of bytes of a text of ASCII or bytes.
fn borrow_ascii(value: &Value, alloc: Global, told: &mut Vec<u8>) -> Made<()> {
    match ArgAsciiBuffer::try_from_value(alloc, value, &NoHandles)? {
        Outcome::Done(argument) => say(told, Word::Count(argument.with_ref(|bytes| bytes.len()))),
        Outcome::Refused(fault) => say(told, Word::Fault(fault)),
    }
    Ok(())
}

fn borrow_by_each(value: Value, alloc: Global, told: &mut Vec<u8>) {
    borrow(&value, told);
    let _ = borrow_text(&value, alloc, told);
    let _ = borrow_ascii(&value, alloc, told);
    drop(value);
}

/// A text stands for its UTF-8, and where only ASCII is asked, no other text stands for bytes.
#[test]
fn values_are_borrowed_as_bytes(rt: HostRuntime) -> Result<(), Fail> {
    let alloc = rt.alloc();
    let mut told = Vec::new(alloc);
    borrow_by_each(text(alloc, "ab"), alloc, &mut told);
    borrow_by_each(text(alloc, "a\u{e9}"), alloc, &mut told);
    borrow_by_each(bytes(alloc, b"\xffc"), alloc, &mut told);
    assert_eq!(rt;
        told.as_slice(),
        b"TypeError; b'ab'; TypeError; 2; TypeError; b'a\\xc3\\xa9'; TypeError; ValueError; 2; 2; b'\\xffc'; 2; 2; 2".as_slice()
    );
    Ok(())
}

/// Turns the bytes of a subject round.
fn turn(state: &mut ExporterState, subject: Subject, told: &mut Vec<u8>) {
    match ArgMemoryBuffer::try_from_subject(state, subject) {
        Ok(mut borrow) => {
            borrow.borrow_buf_mut().reverse();
            say(told, Word::Count(borrow.with_ref(|bytes| bytes.len())));
        }
        Err(fault) => say(told, Word::Fault(fault)),
    }
}

/// As a view `m[1:4]` of `bytearray(b'abcdef')` whose bytes are turned round, and then all bytes.
#[test]
fn a_write_goes_to_the_borrowed_places(rt: HostRuntime) -> Result<(), Fail> {
    let alloc = rt.alloc();
    let mut told = Vec::new(alloc);
    let mut object = PyByteArray::from_slice(alloc, b"abcdef")?;
    tell(
        &mut told,
        alloc,
        object.range(number(1), number(4), none(alloc)),
    );
    let state = object.state_mut();
    turn(state, Subject::View(0), &mut told);
    say(&mut told, Word::Bytes(state.bytes()));
    turn(state, Subject::Own, &mut told);
    say(&mut told, Word::Bytes(state.bytes()));
    drop(object);
    assert_eq!(rt;
        told.as_slice(),
        b"view 0; 3; b'adcbef'; 6; b'febcda'".as_slice()
    );
    Ok(())
}
