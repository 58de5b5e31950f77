//! The calls of `PyBytes` and of its iterator that no line of the program makes and no example shows.
use crate::answers::{Word, none, number, say, tell};
use pybuf_object::{PyBytes, PyBytesIterator};
use pybuf_value::Halt;
use std::alloc::Global;
use std::test::Fail;

/// As `memoryview(b)`, `memoryview(b)[1:3]`, `bytes(b)` and `iter(b)`, of which `__length_hint__` and `__setstate__` are
/// called.
fn call(object: &mut PyBytes, alloc: Global, told: &mut Vec<u8>) {
    let items = PyBytesIterator::of(0);
    tell(told, alloc, object.as_buffer(none(alloc)));
    tell(told, alloc, object.range(number(1), number(3), none(alloc)));
    tell(told, alloc, object.tobytes(none(alloc)));
    tell(told, alloc, object.exports(none(alloc)));
    tell(told, alloc, object.iter(none(alloc)));
    let state = object.state_mut();
    tell(told, alloc, items.next(alloc, state));
    tell(told, alloc, items.length_hint(alloc, state));
    tell(told, alloc, items.setstate(state, number(9), none(alloc)));
    tell(told, alloc, items.next(alloc, state));
}

/// As `b[::-2]` and the bytes of a copy.
fn copy(object: &PyBytes, alloc: Global, told: &mut Vec<u8>) -> Result<(), Halt> {
    let part = object.slice(alloc, None, None, Some(-2))?;
    say(told, Word::Bytes(part.as_slice()));
    let copy = object.try_clone(alloc)?;
    say(told, Word::Bytes(copy.as_slice()));
    Ok(())
}

/// As `b = b'abcab'` of Python 3.
#[test]
fn bytes_are_read_and_iterated(rt: HostRuntime) -> Result<(), Fail> {
    let alloc = rt.alloc();
    let mut told = Vec::new(alloc);
    let mut object = PyBytes::from_slice(alloc, b"abcab")?;
    call(&mut object, alloc, &mut told);
    let copied = copy(&object, alloc, &mut told);
    drop(object);
    copied?;
    assert_eq!(rt;
        told.as_slice(),
        b"view 0; view 1; b'abcab'; 2; iterator 0; 97; 4; ok; stop; b'bca'; b'abcab'".as_slice()
    );
    Ok(())
}
