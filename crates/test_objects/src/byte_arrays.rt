//! The calls of `PyByteArray` and of its iterator that no line of the program makes and no example or benchmark shows.
use crate::answers::{Word, bytes, none, number, say, tell};
use pybuf_command::{MethodCall, MethodName};
use pybuf_object::{PyByteArray, PyByteArrayIterator};
use pybuf_value::{CompareOp, Fault, Halt, ValueList};
use std::alloc::Global;
use std::test::Fail;

fn read(object: &mut PyByteArray, alloc: Global, told: &mut Vec<u8>) {
    let name = MethodName::Upper;
    let args = ValueList::new(alloc);
    tell(
        told,
        alloc,
        object.call(MethodCall { name, args }, none(alloc)),
    );
    tell(
        told,
        alloc,
        object.cmp(CompareOp::Ne, bytes(alloc, b"abcab"), none(alloc)),
    );
    tell(told, alloc, object.contains(number(99), none(alloc)));
    tell(told, alloc, object.hash(none(alloc)));
    tell(told, alloc, object.len(none(alloc)));
    tell(told, alloc, object.repr_str(none(alloc)));
    tell(told, alloc, object.tobytes(none(alloc)));
    tell(told, alloc, object.exports(none(alloc)));
}

/// The iterator is set to the last byte.
fn edit(object: &mut PyByteArray, alloc: Global, told: &mut Vec<u8>) {
    let items = PyByteArrayIterator::of(0);
    tell(told, alloc, object.reverse(none(alloc)));
    tell(told, alloc, object.iadd(bytes(alloc, b"?"), none(alloc)));
    tell(told, alloc, object.imul(number(2), none(alloc)));
    say(told, Word::Bytes(object.borrow_buf()));
    tell(told, alloc, object.iter(none(alloc)));
    let state = object.state_mut();
    tell(told, alloc, items.setstate(state, number(11), none(alloc)));
    tell(told, alloc, items.length_hint(alloc, state));
}

/// As `b = bytearray(b'abcab')` of Python 3; its edits answer None, and `ok` here.
#[test]
fn a_bytearray_is_read_and_edited(rt: HostRuntime) -> Result<(), Fail> {
    let alloc = rt.alloc();
    let mut told = Vec::new(alloc);
    let mut object = PyByteArray::from_slice(alloc, b"abcab")?;
    read(&mut object, alloc, &mut told);
    edit(&mut object, alloc, &mut told);
    drop(object);
    assert_eq!(rt;
        told.as_slice(),
        b"b'ABCAB'; False; True; ! TypeError; 5; bytearray(b'abcab'); b'abcab'; 0; ok; ok; ok; b'bacba?bacba?'; iterator 0; ok; 1".as_slice()
    );
    Ok(())
}

/// As `a.insert(0, 33)`, `a.pop(-2)`, `a.pop(9)`, `a[1:]`, `del a[3:]`, `del a[:1]` and `a.clear()`, of which a copy is
/// made before it is cleared.
fn edit_plainly(array: &mut PyByteArray, alloc: Global, told: &mut Vec<u8>) -> Result<(), Halt> {
    array.insert_at(0, 33)?;
    say(told, Word::Count(array.remove_at(-2)? as usize));
    let refused = array.remove_at(9) == Err(Halt::Refused(Fault::Index));
    say(told, Word::Truth(refused));
    let part = array.slice(alloc, Some(1), None, None)?;
    say(told, Word::Bytes(part.as_slice()));
    array.truncate(3)?;
    array.drain_front(1)?;
    let copy = array.try_clone(alloc)?.into_vec()?;
    say(told, Word::Bytes(copy.as_slice()));
    array.clear_all()?;
    say(told, Word::Count(array.byte_count()));
    Ok(())
}

/// As `a = bytearray(b'abcd')` of Python 3.
#[test]
fn a_bytearray_is_edited_by_plain_calls(rt: HostRuntime) -> Result<(), Fail> {
    let alloc = rt.alloc();
    let mut told = Vec::new(alloc);
    let mut array = PyByteArray::from_slice(alloc, b"abcd")?;
    let done = edit_plainly(&mut array, alloc, &mut told);
    drop(array);
    done?;
    assert_eq!(rt; told.as_slice(), b"99; True; b'abd'; b'ab'; 0".as_slice());
    Ok(())
}
