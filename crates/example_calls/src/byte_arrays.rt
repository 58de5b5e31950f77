//! `PyByteArray`, as Python's `bytearray`.
use crate::telling::{Told, equal, refuses, same, tells};
use crate::values::{bytes, int, none, part};
use pybuf::{ExporterKind, Fault, PyByteArray};
use std::test::Fail;

#[test]
fn a_bytearray_is_edited(rt: HostRuntime) -> Result<(), Fail> {
    let alloc = rt.alloc();
    let three = bytes(alloc, b"XYZ")?;
    let mut array = PyByteArray::from_slice(alloc, b"abc")?;
    tells(&rt, array.append(int(100), none(alloc)), Told::Done);
    let set = array.setitem(part(0, 2), three, none(alloc));
    tells(&rt, set, Told::Done);
    tells(&rt, array.delitem(int(-1), none(alloc)), Told::Done);
    tells(&rt, array.insert(int(0), int(33), none(alloc)), Told::Done);
    tells(&rt, array.pop(None, none(alloc)), Told::Number(99));
    same(&rt, array.borrow_buf(), b"!XYZ");
    let refused = Told::Refused(Fault::Value);
    tells(&rt, array.append(int(256), none(alloc)), refused);
    Ok(())
}

/// Adds a line feed where no view is unreleased.
fn end_line(array: &mut PyByteArray) -> Result<bool, Fail> {
    if array.state().kind() != ExporterKind::ByteArray {
        return Ok(false);
    }
    match array.try_resizable() {
        Ok(bytes) => {
            bytes.push(b'\n')?;
            Ok(true)
        }
        Err(_) => Ok(false),
    }
}

#[test]
fn plain_edits_wait_for_views(rt: HostRuntime) -> Result<(), Fail> {
    let alloc = rt.alloc();
    let mut array = PyByteArray::from_slice(alloc, b"abc")?;
    tells(&rt, array.as_buffer(none(alloc)), Told::View(0));
    refuses(&rt, array.push(100), Fault::Buffer);
    array.set(0, b'A')?;
    equal(&rt, array.state_mut().release_view(0), Ok(()));
    array.push(100)?;
    equal(&rt, array.pop_last()?, Some(100));
    same(&rt, array.as_slice(), b"Abc");
    equal(&rt, end_line(&mut array)?, true);
    same(&rt, array.as_slice(), b"Abc\n");
    Ok(())
}
