//! The traits of Rust that bytes and bytearrays have.
use crate::telling::{Told, same, tells};
use crate::values::none;
use pybuf::{PyByteArray, PyBytes};
use std::io::{ErrorKind, Read, Write};
use std::test::Fail;

#[test]
fn a_bytearray_is_a_queue(rt: HostRuntime) -> Result<(), Fail> {
    let mut queue = PyByteArray::new(rt.alloc());
    queue.write_all(b"abcd")?;
    let mut first = [0u8; 2];
    queue.read_exact(&mut first)?;
    same(&rt, &first, b"ab");
    tells(&rt, queue.as_buffer(none(rt.alloc())), Told::View(0));
    let lent = Err(ErrorKind::ResourceBusy);
    assert!(rt; queue.write(b"e").map_err(|error| error.kind()) == lent);
    same(&rt, queue.as_slice(), b"cd");
    Ok(())
}

#[test]
fn bytes_are_a_slice(rt: HostRuntime) -> Result<(), Fail> {
    let object = PyBytes::from(Vec::from_slice(rt.alloc(), b"adcb")?);
    assert!(rt; object[1] == b'd');
    same(&rt, &object[1..3], b"dc");
    Ok(())
}
