//! `PyArray`: numbers of one size, as Python's `array`.
use crate::telling::{equal, refuses};
use pybuf::{Fault, Halt, PySlice};
use pybuf_array::{ArrayCode, PyArray};
use std::process::Abort;
use std::test::Fail;

/// Shares numbers with a slice of a view, and adds and takes others.
fn share_numbers<R: Abort>(rt: &R, array: &mut PyArray) -> Result<(), Halt> {
    array.extend(&[1, -2, 3])?;
    let all = array.view()?;
    let last = array.vslice(all, &PySlice::from(1..))?;
    array.vset(last, 0, 20)?;
    equal(rt, array.get(1)?, 20);
    refuses(rt, array.append(4), Fault::Buffer);
    array.release(all)?;
    array.release(last)?;
    refuses(rt, array.append(40_000), Fault::Overflow);
    equal(rt, array.pop(None)?, 3);
    Ok(())
}

#[test]
fn a_slice_shares_the_numbers_of_an_array(rt: HostRuntime) -> Result<(), Fail> {
    let mut array = PyArray::new(rt.alloc(), ArrayCode::Short);
    share_numbers(&rt, &mut array)?;
    assert!(rt; array.numbers()?.as_slice() == [1, 20].as_slice());
    Ok(())
}
