//! `PyMemoryView` by plain arguments.
use crate::telling::{refuses, same};
use pybuf::{ExporterState, Fault, Halt, PyByteArray, PyMemoryView, PySlice};
use std::test::Fail;

#[test]
fn a_slice_of_a_view_is_read(rt: HostRuntime) -> Result<(), Fail> {
    let alloc = rt.alloc();
    let mut array = PyByteArray::from_slice(alloc, b"abcdef")?;
    let state = array.state_mut();
    let view = PyMemoryView::of_all(state)?;
    let part = view.slice(state, 1..4)?;
    same(&rt, part.to_vec(state)?.as_slice(), b"bcd");
    let backwards = view.slice(state, PySlice::new(None, None, Some(-2)))?;
    same(&rt, backwards.to_vec(state)?.as_slice(), b"fdb");
    Ok(())
}

#[test]
fn items_are_read_and_written(rt: HostRuntime) -> Result<(), Fail> {
    let alloc = rt.alloc();
    let mut array = PyByteArray::from_slice(alloc, b"\x01\x00\x02\x00\x03\x00")?;
    let state = array.state_mut();
    let numbers = PyMemoryView::of_all(state)?.cast_to(state, "H")?;
    assert!(rt; numbers.index(state, -1)?.number() == Some(3));
    numbers.set(state, 1, 513)?;
    let refused = numbers.set(state, 1, 65_536);
    assert!(rt; refused == Err(Halt::Refused(Fault::Kind)));
    refuses(&rt, numbers.index(state, 3), Fault::Index);
    same(&rt, state.bytes(), b"\x01\x00\x01\x02\x03\x00");
    numbers.try_release(state)?;
    refuses(&rt, numbers.to_vec(state), Fault::Value);
    Ok(())
}

/// Copies over items of the one: bytes, then the last items of the other, and then its own backwards.
fn assign(state: &mut ExporterState, other: &mut ExporterState) -> Result<(), Halt> {
    let view = PyMemoryView::of_all(state)?;
    let last = PyMemoryView::of_all(other)?.slice(other, 3..)?;
    view.assign(state, 0..2, b"12")?;
    view.assign_from(state, 3.., other, &last)?;
    view.assign_within(state, PySlice::new(None, None, Some(-1)), &view)
}

#[test]
fn items_of_a_view_are_assigned(rt: HostRuntime) -> Result<(), Fail> {
    let alloc = rt.alloc();
    let mut array = PyByteArray::from_slice(alloc, b"abcdef")?;
    let mut other = PyByteArray::from_slice(alloc, b"UVWXYZ")?;
    assign(array.state_mut(), other.state_mut())?;
    same(&rt, array.as_slice(), b"ZYXc21");
    Ok(())
}

#[test]
fn a_view_has_rows(rt: HostRuntime) -> Result<(), Fail> {
    let alloc = rt.alloc();
    let mut array = PyByteArray::from_slice(alloc, b"abcdef")?;
    let state = array.state_mut();
    let rows = PyMemoryView::of_all(state)?.cast_shape(state, "B", &[2, 3])?;
    assert!(rt; rows.shape_vec(state)?.as_slice() == [2usize, 3].as_slice());
    assert!(rt; rows.strides_vec(state)?.as_slice() == [3isize, 1].as_slice());
    Ok(())
}
