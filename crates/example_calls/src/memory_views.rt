//! `PyMemoryView`, as Python's `memoryview`.
use crate::telling::{Told, gives, same, tells};
use crate::values::{every, int, none, text};
use pybuf::{Fault, Made, PyByteArray, PyMemoryView, Scalar, ScalarList, Value};
use std::alloc::Global;
use std::test::Fail;

#[test]
fn a_slice_of_a_view_shares_the_bytes(rt: HostRuntime) -> Result<(), Fail> {
    let alloc = rt.alloc();
    let mut array = PyByteArray::from_slice(alloc, b"abcdef")?;
    tells(&rt, array.as_buffer(none(alloc)), Told::View(0));
    let (state, view) = (array.state_mut(), PyMemoryView::of(0));
    let sliced = view.getitem(state, every(-2), none(alloc));
    tells(&rt, sliced, Told::View(1));
    let backwards = PyMemoryView::of(1);
    gives(&rt, backwards.tobytes(state, None, none(alloc)), b"fdb");
    let set = backwards.setitem(state, int(0), int(70), none(alloc));
    tells(&rt, set, Told::Done);
    same(&rt, state.bytes(), b"abcdeF");
    tells(&rt, backwards.exit(state, none(alloc)), Told::Done);
    let released = backwards.len(state, none(alloc));
    tells(&rt, released, Told::Refused(Fault::Value));
    Ok(())
}

/// The shape `(2, 3)` as a value.
fn two_by_three(alloc: Global) -> Made<Value> {
    let shape = [Scalar::Int(2), Scalar::Int(3)];
    Ok(Value::Tuple(ScalarList::from_slice(alloc, &shape)?))
}

#[test]
fn a_cast_has_a_shape(rt: HostRuntime) -> Result<(), Fail> {
    let alloc = rt.alloc();
    let mut array = PyByteArray::from_slice(alloc, b"abcdef")?;
    let state = array.state_mut();
    let view = PyMemoryView::of_all(state)?;
    let (format, shape) = (text(alloc, "B")?, two_by_three(alloc)?);
    let cast = view.cast(state, format, Some(shape), none(alloc));
    tells(&rt, cast, Told::View(1));
    let rows = PyMemoryView::of(1);
    tells(&rt, rows.len(state, none(alloc)), Told::Number(2));
    let turned = rows.getitem(state, every(-1), none(alloc));
    tells(&rt, turned, Told::View(2));
    let turned = PyMemoryView::of(2);
    gives(&rt, turned.tobytes(state, None, none(alloc)), b"defabc");
    Ok(())
}
