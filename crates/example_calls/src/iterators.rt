//! Iterators of bytes, bytearrays and memoryviews.
use crate::telling::{Told, tells};
use crate::values::{int, none};
use pybuf::{Fault, PyByteArray, PyByteArrayIterator, PyMemoryView, PyMemoryViewIterator};
use std::test::Fail;

#[test]
fn bytes_are_iterated_while_they_are_added(rt: HostRuntime) -> Result<(), Fail> {
    let alloc = rt.alloc();
    let mut array = PyByteArray::from_slice(alloc, b"a")?;
    tells(&rt, array.iter(none(alloc)), Told::Iterator(0));
    let items = PyByteArrayIterator::of(0);
    tells(&rt, items.next(alloc, array.state_mut()), Told::Number(97));
    tells(&rt, array.append(int(98), none(alloc)), Told::Done);
    tells(&rt, items.next(alloc, array.state_mut()), Told::Number(98));
    tells(&rt, items.next(alloc, array.state_mut()), Told::Stop);
    tells(&rt, array.append(int(99), none(alloc)), Told::Done);
    tells(&rt, items.next(alloc, array.state_mut()), Told::Stop);
    let state = array.state_mut();
    let view = PyMemoryView::of_all(state)?;
    tells(&rt, view.iter(state, none(alloc)), Told::Iterator(1));
    let items = PyMemoryViewIterator::of(1);
    tells(&rt, items.next(alloc, state), Told::Number(97));
    tells(&rt, view.exit(state, none(alloc)), Told::Done);
    let refused = items.next(alloc, state);
    tells(&rt, refused, Told::Refused(Fault::Value));
    Ok(())
}
