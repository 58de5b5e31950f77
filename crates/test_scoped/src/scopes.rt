//! Views that end with their scope.
use pybuf_object::PyByteArray;
use pybuf_scoped::{Scoped, Stop, View, ViewGroup};
use pybuf_value::{Fault, Halt, Item, PySlice, Scalar};
use std::alloc::Global;
use std::process::Abort;
use std::test::Fail;

/// The number that an item is, and -1 for what is no number.
fn number_of(item: &Item) -> i128 {
    match item {
        Item::One(Scalar::Int(number)) => *number,
        _ => -1,
    }
}

/// The item is this number.
fn is<R: Abort>(rt: &R, answer: Result<Item, Stop>, wanted: i128) {
    let number = match answer {
        Ok(item) => {
            let number = number_of(&item);
            drop(item);
            number
        }
        Err(_) => -2,
    };
    assert!(*rt; number == wanted);
}

/// The call is refused so.
fn refuses<T: Drop, R: Abort>(rt: &R, answer: Result<T, Stop>, wanted: Fault) {
    let fault = answer.err().and_then(|stop| stop.fault());
    assert!(*rt; fault == Some(wanted));
}

/// Python: `view = memoryview(array); tail = view[1:]; tail[-1] = 70; words = view.cast("H"); words[0] = 513`.
fn write_by_views<R: Abort>(rt: &R, array: &mut PyByteArray) -> Result<(), Halt> {
    let mut view = View::of(array)?;
    {
        let mut tail = view.slice(1..)?;
        tail.set(-1, 70)?;
        is(rt, tail.get(0), 98);
        refuses(rt, tail.get(5), Fault::Index);
        refuses(
            rt,
            tail.slice(PySlice::new(None, None, Some(0))),
            Fault::Value,
        );
    }
    {
        let mut words = view.cast("H")?;
        words.set(0, 513)?;
        refuses(rt, words.set(0, 65_536), Fault::Kind);
        is(rt, words.get(1), 25699);
    }
    view.assign(2..4, b"xy")?;
    is(rt, view.get(0), 1);
    Ok(())
}

/// Python: `all = memoryview(array); words = all.cast("H"); tail = all[2:]; all[0] = 5`.
fn write_by_group<R: Abort>(rt: &R, array: &mut PyByteArray) -> Result<(), Halt> {
    let mut group = ViewGroup::of(array);
    let all = group.view()?;
    let words = group.cast(&all, "H")?;
    let tail = group.slice(&all, 2..)?;
    group.set(&all, 0, 5)?;
    is(rt, group.get(&words, 0), 517);
    group.set(&words, 1, 513)?;
    is(rt, group.get(&tail, 0), 1);
    refuses(rt, group.set(&tail, 9, 0), Fault::Index);
    Ok(())
}

#[test]
fn a_bytearray_is_resized_after_its_views(rt: HostRuntime) -> Result<(), Fail> {
    let mut array = PyByteArray::from_slice(rt.alloc(), b"abcdef")?;
    write_by_views(&rt, &mut array)?;
    array.push(33)?;
    assert!(rt; array.as_slice() == b"\x01\x02xyeF!".as_slice());
    Ok(())
}

#[test]
fn a_group_shares_its_bytes(rt: HostRuntime) -> Result<(), Fail> {
    let mut array = PyByteArray::from_slice(rt.alloc(), b"\x01\x02\x03\x04")?;
    write_by_group(&rt, &mut array)?;
    array.push(33)?;
    assert!(rt; array.as_slice() == b"\x05\x02\x01\x02!".as_slice());
    Ok(())
}

/// The sentences of refusals, a line each.
fn tell_refusals(alloc: Global, array: &mut PyByteArray, told: &mut Vec<u8>) -> Result<(), Halt> {
    let mut view = View::of(array)?;
    tell(alloc, told, view.get(7).err())?;
    tell(alloc, told, view.set(0, 256).err())?;
    tell(alloc, told, view.assign(0..2, b"x").err())?;
    Ok(())
}

fn tell(alloc: Global, told: &mut Vec<u8>, stop: Option<Stop>) -> Result<(), Halt> {
    if let Some(stop) = stop {
        let text = stop.to_string(alloc)?;
        told.extend_from_slice(text.as_bytes())?;
        told.push(b'\n')?;
    }
    Ok(())
}

#[test]
fn a_refusal_tells_its_cause(rt: HostRuntime) -> Result<(), Fail> {
    let mut array = PyByteArray::from_slice(rt.alloc(), b"abc")?;
    let mut told = Vec::new(rt.alloc());
    tell_refusals(rt.alloc(), &mut array, &mut told)?;
    let wanted = concat!(
        "the item at index 7 of 3 can't be read, since there is no such item\n",
        "the number 256 can't be written at index 0 of 3, since the view may only be read, or has no dimension, or its format doesn't take the number\n",
        "bytes of length 1 can't be written over this slice of a view of length 3, since the step is 0, the items aren't single bytes, or the slice picks another number of them\n",
    );
    assert!(rt; told.as_slice() == wanted.as_bytes());
    Ok(())
}

/// A number, a line each.
fn tell_number(alloc: Global, told: &mut Vec<u8>, number: usize) -> Result<(), Halt> {
    let text = number.to_string(alloc)?;
    told.extend_from_slice(text.as_bytes())?;
    told.push(b'\n')?;
    Ok(())
}

/// Python: `content = view.tobytes()`, and then its methods.
fn tell_contents(alloc: Global, array: &mut PyByteArray, told: &mut Vec<u8>) -> Result<(), Halt> {
    let view = array.view()?;
    tell_number(alloc, told, view.find(alloc, b"lo")?.unwrap_or(99))?;
    tell_number(alloc, told, view.count(alloc, b"l")?)?;
    told.extend_from_slice(view.replace(alloc, b"l", b"LL", 2)?.as_slice())?;
    told.extend_from_slice(view.strip(Some(b" "))?)?;
    told.extend_from_slice(view.hex(alloc, Some(b":"), -4)?.as_slice())?;
    let parts = view.split(alloc, None, -1)?;
    tell_number(alloc, told, parts.len())?;
    tell(alloc, told, view.split(alloc, Some(b""), -1).err())?;
    Ok(())
}

#[test]
fn a_view_is_searched(rt: HostRuntime) -> Result<(), Fail> {
    let mut array = PyByteArray::from_slice(rt.alloc(), b" hello world ")?;
    let mut told = Vec::new(rt.alloc());
    tell_contents(rt.alloc(), &mut array, &mut told)?;
    let wanted = concat!(
        "4\n3\n heLLLLo world hello world2068656c:6c6f2077:6f726c64:20",
        "2\nthe bytes of the view can't be split, since the separator has no bytes\n",
    );
    assert!(rt; told.as_slice() == wanted.as_bytes());
    Ok(())
}

/// Python: `back = memoryview(array)[::-2]; front = memoryview(array)[:3]; front[:] = back`.
fn copy_apart<R: Abort>(rt: &R, alloc: Global, array: &mut PyByteArray) -> Result<(), Halt> {
    let mut group = array.views();
    let whole = group.view()?;
    let back = group.slice(&whole, PySlice::new(None, None, Some(-2)))?;
    assert!(*rt; group.equals(alloc, &back, b"fdb")?);
    assert!(*rt; group.find(alloc, &back, b"db")? == Some(1));
    refuses(rt, group.strip(&back, None), Fault::Kind);
    group.assign_from(&whole, 0..3, &back)?;
    refuses(rt, group.assign_from(&whole, 0..2, &back), Fault::Value);
    Ok(())
}

/// Python: `memoryview(array)[3:] = memoryview(source)`.
fn copy_across(array: &mut PyByteArray, source: &mut PyByteArray) -> Result<(), Halt> {
    let other = source.view()?;
    let mut view = array.view()?;
    view.assign_from(3.., &other)?;
    Ok(())
}

#[test]
fn items_go_from_a_view_to_a_view(rt: HostRuntime) -> Result<(), Fail> {
    let mut array = PyByteArray::from_slice(rt.alloc(), b"abcdef")?;
    copy_apart(&rt, rt.alloc(), &mut array)?;
    let mut source = PyByteArray::from_slice(rt.alloc(), b"XYZ")?;
    copy_across(&mut array, &mut source)?;
    assert!(rt; array.as_slice() == b"fdbXYZ".as_slice());
    Ok(())
}
