//! `PyBuffer`, `VecBuffer`, and bytes that are borrowed for a call.
use crate::telling::{Told, equal, same, tells};
use crate::values::{bytes, int, none};
use pybuf::{
    Answer, ArgBytesLike, ArgMemoryBuffer, BufferDescriptor, DimList, ExporterKind, Fault,
    PyBuffer, PyByteArray, PyMemoryView, SnapList, Subject, Text, VecBuffer, try_rw_bytes_like,
};
use std::alloc::Global;
use std::test::Fail;

#[test]
fn a_buffer_lends_the_bytes_of_a_view(rt: HostRuntime) -> Result<(), Fail> {
    let alloc = rt.alloc();
    let mut copied = Vec::new(alloc);
    let mut array = PyByteArray::from_slice(alloc, b"abc")?;
    tells(&rt, array.as_buffer(none(alloc)), Told::View(0));
    let buffer = PyBuffer::of(0);
    let state = array.state_mut();
    assert!(rt; buffer.is_live(state));
    let lent = buffer.as_contiguous(state).unwrap_or(b"".as_slice());
    same(&rt, lent, b"abc");
    buffer.append_uncounted(state, &mut copied)?;
    same(&rt, copied.as_slice(), b"abc");
    Ok(())
}

#[test]
fn a_field_behind_a_header_is_written(rt: HostRuntime) -> Result<(), Fail> {
    let alloc = rt.alloc();
    let mut array = PyByteArray::from_slice(alloc, b"HD\x01\x05\0\x02\x06\0")?;
    let state = array.state_mut();
    let format = Text::from_str(alloc, "<H")?;
    let dims = DimList::from_slice(alloc, &[(2, 3, 0)])?;
    let descriptor = BufferDescriptor::raw(4, false, 2, format, dims);
    let numbers = PyBuffer::new(alloc, state, descriptor, 3).done()?;
    PyMemoryView::of(numbers.number()).set(state, 1, 258)?;
    same(&rt, state.bytes(), b"HD\x01\x05\0\x02\x02\x01");
    Ok(())
}

/// Lends a vector's bytes, and tries to take them out before and after the loan ends.
fn lend_and_take(alloc: Global, bytes: &[u8]) -> Result<(Option<Fault>, Vec<u8>), Fail> {
    let mut vector = VecBuffer::from(alloc, Vec::from_slice(alloc, bytes)?);
    let lent = vector.into_pybuffer(false)?;
    let refused = vector.take().err();
    lent.release(vector.state_mut());
    if vector.state().kind() != (ExporterKind::Vector { readonly: false }) {
        return Ok((refused, Vec::new(alloc)));
    }
    let taken = vector.take().unwrap_or(Vec::new(alloc));
    Ok((refused, taken))
}

#[test]
fn bytes_are_lent_and_borrowed(rt: HostRuntime) -> Result<(), Fail> {
    let alloc = rt.alloc();
    let (refused, taken) = lend_and_take(alloc, b"abc")?;
    equal(&rt, refused, Some(Fault::Buffer));
    same(&rt, taken.as_slice(), b"abc");
    let lender = SnapList::new(alloc);
    let value = bytes(alloc, b"abc")?;
    match ArgBytesLike::try_from_value(&value, &lender) {
        Ok(argument) => same(&rt, argument.borrow_buf(), b"abc"),
        Err(_) => assert!(rt; false),
    }
    let mut array = PyByteArray::from_slice(alloc, b"abcdef")?;
    tells(&rt, array.range(int(1), int(4), none(alloc)), Told::View(0));
    let state = array.state_mut();
    let turned = try_rw_bytes_like(state, Subject::View(0), |bytes| bytes.reverse());
    equal(&rt, turned, Ok(()));
    same(&rt, state.bytes(), b"adcbef");
    let refused = ArgMemoryBuffer::try_from_subject(state, Subject::View(1)).err();
    equal(&rt, refused, Some(Fault::UnknownName));
    Ok(())
}
