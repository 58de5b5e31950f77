//! Slices, as Python's `slice`.
use crate::telling::{equal, same};
use pybuf::{Fault, PySlice, SaturatedSlice, SliceableSequenceMutOp, SliceableSequenceOp};
use std::test::Fail;

#[test]
fn a_list_is_read_and_edited_by_a_slice(rt: HostRuntime) -> Result<(), Fail> {
    let alloc = rt.alloc();
    let backwards = PySlice::new(Some(-1), None, Some(-2));
    let slice = SaturatedSlice::with_slice(&backwards)?;
    let indices: Vec<usize> = slice.iter(6).collect(alloc)?;
    assert!(rt; indices.as_slice() == [5, 3, 1].as_slice());
    let mut letters = Vec::from_slice(alloc, b"abcdef")?;
    let taken = letters.getitem_by_slice(alloc, slice)?;
    same(&rt, taken.as_slice(), b"fdb");
    letters.delitem_by_slice(slice);
    same(&rt, letters.as_slice(), b"ace");
    let no_step = PySlice::new(None, None, Some(0));
    let refused = SaturatedSlice::with_slice(&no_step).err();
    equal(&rt, refused, Some(Fault::Value));
    Ok(())
}
