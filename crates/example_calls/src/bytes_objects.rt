//! `PyBytes`, as Python's `bytes`.
use crate::telling::{Told, equal, gives, tells};
use crate::values::{bytes, int, none, part};
use pybuf::{CompareOp, Fault, PyBytes};
use std::test::Fail;

#[test]
fn bytes_are_read_and_compared(rt: HostRuntime) -> Result<(), Fail> {
    let alloc = rt.alloc();
    let other = bytes(alloc, b"its")?;
    let mut object = PyBytes::new_ref(alloc, Vec::from_slice(alloc, b"it's")?);
    equal(&rt, object.len(), 4);
    tells(&rt, object.getitem(int(-1), none(alloc)), Told::Number(115));
    gives(&rt, object.getitem(part(1, 3), none(alloc)), b"t'");
    let refused = object.getitem(int(4), none(alloc));
    tells(&rt, refused, Told::Refused(Fault::Index));
    let less = object.cmp(CompareOp::Lt, other, none(alloc));
    tells(&rt, less, Told::Truth(true));
    gives(&rt, object.repr_str(none(alloc)), b"b\"it's\"");
    gives(&rt, object.hash(none(alloc)), b"it's");
    Ok(())
}
