//! `FormatSpec`, as Python's `struct`.
use crate::telling::{equal, refuses, same};
use pybuf::{Fault, FormatSpec, Scalar};
use std::test::Fail;

#[test]
fn records_are_read_and_written(rt: HostRuntime) -> Result<(), Fail> {
    let alloc = rt.alloc();
    let format = FormatSpec::from_str(alloc, "<hI")?;
    let values = format.unpack_from(alloc, b"ab\x01\x00\x02\x00\x00\x00", 2)?;
    equal(&rt, values.numbers::<2>()?, [1, 2]);
    let mut room = [0u8; 8];
    format.pack_at(&mut room, 2, values.as_slice())?;
    same(&rt, &room, b"\0\0\x01\x00\x02\x00\x00\x00");
    let refused = format.pack_at(&mut room, 3, values.as_slice());
    equal(&rt, refused, Err(Fault::Struct));
    let values = [Scalar::from(-2), Scalar::from(258)];
    let bytes = format.pack_values(alloc, &values)?;
    same(&rt, bytes.as_slice(), b"\xfe\xff\x02\x01\x00\x00");
    refuses(&rt, FormatSpec::from_str(alloc, "<n"), Fault::Struct);
    Ok(())
}
