//! `Records`: the records of a file.
use crate::telling::{equal, same};
use pybuf::{Answer, CompareOp, NoHandles, Scalar};
use pybuf_table::Records;
use std::alloc::Global;
use std::test::Fail;

#[test]
fn records_are_gone_over(rt: HostRuntime) -> Result<(), Fail> {
    let alloc = rt.alloc();
    let records = Records::from_str(alloc, "<4sH")?;
    let mut rows = records.iter_unpack(b"ada\0\x05\0bob\0\x07\0")?;
    let Some(first) = rows.next_row(alloc)? else {
        return Err(Fail::from("no record"));
    };
    assert!(rt; matches!(first.get(1), Some(Scalar::Int(5))));
    Ok(())
}

#[test]
fn a_record_is_found_by_its_name(rt: HostRuntime) -> Result<(), Fail> {
    let alloc = rt.alloc();
    let records = Records::from_str(alloc, "<4sH")?;
    let (bytes, name) = (b"ada\0\x05\0bob\0\x07\0", Scalar::bytes(alloc, b"bob\0")?);
    let chosen = records.select(alloc, bytes, 0, CompareOp::Eq, &name);
    equal(&rt, chosen.done()?.get(0).map(|row| row.0), Some(1));
    Ok(())
}

/// Puts the first record in the place of the last, which is six bytes long.
fn put_first_last(alloc: Global, records: &Records, bytes: &mut [u8]) -> Result<(), Fail> {
    let first = records.unpack_from(alloc, bytes, 0).done()?;
    records.pack_into(bytes, -6, &first, &NoHandles)?;
    Ok(())
}

#[test]
fn a_record_is_written(rt: HostRuntime) -> Result<(), Fail> {
    let alloc = rt.alloc();
    let records = Records::from_str(alloc, "<4sH")?;
    let mut bytes = *b"ada\0\x05\0bob\0\x07\0";
    put_first_last(alloc, &records, &mut bytes)?;
    same(&rt, &bytes, b"ada\0\x05\0ada\0\x05\0");
    Ok(())
}
