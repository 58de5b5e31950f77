//! Records at offsets, and views of one field of each. Formats, records in order and chosen ones are those of the cases of
//! `cases/tables`.
use crate::answers::{Word, exporter_of, say};
use pybuf_exporter::ExporterState;
use pybuf_table::Records;
use pybuf_value::{Halt, Made, NoHandles, Outcome, Scalar, ScalarList, number_in};
use std::alloc::Global;
use std::test::Fail;

fn tell_row(told: &mut Vec<u8>, row: &ScalarList) {
    for value in row.as_slice() {
        if let Ok(number) = number_in(value) {
            if let Ok(count) = usize::try_from(number) {
                say(told, Word::Count(count));
            }
        }
    }
}

/// Tells the record at an offset of six bytes.
fn tell_from(told: &mut Vec<u8>, alloc: Global, records: &Records, offset: isize) {
    match records.unpack_from(alloc, &[1, 2, 0, 5, 6, 1], offset) {
        Ok(Outcome::Done(row)) => tell_row(told, &row),
        Ok(Outcome::Refused(fault)) => say(told, Word::Fault(fault)),
        Err(_) => {}
    }
}

/// Tells six bytes once a record is packed at an offset, and before them why it isn't.
fn tell_packed(told: &mut Vec<u8>, records: &Records, offset: isize, row: &ScalarList) {
    let mut room = *b"abcdef";
    if let Err(fault) = records.pack_into(&mut room, offset, row, &NoHandles) {
        say(told, Word::Fault(fault));
    }
    say(told, Word::Bytes(&room));
}

const OFFSETS: [isize; 9] = [0, 3, 4, -6, -3, -2, -7, isize::MAX, isize::MIN];

/// Tells a record at each offset, and what another is packed to.
fn tell_offsets(told: &mut Vec<u8>, alloc: Global, records: &Records, row: &ScalarList) {
    for offset in &OFFSETS {
        tell_from(told, alloc, records, *offset);
        tell_packed(told, records, *offset, row);
    }
}

/// A row of two numbers.
fn row_of(alloc: Global, first: i128, last: i128) -> Made<ScalarList> {
    let mut values = ScalarList::new(alloc);
    values.push(Scalar::Int(first))?;
    values.push(Scalar::Int(last))?;
    Ok(values)
}

/// As `struct.unpack_from('<BH', bytes([1, 2, 0, 5, 6, 1]), offset)` of Python 3 answers, and `struct.pack_into('<BH', room,
/// offset, 7, 0x4241)`, where `room` is `bytearray(b'abcdef')`.
#[test]
fn records_stand_at_offsets(rt: HostRuntime) -> Result<(), Fail> {
    let alloc = rt.alloc();
    let mut told = Vec::new(alloc);
    if let (Ok(records), Ok(row)) = (Records::from_str(alloc, "<BH"), row_of(alloc, 7, 0x4241)) {
        tell_offsets(&mut told, alloc, &records, &row);
    }
    assert!(rt; told.as_slice() == AT_OFFSETS.as_bytes());
    Ok(())
}

const AT_OFFSETS: &str =
    "1; 2; b'\\x07ABdef'; 5; 262; b'abc\\x07AB'; StructError; StructError; b'abcdef'; 1; 2; b'\\x07ABdef'; 5; 262; b'abc\\x07AB'; StructError; StructError; b'abcdef'; StructError; StructError; b'abcdef'; StructError; StructError; b'abcdef'; StructError; StructError; b'abcdef'";

/// Sets an item of the view of a field to 9, or tells why there is no such view; and tells the number of unreleased views
/// and the bytes.
fn tell_field(
    told: &mut Vec<u8>,
    alloc: Global,
    records: &Records,
    state: &mut ExporterState,
    field: usize,
    item: isize,
) {
    match records.field_view(alloc, state, field) {
        Ok(Outcome::Done(view)) => drop(state.put_number(view.number(), item, 9)),
        Ok(Outcome::Refused(fault)) => say(told, Word::Fault(fault)),
        Err(_) => {}
    }
    say(told, Word::Count(state.exports()));
    say(told, Word::Bytes(state.bytes()));
}

/// Formats, bytes, a field, an item.
const FIELDS: [(&str, &[u8], usize, isize); 7] = [
    ("<BH", &[1, 2, 0, 5, 6, 1], 1, 1),
    ("<BH", &[1, 2, 0, 5, 6, 1], 0, 0),
    ("<BH", &[1, 2, 0, 5, 6, 1], 2, 0),
    ("<BH", &[1, 2, 0, 5], 1, 0),
    ("<B0sH", &[1, 2, 0, 5, 6, 1], 1, 0),
    ("bxh", b"abcdefgh", 1, -1),
    ("0s", b"", 0, 0),
];

/// Tells what is told of a bytearray of these bytes.
fn tell_field_of(
    told: &mut Vec<u8>,
    alloc: Global,
    format: &str,
    bytes: &[u8],
    field: usize,
    item: isize,
) {
    match (Records::from_str(alloc, format), exporter_of(alloc, bytes)) {
        (Ok(records), Ok(mut state)) => {
            tell_field(told, alloc, &records, &mut state, field, item);
        }
        (Err(Halt::Refused(fault)), Ok(_)) => say(told, Word::Fault(fault)),
        _ => {}
    }
}

/// Items of a field are as the memoryview of Python 3 writes them; a size of 0 is refused here.
#[test]
fn fields_are_written_through_views(rt: HostRuntime) -> Result<(), Fail> {
    let mut told = Vec::new(rt.alloc());
    for (format, bytes, field, item) in &FIELDS {
        tell_field_of(&mut told, rt.alloc(), format, bytes, *field, *item);
    }
    assert!(rt; told.as_slice() == WRITTEN.as_bytes());
    Ok(())
}

const WRITTEN: &str =
    "1; b'\\x01\\x02\\x00\\x05\\t\\x00'; 1; b'\\t\\x02\\x00\\x05\\x06\\x01'; IndexError; 0; b'\\x01\\x02\\x00\\x05\\x06\\x01'; StructError; 0; b'\\x01\\x02\\x00\\x05'; ValueError; 0; b'\\x01\\x02\\x00\\x05\\x06\\x01'; 1; b'abcdef\\t\\x00'; ValueError";
