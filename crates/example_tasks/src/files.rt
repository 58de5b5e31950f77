//! Files: what is in them, and one field that is changed in place.
use pybuf::{
    Answer, ByteStr, Fault, FormatSpec, Halt, PyByteArray, PyMemoryView, Scalar, Value, View,
};
use pybuf_table::Records;
use std::alloc::Global;
use std::fmt::Write;
use std::io::{self, Read};

/// Writes the size and the type of each chunk of a PNG file.
pub fn chunks(alloc: Global, file: &[u8], out: &mut String) -> Result<(), Halt> {
    let head = FormatSpec::from_str(alloc, ">I4s")?;
    let mut place = 8usize;
    for _chunk in 0..file.len() / 12 {
        if place >= file.len() {
            break;
        }
        let values = head.unpack_from(alloc, file, place)?;
        if let [Scalar::Int(size), kind] = values.as_slice() {
            writeln!(out, "{size} {kind}")?;
            place = place.saturating_add(usize::try_from(size.saturating_add(12)).unwrap_or(12));
        }
    }
    Ok(())
}

/// Changes the score in the second record, and writes all records.
pub fn change(alloc: Global, file: &mut PyByteArray, out: &mut String) -> Result<(), Halt> {
    let records = Records::from_str(alloc, "<4sH")?;
    let scores = records.field_view(alloc, file.state_mut(), 1).done()?;
    PyMemoryView::of(scores.number()).set(file.state_mut(), 1, 8)?;
    for offset in [0, 6] {
        let row = records.unpack_from(alloc, file.as_slice(), offset).done()?;
        writeln!(out, "{}", Value::Tuple(row))?;
    }
    Ok(())
}

/// Writes how many readings a sensor's file has, and their mean.
pub fn mean(file: &mut PyByteArray, out: &mut String) -> Result<(), Halt> {
    let count = file.as_slice().len() / 2;
    let mut view = View::of(file)?;
    let readings = view.cast("H")?;
    let mut sum = 0i128;
    for k in 0..count {
        let reading = readings.get(k as isize)?;
        sum = sum.wrapping_add(reading.number().unwrap_or(0));
    }
    if count > 0 {
        writeln!(out, "{count} {}", sum / count as i128)?;
    }
    Ok(())
}

/// Moves the entry of a program twelve bytes on, and says that it is for Linux.
pub fn patch(file: &mut PyByteArray, out: &mut String) -> Result<(), Halt> {
    let mut whole = View::of(file)?;
    let mut header = whole.slice(..64)?;
    if header.slice(..4)?.to_vec()?.as_slice() != b"\x7fELF".as_slice() {
        return Err(Halt::Refused(Fault::Value));
    }
    header.set(7, 3)?;
    let mut field = header.slice(24..32)?;
    let mut entry = field.cast("Q")?;
    let old = entry.get(0)?.number().unwrap_or(0);
    entry.set(0, old.wrapping_add(12))?;
    writeln!(out, "{old} {}", entry.get(0)?)?;
    Ok(())
}

/// Reads a file piece by piece into the same bytes, and writes how many bytes and lines it has.
pub fn stream<R: Read>(alloc: Global, file: &mut R, out: &mut String) -> io::Result<()> {
    let mut array = PyByteArray::from(vec![in alloc; 0u8; 4096]?);
    let room = array.borrow_buf_mut();
    let (mut size, mut lines) = (0usize, 0usize);
    for _piece in 0..u64::MAX {
        let count = file.read(room)?;
        if count == 0 {
            break;
        }
        size = size.wrapping_add(count);
        let end = isize::try_from(count).ok();
        lines = lines.wrapping_add(ByteStr::new(room).count(b"\n", None, end));
    }
    Ok(writeln!(out, "{size} {lines}")?)
}
