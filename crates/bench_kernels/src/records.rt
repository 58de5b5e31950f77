//! Records by a format of `struct`.

use crate::answers::{Answer, count_of_values, mark_of_bytes};
use crate::measuring::Kernel;
use crate::plan::Plan;
use crate::viewed::{Given, RECORD, Viewed};
use pybuf_buffer::PyBuffer;
use pybuf_exporter::ExporterState;
use pybuf_struct::FormatSpec;
use pybuf_value::{ByteList, Halt, Made, Outcome, Scalar, ScalarList, SnapList};
use std::alloc::Global;

/// What is done with each record.
#[derive(Clone, Copy)]
pub enum Packing {
    /// `struct.unpack`.
    Unpack,
    /// `struct.pack_into`, over bytes that are lent once.
    PackInto,
    /// The same, where the bytes of a view are lent for each record: a view takes no record as an item.
    Set,
}

/// So many records in a view, and their format.
#[derive(Drop)]
pub struct Records {
    format: FormatSpec,
    viewed: Viewed,
    count: usize,
    packing: Packing,
}

/// The values of the record of a number.
fn record_of(alloc: Global, number: usize) -> Made<ScalarList> {
    let mut values = ScalarList::new(alloc);
    let tag = ByteList::from_vec(Vec::from_slice(alloc, b"tags")?);
    values.push(Scalar::Bytes(tag))?;
    let first = (number % 65_536) as i128;
    let second = (number % 1_000_003) as i128;
    for value in [first, 7, second, 4_000_000_000] {
        values.push(Scalar::Int(value))?;
    }
    Ok(values)
}

/// Writes the record of a number. The answer is whether it wasn't refused.
fn pack(alloc: Global, format: &FormatSpec, room: &mut [u8], number: usize) -> Made<bool> {
    if room.len() != format.size() {
        return Ok(false);
    }
    let values = record_of(alloc, number)?;
    let pairs = SnapList::new(alloc);
    Ok(format.pack_into(room, &values, &pairs).is_ok())
}

/// The bytes of a buffer, lent to be written; none where there are none.
fn bytes_of<'a>(state: &'a mut ExporterState, buffer: &PyBuffer) -> Option<&'a mut [u8]> {
    if !buffer.is_live(state) {
        return None;
    }
    buffer.as_contiguous_mut(state)
}

/// Reads each record, and sums up what they count.
fn unpack_all(alloc: Global, format: &FormatSpec, bytes: &[u8]) -> Result<Answer, Halt> {
    let mut sum = 0i128;
    for record in bytes.chunks_exact(RECORD) {
        let Outcome::Done(values) = format.unpack(alloc, record)? else {
            return Ok(Answer::Refused);
        };
        sum = sum.wrapping_add(count_of_values(values.as_slice()));
    }
    Ok(Answer::Number(sum))
}

/// Writes each record.
fn pack_all(alloc: Global, format: &FormatSpec, bytes: &mut [u8]) -> Result<Answer, Halt> {
    let mut number = 0usize;
    for room in bytes.chunks_exact_mut(RECORD) {
        if !pack(alloc, format, room, number)? {
            return Ok(Answer::Refused);
        }
        number = number.wrapping_add(1);
    }
    Ok(Answer::Nothing)
}

/// Writes the record of a number among the bytes of a buffer, which are lent anew. The answer is whether it
/// wasn't refused.
fn set(
    alloc: Global,
    state: &mut ExporterState,
    buffer: &PyBuffer,
    format: &FormatSpec,
    number: usize,
) -> Made<bool> {
    let start = number.saturating_mul(RECORD);
    let end = start.saturating_add(RECORD);
    let Some(bytes) = bytes_of(state, buffer) else {
        return Ok(false);
    };
    match bytes.get_mut(start..end) {
        Some(room) => pack(alloc, format, room, number),
        None => Ok(false),
    }
}

/// Writes so many records, each among bytes that are lent anew.
fn set_all(
    alloc: Global,
    state: &mut ExporterState,
    buffer: &PyBuffer,
    format: &FormatSpec,
    count: usize,
) -> Result<Answer, Halt> {
    for number in 0..count {
        if !set(alloc, state, buffer, format, number)? {
            return Ok(Answer::Refused);
        }
    }
    Ok(Answer::Nothing)
}

impl Records {
    /// So many drawn records.
    pub fn of(alloc: Global, plan: Plan, packing: Packing) -> Result<Records, Halt> {
        let viewed = Viewed::of(alloc, plan, Given::Records)?;
        match FormatSpec::parse(alloc, b"<4sHHII")? {
            Outcome::Done(format) => Ok(Records {
                format,
                viewed,
                count: plan.count,
                packing,
            }),
            Outcome::Refused(fault) => Err(Halt::Refused(fault)),
        }
    }
}

impl Kernel for Records {
    fn call(&mut self, alloc: Global) -> Result<Answer, Halt> {
        let format = &self.format;
        let buffer = PyBuffer::of(self.viewed.view.number());
        let object = &mut self.viewed.object;
        match self.packing {
            Packing::Unpack => unpack_all(alloc, format, object.borrow_buf()),
            Packing::PackInto => match bytes_of(object.state_mut(), &buffer) {
                Some(bytes) => pack_all(alloc, format, bytes),
                None => Ok(Answer::Refused),
            },
            Packing::Set => set_all(alloc, object.state_mut(), &buffer, format, self.count),
        }
    }

    fn written(&self, _alloc: Global) -> Result<i128, Halt> {
        Ok(mark_of_bytes(self.viewed.object.borrow_buf()))
    }
}
