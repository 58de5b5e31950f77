//! What is in an array once bytes were assigned to the items of a view of it.

use crate::steps::View;
use pybuf_buffer::PyBuffer;
use pybuf_command::ExporterKind;
use pybuf_exporter::ExporterState;
use pybuf_nd::assign;
use pybuf_value::{ByteList, Made, Outcome, push_number};
use std::alloc::Global;

/// The first of the bytes that are assigned: greater than each byte of an array.
const FIRST: u8 = 100;

/// So many bytes, each one more than the byte before.
fn counted(alloc: Global, first: u8, count: usize) -> Made<Vec<u8>> {
    let mut bytes = Vec::new(alloc);
    let mut next = first;
    for _byte in 0..count {
        bytes.push(next)?;
        next = next.wrapping_add(1);
    }
    Ok(bytes)
}

/// Adds bytes, each with a blank before it.
fn push_bytes(out: &mut Vec<u8>, bytes: &[u8]) -> Made<()> {
    for byte in bytes {
        out.push(b' ')?;
        push_number(out, *byte as i128)?;
    }
    Ok(())
}

/// Assigns bytes to the items of a view of an array, and adds those of the array then.
fn push_written(
    alloc: Global,
    out: &mut Vec<u8>,
    state: &mut ExporterState,
    view: View,
    given: &[u8],
) -> Made<()> {
    if let Outcome::Done(target) = PyBuffer::new(alloc, state, view.desc, view.start)? {
        if assign(state, &target, given).is_ok() {
            return push_bytes(out, state.bytes());
        }
    }
    out.extend_from_slice(b" refused")?;
    Ok(())
}

/// Adds the bytes of the array once others were assigned to the items of a view.
pub fn push_assigned(alloc: Global, out: &mut Vec<u8>, view: View) -> Made<()> {
    out.extend_from_slice(b" =")?;
    let given = counted(alloc, FIRST, view.desc.len())?;
    let array = ByteList::from_vec(counted(alloc, 0, view.bytes)?);
    let mut state = ExporterState::new(alloc, ExporterKind::ByteArray, array);
    push_written(alloc, out, &mut state, view, given.as_slice())
}
