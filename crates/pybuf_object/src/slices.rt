//! What is read of bytes by plain numbers.
ghost use Rattle.std.specs.Prelude.{◌≡◌};
ghost use Rattle.pybuf_object.specs.Plain as spec;

use pybuf_index::{SaturatedSlice, SequenceIndexOp};
use pybuf_slice::slices::getitem_by_slice;
use pybuf_value::{Halt, PySlice};
use std::alloc::Global;

/// The byte that a number names; None exactly where there is none.
pub(crate) fn byte_at(bytes: &[u8], index: isize) -> Option<u8>
    ensures { result ≡ spec.byte_at bytes.now index }
{
    let place = index.wrapped_at(bytes.len())?;
    Some(bytes[place])
}

/// The bytes that a slice picks.
///
/// Refused with `ValueError` exactly where the step is 0.
pub(crate) fn bytes_of_slice(
    alloc: Global,
    bytes: &[u8],
    start: Option<isize>,
    stop: Option<isize>,
    step: Option<isize>,
) -> Result<Vec<u8>, Halt>
    ensures { spec.GivesBytes (spec.bytes_of_slice bytes.now start stop step) result }
{
    let slice = SaturatedSlice::with_slice(&PySlice::new(start, stop, step))?;
    let _length = bytes.len();
    let picked = getitem_by_slice(alloc, bytes, slice)?;
    Ok(picked)
}
