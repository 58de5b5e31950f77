//! `contains`: whether a byte or bytes stand in bytes or in a bytearray.
ghost use Rattle.pybuf_state.specs.Answers.{ReadsIn};
ghost use Rattle.pybuf_verbs_methods.specs.Calls as spec;

use pybuf_command::LocalReply;
use pybuf_methods::{Contents, contains_in};
use pybuf_state::Parts;
use pybuf_value::{Halt, Value};

/// Whether a value stands in the bytes (Python's library reference, "Common Sequence Operations", `x in s`). A number
/// is one byte, and any other value is read as bytes.
///
/// Refused with `UnknownName` for a vector, with `ValueError` for a number outside `0..256`, and else as
/// `bytes_from_object` refuses.
/// Example: in `b"Abc"` the value `b"bc"` replies `Truth(true)`.
pub fn of_own<C: Contents>(parts: &Parts, value: &Value, contents: &C) -> Result<LocalReply, Halt>
    ensures { ReadsIn parts.now (λ e. spec.contains_of_own e value.now (C.pairs contents.now)) result }
{
    parts.check_string()?;
    let found = contains_in(parts.alloc, parts.bytes.as_slice(), value, contents)?;
    Ok(LocalReply::Truth(found))
}
