//! Lists of the parts that bytes are cut into.
ghost use Rattle.std.specs.Prelude.{◌≡◌, ◌++◌, ◌∷◌, [], OnOk};

use pybuf_value::{ByteList, Made};
use std::alloc::Global;

/// Adds a copy of a part.
pub fn push_part(alloc: Global, parts: &mut Vec<ByteList>, part: &[u8]) -> Made<()>
    ensures { OnOk result (parts.new.items ≡ parts.old.items ++ part.now ∷ []) }
{
    let copy = ByteList::from_vec(Vec::from_slice(alloc, part)?);
    parts.push(copy)?;
    Ok(())
}
