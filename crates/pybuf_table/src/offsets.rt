//! One record at an offset of bytes.
ghost use Rattle.std.specs.Prelude.{◌≡◌, IfOk, OnErr};
ghost use Rattle.pybuf_value.specs.Halting.{outcome_of, Gives};
ghost use Rattle.pybuf_state.specs.Answers.{ChangesTo};
ghost use Rattle.pybuf_table.specs.Offsets.{place_of, row_from, with_record};

use crate::records::Records;
use pybuf_value::{Fault, Halt, Lender, ScalarList, Tried, tried};
use std::alloc::Global;

/// The place that an offset names among so many bytes.
fn place_of(len: usize, offset: isize) -> Result<usize, Fault>
    ensures { result ≡ place_of len offset }
{
    if offset >= 0 {
        return Ok(offset as usize);
    }
    let back = offset.unsigned_abs();
    if back > len {
        return Err(Fault::Struct);
    }
    Ok(len - back)
}

impl Records {
    /// The values of the record at an offset.
    fn row_from(&self, alloc: Global, bytes: &[u8], offset: isize) -> Result<ScalarList, Halt>
        ensures { Gives (row_from self.now.format offset bytes.now) result }
    {
        let place = place_of(bytes.len(), offset)?;
        self.format().unpack_from(alloc, bytes, place)
    }

    /// The values of the record at an offset, to which the number of bytes is added where it is negative. What stands
    /// before and behind the record isn't looked at.
    ///
    /// Refused with `StructError` exactly where the offset is then negative, or fewer bytes than a record follow it.
    /// Example: by `<4sH` the record of `b"ada\0\x05\0bob\0\x07\0"` at -6 has the values `b"bob\0"` and 7.
    pub fn unpack_from(&self, alloc: Global, bytes: &[u8], offset: isize) -> Tried<ScalarList>
        ensures { IfOk result (λ o. o ≡ outcome_of (row_from self.now.format offset bytes.now)) }
    {
        tried(self.row_from(alloc, bytes, offset))
    }

    /// Writes the record of the values at an offset, to which the number of bytes is added where it is negative. The
    /// bytes before and after it stay. Takes no memory.
    ///
    /// Refused with `StructError` exactly where the offset is then negative, or fewer bytes than a record follow it,
    /// and then as `FormatSpec::pack_into` is. No byte is written then.
    /// Example: by `<4sH` the values `b"bob\0"` and 7 at the offset 0 write `b"bob\0\x07\0"`.
    pub fn pack_into<L: Lender>(
        &self,
        room: &mut [u8],
        offset: isize,
        args: &ScalarList,
        lender: &L,
    ) -> Result<(), Fault>
        ensures ok { ChangesTo (with_record self.now.format (L.pairs lender.now) args.now offset room.old) result room.new }
        ensures err { OnErr result (room.new ≡ room.old) }
    {
        let place = place_of(room.len(), offset)?;
        let size = self.size();
        if place > room.len() || size > room.len() - place {
            return Err(Fault::Struct);
        }
        let part = &mut room[place..place + size];
        self.format().pack_into(part, args, lender)
    }
}
