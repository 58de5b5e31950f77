//! Formats by texts of Rust, and values from bytes and back with one result for each call.
ghost use Rattle.std.specs.Prelude.{◌≡◌, []};
ghost use Rattle.pybuf_value.specs.Halting.{Gives, SettledAtOnce};
ghost use Rattle.pybuf_value.specs.Settling.{GivesItems};
ghost use Rattle.pybuf_struct.specs.Formats.{format_of};
ghost use Rattle.pybuf_struct.specs.Values.{unpacked_values};
ghost use Rattle.pybuf_struct.specs.Packing.{packed_bytes};
ghost use Rattle.pybuf_struct.specs.Offsets.{unpacked_from, packed_at};

use crate::format::FormatSpec;
use pybuf_value::{Answer, Fault, Halt, NoHandles, Scalar, ScalarList};
use std::alloc::Global;

impl FormatSpec {
    /// The format that a text spells, as `parse` gives and refuses it.
    ///
    /// Example: `FormatSpec::from_str(alloc, "<hI")` gives a format of the size 6.
    pub fn from_str(alloc: Global, text: &str) -> Result<FormatSpec, Halt>
        ensures { Gives (format_of text.now) result }
    {
        FormatSpec::parse(alloc, text.as_bytes()).done()
    }

    /// The values of the bytes, one for each field, as `unpack` gives and refuses them.
    ///
    /// Example: of `<hI` and `b"\xff\xff\x05\0\0\0"` it gives -1 and 5.
    pub fn unpack_values(&self, alloc: Global, bytes: &[u8]) -> Result<ScalarList, Halt>
        ensures { Gives (unpacked_values self.now bytes.now) result }
    {
        self.unpack(alloc, bytes).done()
    }

    /// The values of as many bytes as the format's size from an offset on. What stands before and
    /// behind them isn't looked at.
    ///
    /// Refused with `StructError` exactly where there are fewer bytes from the offset on.
    ///
    /// Example: of `<H`, the bytes `b"\0\x02\x01\0"` and the offset 1 it gives 258.
    pub fn unpack_from(
        &self,
        alloc: Global,
        bytes: &[u8],
        offset: usize,
    ) -> Result<ScalarList, Halt>
        ensures { Gives (unpacked_from self.now offset bytes.now) result }
    {
        let size = self.size();
        if offset > bytes.len() || size > bytes.len() - offset {
            return Err(Halt::Refused(Fault::Struct));
        }
        self.unpack_values(alloc, &bytes[offset..offset + size])
    }

    /// The bytes of the values, one for each field, as `pack` gives and refuses them where no handle
    /// names anything.
    ///
    /// Example: of `<hI` and the values -1 and 5 it gives `b"\xff\xff\x05\0\0\0"`.
    pub fn pack_values(&self, alloc: Global, values: &[Scalar]) -> Result<Vec<u8>, Halt>
        ensures { GivesItems (packed_bytes self.now [] values.now) result }
    {
        let mut room = vec![in alloc; 0u8; self.size()]?;
        self.fill(room.as_mut_slice(), values, &NoHandles)?;
        Ok(room)
    }

    /// Writes into the room from an offset on the bytes that `pack_values` gives. Takes no memory.
    ///
    /// Refused with `StructError` where fewer bytes than the format's size are there, and else as
    /// `pack` is, before a byte is written.
    ///
    /// Example: of `<H`, the offset 1 and the value 258 it makes `b"\0\x02\x01\0"` of four zeros.
    pub fn pack_at(&self, room: &mut [u8], offset: usize, values: &[Scalar]) -> Result<(), Fault>
        ensures { SettledAtOnce result (λ _. room.new) (room.new ≡ room.old) (packed_at self.now values.now offset room.old) }
    {
        let size = self.size();
        if offset > room.len() || size > room.len() - offset {
            return Err(Fault::Struct);
        }
        self.fill(&mut room[offset..offset + size], values, &NoHandles)
    }
}
