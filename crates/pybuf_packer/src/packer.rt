//! A format with the values that are to be packed by it, or that it unpacked.
ghost use Rattle.std.specs.Prelude.{◌≡◌, ◌≢◌, OnErr, OnOk, length, slice_get};
ghost use Rattle.std.specs.Option.{option_copied};
ghost use Rattle.pybuf_crossing.specs.Rooms.{Hands};
ghost use Rattle.pybuf_crossing.specs.declared.rooms.Handed.TheVariants as handed;
ghost use Rattle.pybuf_packer.specs.Packer as spec;
ghost use Rattle.pybuf_struct.specs.Formats.{fields};
ghost use Rattle.pybuf_value.specs.Halting.{Gives};
ghost use Rattle.pybuf_value.specs.declared.values.Scalar.TheVariants as scalar;

use pybuf_crossing::{Handed, hand_bytes};
use pybuf_struct::FormatSpec;
use pybuf_value::{Answer, ByteList, Fault, Halt, Made, Scalar};
use std::alloc::Global;
use std::marker::Model;

/// What became of values that were to be packed.
/// Example: `Packed::Whole` stands for values whose bytes were written.
#[derive(Clone, Copy, Debug, PartialEq, Eq)]
pub enum Packed {
    /// Their bytes stand at the front of the room.
    /// Example: the values -2 and 258 of `<hI` in a room of six bytes give it.
    Whole,
    /// The room is shorter than the format, and is as before.
    /// Example: the format `<hI` in a room of five bytes gives it.
    TooSmall,
    /// The format refuses the values, and the room is as before.
    /// Example: one value of `<hI` alone gives `Packed::Refused(Fault::Struct)`.
    Refused(Fault),
}

/// A format, and the values that were put for it one by one, or those that it unpacked last.
/// Example: `Packer::parse(alloc, b"<hI")?` stands for the format of a number of two bytes and one of four, with no values.
#[derive(Debug, Drop)]
pub struct Packer {
    format: FormatSpec,
    values: Vec<Scalar>,
}

impl Model for Packer {
    ghost use Rattle.pybuf_packer.specs.Packer.{Packer};

    ghost Value = { Packer };

    ghost view = { λ p. record { format = p.format; values = p.values.items } };
}

/// Which kind a value is of.
fn value_kind(value: Option<&Scalar>) -> u32
    ensures { result ≡ spec.value_kind (option_copied value.entry) }
{
    match value {
        Some(Scalar::Int(_)) => 0,
        Some(Scalar::Bool(_)) => 1,
        Some(Scalar::Bytes(_)) => 2,
        _ => 3,
    }
}

/// A number, a truth value as 0 or 1, and of bytes how many they are.
fn value_number(value: Option<&Scalar>) -> Option<i128>
    ensures { result ≡ spec.value_number (option_copied value.entry) }
{
    match value {
        Some(Scalar::Int(number)) => Some(*number),
        Some(Scalar::Bool(truth)) => { if *truth { Some(1) } else { Some(0) } }
        Some(Scalar::Bytes(bytes)) => Some(bytes.len() as i128),
        _ => None,
    }
}

impl Packer {
    /// The format that a text spells, with no values. It is refused with `StructError` where the text spells none, as
    /// `FormatSpec::parse` has it.
    /// Example: `Packer::parse(alloc, b"<hI")?.size()` is 6, and `<n` is refused.
    pub fn parse(alloc: Global, text: &[u8]) -> Result<Packer, Halt>
        ensures { Gives (spec.packer_of text.now) result }
    {
        let format = FormatSpec::parse(alloc, text).done()?;
        Ok(Packer {
            format,
            values: Vec::new(alloc),
        })
    }

    /// The number of bytes of the format, as Python's `struct.calcsize(format)`. Takes no memory.
    /// Example: of `<4sH` it is 6.
    pub fn size(&self) -> usize
        ensures { result ≡ self.now.format.size }
    {
        self.format.size()
    }

    /// The number of values that the format reads or writes. Takes no memory.
    /// Example: of `<4sH` it is 2.
    pub fn field_count(&self) -> usize
        ensures { result ≡ length (fields self.now.format) }
    {
        self.format.arg_count()
    }

    /// Lets go of the values. The format stays. Takes no memory.
    /// Example: after it `pack` of `<hI` is `Packed::Refused(Fault::Struct)` in a room of six bytes.
    pub fn clear(&mut self)
        ensures { self.new ≡ spec.without_values self.old }
    {
        self.values.clear();
    }

    /// Puts a number behind the values. Where memory runs out, they are as before.
    /// Example: after -2 and 258 the values of `<hI` are packed as `b"\xfe\xff\x02\x01\x00\x00"`.
    pub fn put_number(&mut self, number: i128) -> Made<()>
        ensures ok { OnOk result (self.new ≡ spec.with_value self.old (scalar.Int number)) }
        ensures err { OnErr result (self.new ≡ self.old) }
    {
        self.values.push(Scalar::Int(number))?;
        Ok(())
    }

    /// Puts a copy of bytes behind the values. Where memory runs out, they are as before.
    /// Example: after `b"ada"` and the number 5 the values of `<4sH` are packed as `b"ada\0\x05\0"`.
    pub fn put_bytes(&mut self, alloc: Global, bytes: &[u8]) -> Made<()>
        ensures ok { OnOk result (self.new ≡ spec.with_value self.old (scalar.Bytes bytes.now)) }
        ensures err { OnErr result (self.new ≡ self.old) }
    {
        let bytes = ByteList::from_slice(alloc, bytes)?;
        self.values.push(Scalar::Bytes(bytes))?;
        Ok(())
    }

    /// Writes the bytes of the values to the front of a room. Takes no memory.
    ///
    /// Where the room is too small, the values aren't looked at. They are refused as `FormatSpec::pack` has it,
    /// before a byte is written. In both cases the room is as before.
    /// Example: of `<hI` the values -2 and 258 write `b"\xfe\xff\x02\x01\x00\x00"`.
    pub fn pack(&self, room: &mut [u8]) -> Packed
        ensures { spec.Packs result self.now room.old room.new }
    {
        if room.len() < self.format.size() {
            return Packed::TooSmall;
        }
        match self.format.pack_at(room, 0, self.values.as_slice()) {
            Ok(()) => Packed::Whole,
            Err(fault) => Packed::Refused(fault),
        }
    }

    /// Reads the values of the bytes, in place of those that are there.
    ///
    /// Refused with `StructError` exactly where the number of bytes isn't the format's size. Where it is refused, or
    /// memory runs out, nothing is changed.
    /// Example: by `<hI` the bytes `b"\xfe\xff\x02\x01\x00\x00"` have the values -2 and 258.
    pub fn unpack(&mut self, alloc: Global, bytes: &[u8]) -> Result<(), Halt>
        ensures { spec.Unpacks result bytes.now self.old self.new }
    {
        let values = self.format.unpack_values(alloc, bytes)?;
        self.values = values.into_vec();
        Ok(())
    }

    /// Which kind the value at a place is of, counted from 0. It is 0 for a number, 1 for a truth value, 2 for bytes,
    /// and 3 where there is no such value. Takes no memory.
    /// Example: after `b"ada\0\x05\0"` was unpacked by `<4sH`, `kind_at(0)` is 2, and `kind_at(1)` 0.
    pub fn kind_at(&self, index: usize) -> u32
        ensures { result ≡ spec.value_kind (slice_get self.now.values index) }
    {
        value_kind(self.values.as_slice().get(index))
    }

    /// The number of the value at a place. It is 0 or 1 of a truth value, of bytes how many they are, and None where
    /// there is no such value. Takes no memory.
    /// Example: after `b"ada\0\x05\0"` was unpacked by `<4sH`, `number_at(0)` is `Some(4)`, and `number_at(1)` `Some(5)`.
    pub fn number_at(&self, index: usize) -> Option<i128>
        ensures { result ≡ spec.value_number (slice_get self.now.values index) }
    {
        value_number(self.values.as_slice().get(index))
    }

    /// Copies the bytes of the value at a place to the front of a room, and tells how many they are in `count`. It is
    /// `Handed::TooSmall` where the room is shorter, and `Handed::Nothing` where there is no such value or it isn't
    /// bytes. The room is as before then. Takes no memory.
    /// Example: after `b"ada\0\x05\0"` was unpacked by `<4sH`, `hand_bytes(0, ..)` writes `b"ada\0"`.
    pub fn hand_bytes(&self, index: usize, room: &mut [u8], count: &mut usize) -> Handed
        ensures handed { Hands result (spec.value_bytes (slice_get self.now.values index)) room.old room.new count.old count.new }
        ensures memory { result ≢ handed.NoMemory }
    {
        match self.values.as_slice().get(index) {
            Some(Scalar::Bytes(bytes)) => hand_bytes(bytes.as_slice(), room, count),
            _ => Handed::Nothing,
        }
    }
}
