//! Items by a format that was read once.
ghost use Rattle.std.specs.Prelude.{◌≡◌, length, IfOk};
ghost use Rattle.pybuf_memoryview.specs.Items.{item_by};
ghost use Rattle.pybuf_memoryview.specs.Readers as reading;

use crate::bytes::is_byte_format;
use crate::items::{byte_item, item_of};
use pybuf_desc::KeptFormat;
use pybuf_struct::FormatSpec;
use pybuf_value::{Item, Made, Outcome, ScalarList};
use std::alloc::Global;

/// How items are read whose format was read once.
/// Example: `ItemReader::Byte` reads the byte 97 as the number 97.
#[derive(Debug, Drop)]
pub enum ItemReader {
    /// Each item is read as the one byte that it has by the format `B`.
    /// Example: `reader_of` gives it for the format `B` and the size 1.
    Byte,
    /// Each item is read as the values of the fields of a format.
    /// Example: `reader_of` gives it for the format `<BH`, by which an item is a tuple of two numbers.
    Fields(FormatSpec),
    /// Each item is read as no value, since the text is no format.
    /// Example: `reader_of` gives it for the text `?!`.
    Nothing,
}

/// How items of a size are read by the text of their format.
/// Example: of the format `H` it reads the bytes `b"\x01\x00"` as the number 1.
pub fn reader_of(alloc: Global, format: &KeptFormat, size: usize) -> Made<ItemReader>
    ensures reads { IfOk result (λ reader. (bytes : _) → length bytes ≡ size → reading.read_by reader bytes ≡ item_by format.now bytes) }
    ensures spelled { IfOk result (λ reader. reading.IsSpelledBy format.now reader) }
{
    if size == 1 && is_byte_format(format.as_slice()) {
        return Ok(ItemReader::Byte);
    }
    match FormatSpec::parse(alloc, format.as_slice())? {
        Outcome::Done(format) => Ok(ItemReader::Fields(format)),
        Outcome::Refused(_) => Ok(ItemReader::Nothing),
    }
}

/// The item of these bytes. Bytes of another number than the format's size read as no values.
/// Example: by `ItemReader::Byte` the byte 97 is the number 97, and two bytes are no values.
pub fn read_by(alloc: Global, reader: &ItemReader, bytes: &[u8]) -> Made<Item>
    ensures { IfOk result (λ item. item ≡ reading.read_by reader.now bytes.now) }
{
    match reader {
        ItemReader::Byte => match bytes {
            [byte] => Ok(byte_item(*byte)),
            _ => Ok(Item::Many(ScalarList::new(alloc))),
        },
        ItemReader::Fields(format) => match format.unpack(alloc, bytes)? {
            Outcome::Done(values) => Ok(item_of(values)),
            Outcome::Refused(_) => Ok(Item::Many(ScalarList::new(alloc))),
        },
        ItemReader::Nothing => Ok(Item::Many(ScalarList::new(alloc))),
    }
}
