//! The formats of Python's `struct` module: texts to formats, and bytes to values by them.
#![tactic(auto)]

mod cursor;
mod digits;
mod format;
mod laws;
mod native;
mod pack;
mod parse;
mod single;
mod table;
mod typed;
mod unpack;

pub use format::{FormatCode, FormatSpec};
pub use laws::{
    bytes_of_the_size_are_read, codes_are_allowed, fields_lie_in_order, formats_read_back,
    native_codes_are_spelled, native_codes_have_their_size, packing_fills_the_format,
    reads_what_was_written, sizes_end_the_codes, writes_what_was_read,
};
pub use native::{is_byte_format, native_single_code};
pub use single::{is_numeric_letter, pack_single, single_value};
pub use table::{Endianness, FormatType};
