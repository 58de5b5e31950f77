//! Formats of one native code, maybe behind `@`: those that a view may be cast to.
ghost use Rattle.std.specs.Prelude.{◌≡◌};
ghost use Rattle.pybuf_struct.specs.declared.table.Endianness.TheVariants as order;
ghost use Rattle.pybuf_struct.specs.Table.{size_of};
ghost use Rattle.pybuf_struct.specs.Natives as spec;

use crate::single::single_code;
use crate::table::{Endianness, FormatType};

/// A text without the `@` that it begins with.
fn without_at(text: &[u8]) -> &[u8]
    ensures { result.now ≡ spec.without_at text.now }
{
    match text {
        [b'@', rest @ ..] => rest,
        _ => text,
    }
}

/// Whether a code is one of an item by itself, as all are but `x`, `s` and `p`.
fn is_item_code(code: FormatType) -> bool
    ensures { result ≡ spec.is_item_code code }
{
    !matches!(code, FormatType::Pad | FormatType::Str | FormatType::Pascal)
}

/// The code of a format that is one native code: a letter of `c b B ? h H i I l L q Q n N u`, alone or behind `@`.
/// None for every other text. Takes no memory.
///
/// These are the formats that a view may be cast to, as in Python ("Built-in Types", `memoryview.cast`), and `u`.
///
/// Example: `native_single_code(b"@H")` is `Some(FormatType::UShort)`, and `native_single_code(b"<H")` is `None`.
pub fn native_single_code(text: &[u8]) -> Option<FormatType>
    ensures { result ≡ spec.native_single_code text.now }
{
    let code = single_code(without_at(text))?;
    if is_item_code(code) { Some(code) } else { None }
}

/// Whether the items of a format are single bytes: it is `b`, `B` or `c`, alone or behind `@`. Takes no memory.
///
/// Example: `is_byte_format(b"@c")` is `true`, and `is_byte_format(b"H")` is `false`.
pub fn is_byte_format(text: &[u8]) -> bool
    ensures { result ≡ spec.is_byte_format text.now }
{
    match native_single_code(text) {
        Some(code) => code.is_byte(),
        None => false,
    }
}

impl FormatType {
    /// Whether the items of the code are single bytes, as those of `b`, `B` and `c`.
    ///
    /// Example: `FormatType::Char.is_byte()` is `true`, and `FormatType::Pad.is_byte()` is `false`.
    pub fn is_byte(self) -> bool
        ensures { result ≡ spec.is_byte_code self }
    {
        matches!(
            self,
            FormatType::SByte | FormatType::UByte | FormatType::Char
        )
    }

    /// The bytes of one item of the code alone, as the format that is its letter has them.
    ///
    /// Example: `FormatType::UInt.native_size()` is 4.
    pub fn native_size(self) -> usize
        ensures { result ≡ size_of order.Native self }
    {
        self.size(Endianness::Native)
    }
}
