//! Readers of whole numbers.
ghost use Rattle.std.specs.Prelude.{◌≡◌, ℕ, [], ◌∷◌, length, IfSome, IsTrue};
ghost use Rattle.pybuf_struct.specs.Digits.{is_width};
ghost use Rattle.pybuf_struct.specs.Formats.{fields_of_code};
ghost use Rattle.pybuf_struct.specs.Table.{is_big};
ghost use Rattle.pybuf_equality.specs.Reading.{CodeReadsNumber, ReaderReadsNumber, UnpacksNumber};

use pybuf_memoryview::ItemReader;
use pybuf_struct::{Endianness, FormatCode, FormatSpec, FormatType};

/// Whether numbers of a code are signed, of a code whose value is a whole number.
fn sign_of(code: FormatType) -> Option<bool>
    ensures value { IfSome result (λ signed. CodeReadsNumber code signed) }
    ensures field { IfSome result (λ signed. (size offset : ℕ) → fields_of_code code size offset 1 ≡ record { code = code; offset = offset; length = size } ∷ []) }
{
    match code {
        FormatType::Pad
        | FormatType::Char
        | FormatType::Bool
        | FormatType::Str
        | FormatType::Pascal => None,
        FormatType::SByte
        | FormatType::Short
        | FormatType::Int
        | FormatType::Long
        | FormatType::LongLong
        | FormatType::SSizeT
        | FormatType::WideChar => Some(true),
        _ => Some(false),
    }
}

/// Whether numbers have their first byte worth most.
fn is_big(order: Endianness) -> bool
    ensures { result ≡ is_big order }
{
    match order {
        Endianness::Big => true,
        _ => false,
    }
}

/// The code of a list of one.
fn only_code(codes: &[FormatCode]) -> Option<FormatCode>
    ensures { IfSome result (λ code. codes.now ≡ code ∷ []) }
{
    match codes {
        [code] => Some(*code),
        _ => None,
    }
}

/// Whether numbers are signed that items of so many bytes are read as by a format, one number each, whose
/// first byte is worth least.
fn single_sign(format: &FormatSpec, size: usize) -> Option<bool>
    ensures { IfSome result (λ signed. UnpacksNumber format.now size signed) }
{
    if format.size() != size {
        return None;
    }
    if is_big(format.endianness()) {
        return None;
    }
    let code = only_code(format.codes())?;
    if code.repeat() != 1 {
        return None;
    }
    if code.pre_padding() != 0 {
        return None;
    }
    sign_of(code.code())
}

/// Whether a number can have so many bytes.
fn is_width(size: usize) -> bool
    ensures { result ≡ is_width size }
{
    match size {
        1 | 2 | 4 | 8 => true,
        _ => false,
    }
}

/// Whether numbers are signed, where items of so many bytes are read as one whole number each, whose first
/// byte is worth least.
pub(crate) fn number_sign(reader: &ItemReader, size: usize) -> Option<bool>
    ensures reads { IfSome result (λ signed. ReaderReadsNumber reader.now size signed) }
    ensures width { IfSome result (λ signed. IsTrue (is_width size)) }
{
    if !is_width(size) {
        return None;
    }
    match reader {
        ItemReader::Byte => { if size == 1 { Some(false) } else { None } }
        ItemReader::Fields(format) => single_sign(format, size),
        ItemReader::Nothing => None,
    }
}
