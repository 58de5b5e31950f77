//! Readers by whose items bytes can be told apart.
ghost use Rattle.std.specs.Prelude.{◌≡◌};
ghost use Rattle.pybuf_struct.specs.Laws as law;
ghost use Rattle.pybuf_equality.specs.Exact as spec;

use pybuf_memoryview::ItemReader;
use pybuf_struct::{FormatCode, FormatSpec, FormatType};

/// Whether every byte of a code's fields is part of their values.
fn is_exact(code: FormatType) -> bool
    ensures { result ≡ law.is_exact code }
{
    match code {
        FormatType::Pad => false,
        FormatType::Bool => false,
        FormatType::Pascal => false,
        _ => true,
    }
}

/// Whether a code has no padding before it, and every byte of its fields is part of their values.
fn is_exact_code(code: &FormatCode) -> bool
    ensures { result ≡ spec.is_exact_code code.now }
{
    code.pre_padding() == 0 && is_exact(code.code())
}

/// The same of each code of a format.
fn has_exact_codes(format: &FormatSpec) -> bool
    ensures { result ≡ spec.has_exact_codes format.now }
{
    format.codes().iter().all(is_exact_code)
}

/// Whether a format has this size, and every byte of an item is part of its values.
fn is_exact_format(format: &FormatSpec, size: usize) -> bool
    ensures { result ≡ spec.is_exact_format format.now size }
{
    if format.size() != size {
        return false;
    }
    has_exact_codes(format)
}

/// Whether items of so many bytes are equal exactly where their bytes are the same.
pub(crate) fn is_exact_reader(reader: &ItemReader, size: usize) -> bool
    ensures { result ≡ spec.is_exact_reader reader.now size }
{
    match reader {
        ItemReader::Byte => size == 1,
        ItemReader::Fields(format) => is_exact_format(format, size),
        ItemReader::Nothing => false,
    }
}
