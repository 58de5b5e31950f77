//! Numbers from their bytes, where they lie.
ghost use Rattle.std.specs.Prelude.{◌≡◌, ◌^◌, length, pos, IsTrue};
ghost use Rattle.pybuf_struct.specs.Table.{is_big, is_signed};
ghost use Rattle.pybuf_struct.specs.Digits.{is_width, unsigned_number, number};

use pybuf_struct::{Endianness, FormatType};

/// Whether numbers are big-endian.
pub(crate) fn is_big(order: Endianness) -> bool
    ensures { result ≡ is_big order }
{
    matches!(order, Endianness::Big)
}

/// Whether a number of a code is in two's complement.
pub(crate) fn is_signed(code: FormatType) -> bool
    ensures { result ≡ is_signed code }
{
    matches!(
        code,
        FormatType::SByte
            | FormatType::Short
            | FormatType::Int
            | FormatType::Long
            | FormatType::LongLong
            | FormatType::SSizeT
            | FormatType::WideChar
    )
}

/// The number that bytes spell without a sign.
fn unsigned_number(big: bool, bytes: &[u8]) -> u64
    requires { IsTrue (is_width (length bytes.now)) }
    ensures { result ≡ unsigned_number big bytes.now }
{
    match bytes {
        [a] => u64::from(*a),
        [a, b] => {
            let word = [*a, *b];
            u64::from(if big {
                u16::from_be_bytes(word)
            } else {
                u16::from_le_bytes(word)
            })
        }
        [a, b, c, d] => {
            let word = [*a, *b, *c, *d];
            u64::from(if big {
                u32::from_be_bytes(word)
            } else {
                u32::from_le_bytes(word)
            })
        }
        [a, b, c, d, e, f, g, h] => {
            let word = [*a, *b, *c, *d, *e, *f, *g, *h];
            if big {
                u64::from_be_bytes(word)
            } else {
                u64::from_le_bytes(word)
            }
        }
        _ => 0,
    }
}

/// How many numbers so many bytes can spell.
fn modulus_of(size: usize) -> i128
    requires { IsTrue (is_width size) }
    ensures { result ≡ pos (256 ^ size) }
{
    match size {
        1 => 0x100,
        2 => 0x1_0000,
        4 => 0x1_0000_0000,
        _ => 0x1_0000_0000_0000_0000,
    }
}

/// The number that bytes spell, in two's complement where it is signed.
pub(crate) fn number(big: bool, signed: bool, bytes: &[u8]) -> i128
    requires { IsTrue (is_width (length bytes.now)) }
    ensures { result ≡ number big signed bytes.now }
{
    let n = i128::from(unsigned_number(big, bytes));
    if !signed {
        return n;
    }
    let modulus = modulus_of(bytes.len());
    if 2 * n >= modulus { n - modulus } else { n }
}
