//! One number and its bytes.
ghost use Rattle.std.specs.Prelude.{◌≡◌, length, take, true, false, IsTrue};
ghost use Rattle.pybuf_struct.specs.Digits.{is_width, unsigned_number};
ghost use Rattle.pybuf_numbers.specs.Codes.{size_of, holds};
ghost use Rattle.pybuf_numbers.specs.Numbers as spec;

use crate::codes::ArrayCode;

/// The number that bytes spell without a sign, the first of them worth least.
#[inline]
fn unsigned_number(bytes: &[u8]) -> u64
    requires { IsTrue (is_width (length bytes.now)) }
    ensures { result ≡ unsigned_number false bytes.now }
{
    match bytes {
        [a] => u64::from(*a),
        [a, b] => u64::from(u16::from_le_bytes([*a, *b])),
        [a, b, c, d] => u64::from(u32::from_le_bytes([*a, *b, *c, *d])),
        [a, b, c, d, e, f, g, h] => u64::from_le_bytes([*a, *b, *c, *d, *e, *f, *g, *h]),
        _ => 0,
    }
}

/// The number that the bytes of one spell.
#[inline]
pub(crate) fn number_in(code: ArrayCode, bytes: &[u8]) -> i128
    requires { length bytes.now ≡ size_of code }
    ensures { result ≡ spec.number_in code bytes.now }
{
    let number = i128::from(unsigned_number(bytes));
    let modulus = code.modulus();
    if code.is_signed() && 2 * number >= modulus {
        number - modulus
    } else {
        number
    }
}

/// The bytes of a number, with others behind them where it has fewer than eight.
#[inline]
pub(crate) fn word_of(code: ArrayCode, number: i128) -> [u8; 8]
    requires { holds code number ≡ true }
    ensures { take (size_of code) result ≡ spec.digits_of code number }
{
    let word = if number < 0 {
        (number + code.modulus()) as u64
    } else {
        number as u64
    };
    word.to_le_bytes()
}
