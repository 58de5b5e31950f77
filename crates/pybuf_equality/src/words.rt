//! Bytes as words: the numbers that they spell, the first byte worth least.
ghost use Rattle.std.specs.Prelude.{◌≡◌, ◌+◌, ◌≤◌, ◌^◌, length, take, drop, pos, false, IsTrue};
ghost use Rattle.pybuf_struct.specs.Digits.{is_width, little_endian, number, signed_as};

/// The word of two bytes from a place on.
#[inline]
fn two(bytes: &[u8], at: usize) -> u64
    requires { at + 2 ≤ length bytes.now }
    ensures { result ≡ little_endian 0 (take 2 (drop at bytes.now)) }
{
    u64::from(bytes[at]) + u64::from(bytes[at + 1]) * 0x100
}

/// The word of four.
#[inline]
fn four(bytes: &[u8], at: usize) -> u64
    requires { at + 4 ≤ length bytes.now }
    ensures { result ≡ little_endian 0 (take 4 (drop at bytes.now)) }
{
    u64::from(bytes[at])
        + u64::from(bytes[at + 1]) * 0x100
        + u64::from(bytes[at + 2]) * 0x1_0000
        + u64::from(bytes[at + 3]) * 0x100_0000
}

/// The word of eight.
#[inline]
fn eight(bytes: &[u8], at: usize) -> u64
    requires { at + 8 ≤ length bytes.now }
    ensures { result ≡ little_endian 0 (take 8 (drop at bytes.now)) }
{
    u64::from(bytes[at])
        + u64::from(bytes[at + 1]) * 0x100
        + u64::from(bytes[at + 2]) * 0x1_0000
        + u64::from(bytes[at + 3]) * 0x100_0000
        + u64::from(bytes[at + 4]) * 0x1_0000_0000
        + u64::from(bytes[at + 5]) * 0x100_0000_0000
        + u64::from(bytes[at + 6]) * 0x1_0000_0000_0000
        + u64::from(bytes[at + 7]) * 0x100_0000_0000_0000
}

/// The word of so many bytes from a place on.
#[inline]
pub(crate) fn word<const SIZE: usize>(bytes: &[u8], at: usize) -> u64
    requires width { IsTrue (is_width SIZE) }
    requires inside { at + SIZE ≤ length bytes.now }
    ensures { result ≡ little_endian 0 (take SIZE (drop at bytes.now)) }
{
    match SIZE {
        1 => u64::from(bytes[at]),
        2 => two(bytes, at),
        4 => four(bytes, at),
        _ => eight(bytes, at),
    }
}

/// A word of so many bytes as a number, in two's complement where it is signed.
#[inline]
fn signed_as<const SIZE: usize>(signed: bool, word: u64) -> i128
    requires { IsTrue (is_width SIZE) }
    ensures { result ≡ signed_as signed SIZE word }
{
    let number = i128::from(word);
    let modulus = match SIZE {
        1 => 0x100,
        2 => 0x1_0000,
        4 => 0x1_0000_0000,
        _ => 0x1_0000_0000_0000_0000,
    };
    if signed && 2 * number >= modulus {
        number - modulus
    } else {
        number
    }
}

/// The number of so many bytes from a place on, in two's complement where it is signed.
#[inline]
pub(crate) fn number<const SIZE: usize>(signed: bool, bytes: &[u8], at: usize) -> i128
    requires width { IsTrue (is_width SIZE) }
    requires inside { at + SIZE ≤ length bytes.now }
    ensures { result ≡ number false signed (take SIZE (drop at bytes.now)) }
{
    signed_as::<SIZE>(signed, word::<SIZE>(bytes, at))
}
