//! How often a byte occurs.
ghost use Rattle.std.specs.Prelude.{◌≡◌, ◌==◌, count_by};

use std::simd::prelude::*;

/// How many lanes hold the byte.
#[inline(always)]
fn lanes_with(lanes: u8x16, byte: u8) -> usize
    ensures { result ≡ count_by (λ x. x == byte) lanes }
{
    lanes.simd_eq(u8x16::splat(byte)).to_bitmask().count_ones() as usize
}

/// How many of a few bytes are the one.
#[inline(always)]
fn count_few(bytes: &[u8], byte: u8) -> usize
    ensures { result ≡ count_by (λ x. x == byte) bytes.now }
{
    bytes.iter().filter(|x| **x == byte).count()
}

/// How many of the bytes are the one: from 0 to their number. Takes no memory.
///
/// Example: `count_byte(b"banana", b'a')` is 3.
pub fn count_byte(bytes: &[u8], byte: u8) -> usize
    ensures { result ≡ count_by (λ x. x == byte) bytes.now }
{
    let _len = bytes.len();
    let mut count = 0;
    let mut rest = bytes;
    while let Some((lanes, behind)) = rest.split_first_chunk::<16>() {
        count += lanes_with(u8x16::from_array(*lanes), byte);
        rest = behind;
    }
    count + count_few(rest, byte)
}
