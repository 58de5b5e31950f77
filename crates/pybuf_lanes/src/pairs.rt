//! Hexadecimal digits, read in pairs.
ghost use Rattle.std.specs.Prelude.{◌≡◌, ◌+◌, ◌*◌, ◌<◌, ◌≤◌, ◌++◌, length, map, take, IsTrue, IfSome};
ghost use Rattle.std.specs.Simd.Lanes.{Each1, chunk};
ghost use Rattle.pybuf_lanes.specs.Pairs as spec;

use std::simd::prelude::*;

/// Each lane as a decimal digit.
#[inline(always)]
fn decimal_lanes(text: u8x16) -> u8x16
    ensures { result ≡ map spec.as_decimal text }
{
    (text + u8x16::splat(198)).saturating_sub(u8x16::splat(6)) - u8x16::splat(240)
}

/// Each lane as a letter.
#[inline(always)]
fn letter_lanes(text: u8x16) -> u8x16
    ensures { result ≡ map spec.as_letter text }
{
    ((text & u8x16::splat(0xdf)) - u8x16::splat(65)).saturating_add(u8x16::splat(10))
}

/// The value of each lane that is a digit, and 16 in the others. (These steps are Wojciech Mula's.)
#[inline(always)]
fn value_lanes(text: u8x16) -> u8x16
    ensures { result ≡ map spec.value_or_16 text }
{
    decimal_lanes(text)
        .simd_min(letter_lanes(text))
        .simd_min(u8x16::splat(16))
}

/// Whether each lane is below 16.
#[inline(always)]
fn are_values(lanes: u8x16) -> bool
    ensures { IsTrue result → Each1 (λ n. n < 16) lanes }
{
    lanes.simd_ge(u8x16::splat(16)).to_bitmask() == 0
}

/// The bytes of 32 values.
#[inline(always)]
fn byte_lanes(front: u8x16, back: u8x16) -> u8x16
    requires front { Each1 (λ n. n < 16) front }
    requires back { Each1 (λ n. n < 16) back }
    ensures { result ≡ spec.bytes_of_pairs (front ++ back) }
{
    let high: u8x16 = front.shuffle(
        back,
        [0, 2, 4, 6, 8, 10, 12, 14, 16, 18, 20, 22, 24, 26, 28, 30],
    );
    let low: u8x16 = front.shuffle(
        back,
        [1, 3, 5, 7, 9, 11, 13, 15, 17, 19, 21, 23, 25, 27, 29, 31],
    );
    (high << u8x16::splat(4)) + low
}

/// The bytes of 32 digits from a place on, or nothing where one of the 32 is no digit.
#[inline(always)]
fn block_at(text: &[u8], at: usize) -> Option<[u8; 16]>
    requires { at + 32 ≤ length text.now }
    ensures bytes { IfSome result (λ block. block ≡ spec.bytes_of_pairs (map spec.value_or_16 (chunk at 32 text.now))) }
    ensures digits { IfSome result (λ _. spec.AreDigits (chunk at 32 text.now)) }
{
    let front = value_lanes(u8x16::from_slice(&text[at..]));
    let back = value_lanes(u8x16::from_slice(&text[at + 16..]));
    if !are_values(front) || !are_values(back) {
        return None;
    }
    let block = byte_lanes(front, back).to_array();
    Some(block)
}

/// Reads pairs of digits of either case from the front of a text, in blocks of 32 digits, and writes their bytes
/// over the front of a room. It stops before the first block with a byte that is no digit, or where the text or the
/// room has no whole block left, and gives the number of bytes that it wrote. Takes no memory.
///
/// Example: of 40 times `0` it writes 16 bytes that are 0, and gives 16; of `b"01"` it writes nothing.
pub fn read_digits(text: &[u8], room: &mut [u8]) -> usize
    ensures digits { spec.AreDigits (take (2 * result) text.now) }
    ensures bytes { take result room.new ≡ spec.bytes_of_pairs (map spec.value_or_16 (take (2 * result) text.now)) }
    ensures inside { 2 * result ≤ length text.now }
    ensures room_left { result ≤ length room.new }
    ensures same_length { length room.new ≡ length room.old }
{
    let mut at = 0;
    while room.len() - at >= 16 && text.len() - 2 * at >= 32 {
        let Some(block) = block_at(text, 2 * at) else {
            break;
        };
        u8x16::from_array(block).copy_to_slice(&mut room[at..]);
        at += 16;
    }
    at
}
