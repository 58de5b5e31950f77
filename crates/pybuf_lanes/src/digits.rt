//! Bytes as hexadecimal digits.
ghost use Rattle.std.specs.Prelude.{◌≡◌, ◌*◌, ◌/◌, ◌%◌, ◌<◌, length, map, slice_index};
ghost use Rattle.std.specs.Simd.Lanes.{Each1};
ghost use Rattle.hex.specs.Hex.{encode_lower, lower_digits};

use std::simd::prelude::*;

/// The digit of each lane's number.
#[inline(always)]
fn digit_lanes(numbers: u8x16) -> u8x16
    requires { Each1 (λ n. n < 16) numbers }
    ensures { result ≡ map (λ n. slice_index lower_digits n) numbers }
{
    u8x16::from_array(*b"0123456789abcdef").swizzle_dyn(numbers)
}

/// The upper four bits of each lane.
#[inline(always)]
fn high_lanes(bytes: u8x16) -> u8x16
    ensures value { result ≡ map (λ b. b / 16) bytes }
    ensures small { Each1 (λ n. n < 16) result }
{
    bytes >> u8x16::splat(4)
}

/// The lower four bits of each lane.
#[inline(always)]
fn low_lanes(bytes: u8x16) -> u8x16
    ensures value { result ≡ map (λ b. b % 16) bytes }
    ensures small { Each1 (λ n. n < 16) result }
{
    bytes & u8x16::splat(15)
}

/// The two digits of each lane.
#[inline(always)]
fn pair_lanes(bytes: u8x16) -> u8x32
    ensures { result ≡ encode_lower bytes }
{
    let high = digit_lanes(high_lanes(bytes));
    let low = digit_lanes(low_lanes(bytes));
    high.shuffle(
        low,
        [
            0, 16, 1, 17, 2, 18, 3, 19, 4, 20, 5, 21, 6, 22, 7, 23, 8, 24, 9, 25, 10, 26, 11, 27,
            12, 28, 13, 29, 14, 30, 15, 31,
        ],
    )
}

/// Writes the two lower-case digits of each byte over a room of twice as many bytes. Takes no memory.
///
/// Example: of the bytes 1 and 171 it writes `01ab`.
pub fn write_digits(bytes: &[u8], room: &mut [u8])
    requires { length room.old ≡ 2 * length bytes.now }
    ensures { room.new ≡ encode_lower bytes.now }
{
    let mut at = 0;
    while bytes.len() - at >= 16 {
        pair_lanes(u8x16::from_slice(&bytes[at..])).copy_to_slice(&mut room[2 * at..]);
        at += 16;
    }
    // the rest of the room is twice as long as the rest of the bytes, so this is no refusal
    let _ = hex::encode_to_slice(&bytes[at..], &mut room[2 * at..]);
}
