//! Numbers that are written over others.
ghost use Rattle.std.specs.Prelude.{◌≡◌, ◌+◌, ◌*◌, ◌<◌, ◌≤◌, ◌++◌, true, length, map, set, take, drop, reverse};
ghost use Rattle.std.specs.List.{flat_map};
ghost use Rattle.std.specs.Simd.{first_chunks};
ghost use Rattle.pybuf_numbers.specs.Codes.{holds};
ghost use Rattle.pybuf_numbers.specs.Numbers as spec;

use crate::codes::ArrayCode;
use crate::reads::start_of;
use crate::words::word_of;

/// Puts a number in place of the one at a place.
///
/// Example: of `ArrayCode::UShort` at 0 with 258 it makes `b"\x02\x01"` of `b"\x05\0"`.
#[inline]
pub fn put_number(code: ArrayCode, bytes: &mut [u8], place: usize, number: i128)
    requires whole { spec.is_whole code bytes.old ≡ true }
    requires there { place < length (spec.numbers_of code bytes.old) }
    requires range { holds code number ≡ true }
    ensures numbers { spec.numbers_of code bytes.new ≡ set (spec.numbers_of code bytes.old) place number }
    ensures length { length bytes.new ≡ length bytes.old }
{
    let at = start_of(code, bytes, place);
    let size = code.size();
    let word = word_of(code, number);
    bytes[at..at + size].copy_from_slice(&word[..size]);
}

/// Turns a piece of a size that is known when this is compiled round. It is read whole before any of it is written: then
/// the loop over pieces turns several at a time.
#[inline]
fn turn_piece<const SIZE: usize>(bytes: &mut [u8], at: usize)
    requires { at + SIZE ≤ length bytes.old }
    ensures { bytes.new ≡ take at bytes.old ++ (reverse (take SIZE (drop at bytes.old)) ++ drop SIZE (drop at bytes.old)) }
{
    let mut piece = [0; SIZE];
    piece.copy_from_slice(&bytes[at..at + SIZE]);
    piece.reverse();
    bytes[at..at + SIZE].copy_from_slice(&piece);
}

/// Turns each piece of a size round.
fn turn_pieces<const SIZE: usize>(bytes: &mut [u8], count: usize)
    requires { SIZE * count ≤ length bytes.old }
    ensures { bytes.new ≡ flat_map reverse (first_chunks SIZE count bytes.old) ++ drop (SIZE * count) bytes.old }
{
    for k in 0..count {
        let at = SIZE * k;
        turn_piece::<SIZE>(bytes, at);
    }
}

/// Reverses the bytes of each number. It is one pass, and takes no memory.
///
/// Example: of `ArrayCode::UShort` it makes `b"\x01\x02"` of `b"\x02\x01"`.
pub fn swap_numbers(code: ArrayCode, bytes: &mut [u8])
    requires { spec.is_whole code bytes.old ≡ true }
    ensures numbers { spec.numbers_of code bytes.new ≡ map (spec.swapped code) (spec.numbers_of code bytes.old) }
    ensures length { length bytes.new ≡ length bytes.old }
{
    let count = bytes.len() / code.size();
    match code.size() {
        1 => {}
        2 => turn_pieces::<2>(bytes, count),
        4 => turn_pieces::<4>(bytes, count),
        _ => turn_pieces::<8>(bytes, count),
    }
}
