//! Numbers that are read from bytes.
ghost use Rattle.std.specs.Prelude.{◌≡◌, ◌+◌, ◌*◌, ◌<◌, ◌≤◌, length, slice_get, Some, IfOk};
ghost use Rattle.std.specs.List.{position};
ghost use Rattle.std.specs.Ordering.{int_eq};
ghost use Rattle.pybuf_numbers.specs.Codes.{size_of};
ghost use Rattle.pybuf_numbers.specs.Numbers as spec;

use crate::codes::ArrayCode;
use crate::words::number_in;
use pybuf_value::{Made, NumberList};
use std::alloc::Global;

/// Where the bytes of the number at a place begin, or where those of one behind all would.
#[inline]
pub(crate) fn start_of(code: ArrayCode, bytes: &[u8], place: usize) -> usize
    requires { place ≤ length (spec.numbers_of code bytes.now) }
    ensures start { result ≡ size_of code * place }
    ensures low { result ≤ length bytes.now }
    ensures high { place < length (spec.numbers_of code bytes.now) → result + size_of code ≤ length bytes.now }
{
    code.size() * place
}

/// The number at a place.
///
/// Example: of `ArrayCode::UShort` and `b"\x05\0\x02\x01"` at 1 it is 258.
#[inline]
pub fn number_at(code: ArrayCode, bytes: &[u8], place: usize) -> i128
    requires { place < length (spec.numbers_of code bytes.now) }
    ensures { slice_get (spec.numbers_of code bytes.now) place ≡ Some result }
{
    let at = start_of(code, bytes, place);
    let size = code.size();
    number_in(code, &bytes[at..at + size])
}

/// Whether no byte is left over behind the numbers.
///
/// Example: of `ArrayCode::UShort` and `b"\x05\0"` it is `true`, and of `b"\x05\0\x02"` it is `false`.
pub fn is_whole(code: ArrayCode, bytes: &[u8]) -> bool
    ensures { result ≡ spec.is_whole code bytes.now }
{
    bytes.len() % code.size() == 0
}

/// How many numbers bytes spell. Takes no memory.
///
/// Example: of `ArrayCode::UShort` and `b"\x05\0\x02\x01"` it is 2.
#[inline]
pub fn count_of_numbers(code: ArrayCode, bytes: &[u8]) -> usize
    ensures { result ≡ length (spec.numbers_of code bytes.now) }
{
    bytes.len() / code.size()
}

/// The place of the first number that is this one; None exactly where none is.
///
/// Example: of `ArrayCode::UShort`, `b"\x05\0\x02\x01"` and 258 it is `Some(1)`, and of 7 it is `None`.
pub fn place_of_number(code: ArrayCode, bytes: &[u8], number: i128) -> Option<usize>
    ensures { result ≡ position (int_eq number) (spec.numbers_of code bytes.now) }
{
    for place in 0..count_of_numbers(code, bytes) {
        if number_at(code, bytes, place) == number {
            return Some(place);
        }
    }
    None
}

/// All numbers that the bytes spell, in order. It is one pass, and memory is taken once.
///
/// Example: of `ArrayCode::UShort` and `b"\x05\0\x02\x01"` it gives 5, 258.
pub fn numbers(alloc: Global, code: ArrayCode, bytes: &[u8]) -> Made<NumberList>
    ensures { IfOk result (λ list. list ≡ spec.numbers_of code bytes.now) }
{
    let count = count_of_numbers(code, bytes);
    let mut list = Vec::new(alloc);
    list.reserve(count)?;
    for place in 0..count {
        list.push(number_at(code, bytes, place))?;
    }
    Ok(NumberList::from_vec(list))
}
