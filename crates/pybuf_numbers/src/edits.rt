//! Numbers that are added to others, or taken out.
ghost use Rattle.std.specs.Prelude.{◌≡◌, ◌<◌, ◌≤◌, suc, [], ◌∷◌, ◌++◌, true, length, All, IfOk, OnOk, OnErr};
ghost use Rattle.pybuf_slice.specs.Edits.{replaced_range};
ghost use Rattle.pybuf_numbers.specs.Codes.{holds};
ghost use Rattle.pybuf_numbers.specs.Numbers as spec;

use crate::codes::ArrayCode;
use crate::laws::numbers_read_back;
use crate::reads::start_of;
use crate::words::word_of;
use pybuf_slice::SliceableSequenceMutOp;
use pybuf_value::Made;
use std::alloc::Global;

/// Adds a number at the end. Where memory runs out, the bytes are as before.
///
/// Example: of `ArrayCode::UShort` with 258 it makes `b"\x05\0\x02\x01"` of `b"\x05\0"`.
#[inline]
pub fn push_number(code: ArrayCode, bytes: &mut Vec<u8>, number: i128) -> Made<()>
    requires whole { spec.is_whole code bytes.old.items ≡ true }
    requires range { holds code number ≡ true }
    ensures numbers { OnOk result (spec.numbers_of code bytes.new.items ≡ spec.numbers_of code bytes.old.items ++ number ∷ []) }
    ensures whole { OnOk result (spec.is_whole code bytes.new.items ≡ true) }
    ensures err { OnErr result (bytes.new.items ≡ bytes.old.items) }
{
    let word = word_of(code, number);
    bytes.extend_from_slice(&word[..code.size()])?;
    Ok(())
}

/// Adds the numbers of other bytes at the end. Where memory runs out, the bytes are as before.
///
/// Example: of `ArrayCode::UShort` with `b"\x02\x01"` it makes `b"\x05\0\x02\x01"` of `b"\x05\0"`.
pub fn push_bytes(code: ArrayCode, bytes: &mut Vec<u8>, others: &[u8]) -> Made<()>
    requires whole { spec.is_whole code bytes.old.items ≡ true }
    requires others { spec.is_whole code others.now ≡ true }
    ensures numbers { OnOk result (spec.numbers_of code bytes.new.items ≡ spec.numbers_of code bytes.old.items ++ spec.numbers_of code others.now) }
    ensures whole { OnOk result (spec.is_whole code bytes.new.items ≡ true) }
    ensures err { OnErr result (bytes.new.items ≡ bytes.old.items) }
{
    bytes.extend_from_slice(others)?;
    Ok(())
}

/// The bytes of numbers, one after the other. Memory is taken once.
///
/// Example: of `ArrayCode::UShort` and the numbers 5 and 258 it gives `b"\x05\0\x02\x01"`.
pub fn bytes_of(alloc: Global, code: ArrayCode, numbers: &[i128]) -> Made<Vec<u8>>
    requires { All (λ n. holds code n ≡ true) numbers.now }
    ensures bytes { IfOk result (λ bytes. bytes.items ≡ spec.bytes_of code numbers.now) }
    ensures numbers { IfOk result (λ bytes. spec.numbers_of code bytes.items ≡ numbers.now) }
    ensures whole { IfOk result (λ bytes. spec.is_whole code bytes.items ≡ true) }
{
    numbers_read_back();
    let mut bytes = Vec::new(alloc);
    if let Some(room) = numbers.len().checked_mul(code.size()) {
        bytes.reserve(room)?;
    }
    for number in numbers {
        let word = word_of(code, *number);
        bytes.extend_from_slice(&word[..code.size()])?;
    }
    Ok(bytes)
}

/// Puts a number before the one at a place, or behind all where the place is their number. Where memory
/// runs out, the bytes are as before.
///
/// Example: of `ArrayCode::UShort` at 0 with 258 it makes `b"\x02\x01\x05\0"` of `b"\x05\0"`.
pub fn insert_number(
    alloc: Global,
    code: ArrayCode,
    bytes: &mut Vec<u8>,
    place: usize,
    number: i128,
) -> Made<()>
    requires whole { spec.is_whole code bytes.old.items ≡ true }
    requires range { holds code number ≡ true }
    requires there { place ≤ length (spec.numbers_of code bytes.old.items) }
    ensures numbers { OnOk result (spec.numbers_of code bytes.new.items ≡ replaced_range (spec.numbers_of code bytes.old.items) place place (number ∷ [])) }
    ensures whole { OnOk result (spec.is_whole code bytes.new.items ≡ true) }
    ensures err { OnErr result (bytes.new.items ≡ bytes.old.items) }
{
    let at = start_of(code, bytes.as_slice(), place);
    let size = code.size();
    let word = word_of(code, number);
    bytes.do_set_range(alloc, at..at, &word[..size])?;
    Ok(())
}

/// Takes the number at a place out. Takes no memory.
///
/// Example: of `ArrayCode::UShort` at 0 it makes `b"\x02\x01"` of `b"\x05\0\x02\x01"`.
pub fn remove_number(code: ArrayCode, bytes: &mut Vec<u8>, place: usize)
    requires whole { spec.is_whole code bytes.old.items ≡ true }
    requires there { place < length (spec.numbers_of code bytes.old.items) }
    ensures numbers { spec.numbers_of code bytes.new.items ≡ replaced_range (spec.numbers_of code bytes.old.items) place (suc place) [] }
    ensures whole { spec.is_whole code bytes.new.items ≡ true }
{
    let at = start_of(code, bytes.as_slice(), place);
    let size = code.size();
    bytes.do_delete_range(at..at + size);
}
