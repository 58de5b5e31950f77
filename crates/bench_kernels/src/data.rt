//! The bytes that the kernels work on: drawn from a seed, or made of drawn ones, as the scripts in `bench/` make them.

use pybuf_value::Made;
use std::alloc::Global;

/// The number after another, by the shifts of Marsaglia's xorshift. None of them leaves 0.
fn next(number: u64) -> u64 {
    let mut state = number;
    state ^= state << 13;
    state ^= state >> 7;
    state ^= state << 17;
    state
}

/// So many drawn bytes: each number gives eight, the lowest first. The first number is none that is drawn, and
/// never 0.
pub fn drawn(alloc: Global, seed: u64, size: usize) -> Made<Vec<u8>> {
    let mut number = seed.wrapping_mul(0x9E37_79B9_7F4A_7C15) | 1;
    let mut bytes = Vec::with_capacity(alloc, size)?;
    for _ in 0..size / 8 {
        number = next(number);
        bytes.extend_from_slice(&number.to_le_bytes())?;
    }
    bytes.resize(size, 0)?;
    Ok(bytes)
}

/// Numbers of two bytes as numbers of four.
pub fn widened(alloc: Global, narrow: &[u8]) -> Made<Vec<u8>> {
    let mut wide = Vec::with_capacity(alloc, narrow.len().saturating_mul(2))?;
    for k in 0..narrow.len() / 2 {
        wide.extend_from_slice(&[narrow[2 * k], narrow[2 * k + 1], 0, 0])?;
    }
    Ok(wide)
}

/// The byte of a text that a drawn byte stands for: mostly letters from `a` to `w`, and some capital
/// letters, blanks, commas and line ends.
fn letter_of(drawn: u8) -> u8 {
    match drawn {
        0..=199 => b'a' + drawn % 23,
        200..=215 => b'A' + (drawn - 200),
        216..=239 => b' ',
        240..=251 => b',',
        _ => b'\n',
    }
}

/// A drawn text of so many bytes. `z` and `cba` stand nowhere in it.
pub fn drawn_text(alloc: Global, seed: u64, size: usize) -> Made<Vec<u8>> {
    let mut text = drawn(alloc, seed, size)?;
    let mut before = (b' ', b' ');
    for byte in text.iter_mut() {
        let letter = letter_of(*byte);
        let is_third = before == (b'c', b'b') && letter == b'a';
        *byte = if is_third { b'd' } else { letter };
        before = (before.1, *byte);
    }
    Ok(text)
}

/// So many bytes of which the first and the last quarter are blanks.
pub fn padded(alloc: Global, size: usize) -> Made<Vec<u8>> {
    let edge = size / 4;
    let mut bytes = vec![in alloc; b'x'; size]?;
    for byte in bytes.iter_mut().take(edge) {
        *byte = b' ';
    }
    for byte in bytes.iter_mut().rev().take(edge) {
        *byte = b' ';
    }
    Ok(bytes)
}
