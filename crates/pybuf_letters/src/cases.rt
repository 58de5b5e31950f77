//! Bytes with their letters in another case.
ghost use Rattle.std.specs.Prelude.{◌≡◌, IfOk};
ghost use Rattle.pybuf_letters.specs.Cases as spec;

use bstr::ByteSlice;
use pybuf_value::Made;
use std::alloc::Global;

/// The bytes with each letter in lower case, as of Python's `bytes.lower` (Library reference, "Bytes
/// and Bytearray Operations"). The letters of ASCII alone are letters.
///
/// Example: of `b"aB1"` it gives `b"ab1"`.
pub fn lower(alloc: Global, bytes: &[u8]) -> Made<Vec<u8>>
    ensures { IfOk result (λ made. made.items ≡ spec.lower bytes.now) }
{
    Ok(bytes.to_ascii_lowercase(alloc)?)
}

/// The bytes with each letter in upper case, as of Python's `bytes.upper`.
///
/// Example: of `b"aB1"` it gives `b"AB1"`.
pub fn upper(alloc: Global, bytes: &[u8]) -> Made<Vec<u8>>
    ensures { IfOk result (λ made. made.items ≡ spec.upper bytes.now) }
{
    Ok(bytes.to_ascii_uppercase(alloc)?)
}

/// A letter in the other case; any other byte as it is.
fn swapped(b: u8) -> u8
    ensures { result ≡ spec.swapped b }
{
    if b.is_ascii_lowercase() {
        return b.to_ascii_uppercase();
    }
    b.to_ascii_lowercase()
}

/// The bytes with each letter in the other case, as of Python's `bytes.swapcase`.
///
/// Example: of `b"aB1"` it gives `b"Ab1"`.
pub fn swapcase(alloc: Global, bytes: &[u8]) -> Made<Vec<u8>>
    ensures { IfOk result (λ made. made.items ≡ spec.swapcase bytes.now) }
{
    let mut made = Vec::with_capacity(alloc, bytes.len())?;
    for b in bytes {
        made.push(swapped(*b))?;
    }
    Ok(made)
}

/// The bytes with the first byte in upper case and the rest in lower case, as of Python's
/// `bytes.capitalize`.
///
/// Example: of `b"aB c"` it gives `b"Ab c"`.
pub fn capitalize(alloc: Global, bytes: &[u8]) -> Made<Vec<u8>>
    ensures { IfOk result (λ made. made.items ≡ spec.capitalize bytes.now) }
{
    let mut made = bytes.to_ascii_lowercase(alloc)?;
    if !bytes.is_empty() {
        made[0] = bytes[0].to_ascii_uppercase();
    }
    Ok(made)
}

/// A byte in lower case after a letter, and in upper case after none.
fn title_byte(after_letter: bool, b: u8) -> u8
    ensures { result ≡ spec.title_byte after_letter b }
{
    if after_letter {
        return b.to_ascii_lowercase();
    }
    b.to_ascii_uppercase()
}

/// The bytes with each letter that stands behind no other letter in upper case, and with every other
/// letter in lower case, as of Python's `bytes.title`.
///
/// Example: of `b"aB c1d"` it gives `b"Ab C1D"`.
pub fn title(alloc: Global, bytes: &[u8]) -> Made<Vec<u8>>
    ensures { IfOk result (λ made. made.items ≡ spec.title bytes.now) }
{
    let mut made = Vec::with_capacity(alloc, bytes.len())?;
    let mut after_letter = false;
    for b in bytes {
        made.push(title_byte(after_letter, *b))?;
        after_letter = b.is_ascii_alphabetic();
    }
    Ok(made)
}
