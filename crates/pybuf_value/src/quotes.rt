//! Bytes between quotes, as Python's `repr` writes them.
ghost use Rattle.std.specs.Prelude.{◌≡◌, ◌==◌, ◌++◌, ◌∷◌, [], ◌+◌, ◌*◌, ◌≤◌, ◌<◌, OnOk, OnErr, codes, length, take, slice_index};
ghost use Rattle.std.specs.List.{flat_map, list_any};
ghost use Rattle.pybuf_value.specs.Quotes.{quote_of, is_plain, digits_of, escaped_byte, quoted_text};

use crate::list::ByteList;
use crate::plain::place_of_byte;
use pybuf_copy::{Made, NoMemory};
use std::alloc::Global;
use std::mem;

/// Whether the bytes hold a byte.
fn holds(bytes: &[u8], byte: u8) -> bool
    ensures { result ≡ list_any (λ b. b == byte) bytes.now }
{
    place_of_byte(bytes, byte).is_some()
}

/// The quote that Python's `repr` writes round the bytes: a double one where they hold a single
/// quote and no double one, and else a single one.
///
/// Example: `quote(b"it's")` is `b'"'`, and `quote(b"a")` is `b'\''`.
pub fn quote(bytes: &[u8]) -> u8
    ensures value { result ≡ quote_of bytes.now }
    ensures ascii { result < 128 }
{
    if holds(bytes, b'\'') {
        if !holds(bytes, b'"') {
            return b'"';
        }
    }
    b'\''
}

/// The two hexadecimal digits of a byte, the higher one first.
#[tactic(auto, using(crate::proofs::HexadecimalLemmas::lower_is_ascii), unfolding(hex::specs::Hex::encode_with))]
pub(crate) fn hexadecimal(byte: u8) -> [u8; 2]
    ensures value { result ≡ digits_of byte }
    ensures ascii { (slice_index result 0 < 128) × (slice_index result 1 < 128) }
{
    let mut digits = [0; 2];
    // the room has a place for both digits of a byte, so this is never refused
    let _ = hex::encode_to_slice([byte], &mut digits);
    digits
}

/// Adds a byte as `\x` and two hexadecimal digits.
fn push_hexadecimal(out: &mut Vec<u8>, byte: u8) -> Made<()>
    ensures ok { OnOk result (out.new.items ≡ out.old.items ++ codes "\\x" ++ digits_of byte) }
    ensures err { OnErr result (out.new.items ≡ out.old.items) }
{
    let digits = hexadecimal(byte);
    out.extend_from_slice(&[b'\\', b'x', digits[0], digits[1]])?;
    Ok(())
}

/// Adds a byte as it stands between such quotes: with a backslash before the quote and before a
/// backslash, `\t`, `\n` and `\r` for these three, and `\x` with two digits for any other byte that
/// isn't printed of ASCII.
///
/// Where memory runs out, nothing is added.
///
/// Example: for the quote `b'\''` it adds `a` for `b'a'`, and `\x00` for the byte 0.
pub fn push_escaped(out: &mut Vec<u8>, quote: u8, byte: u8) -> Made<()>
    ensures ok { OnOk result (out.new.items ≡ out.old.items ++ escaped_byte quote byte) }
    ensures err { OnErr result (out.new.items ≡ out.old.items) }
{
    if byte == quote {
        out.extend_from_slice(&[b'\\', byte])?;
        return Ok(());
    }
    if byte == b'\\' {
        out.extend_from_slice(b"\\\\")?;
        return Ok(());
    }
    if byte == b'\t' {
        out.extend_from_slice(b"\\t")?;
        return Ok(());
    }
    if byte == b'\n' {
        out.extend_from_slice(b"\\n")?;
        return Ok(());
    }
    if byte == b'\r' {
        out.extend_from_slice(b"\\r")?;
        return Ok(());
    }
    if byte >= 32 {
        if byte <= 126 {
            out.push(byte)?;
            return Ok(());
        }
    }
    push_hexadecimal(out, byte)?;
    Ok(())
}

/// Whether a byte stands between such quotes as it is.
fn is_plain(quote: u8, byte: u8) -> bool
    ensures { result ≡ is_plain quote byte }
{
    byte >= 32 && byte <= 126 && byte != quote && byte != b'\\'
}

/// Adds the bytes as they stand between such quotes, each run of those that stand as they are at once.
/// Where memory runs out, a part of them may have been added.
fn write_escaped(out: &mut Vec<u8>, quote: u8, bytes: &[u8]) -> Made<()>
    ensures ok { OnOk result (out.new.items ≡ out.old.items ++ flat_map (escaped_byte quote) bytes.now) }
    ensures err { OnErr result (take (length out.old.items) out.new.items ≡ out.old.items) }
{
    let mut start = 0;
    for (i, byte) in bytes.iter().enumerate() {
        if !is_plain(quote, *byte) {
            out.extend_from_slice(&bytes[start..i])?;
            push_escaped(out, quote, *byte)?;
            start = i + 1;
        }
    }
    out.extend_from_slice(&bytes[start..])?;
    Ok(())
}

/// Adds the bytes between quotes. Where memory runs out, a part of them may have been added.
fn write_quoted(out: &mut Vec<u8>, bytes: &[u8]) -> Made<()>
    ensures ok { OnOk result (out.new.items ≡ out.old.items ++ quoted_text bytes.now) }
    ensures err { OnErr result (take (length out.old.items) out.new.items ≡ out.old.items) }
{
    let quote = quote(bytes);
    out.push(quote)?;
    write_escaped(out, quote, bytes)?;
    Ok(out.push(quote)?)
}

/// Adds the bytes between quotes, as Python's `repr` writes them, without the `b`. Where memory runs
/// out, nothing is added.
///
/// Example: of `b"a\0"` it adds `'a\x00'`.
pub fn push_quoted(out: &mut Vec<u8>, bytes: &[u8]) -> Made<()>
    ensures ok { OnOk result (out.new.items ≡ out.old.items ++ quoted_text bytes.now) }
    ensures err { OnErr result (out.new.items ≡ out.old.items) }
{
    let length = out.len();
    let written = write_quoted(out, bytes);
    if written.is_err() {
        out.truncate(length);
    }
    written
}

/// The number of bytes that a byte takes between quotes.
fn escaped_length(quote: u8, byte: u8) -> u128
    ensures value { result ≡ length (escaped_byte quote byte) }
    ensures small { result ≤ 4 }
{
    if quote == byte {
        return 2;
    }
    if byte == b'\\' {
        return 2;
    }
    if byte == b'\t' {
        return 2;
    }
    if byte == b'\n' {
        return 2;
    }
    if byte == b'\r' {
        return 2;
    }
    if byte >= 32 {
        if byte <= 126 {
            return 1;
        }
    }
    4
}

/// The number of bytes that the bytes take between quotes, with the quotes.
pub(crate) fn quoted_length(bytes: &[u8]) -> u128
    ensures value { result ≡ length (quoted_text bytes.now) }
    ensures small { result ≤ 4 * length bytes.now + 2 }
{
    let quote = quote(bytes);
    let mut total = 2;
    for byte in bytes {
        total += escaped_length(quote, *byte);
    }
    total
}

/// Adds the bytes between quotes, as Python's `repr` writes them, without the `b`: the quote, each
/// byte as it stands between such quotes, and the quote (Python's library reference, "Bytes
/// Objects"). The room is taken once. Where memory runs out, `out` is as before.
///
/// Example: of `b"it's"` it adds `"it's"`.
pub fn escaped(alloc: Global, bytes: &[u8], out: &mut ByteList) -> Made<()>
    ensures ok { OnOk result (out.new ≡ out.old ++ quoted_text bytes.now) }
    ensures err { OnErr result (out.new ≡ out.old) }
{
    let length = quoted_length(bytes);
    if length > isize::MAX as u128 {
        return Err(NoMemory);
    }
    let mut text = mem::replace(out, ByteList::new(alloc)).into_vec();
    let written = with_room(&mut text, length as usize, bytes);
    *out = ByteList::from_vec(text);
    written
}

/// Takes the room, and adds the bytes between quotes.
fn with_room(out: &mut Vec<u8>, room: usize, bytes: &[u8]) -> Made<()>
    ensures ok { OnOk result (out.new.items ≡ out.old.items ++ quoted_text bytes.now) }
    ensures err { OnErr result (out.new.items ≡ out.old.items) }
{
    out.reserve(room)?;
    push_quoted(out, bytes)
}
