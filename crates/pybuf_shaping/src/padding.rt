//! Bytes filled up to a width.
ghost use Rattle.std.specs.Prelude.{◌≡◌, ◌+◌, ◌<◌, ◌≤◌, ◌^◌, ◌↔◌, IfOk, length};
ghost use Rattle.pybuf_shaping.specs.Padding as spec;

use pybuf_value::{ByteList, Made};
use std::alloc::Global;

/// How many bytes are missing to a width.
fn missing(width: isize, bytes: &[u8]) -> usize
    ensures value { result ≡ spec.missing width bytes.now }
    ensures small { result + length bytes.now < 2 ^ 63 }
{
    if width < 0 {
        return 0;
    }
    (width as usize).saturating_sub(bytes.len())
}

/// The bytes between so many fill bytes on the left and on the right, in room that is taken once.
///
/// Example: `pad(alloc, b"ab", 1, 2, b'*')` gives `b"*ab**"`.
pub fn pad(alloc: Global, bytes: &[u8], left: usize, right: usize, fill: u8) -> Made<ByteList>
    requires { left + length bytes.now + right < 2 ^ 63 }
    ensures { IfOk result (λ list. list ≡ spec.padded left right fill bytes.now) }
{
    let behind = left + bytes.len();
    let mut list = Vec::with_capacity(alloc, behind + right)?;
    list.resize(left, fill)?;
    list.extend_from_slice(bytes)?;
    list.resize(behind + right, fill)?;
    Ok(ByteList::from_vec(list))
}

/// How many of the missing bytes stand on the left.
fn left_share(width: isize, count: usize) -> usize
    ensures value { result ≡ spec.left_share width count }
    ensures small { result ≤ count }
{
    if width >= 0 {
        if count % 2 == 1 && width as usize % 2 == 1 {
            return count / 2 + 1;
        }
    }
    count / 2
}

/// The bytes in the middle of a width, filled up on both sides; the bytes where they are long enough. Of
/// an odd number of missing bytes one more stands on the left where the width is odd too, and else on
/// the right (Python's library reference, "Bytes and Bytearray Operations", `bytes.center`).
///
/// Example: `center(alloc, b"ab", 5, b'*')` gives `b"**ab*"`, and `center(alloc, b"abc", 6, b'*')` gives `b"*abc**"`.
pub fn center(alloc: Global, bytes: &[u8], width: isize, fill: u8) -> Made<ByteList>
    ensures { IfOk result (λ list. list ≡ spec.centered width fill bytes.now) }
{
    let count = missing(width, bytes);
    let left = left_share(width, count);
    pad(alloc, bytes, left, count - left, fill)
}

/// The bytes on the left of a width, filled up on the right; the bytes where they are long enough
/// (library reference, "Bytes and Bytearray Operations", `bytes.ljust`).
///
/// Example: `justify_left(alloc, b"ab", 4, b'*')` gives `b"ab**"`.
pub fn justify_left(alloc: Global, bytes: &[u8], width: isize, fill: u8) -> Made<ByteList>
    ensures { IfOk result (λ list. list ≡ spec.justified_left width fill bytes.now) }
{
    pad(alloc, bytes, 0, missing(width, bytes), fill)
}

/// The bytes on the right of a width, filled up on the left; the bytes where they are long enough
/// (library reference, "Bytes and Bytearray Operations", `bytes.rjust`).
///
/// Example: `justify_right(alloc, b"ab", 4, b'*')` gives `b"**ab"`.
pub fn justify_right(alloc: Global, bytes: &[u8], width: isize, fill: u8) -> Made<ByteList>
    ensures { IfOk result (λ list. list ≡ spec.justified_right width fill bytes.now) }
{
    pad(alloc, bytes, missing(width, bytes), 0, fill)
}

/// The length of a sign that the bytes begin with.
fn sign_length(bytes: &[u8]) -> usize
    ensures value { result ≡ spec.sign_length bytes.now }
    ensures inside { result ≤ length bytes.now }
{
    match bytes {
        [b'+', ..] => 1,
        [b'-', ..] => 1,
        _ => 0,
    }
}

/// The bytes with digits `0` before them up to a width, behind one sign that they begin with; the bytes
/// where they are long enough (library reference, "Bytes and Bytearray Operations", `bytes.zfill`).
///
/// Example: `zero_fill(alloc, b"-5", 4)` gives `b"-005"`.
pub fn zero_fill(alloc: Global, bytes: &[u8], width: isize) -> Made<ByteList>
    ensures { IfOk result (λ list. list ≡ spec.zero_filled width bytes.now) }
{
    let count = missing(width, bytes);
    let (sign, digits) = bytes.split_at(sign_length(bytes));
    let mut list = Vec::with_capacity(alloc, count + bytes.len())?;
    list.extend_from_slice(sign)?;
    list.resize(sign.len() + count, b'0')?;
    list.extend_from_slice(digits)?;
    Ok(ByteList::from_vec(list))
}
