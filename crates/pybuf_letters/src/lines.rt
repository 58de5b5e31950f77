//! Bytes cut into lines.
ghost use Rattle.std.specs.Prelude.{◌≡◌, ◌≤◌, ◌<◌, ◌∷◌, length, take, drop, IfOk};
ghost use Rattle.pybuf_letters.specs.Lines as spec;

use crate::parts::push_part;
use bstr::ByteSlice;
use pybuf_value::{ByteLists, Made};
use std::alloc::Global;

/// How many bytes the end of a line takes that the bytes begin with.
fn end_length(bytes: &[u8]) -> usize
    requires { 0 < length bytes.now }
    ensures value { result ≡ spec.end_length bytes.now }
    ensures some { 0 < result }
    ensures inside { result ≤ length bytes.now }
{
    match bytes {
        [b'\r', b'\n', ..] => 2,
        _ => 1,
    }
}

/// Where the first line of the bytes ends, without its end and with it.
fn first_line(bytes: &[u8]) -> (usize, usize)
    requires { 0 < length bytes.now }
    ensures line { spec.whole_lines bytes.now ≡ take result.1 bytes.now ∷ spec.whole_lines (drop result.1 bytes.now) }
    ensures bare { spec.without_end (take result.1 bytes.now) ≡ take result.0 bytes.now }
    ensures some { 0 < result.1 }
    ensures order { result.0 ≤ result.1 }
    ensures inside { result.1 ≤ length bytes.now }
{
    match bytes.find_byteset(b"\n\r") {
        None => (bytes.len(), bytes.len()),
        Some(end) => (end, end + end_length(&bytes[end..])),
    }
}

/// The first line of the bytes, with its end or without, and what follows it.
fn take_line(bytes: &[u8], keep_ends: bool) -> (&[u8], &[u8])
    requires { 0 < length bytes.now }
    ensures lines { spec.split_lines keep_ends bytes.now ≡ result.0.now ∷ spec.split_lines keep_ends result.1.now }
    ensures shorter { length result.1.now < length bytes.now }
{
    let (bare, whole) = first_line(bytes);
    if keep_ends {
        return (&bytes[..whole], &bytes[whole..]);
    }
    (&bytes[..bare], &bytes[whole..])
}

/// The lines, as of Python's `bytes.splitlines` (Library reference, "Bytes and Bytearray Operations").
/// Each line ends with `\n`, `\r` or `\r\n`, but the last one may end without. The ends are kept
/// exactly where `keep_ends` is true. There is no empty line behind the last end.
///
/// Example: `split_lines(alloc, b"a\n\nb\r\n", false)` gives `b"a"`, `b""` and `b"b"`.
pub fn split_lines(alloc: Global, bytes: &[u8], keep_ends: bool) -> Made<ByteLists>
    ensures { IfOk result (λ lines. lines ≡ spec.split_lines keep_ends bytes.now) }
{
    let mut lines = Vec::new(alloc);
    let mut rest = bytes;
    while !rest.is_empty() {
        let (line, more) = take_line(rest, keep_ends);
        push_part(alloc, &mut lines, line)?;
        rest = more;
    }
    Ok(ByteLists::from_vec(lines))
}
