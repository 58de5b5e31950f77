//! Tabs as spaces.
ghost use Rattle.std.specs.Prelude.{◌≡◌, ◌+◌, ◌*◌, ◌<◌, ◌≤◌, ◌^◌, ◌++◌, IfOk, OnOk, length};
ghost use Rattle.pybuf_value.specs.Halting.{Gives, outcome_of};
ghost use Rattle.pybuf_shaping.specs.Tabs as spec;

use pybuf_value::{ByteList, Fault, Halt, Made, Tried, tried};
use std::alloc::Global;

/// The size of a tab, as the number of spaces from one to the next: a number of 0 or less drops tabs.
///
/// Example: `tab_size(8)` is 8, and `tab_size(-1)` is 0.
pub fn tab_size(number: isize) -> usize
    ensures value { result ≡ spec.tab_size number }
    ensures small { result < 2 ^ 63 }
{
    if number < 0 {
        return 0;
    }
    number as usize
}

/// How many spaces a tab at a column is.
fn spaces_at(size: usize, column: u128) -> usize
    requires { size < 2 ^ 63 }
    ensures value { result ≡ spec.spaces_at size column }
    ensures small { result ≤ size }
{
    if size == 0 {
        return 0;
    }
    size - (column % size as u128) as usize
}

/// The column behind a byte that is no tab.
fn column_behind(column: u128, byte: u8) -> u128
    requires { column + 1 < 2 ^ 128 }
    ensures { result ≡ spec.column_behind column byte }
{
    if byte == b'\n' || byte == b'\r' {
        return 0;
    }
    column + 1
}

/// The number of bytes with tabs as spaces.
fn expanded_length(size: usize, bytes: &[u8]) -> u128
    requires { size < 2 ^ 63 }
    ensures { result ≡ length (spec.expanded_from size 0 bytes.now) }
{
    let mut total = 0;
    let mut column = 0;
    for byte in bytes {
        if *byte == b'\t' {
            let spaces = spaces_at(size, column) as u128;
            total += spaces;
            column += spaces;
        } else {
            total += 1;
            column = column_behind(column, *byte);
        }
    }
    total
}

/// Adds the bytes with tabs as spaces.
fn push_expanded(out: &mut Vec<u8>, size: usize, bytes: &[u8]) -> Made<()>
    requires { size < 2 ^ 63 }
    ensures { OnOk result (out.new.items ≡ out.old.items ++ spec.expanded_from size 0 bytes.now) }
{
    let mut column = 0;
    for byte in bytes {
        if *byte == b'\t' {
            let spaces = spaces_at(size, column);
            out.resize(out.len() + spaces, b' ')?;
            column += spaces as u128;
        } else {
            out.push(*byte)?;
            column = column_behind(column, *byte);
        }
    }
    Ok(())
}

/// The bytes with tabs as spaces, in room that is taken once.
fn with_spaces(alloc: Global, size: usize, bytes: &[u8]) -> Result<ByteList, Halt>
    requires { size < 2 ^ 63 }
    ensures { Gives (spec.expanded size bytes.now) result }
{
    let length = expanded_length(size, bytes);
    if length > isize::MAX as u128 {
        return Err(Halt::Refused(Fault::Overflow));
    }
    let mut list = Vec::with_capacity(alloc, length as usize)?;
    push_expanded(&mut list, size, bytes)?;
    Ok(ByteList::from_vec(list))
}

/// The bytes with spaces in place of each tab, up to the next column that is a multiple of the size, or
/// none where the size is 0. Columns count bytes from 0, and begin anew behind `\n` and `\r` (Python's
/// library reference, "Bytes and Bytearray Operations", `bytes.expandtabs`). The size is at most
/// `isize::MAX`.
///
/// Refused with `OverflowError` exactly where that is more than `isize::MAX` bytes.
///
/// Example: `expand_tabs(alloc, b"a\tb", 4)` gives `b"a   b"`, and `expand_tabs(alloc, b"a\tb", 0)` gives `b"ab"`.
pub fn expand_tabs(alloc: Global, bytes: &[u8], size: usize) -> Tried<ByteList>
    requires { size < 2 ^ 63 }
    ensures { IfOk result (λ outcome. outcome ≡ outcome_of (spec.expanded size bytes.now)) }
{
    tried(with_spaces(alloc, size, bytes))
}
