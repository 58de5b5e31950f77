//! Bytes mapped by a table.
ghost use Rattle.std.specs.Prelude.{◌≡◌, ◌<◌, ℕ, IfOk, length, map, slice_index, slice_index_or, true, false, Bool};
ghost use Rattle.pybuf_value.specs.Halting.{Gives, outcome_of};
ghost use Rattle.pybuf_shaping.specs.Tables as spec;

use pybuf_value::{ByteList, Fault, Halt, Made, Tried, tried};
use std::alloc::Global;

/// The table that maps each byte to itself: the bytes from 0 to 255.
///
/// Example: its byte at 97 is 97.
pub fn identity_table(alloc: Global) -> Made<ByteList>
    ensures value { IfOk result (λ table. table ≡ spec.all_bytes) }
    ensures full { IfOk result (λ table. length table ≡ 256) }
{
    let mut table = Vec::with_capacity(alloc, 256)?;
    for byte in 0..256usize {
        table.push(byte as u8)?;
    }
    Ok(ByteList::from_vec(table))
}

/// Puts the counterpart of each byte into the table of all bytes, from the last of them to the first, so
/// that of repeated bytes the first counts.
fn write_counterparts(table: &mut [u8], from: &[u8], to: &[u8])
    requires identity { table.old ≡ spec.all_bytes }
    requires equal { length from.now ≡ length to.now }
    ensures { table.new ≡ map (spec.counterpart from.now to.now) spec.all_bytes }
{
    let mut place = from.len();
    while place > 0 {
        place -= 1;
        table[from[place] as usize] = to[place];
    }
}

/// The table that maps each byte to its counterpart.
fn table_of(alloc: Global, from: &[u8], to: &[u8]) -> Result<ByteList, Halt>
    ensures { Gives (spec.table_of from.now to.now) result }
{
    if from.len() != to.len() {
        return Err(Halt::Refused(Fault::Value));
    }
    let mut table = identity_table(alloc)?.into_vec();
    write_counterparts(table.as_mut_slice(), from, to);
    Ok(ByteList::from_vec(table))
}

/// The table of 256 bytes that maps each byte of `from` to the one at the same place of `to`, and every
/// other byte to itself (Python's library reference, "Bytes and Bytearray Operations",
/// `bytes.maketrans`). Of a byte that stands in `from` more than once the first place counts, where
/// Python takes the last.
///
/// Refused with `ValueError` exactly where the lengths differ.
///
/// Example: the bytes at 97, 98 and 99 of the table of `b"ab"` and `b"xy"` are `b"xyc"`.
pub fn make_table(alloc: Global, from: &[u8], to: &[u8]) -> Tried<ByteList>
    ensures { IfOk result (λ outcome. outcome ≡ outcome_of (spec.table_of from.now to.now)) }
{
    tried(table_of(alloc, from, to))
}

/// Which bytes are among some.
fn flags_of(bytes: &[u8]) -> [bool; 256]
    ensures { (b : ℕ) → b < 256 → slice_index_or result b false ≡ spec.is_among bytes.now b }
{
    let mut flags = [false; 256];
    for byte in bytes {
        flags[*byte as usize] = true;
    }
    flags
}

/// Puts its entry of the table in the place of each byte.
fn map_in_place(bytes: &mut [u8], table: &[u8])
    requires { length table.now ≡ 256 }
    ensures { bytes.new ≡ map (slice_index table.now) bytes.old }
{
    for byte in bytes.iter_mut() {
        *byte = table[*byte as usize];
    }
}

/// Each byte mapped by its entry of the table, in one look-up. A copy of the bytes is mapped in its
/// place, since bytes that are added to a list one by one cost three times as much.
fn mapped(alloc: Global, bytes: &[u8], table: &[u8]) -> Made<ByteList>
    requires { length table.now ≡ 256 }
    ensures { IfOk result (λ list. list ≡ map (slice_index table.now) bytes.now) }
{
    let mut list = Vec::from_slice(alloc, bytes)?;
    map_in_place(list.as_mut_slice(), table);
    Ok(ByteList::from_vec(list))
}

/// The bytes without those to be dropped, each other mapped by its entry of the table.
fn mapped_without(alloc: Global, bytes: &[u8], table: &[u8], dropped: &[u8]) -> Made<ByteList>
    requires { length table.now ≡ 256 }
    ensures { IfOk result (λ list. list ≡ spec.translated table.now dropped.now bytes.now) }
{
    let flags = flags_of(dropped);
    let mut list = Vec::with_capacity(alloc, bytes.len())?;
    for byte in bytes {
        if !flags[*byte as usize] {
            list.push(table[*byte as usize])?;
        }
    }
    Ok(ByteList::from_vec(list))
}

/// The bytes without those to be dropped, each other mapped by its entry of a table of 256 bytes
/// (Python's library reference, "Bytes and Bytearray Operations", `bytes.translate`).
///
/// Example: with the bytes from 0 to 255 as the table, and `b"b"` to be dropped, it makes `b"ac"` of `b"abc"`.
pub fn translate(alloc: Global, bytes: &[u8], table: &[u8], dropped: &[u8]) -> Made<ByteList>
    requires { length table.now ≡ 256 }
    ensures { IfOk result (λ list. list ≡ spec.translated table.now dropped.now bytes.now) }
{
    if dropped.is_empty() {
        // This is a branch of its own. If nothing is dropped, only the table is looked at.
        return mapped(alloc, bytes, table);
    }
    mapped_without(alloc, bytes, table, dropped)
}
