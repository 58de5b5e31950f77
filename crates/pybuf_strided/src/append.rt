//! Items that lie apart, appended to a vector.
ghost use Rattle.std.specs.Prelude.{◌≡◌, ◌+◌, ◌*◌, ◌^◌, ◌<◌, ◌≤◌, ◌++◌, true, length, take, drop, SomeIff, vec_len, vec_capacity, OnOk, OnErr, IsOk};
ghost use Rattle.pybuf_strided.specs.Apart.{place_of, AreInside, pieces_at};

use crate::moves::{Track, copy_items};
use std::alloc::AllocError;

/// From how many bytes on an item pays for a call of its own.
const LONG: usize = 64;

/// Copies items over bytes that have room for just these, one item after the other.
fn fill(room: &mut [u8], source: &[u8], from: Track, size: usize, count: usize)
    requires whole { length room.old ≡ size * count }
    requires source_inside { AreInside from.falls from.start from.step count size (length source.now) }
    ensures { room.new ≡ pieces_at source.now (place_of from.falls from.start from.step) size count }
{
    let to = Track {
        start: 0,
        step: size,
        falls: false,
    };
    copy_items(room, to, source, from, size, count);
}

/// Appends one item from where it lies in a source.
fn append_one(out: &mut Vec<u8>, source: &[u8], start: usize, size: usize) -> Result<(), AllocError>
    requires { start + size ≤ length source.now }
    ensures items { OnOk result (out.new.items ≡ out.old.items ++ take size (drop start source.now)) }
    ensures len { OnOk result (vec_len out.new ≡ vec_len out.old + size) }
    ensures capacity { vec_capacity out.old ≤ vec_capacity out.new }
    ensures succeeds { vec_len out.old + size ≤ vec_capacity out.old → IsOk result }
    ensures err { OnErr result (out.new.items ≡ out.old.items) }
{
    out.extend_from_slice(&source[start..start + size])
}

/// The place of item `k`.
fn place_in(from: Track, k: usize) -> usize
    requires low { from.falls ≡ true → k * from.step ≤ from.start }
    requires high { place_of from.falls from.start from.step k < 2 ^ 64 }
    ensures { result ≡ place_of from.falls from.start from.step k }
{
    if from.falls {
        from.start - k * from.step
    } else {
        from.start + k * from.step
    }
}

/// Appends items one by one, where there is room for all of them.
fn append_each(
    out: &mut Vec<u8>,
    source: &[u8],
    from: Track,
    size: usize,
    count: usize,
) -> Result<(), AllocError>
    requires source_inside { AreInside from.falls from.start from.step count size (length source.now) }
    requires some { 0 < size }
    requires room { vec_len out.old + size * count ≤ vec_capacity out.old }
    ensures ok { IsOk result }
    ensures items { out.new.items ≡ out.old.items ++ pieces_at source.now (place_of from.falls from.start from.step) size count }
    ensures len { vec_len out.new ≡ vec_len out.old + size * count }
    ensures capacity { vec_capacity out.old ≤ vec_capacity out.new }
{
    for k in 0..count {
        append_one(out, source, place_in(from, k), size)?;
    }
    Ok(())
}

/// The length of bytes with so many items more, where bytes can be as many.
fn length_with(len: usize, size: usize, count: usize) -> Option<usize>
    ensures { SomeIff result (len + size * count < 2 ^ 64) (len + size * count) }
{
    let more = size.checked_mul(count)?;
    len.checked_add(more)
}

/// Appends so many items of a size from where they lie in a source, one item after the other.
///
/// It fails only where memory runs out, which it doesn't where there is room for them, and then nothing is
/// appended.
///
/// Example: of `b"abcdef"`, two items of one byte from 0, each 3 above the one before, it appends `b"ad"`.
pub fn append_items(
    out: &mut Vec<u8>,
    source: &[u8],
    from: Track,
    size: usize,
    count: usize,
) -> Result<(), AllocError>
    requires source_inside { AreInside from.falls from.start from.step count size (length source.now) }
    ensures items { OnOk result (out.new.items ≡ out.old.items ++ pieces_at source.now (place_of from.falls from.start from.step) size count) }
    ensures len { OnOk result (vec_len out.new ≡ vec_len out.old + size * count) }
    ensures capacity { vec_capacity out.old ≤ vec_capacity out.new }
    ensures succeeds { vec_len out.old + size * count ≤ vec_capacity out.old → IsOk result }
    ensures err { OnErr result (out.new.items ≡ out.old.items) }
{
    // Room for short items is filled with zeros before they are copied there. Long items, and a single one, are
    // appended as they are, so that they aren't written twice. An item without bytes isn't copied there, since it may
    // start past the end.
    if count == 1 && size > 0 {
        return append_one(out, source, from.start, size);
    }
    let len = out.len();
    match length_with(len, size, count) {
        None => Err(AllocError),
        Some(whole) if size >= LONG => {
            out.reserve(whole - len)?;
            append_each(out, source, from, size, count)
        }
        Some(whole) => {
            out.resize(whole, 0)?;
            fill(&mut out[len..], source, from, size, count);
            Ok(())
        }
    }
}
