//! Bytes that lie apart, copied to where they lie one after the other.
ghost use Rattle.std.specs.Prelude.{◌≡◌, ◌+◌, ◌*◌, ◌<◌, ◌≤◌, length, drop, reverse};
ghost use Rattle.std.specs.Simd.Lanes.{chunk};
ghost use Rattle.pybuf_lanes.specs.Gathers as spec;

use std::simd::prelude::*;

/// Every second of 32 bytes from a place on.
#[inline(always)]
fn halved_at(source: &[u8], at: usize) -> u8x16
    requires { at + 32 ≤ length source.now }
    ensures { result ≡ spec.every 2 16 (drop at source.now) }
{
    u8x32::from_slice(&source[at..]).swizzle([
        0, 2, 4, 6, 8, 10, 12, 14, 16, 18, 20, 22, 24, 26, 28, 30,
    ])
}

/// Fills a room with every second byte of a source, from its first on. Takes no memory.
///
/// Example: of `b"abcdef"` it fills a room of 3 bytes with `b"ace"`.
pub fn gather_halves(source: &[u8], room: &mut [u8])
    requires { 2 * length room.old < length source.now + 2 }
    ensures { room.new ≡ spec.every 2 (length room.old) source.now }
{
    let len = room.len();
    let mut at = 0;
    while len - at >= 16 && source.len() - 2 * at >= 32 {
        halved_at(source, 2 * at).copy_to_slice(&mut room[at..]);
        at += 16;
    }
    while at < len {
        room[at] = source[2 * at];
        at += 1;
    }
}

/// Every third of 48 bytes from a place on.
#[inline(always)]
fn thirds_at(source: &[u8], at: usize) -> u8x16
    requires { at + 48 ≤ length source.now }
    ensures { result ≡ spec.every 3 16 (drop at source.now) }
{
    let front = u8x32::from_slice(&source[at..]);
    let back = u8x32::from_slice(&source[at + 16..]);
    front.shuffle(
        back,
        [0, 3, 6, 9, 12, 15, 18, 21, 24, 27, 30, 49, 52, 55, 58, 61],
    )
}

/// Fills a room with every third byte of a source, from its first on. Takes no memory.
///
/// Example: of `b"abcdefg"` it fills a room of 3 bytes with `b"adg"`.
pub fn gather_thirds(source: &[u8], room: &mut [u8])
    requires { 3 * length room.old < length source.now + 3 }
    ensures { room.new ≡ spec.every 3 (length room.old) source.now }
{
    let len = room.len();
    let mut at = 0;
    while len - at >= 16 && source.len() - 3 * at >= 48 {
        thirds_at(source, 3 * at).copy_to_slice(&mut room[at..]);
        at += 16;
    }
    while at < len {
        room[at] = source[3 * at];
        at += 1;
    }
}

/// The lowest byte of each four. A cast to narrower lanes takes half the time of a shuffle of 64 lanes.
#[inline(always)]
fn low_lanes(bytes: u8x64) -> u8x16
    ensures { result ≡ spec.every 4 16 bytes }
{
    (u32x16::from_le_bytes(bytes) & u32x16::splat(255)).cast::<u8>()
}

/// Every fourth of 64 bytes from a place on.
#[inline(always)]
fn quarters_at(source: &[u8], at: usize) -> u8x16
    requires { at + 64 ≤ length source.now }
    ensures { result ≡ spec.every 4 16 (drop at source.now) }
{
    low_lanes(u8x64::from_slice(&source[at..]))
}

/// Fills a room with every fourth byte of a source, from its first on. Takes no memory.
///
/// Example: of `b"abcdefghi"` it fills a room of 3 bytes with `b"aei"`.
pub fn gather_quarters(source: &[u8], room: &mut [u8])
    requires { 4 * length room.old < length source.now + 4 }
    ensures { room.new ≡ spec.every 4 (length room.old) source.now }
{
    let len = room.len();
    let mut at = 0;
    while len - at >= 16 && source.len() - 4 * at >= 64 {
        quarters_at(source, 4 * at).copy_to_slice(&mut room[at..]);
        at += 16;
    }
    while at < len {
        room[at] = source[4 * at];
        at += 1;
    }
}

/// Sixteen bytes from a place on, the last first.
#[inline(always)]
fn turned_at(source: &[u8], at: usize) -> u8x16
    requires { at + 16 ≤ length source.now }
    ensures { result ≡ reverse (chunk at 16 source.now) }
{
    u8x16::from_slice(&source[at..]).reverse()
}

/// Fills a room with the bytes of a source of the same length, the last first. Takes no memory.
///
/// Example: of `b"abc"` it fills a room of 3 bytes with `b"cba"`.
pub fn gather_reversed(source: &[u8], room: &mut [u8])
    requires { length room.old ≡ length source.now }
    ensures { room.new ≡ reverse source.now }
{
    let len = room.len();
    let mut at = 0;
    while len - at >= 16 {
        turned_at(source, len - at - 16).copy_to_slice(&mut room[at..]);
        at += 16;
    }
    while at < len {
        room[at] = source[len - at - 1];
        at += 1;
    }
}
