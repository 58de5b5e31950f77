//! The loops.
ghost use Rattle.std.specs.Prelude.{◌≡◌, ◌+◌, ◌*◌, ◌<◌, ◌≤◌, ◌^◌, true, false, length, take, drop};
ghost use Rattle.pybuf_strided.specs.Apart.{place_of, AreInside, with_piece, moved_at};

use pybuf_lanes::{gather_halves, gather_quarters, gather_reversed, gather_thirds};

/// How many bytes pay for the call that copies by lanes.
const LANES_PAY: usize = 32;

/// Where items lie: the place of the first, and how far each is from the one before it, above it or
/// below.
///
/// Example: the start 4, the step 2 and `falls` are the places 4, 2, 0.
#[derive(Clone, Copy, Debug)]
pub struct Track {
    pub start: usize,
    pub step: usize,
    pub falls: bool,
}

/// The place of item `k`.
#[inline]
fn place<const FALLS: bool>(start: usize, step: usize, k: usize) -> usize
    requires low { FALLS ≡ true → k * step ≤ start }
    requires high { place_of FALLS start step k < 2 ^ 64 }
    ensures { result ≡ place_of FALLS start step k }
{
    if FALLS {
        start - k * step
    } else {
        start + k * step
    }
}

/// Copies one item.
#[inline]
fn copy_item(bytes: &mut [u8], at: usize, source: &[u8], there: usize, size: usize)
    requires inside { at + size ≤ length bytes.old }
    requires source_inside { there + size ≤ length source.now }
    ensures copied { bytes.new ≡ with_piece bytes.old at (take size (drop there source.now)) }
    ensures long { length bytes.new ≡ length bytes.old }
{
    bytes[at..at + size].copy_from_slice(&source[there..there + size]);
}

/// Copies one item of a size that is known when this is compiled. It is read whole before any of it is written:
/// else each item would cost a test whether the places overlap.
#[inline]
fn copy_word<const SIZE: usize>(bytes: &mut [u8], at: usize, source: &[u8], there: usize)
    requires inside { at + SIZE ≤ length bytes.old }
    requires source_inside { there + SIZE ≤ length source.now }
    ensures copied { bytes.new ≡ with_piece bytes.old at (take SIZE (drop there source.now)) }
    ensures long { length bytes.new ≡ length bytes.old }
{
    let mut item = [0; SIZE];
    item.copy_from_slice(&source[there..there + SIZE]);
    bytes[at..at + SIZE].copy_from_slice(&item);
}

/// Copies items of a size that is known when this is compiled, by steps that may be known too where this is
/// called: so it stands in each of its callers.
#[inline(always)]
fn copy_words<const SIZE: usize, const TO_FALLS: bool, const FROM_FALLS: bool>(
    bytes: &mut [u8],
    to: usize,
    to_step: usize,
    source: &[u8],
    from: usize,
    from_step: usize,
    count: usize,
)
    requires some_size { 0 < SIZE }
    requires inside { AreInside TO_FALLS to to_step count SIZE (length bytes.old) }
    requires source_inside { AreInside FROM_FALLS from from_step count SIZE (length source.now) }
    ensures { bytes.new ≡ moved_at bytes.old (place_of TO_FALLS to to_step) source.now (place_of FROM_FALLS from from_step) SIZE count }
{
    for k in 0..count {
        let at = place::<TO_FALLS>(to, to_step, k);
        let there = place::<FROM_FALLS>(from, from_step, k);
        copy_word::<SIZE>(bytes, at, source, there);
    }
}

/// Copies items of a size that is known when this is compiled, by any steps. It stands by itself: within a long
/// function the loop would lack registers.
#[inline(never)]
fn copy_sized<const SIZE: usize, const TO_FALLS: bool, const FROM_FALLS: bool>(
    bytes: &mut [u8],
    to: usize,
    to_step: usize,
    source: &[u8],
    from: usize,
    from_step: usize,
    count: usize,
)
    requires some_size { 0 < SIZE }
    requires inside { AreInside TO_FALLS to to_step count SIZE (length bytes.old) }
    requires source_inside { AreInside FROM_FALLS from from_step count SIZE (length source.now) }
    ensures { bytes.new ≡ moved_at bytes.old (place_of TO_FALLS to to_step) source.now (place_of FROM_FALLS from from_step) SIZE count }
{
    copy_words::<SIZE, TO_FALLS, FROM_FALLS>(bytes, to, to_step, source, from, from_step, count);
}

/// Copies bytes that lie apart by a step that is known when this is compiled to where they lie one after the
/// other.
#[inline(never)]
fn gather_bytes<const STEP: usize, const TO_FALLS: bool, const FROM_FALLS: bool>(
    bytes: &mut [u8],
    to: usize,
    source: &[u8],
    from: usize,
    count: usize,
)
    requires inside { AreInside TO_FALLS to 1 count 1 (length bytes.old) }
    requires source_inside { AreInside FROM_FALLS from STEP count 1 (length source.now) }
    ensures { bytes.new ≡ moved_at bytes.old (place_of TO_FALLS to 1) source.now (place_of FROM_FALLS from STEP) 1 count }
{
    copy_words::<1, TO_FALLS, FROM_FALLS>(bytes, to, 1, source, from, STEP, count);
}

/// Copies bytes, with the loop for their steps: those of a reversed row and of every other byte of a row have one
/// of their own.
fn copy_bytes<const TO_FALLS: bool, const FROM_FALLS: bool>(
    bytes: &mut [u8],
    to: usize,
    to_step: usize,
    source: &[u8],
    from: usize,
    from_step: usize,
    count: usize,
)
    requires inside { AreInside TO_FALLS to to_step count 1 (length bytes.old) }
    requires source_inside { AreInside FROM_FALLS from from_step count 1 (length source.now) }
    ensures { bytes.new ≡ moved_at bytes.old (place_of TO_FALLS to to_step) source.now (place_of FROM_FALLS from from_step) 1 count }
{
    match (to_step, from_step) {
        (1, 1) => gather_bytes::<1, TO_FALLS, FROM_FALLS>(bytes, to, source, from, count),
        (1, 2) => gather_bytes::<2, TO_FALLS, FROM_FALLS>(bytes, to, source, from, count),
        _ => copy_sized::<1, TO_FALLS, FROM_FALLS>(
            bytes, to, to_step, source, from, from_step, count,
        ),
    }
}

/// Copies items of any size.
fn copy_unsized<const TO_FALLS: bool, const FROM_FALLS: bool>(
    bytes: &mut [u8],
    to: usize,
    to_step: usize,
    source: &[u8],
    from: usize,
    from_step: usize,
    size: usize,
    count: usize,
)
    requires some_size { 0 < size }
    requires inside { AreInside TO_FALLS to to_step count size (length bytes.old) }
    requires source_inside { AreInside FROM_FALLS from from_step count size (length source.now) }
    ensures { bytes.new ≡ moved_at bytes.old (place_of TO_FALLS to to_step) source.now (place_of FROM_FALLS from from_step) size count }
{
    for k in 0..count {
        let at = place::<TO_FALLS>(to, to_step, k);
        let there = place::<FROM_FALLS>(from, from_step, k);
        copy_item(bytes, at, source, there, size);
    }
}

/// Copies items, with the loop for their size.
fn copy_by_size<const TO_FALLS: bool, const FROM_FALLS: bool>(
    bytes: &mut [u8],
    to: Track,
    source: &[u8],
    from: Track,
    size: usize,
    count: usize,
)
    requires some_size { 0 < size }
    requires inside { AreInside TO_FALLS to.start to.step count size (length bytes.old) }
    requires source_inside { AreInside FROM_FALLS from.start from.step count size (length source.now) }
    ensures { bytes.new ≡ moved_at bytes.old (place_of TO_FALLS to.start to.step) source.now (place_of FROM_FALLS from.start from.step) size count }
{
    let (at, at_step) = (to.start, to.step);
    let (there, there_step) = (from.start, from.step);
    match size {
        1 => copy_bytes::<TO_FALLS, FROM_FALLS>(
            bytes, at, at_step, source, there, there_step, count,
        ),
        2 => copy_sized::<2, TO_FALLS, FROM_FALLS>(
            bytes, at, at_step, source, there, there_step, count,
        ),
        4 => copy_sized::<4, TO_FALLS, FROM_FALLS>(
            bytes, at, at_step, source, there, there_step, count,
        ),
        8 => copy_sized::<8, TO_FALLS, FROM_FALLS>(
            bytes, at, at_step, source, there, there_step, count,
        ),
        _ => copy_unsized::<TO_FALLS, FROM_FALLS>(
            bytes, at, at_step, source, there, there_step, size, count,
        ),
    }
}

/// Copies every second byte to where they lie one after the other, by lanes.
fn copy_seconds(bytes: &mut [u8], to: usize, source: &[u8], from: usize, count: usize)
    requires some { 0 < count }
    requires inside { to + count ≤ length bytes.old }
    requires source_inside { from + 2 * count < length source.now + 2 }
    ensures { bytes.new ≡ moved_at bytes.old (place_of false to 1) source.now (place_of false from 2) 1 count }
{
    gather_halves(&source[from..], &mut bytes[to..to + count]);
}

/// Copies every third byte to where they lie one after the other, by lanes.
fn copy_thirds(bytes: &mut [u8], to: usize, source: &[u8], from: usize, count: usize)
    requires some { 0 < count }
    requires inside { to + count ≤ length bytes.old }
    requires source_inside { from + 3 * count < length source.now + 3 }
    ensures { bytes.new ≡ moved_at bytes.old (place_of false to 1) source.now (place_of false from 3) 1 count }
{
    gather_thirds(&source[from..], &mut bytes[to..to + count]);
}

/// Copies every fourth byte to where they lie one after the other, by lanes.
fn copy_quarters(bytes: &mut [u8], to: usize, source: &[u8], from: usize, count: usize)
    requires some { 0 < count }
    requires inside { to + count ≤ length bytes.old }
    requires source_inside { from + 4 * count < length source.now + 4 }
    ensures { bytes.new ≡ moved_at bytes.old (place_of false to 1) source.now (place_of false from 4) 1 count }
{
    gather_quarters(&source[from..], &mut bytes[to..to + count]);
}

/// Copies bytes upwards to where they lie one after the other: by lanes, if there are lanes for their step.
fn gather_rising(bytes: &mut [u8], to: usize, source: &[u8], from: Track, count: usize)
    requires some { 0 < count }
    requires inside { to + count ≤ length bytes.old }
    requires source_inside { AreInside false from.start from.step count 1 (length source.now) }
    ensures { bytes.new ≡ moved_at bytes.old (place_of false to 1) source.now (place_of false from.start from.step) 1 count }
{
    match from.step {
        2 => copy_seconds(bytes, to, source, from.start, count),
        3 => copy_thirds(bytes, to, source, from.start, count),
        4 => copy_quarters(bytes, to, source, from.start, count),
        _ => copy_bytes::<false, false>(bytes, to, 1, source, from.start, from.step, count),
    }
}

/// Copies bytes downwards, from one to the next below it, to where they lie one after the other, by lanes.
fn copy_turned(bytes: &mut [u8], to: usize, source: &[u8], from: usize, count: usize)
    requires inside { to + count ≤ length bytes.old }
    requires enough { count ≤ from + 1 }
    requires source_inside { from < length source.now }
    ensures { bytes.new ≡ moved_at bytes.old (place_of false to 1) source.now (place_of true from 1) 1 count }
{
    gather_reversed(
        &source[from + 1 - count..from + 1],
        &mut bytes[to..to + count],
    );
}

/// Copies items upwards from where they lie upwards.
fn copy_rising(bytes: &mut [u8], to: Track, source: &[u8], from: Track, size: usize, count: usize)
    requires some_size { 0 < size }
    requires inside { AreInside false to.start to.step count size (length bytes.old) }
    requires source_inside { AreInside false from.start from.step count size (length source.now) }
    ensures { bytes.new ≡ moved_at bytes.old (place_of false to.start to.step) source.now (place_of false from.start from.step) size count }
{
    if size == 1 && to.step == 1 && count >= LANES_PAY {
        gather_rising(bytes, to.start, source, from, count);
    } else {
        copy_by_size::<false, false>(bytes, to, source, from, size, count);
    }
}

/// Copies items upwards from where they lie downwards.
fn copy_falling(bytes: &mut [u8], to: Track, source: &[u8], from: Track, size: usize, count: usize)
    requires some_size { 0 < size }
    requires inside { AreInside false to.start to.step count size (length bytes.old) }
    requires source_inside { AreInside true from.start from.step count size (length source.now) }
    ensures { bytes.new ≡ moved_at bytes.old (place_of false to.start to.step) source.now (place_of true from.start from.step) size count }
{
    if size == 1 && to.step == 1 && from.step == 1 && count >= LANES_PAY {
        copy_turned(bytes, to.start, source, from.start, count);
    } else {
        copy_by_size::<false, true>(bytes, to, source, from, size, count);
    }
}

/// Copies items of a size above 0, with the loop for their directions.
fn copy_some(bytes: &mut [u8], to: Track, source: &[u8], from: Track, size: usize, count: usize)
    requires some_size { 0 < size }
    requires inside { AreInside to.falls to.start to.step count size (length bytes.old) }
    requires source_inside { AreInside from.falls from.start from.step count size (length source.now) }
    ensures { bytes.new ≡ moved_at bytes.old (place_of to.falls to.start to.step) source.now (place_of from.falls from.start from.step) size count }
{
    match (to.falls, from.falls) {
        (false, false) => copy_rising(bytes, to, source, from, size, count),
        (false, true) => copy_falling(bytes, to, source, from, size, count),
        (true, false) => copy_by_size::<true, false>(bytes, to, source, from, size, count),
        (true, true) => copy_by_size::<true, true>(bytes, to, source, from, size, count),
    }
}

/// Copies so many items of a size from where they lie in a source over others, one after the other.
/// Takes no memory.
///
/// Example: of two items of one byte from `b"xy"`, to 2 and 0 of `b"abcd"`, it makes `b"ybxd"`.
pub fn copy_items(
    bytes: &mut [u8],
    to: Track,
    source: &[u8],
    from: Track,
    size: usize,
    count: usize,
)
    requires inside { AreInside to.falls to.start to.step count size (length bytes.old) }
    requires source_inside { AreInside from.falls from.start from.step count size (length source.now) }
    ensures { bytes.new ≡ moved_at bytes.old (place_of to.falls to.start to.step) source.now (place_of from.falls from.start from.step) size count }
{
    if size > 0 {
        copy_some(bytes, to, source, from, size, count);
    }
}
