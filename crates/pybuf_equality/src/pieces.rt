//! The bytes of items that lie apart, compared item by item.
ghost use Rattle.std.specs.Prelude.{◌≡◌, ◌+◌, ◌*◌, ◌<◌, ◌≤◌, ◌^◌, length, take, drop, bytes_eq, true, IsTrue};
ghost use Rattle.pybuf_strided.specs.Apart.{place_of, AreInside};
ghost use Rattle.pybuf_struct.specs.Digits.{is_width};
ghost use Rattle.pybuf_equality.specs.Tracks.{all_below, same_piece, same_pieces, same_pieces_by};

use crate::tracks::place;
use crate::words::word;
use pybuf_strided::Track;

/// Whether two items have the same bytes.
#[inline]
fn equal_words<const SIZE: usize>(bytes: &[u8], at: usize, other: &[u8], there: usize) -> bool
    requires width { IsTrue (is_width SIZE) }
    requires inside { at + SIZE ≤ length bytes.now }
    requires other_inside { there + SIZE ≤ length other.now }
    ensures { result ≡ bytes_eq (take SIZE (drop at bytes.now)) (take SIZE (drop there other.now)) }
{
    word::<SIZE>(bytes, at) == word::<SIZE>(other, there)
}

/// The same of items of any size.
fn equal_spans(bytes: &[u8], at: usize, other: &[u8], there: usize, size: usize) -> bool
    requires inside { at + size ≤ length bytes.now }
    requires other_inside { there + size ≤ length other.now }
    ensures { result ≡ bytes_eq (take size (drop at bytes.now)) (take size (drop there other.now)) }
{
    let run = &bytes[at..at + size];
    let other_run = &other[there..there + size];
    run == other_run
}

/// Compares items of a size that is known when this is compiled.
fn equal_sized<const SIZE: usize, const FALLS: bool, const OTHER_FALLS: bool>(
    bytes: &[u8],
    track: Track,
    other: &[u8],
    other_track: Track,
    count: usize,
) -> bool
    requires width { IsTrue (is_width SIZE) }
    requires inside { AreInside FALLS track.start track.step count SIZE (length bytes.now) }
    requires other_inside { AreInside OTHER_FALLS other_track.start other_track.step count SIZE (length other.now) }
    ensures { result ≡ same_pieces_by FALLS OTHER_FALLS bytes.now track other.now other_track SIZE count }
{
    for k in 0..count {
        let at = place::<FALLS>(track, k);
        let there = place::<OTHER_FALLS>(other_track, k);
        if !equal_words::<SIZE>(bytes, at, other, there) {
            return false;
        }
    }
    true
}

/// Compares items of any size.
fn equal_unsized<const FALLS: bool, const OTHER_FALLS: bool>(
    bytes: &[u8],
    track: Track,
    other: &[u8],
    other_track: Track,
    size: usize,
    count: usize,
) -> bool
    requires some_size { 0 < size }
    requires inside { AreInside FALLS track.start track.step count size (length bytes.now) }
    requires other_inside { AreInside OTHER_FALLS other_track.start other_track.step count size (length other.now) }
    ensures { result ≡ same_pieces_by FALLS OTHER_FALLS bytes.now track other.now other_track size count }
{
    for k in 0..count {
        let at = place::<FALLS>(track, k);
        let there = place::<OTHER_FALLS>(other_track, k);
        if !equal_spans(bytes, at, other, there, size) {
            return false;
        }
    }
    true
}

/// Compares items, with the loop for their size.
fn equal_by_size<const FALLS: bool, const OTHER_FALLS: bool>(
    bytes: &[u8],
    track: Track,
    other: &[u8],
    other_track: Track,
    size: usize,
    count: usize,
) -> bool
    requires some_size { 0 < size }
    requires inside { AreInside FALLS track.start track.step count size (length bytes.now) }
    requires other_inside { AreInside OTHER_FALLS other_track.start other_track.step count size (length other.now) }
    ensures { result ≡ same_pieces_by FALLS OTHER_FALLS bytes.now track other.now other_track size count }
{
    match size {
        1 => equal_sized::<1, FALLS, OTHER_FALLS>(bytes, track, other, other_track, count),
        2 => equal_sized::<2, FALLS, OTHER_FALLS>(bytes, track, other, other_track, count),
        4 => equal_sized::<4, FALLS, OTHER_FALLS>(bytes, track, other, other_track, count),
        8 => equal_sized::<8, FALLS, OTHER_FALLS>(bytes, track, other, other_track, count),
        _ => equal_unsized::<FALLS, OTHER_FALLS>(bytes, track, other, other_track, size, count),
    }
}

/// Whether items of a size lie one after the other, from the last on.
fn is_turned(track: Track, size: usize) -> bool
    ensures falls { result ≡ true → track.falls ≡ true }
    ensures step { result ≡ true → track.step ≡ size }
{
    if !track.falls {
        return false;
    }
    track.step == size
}

/// Compares items that lie so on both sides, as two runs of bytes: each item is beside that of its number
/// there too.
fn equal_turned(
    bytes: &[u8],
    start: usize,
    other: &[u8],
    other_start: usize,
    size: usize,
    count: usize,
) -> bool
    requires some_size { 0 < size }
    requires some { 0 < count }
    requires inside { AreInside true start size count size (length bytes.now) }
    requires other_inside { AreInside true other_start size count size (length other.now) }
    ensures { result ≡ all_below (same_piece bytes.now (place_of true start size) other.now (place_of true other_start size) size) count }
{
    let back = (count - 1) * size;
    equal_spans(bytes, start - back, other, other_start - back, back + size)
}

/// Whether each of so many items of a size has the same bytes as the item of its number on the other
/// side. The first difference ends it. Takes no memory.
pub(crate) fn equal_pieces(
    bytes: &[u8],
    track: Track,
    other: &[u8],
    other_track: Track,
    size: usize,
    count: usize,
) -> bool
    requires inside { AreInside track.falls track.start track.step count size (length bytes.now) }
    requires other_inside { AreInside other_track.falls other_track.start other_track.step count size (length other.now) }
    ensures { result ≡ same_pieces bytes.now track other.now other_track size count }
{
    if size == 0 {
        return true;
    }
    if count == 0 {
        return true;
    }
    if is_turned(track, size) {
        if is_turned(other_track, size) {
            return equal_turned(bytes, track.start, other, other_track.start, size, count);
        }
    }
    match (track.falls, other_track.falls) {
        (false, false) => {
            equal_by_size::<false, false>(bytes, track, other, other_track, size, count)
        }
        (false, true) => {
            equal_by_size::<false, true>(bytes, track, other, other_track, size, count)
        }
        (true, false) => {
            equal_by_size::<true, false>(bytes, track, other, other_track, size, count)
        }
        (true, true) => {
            equal_by_size::<true, true>(bytes, track, other, other_track, size, count)
        }
    }
}
