//! Numbers that lie apart, compared item by item.
ghost use Rattle.std.specs.Prelude.{◌≡◌, ◌+◌, ◌≤◌, length, take, drop, false, IsTrue};
ghost use Rattle.std.specs.Ordering.{int_eq};
ghost use Rattle.pybuf_strided.specs.Apart.{AreInside};
ghost use Rattle.pybuf_struct.specs.Digits.{is_width, number};
ghost use Rattle.pybuf_equality.specs.Tracks.{all_equal};

use crate::tracks::place_on;
use crate::words::number;
use pybuf_strided::Track;

/// Whether the number at one place is that at another, each by the sign and the size of its own side.
#[inline]
fn equal_pair<const SIZE: usize, const OTHER_SIZE: usize>(
    bytes: &[u8],
    at: usize,
    signed: bool,
    other: &[u8],
    there: usize,
    other_signed: bool,
) -> bool
    requires width { IsTrue (is_width SIZE) }
    requires other_width { IsTrue (is_width OTHER_SIZE) }
    requires inside { at + SIZE ≤ length bytes.now }
    requires other_inside { there + OTHER_SIZE ≤ length other.now }
    ensures { result ≡ int_eq (number false signed (take SIZE (drop at bytes.now))) (number false other_signed (take OTHER_SIZE (drop there other.now))) }
{
    number::<SIZE>(signed, bytes, at) == number::<OTHER_SIZE>(other_signed, other, there)
}

/// Compares numbers of sizes that are known when this is compiled.
fn equal_sized<const SIZE: usize, const OTHER_SIZE: usize>(
    bytes: &[u8],
    track: Track,
    signed: bool,
    other: &[u8],
    other_track: Track,
    other_signed: bool,
    count: usize,
) -> bool
    requires width { IsTrue (is_width SIZE) }
    requires other_width { IsTrue (is_width OTHER_SIZE) }
    requires inside { AreInside track.falls track.start track.step count SIZE (length bytes.now) }
    requires other_inside { AreInside other_track.falls other_track.start other_track.step count OTHER_SIZE (length other.now) }
    ensures { result ≡ all_equal bytes.now track signed SIZE other.now other_track other_signed OTHER_SIZE count }
{
    for k in 0..count {
        let at = place_on(track, k);
        let there = place_on(other_track, k);
        if !equal_pair::<SIZE, OTHER_SIZE>(bytes, at, signed, other, there, other_signed) {
            return false;
        }
    }
    true
}

/// Compares numbers of a size that is known when this is compiled with others.
fn equal_beside<const SIZE: usize>(
    bytes: &[u8],
    track: Track,
    signed: bool,
    other: &[u8],
    other_track: Track,
    other_signed: bool,
    other_size: usize,
    count: usize,
) -> bool
    requires width { IsTrue (is_width SIZE) }
    requires other_width { IsTrue (is_width other_size) }
    requires inside { AreInside track.falls track.start track.step count SIZE (length bytes.now) }
    requires other_inside { AreInside other_track.falls other_track.start other_track.step count other_size (length other.now) }
    ensures { result ≡ all_equal bytes.now track signed SIZE other.now other_track other_signed other_size count }
{
    match other_size {
        1 => equal_sized::<SIZE, 1>(
            bytes,
            track,
            signed,
            other,
            other_track,
            other_signed,
            count,
        ),
        2 => equal_sized::<SIZE, 2>(
            bytes,
            track,
            signed,
            other,
            other_track,
            other_signed,
            count,
        ),
        4 => equal_sized::<SIZE, 4>(
            bytes,
            track,
            signed,
            other,
            other_track,
            other_signed,
            count,
        ),
        _ => equal_sized::<SIZE, 8>(
            bytes,
            track,
            signed,
            other,
            other_track,
            other_signed,
            count,
        ),
    }
}

/// Whether each of so many numbers is that of its number on the other side, each read by the sign and the
/// size of its own side. The first difference ends it. Takes no memory.
pub(crate) fn equal_numbers(
    bytes: &[u8],
    track: Track,
    signed: bool,
    size: usize,
    other: &[u8],
    other_track: Track,
    other_signed: bool,
    other_size: usize,
    count: usize,
) -> bool
    requires width { IsTrue (is_width size) }
    requires other_width { IsTrue (is_width other_size) }
    requires inside { AreInside track.falls track.start track.step count size (length bytes.now) }
    requires other_inside { AreInside other_track.falls other_track.start other_track.step count other_size (length other.now) }
    ensures { result ≡ all_equal bytes.now track signed size other.now other_track other_signed other_size count }
{
    match size {
        1 => equal_beside::<1>(
            bytes,
            track,
            signed,
            other,
            other_track,
            other_signed,
            other_size,
            count,
        ),
        2 => equal_beside::<2>(
            bytes,
            track,
            signed,
            other,
            other_track,
            other_signed,
            other_size,
            count,
        ),
        4 => equal_beside::<4>(
            bytes,
            track,
            signed,
            other,
            other_track,
            other_signed,
            other_size,
            count,
        ),
        _ => equal_beside::<8>(
            bytes,
            track,
            signed,
            other,
            other_track,
            other_signed,
            other_size,
            count,
        ),
    }
}
