//! Places of items that lie in equal steps.
ghost use Rattle.std.specs.Prelude.{◌≡◌, ◌*◌, ◌<◌, ◌≤◌, ◌^◌, true};
ghost use Rattle.pybuf_strided.specs.Apart.{place_of};

use pybuf_strided::Track;

/// The place of item `k`.
#[inline]
pub(crate) fn place<const FALLS: bool>(track: Track, k: usize) -> usize
    requires low { FALLS ≡ true → k * track.step ≤ track.start }
    requires high { place_of FALLS track.start track.step k < 2 ^ 64 }
    ensures { result ≡ place_of FALLS track.start track.step k }
{
    if FALLS {
        track.start - k * track.step
    } else {
        track.start + k * track.step
    }
}

/// The place of item `k`, in the direction that its track has.
#[inline]
pub(crate) fn place_on(track: Track, k: usize) -> usize
    requires low { track.falls ≡ true → k * track.step ≤ track.start }
    requires high { place_of track.falls track.start track.step k < 2 ^ 64 }
    ensures { result ≡ place_of track.falls track.start track.step k }
{
    if track.falls {
        place::<true>(track, k)
    } else {
        place::<false>(track, k)
    }
}
