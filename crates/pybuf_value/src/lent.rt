//! Bytes that are lent from where they lie, and those of a snap.
ghost use Rattle.std.specs.Prelude.{◌≡◌, Some};
ghost use Rattle.pybuf_value.specs.Halting.{GivesLent};
ghost use Rattle.pybuf_value.specs.Snaps.{content_of, content_of_named};
ghost use Rattle.pybuf_value.specs.Lent.{lent_bytes};

use crate::faults::Fault;
use crate::snaps::{Snap, SnapKind};

/// The bytes of what a value is or names. They are copied only where they don't lie together.
///
/// Example: the bytes of a value `b"ab"` are `Lent::Lies` of `b"ab"`.
#[derive(Debug, Drop)]
pub enum Lent<'a> {
    /// The bytes lie together, and are lent from there.
    /// Example: a bytes value `b"ab"` is lent as `Lies` of `b"ab"`.
    Lies(&'a [u8]),
    /// The bytes lay apart, or were the parts of a list, and are copied.
    /// Example: the list 97, 98 is `Gathered` of `b"ab"`.
    Gathered(Vec<u8>),
}

impl<'a> Lent<'a> {
    /// The bytes, lent, whether they lie there or were gathered.
    ///
    /// Example: of `Lent::Lies(b"ab")` it is `b"ab"`.
    pub fn as_slice(&self) -> &[u8]
        ensures { result.now ≡ lent_bytes self.now }
    {
        match self {
            Lent::Lies(bytes) => bytes,
            Lent::Gathered(bytes) => bytes.as_slice(),
        }
    }
}

/// The bytes of a snap, lent; the items of a view may have lain apart.
///
/// Example: of a snap of the bytearray `b"ab"` it is `Ok(b"ab")`, and of a snap of an iterator it is `Err(Fault::Kind)`.
pub fn content_of_snap(snap: &Snap) -> Result<&[u8], Fault>
    ensures { GivesLent (content_of_named (Some snap.now)) result }
{
    match snap.kind {
        SnapKind::Iterator => Err(Fault::Kind),
        SnapKind::View => {
            if snap.released {
                return Err(Fault::Value);
            }
            Ok(snap.content.as_slice())
        }
        _ => Ok(snap.content.as_slice()),
    }
}

/// The bytes of a snap, lent, where they lay one after another.
///
/// Example: of a snap of every second item of a view it is `Err(Fault::Kind)`, and of `b"ab"` it is `Ok(b"ab")`.
pub fn run_of_snap(snap: &Snap) -> Result<&[u8], Fault>
    ensures { GivesLent (content_of (Some snap.now)) result }
{
    match snap.kind {
        SnapKind::Iterator => Err(Fault::Kind),
        SnapKind::View => {
            if snap.released {
                return Err(Fault::Value);
            }
            if !snap.contiguous {
                return Err(Fault::Kind);
            }
            Ok(snap.content.as_slice())
        }
        _ => Ok(snap.content.as_slice()),
    }
}
