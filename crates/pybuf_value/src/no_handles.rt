//! Values among which no handle is looked at.
ghost use Rattle.std.specs.Prelude.{[]};

use crate::snaps::{Lender, Snap};

/// A lender that has no handle.
///
/// Example: `NoHandles.lend(0)` is `None`.
#[derive(Clone, Copy, Debug, PartialEq, Eq)]
pub struct NoHandles;

impl Lender for NoHandles {
    ghost pairs = { λ _. [] };

    fn lend(&self, _handle: u64) -> Option<&Snap> {
        None
    }
}
