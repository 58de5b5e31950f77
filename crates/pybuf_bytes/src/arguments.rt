//! The arguments of searches and cuts of strings of bytes.
ghost use Rattle.std.specs.Prelude.{◌≡◌};
ghost use Rattle.pybuf_value.specs.Halting.{Gives, GivesOutcomeAs};
ghost use Rattle.pybuf_bytes.specs.Searching.{search_of, search_answered};

use crate::inner::PyBytesInner;
use crate::needles::{Needle, needle_bytes};
use pybuf_search::{AnyStrWrapper, SplitArgs, adjust_indices};
use pybuf_value::{Halt, Outcome, Tried, tried};
use std::alloc::Global;
use std::ops::Range;

impl AnyStrWrapper for PyBytesInner {
    ghost bytes = { λ inner. inner };

    fn as_ref(&self) -> &[u8] {
        self.as_bytes()
    }
}

/// The arguments of a cut of bytes.
///
/// Example: the separator `b","` and the number -1 ask for cuts at all commas.
pub type ByteInnerSplitOptions = SplitArgs<PyBytesInner>;

/// What is searched for, and the bounds between which it is searched.
///
/// Example: the needle `b"bc"` with the start 2 and no end is searched for in the bytes from place 2 on.
#[derive(Debug, Drop)]
pub struct ByteInnerFindOptions {
    pub sub: Needle,
    pub start: Option<i128>,
    pub end: Option<i128>,
}

/// The needle's bytes and the range.
fn search_in(
    alloc: Global,
    options: ByteInnerFindOptions,
    len: usize,
) -> Result<(PyBytesInner, Range<usize>), Halt>
    ensures { Gives (search_of options.sub options.start options.end len) result }
{
    let ByteInnerFindOptions { sub, start, end } = options;
    let needle = needle_bytes(alloc, sub)?;
    Ok((needle, adjust_indices(start, end, len)))
}

impl ByteInnerFindOptions {
    /// The bytes that are searched for, and the range of the bounds in bytes of a length.
    ///
    /// Refused with `ValueError` exactly for a number outside `0..256`.
    ///
    /// Example: of the number 98 with the start -2 and no end, in 5 bytes, it gives `b"b"` and `3..5`.
    pub fn get_value(self, alloc: Global, len: usize) -> Tried<(Vec<u8>, Range<usize>)>
        ensures { GivesOutcomeAs search_answered (search_of self.sub self.start self.end len) result }
    {
        match tried(search_in(alloc, self, len))? {
            Outcome::Done((needle, range)) => Ok(Outcome::Done((needle.into_vec(), range))),
            Outcome::Refused(fault) => Ok(Outcome::Refused(fault)),
        }
    }
}
