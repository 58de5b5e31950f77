//! Why a line gives no command, and an input no commands.
ghost use Rattle.std.specs.Prelude.{◌≡◌};
ghost use Rattle.pybuf_line.specs.declared.unread.Unread.TheVariants as unread;
ghost use Rattle.pybuf_line.specs.declared.unread.Misread.TheVariants as misread;

use pybuf_value::NoMemory;
use std::alloc::{AllocError, AllocFailed};

/// Why a line gives no command.
///
/// Example: of the line `len`, which names no subject, it is `Unread::NoCommand`.
#[derive(Clone, Copy, Debug, PartialEq, Eq)]
pub enum Unread {
    /// The line is no command.
    /// Example: the line `len` is none, since it names no subject.
    NoCommand,
    /// Memory ran out while the line was read.
    /// Example: a line with a tuple for whose values no block is left gives this.
    NoMemory,
}

impl From<AllocError> for Unread {
    ghost from_gives = { λ _ why. why ≡ unread.NoMemory };

    fn from(_e: AllocError) -> Unread {
        Unread::NoMemory
    }
}

impl<T: Drop> From<AllocFailed<T>> for Unread {
    ghost from_gives = { λ _ why. why ≡ unread.NoMemory };

    fn from(_e: AllocFailed<T>) -> Unread {
        Unread::NoMemory
    }
}

/// Why an input gives no commands.
///
/// Example: of `b"new bytes x61\nlen\n"` it is `Misread::BadLine(2)`.
#[derive(Clone, Copy, Debug, PartialEq, Eq)]
pub enum Misread {
    /// A line is no command: the first such line, counted from 1.
    /// Example: of `b"new bytes x61\nlen\n"` it is `BadLine(2)`.
    BadLine(u64),
    /// Memory ran out while the lines were read.
    /// Example: an input with a line for whose words no block is left gives this.
    NoMemory,
}

impl From<AllocError> for Misread {
    ghost from_gives = { λ _ why. why ≡ misread.NoMemory };

    fn from(_e: AllocError) -> Misread {
        Misread::NoMemory
    }
}

impl<T: Drop> From<AllocFailed<T>> for Misread {
    ghost from_gives = { λ _ why. why ≡ misread.NoMemory };

    fn from(_e: AllocFailed<T>) -> Misread {
        Misread::NoMemory
    }
}
