//! Where bytes come from and where they go, with a count of what failed.
ghost use Rattle.std.specs.Prelude.{◌≡◌, ◌<◌, ◌≤◌, ℕ, List, Option, IfOk, IfErr, OnErr, length, take};
ghost use Rattle.pybuf_cli.specs.declared.devices.PutFault.{PutFault};
ghost use Rattle.pybuf_cli.specs.Devices.{Took, AtEnd, Put, Rose, Counts};

use pybuf_value::NoMemory;
use std::alloc::AllocError;

/// A device failed, and why isn't told.
///
/// Example: a reader that answers an error makes `ReaderSource` answer `Err(Failed)`.
#[derive(Clone, Copy, Debug, PartialEq, Eq)]
pub struct Failed;

/// Why a sink put nothing.
///
/// Example: a writer that answers an error makes `WriterSink` answer `Err(PutFault::Failed)`.
#[derive(Clone, Copy, Debug, PartialEq, Eq)]
pub enum PutFault {
    /// The sink failed.
    /// Example: a writer that answers an error makes `WriterSink` answer this.
    Failed,
    /// The sink found no memory for the bytes.
    /// Example: a `QuietSink` for whose bytes no block is left answers this.
    NoMemory,
}

impl From<AllocError> for PutFault {
    ghost from_gives = { λ _ fault. fault ≡ PutFault.NoMemory };

    fn from(_e: AllocError) -> PutFault {
        PutFault::NoMemory
    }
}

impl From<NoMemory> for PutFault {
    ghost from_gives = { λ _ fault. fault ≡ PutFault.NoMemory };

    fn from(_e: NoMemory) -> PutFault {
        PutFault::NoMemory
    }
}

/// Where bytes come from.
///
/// Example: a `QuietSource` of `b"abcd"` gives `b"abcd"`, and then nothing.
pub trait Source {
    // The bytes that are left, if the source tells them.
    ghost bytes_left: { Self → Option (List ℕ) };

    // How often the source failed. The count stays at `2^64 - 1` once it reaches that.
    ghost faults: { Self → ℕ };

    /// Moves the next bytes into the front of the room, and says how many: none only at the end,
    /// or where there is no room.
    ///
    /// `Failed` only where the count of faults rose. The bytes that are left are as before then.
    ///
    /// Example: of a source that has `b"abcd"` left, into a room of 8 bytes, a `QuietSource` moves at most 4.
    fn take(&mut self, room: &mut [u8]) -> Result<usize, Failed>
        ensures within { IfOk result (λ count. count ≤ length room.old) }
        ensures took { IfOk result (λ count. Took (bytes_left self.old) (take count room.new) (bytes_left self.new)) }
        ensures end { IfOk result (λ count. count ≡ 0 → 0 < length room.old → AtEnd (bytes_left self.new)) }
        ensures failed { OnErr result (bytes_left self.new ≡ bytes_left self.old) }
        ensures rose { OnErr result (Rose (faults self.old) (faults self.new)) }
        ensures counts { Counts (faults self.old) (faults self.new) };
}

/// Where bytes go.
///
/// Example: a `QuietSink` into which `b"ab"` and `b"cd"` were put whole holds `b"abcd"`.
pub trait Sink {
    // The bytes that were put so far, if the sink tells them.
    ghost bytes_held: { Self → Option (List ℕ) };

    // How often the sink failed. The count stays at `2^64 - 1` once it reaches that.
    ghost faults: { Self → ℕ };

    /// Puts the first bytes of the piece, and says how many: none only of an empty piece.
    ///
    /// `Failed` only where the count of faults rose. Where it failed or found no memory, nothing
    /// was put.
    ///
    /// Example: of `b"abcd"` into a `ListSink` that takes at most two bytes a call it is at most `Ok(2)`.
    fn put(&mut self, piece: &[u8]) -> Result<usize, PutFault>
        ensures within { IfOk result (λ count. count ≤ length piece.now) }
        ensures some { IfOk result (λ count. 0 < length piece.now → 0 < count) }
        ensures put { IfOk result (λ count. Put (bytes_held self.old) (take count piece.now) (bytes_held self.new)) }
        ensures failed { OnErr result (bytes_held self.new ≡ bytes_held self.old) }
        ensures rose { IfErr result (λ fault. fault ≡ PutFault.Failed → Rose (faults self.old) (faults self.new)) }
        ensures counts { Counts (faults self.old) (faults self.new) };
}
