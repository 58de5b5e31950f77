//! Sources and sinks in memory that fail at the calls that they are told.
ghost use Rattle.std.specs.Prelude.{◌≡◌, ◌↔◌, ◌==◌, ◌<◌, ◌≤◌, ◌^◌, List, ℕ, [], Some, Err, true, IfOk, IfErr, OnErr, IsErr, if◌then◌else◌, drop, take, length, min, ◌++◌};
ghost use Rattle.std.specs.List.{list_any};
ghost use Rattle.pybuf_cli.specs.Devices.{Took, AtEnd, Put, Rose, Counts};
ghost use Rattle.pybuf_cli.specs.Failing.{Failing, fails_next, one_more, after_fault, with_bytes};
ghost use Rattle.pybuf_cli.specs.declared.devices.PutFault.{PutFault};

use crate::devices::{Failed, PutFault, Sink, Source};
use crate::memory::{QuietSink, QuietSource};
use pybuf_value::{ByteList, CountList};
use std::alloc::Global;
use std::marker::Model;

/// Which calls of a device fail, how many calls there were, and how many of these failed. A count
/// stands still at its type's end.
#[derive(Debug, Drop)]
struct Calls {
    failing: CountList,
    made: usize,
    failed: u64,
}

impl Calls {
    fn new(failing: CountList) -> Calls
        ensures failing { result.failing ≡ failing }
        ensures made { result.made ≡ 0 }
        ensures failed { result.failed ≡ 0 }
    {
        Calls {
            failing,
            made: 0,
            failed: 0,
        }
    }

    /// Counts one more call, and says whether it fails.
    fn next_fails(&mut self) -> bool
        ensures answer { result ≡ list_any (λ number. number == self.old.made) self.old.failing }
        ensures failing { self.new.failing ≡ self.old.failing }
        ensures made { self.new.made ≡ one_more self.old.made }
        ensures failed { self.new.failed ≡ (if result then one_more self.old.failed else self.old.failed) }
        ensures later { self.old.failed ≤ self.new.failed }
        ensures bounded { self.new.failed < 2 ^ 64 }
    {
        let failed = self.failed;
        let fails = self.failing.as_slice().contains(&self.made);
        self.made = self.made.saturating_add(1);
        if fails {
            self.failed = failed.saturating_add(1);
            return true;
        }
        false
    }
}

/// A source of bytes in memory that fails where it is told to. A clause sees the bytes that are left
/// and the counts.
///
/// Example: that of `b"abcd"` whose call 1 fails gives its bytes in the calls 0, 2 and so on.
#[derive(Debug, Drop)]
pub struct ListSource {
    source: QuietSource,
    most: usize,
    calls: Calls,
}

impl Model for ListSource {
    ghost Value = { Failing };

    ghost view = { λ s. record { bytes = s.source; most = s.most; failing = s.calls.failing; calls = s.calls.made; faults = s.calls.failed } };

    ghost invariant = { λ s. 0 < s.most };
}

impl ListSource {
    /// A source of these bytes. The calls whose numbers stand in the list fail, counted from 0, and any
    /// other moves at most so many bytes, of which there has to be one. Takes no memory.
    ///
    /// Example: of `b"abcd"`, 2 and the list of 1, the second call fails, and any other moves at most two bytes.
    pub fn new(bytes: ByteList, most: usize, failing: CountList) -> ListSource
        requires { 0 < most }
        ensures { result ≡ record { bytes = bytes; most = most; failing = failing; calls = 0; faults = 0 } }
    {
        ListSource {
            source: QuietSource::new(bytes),
            most,
            calls: Calls::new(failing),
        }
    }

    /// The bytes that are left, lent.
    ///
    /// Example: of a source of `b"abcd"` from which nothing was taken it is `b"abcd"`.
    pub fn left(&self) -> &[u8]
        ensures { result.now ≡ self.now.bytes }
    {
        self.source.left()
    }

    /// How many calls failed so far. The count stands still at `u64::MAX`.
    ///
    /// Example: of a source whose call 1 fails it is 1 after two calls.
    pub fn faults(&self) -> u64
        ensures { result ≡ self.now.faults }
    {
        self.calls.failed
    }
}

impl Source for ListSource {
    ghost bytes_left = { λ source. Some source.bytes };

    ghost faults = { λ source. source.faults };

    /// Fails exactly at the calls that it was told. Any other moves as many bytes as there are and fit,
    /// and as one call moves at most.
    fn take(&mut self, room: &mut [u8]) -> Result<usize, Failed>
        ensures within { IfOk result (λ count. count ≤ length room.old) }
        ensures took { IfOk result (λ count. Took (Some self.old.bytes) (take count room.new) (Some self.new.bytes)) }
        ensures end { IfOk result (λ count. count ≡ 0 → 0 < length room.old → AtEnd (Some self.new.bytes)) }
        ensures failed { OnErr result (Some self.new.bytes ≡ Some self.old.bytes) }
        ensures rose { OnErr result (Rose self.old.faults self.new.faults) }
        ensures counts { Counts self.old.faults self.new.faults }
        ensures fails { IsErr result ↔ (fails_next self.old ≡ true) }
        ensures fault { OnErr result (self.new ≡ after_fault self.old) }
        ensures count { IfOk result (λ count. count ≡ min (min (length self.old.bytes) (length room.old)) self.old.most) }
        ensures moved { IfOk result (λ count. self.new ≡ with_bytes self.old (drop count self.old.bytes)) }
    {
        if self.calls.next_fails() {
            return Err(Failed);
        }
        Ok(self.source.move_next(room, self.most))
    }
}

/// A sink that keeps its bytes in memory and fails where it is told to. A clause sees the bytes that
/// were put and the counts.
///
/// Example: one whose call 1 fails takes bytes in the calls 0, 2 and so on.
#[derive(Debug, Drop)]
pub struct ListSink {
    sink: QuietSink,
    most: usize,
    calls: Calls,
}

impl Model for ListSink {
    ghost Value = { Failing };

    ghost view = { λ s. record { bytes = s.sink; most = s.most; failing = s.calls.failing; calls = s.calls.made; faults = s.calls.failed } };

    ghost invariant = { λ s. 0 < s.most };
}

impl ListSink {
    /// A sink that holds nothing. The calls whose numbers stand in the list fail, counted from 0, and
    /// any other puts at most so many bytes, of which there has to be one. Takes no memory.
    ///
    /// Example: of 2 and the list of 1, the second call fails, and any other puts at most two bytes.
    pub fn new(alloc: Global, most: usize, failing: CountList) -> ListSink
        requires { 0 < most }
        ensures { result ≡ record { bytes = []; most = most; failing = failing; calls = 0; faults = 0 } }
    {
        ListSink {
            sink: QuietSink::new(alloc),
            most,
            calls: Calls::new(failing),
        }
    }

    /// The bytes that were put, lent.
    ///
    /// Example: of a new sink it is `b""`.
    pub fn bytes(&self) -> &[u8]
        ensures { result.now ≡ self.now.bytes }
    {
        self.sink.bytes()
    }

    /// How many calls failed so far. The count stands still at `u64::MAX`.
    ///
    /// Example: of a sink whose call 1 fails it is 1 after two calls.
    pub fn faults(&self) -> u64
        ensures { result ≡ self.now.faults }
    {
        self.calls.failed
    }
}

impl Sink for ListSink {
    ghost bytes_held = { λ sink. Some sink.bytes };

    ghost faults = { λ sink. sink.faults };

    /// Fails exactly at the calls that it was told. Any other puts the front of the piece, as many bytes
    /// as one call puts at most, unless memory runs out: nothing is put then.
    fn put(&mut self, piece: &[u8]) -> Result<usize, PutFault>
        ensures within { IfOk result (λ count. count ≤ length piece.now) }
        ensures some { IfOk result (λ count. 0 < length piece.now → 0 < count) }
        ensures put { IfOk result (λ count. Put (Some self.old.bytes) (take count piece.now) (Some self.new.bytes)) }
        ensures failed { OnErr result (Some self.new.bytes ≡ Some self.old.bytes) }
        ensures rose { IfErr result (λ fault. fault ≡ PutFault.Failed → Rose self.old.faults self.new.faults) }
        ensures counts { Counts self.old.faults self.new.faults }
        ensures fails { (result ≡ Err PutFault.Failed) ↔ (fails_next self.old ≡ true) }
        ensures fault { result ≡ Err PutFault.Failed → self.new ≡ after_fault self.old }
        ensures no_memory { result ≡ Err PutFault.NoMemory → self.new ≡ with_bytes self.old self.old.bytes }
        ensures count { IfOk result (λ count. count ≡ min self.old.most (length piece.now)) }
        ensures kept { IfOk result (λ count. self.new ≡ with_bytes self.old (self.old.bytes ++ take count piece.now)) }
    {
        if self.calls.next_fails() {
            return Err(PutFault::Failed);
        }
        let count = self.most.min(piece.len());
        let Ok(()) = self.sink.keep(&piece[..count]) else {
            return Err(PutFault::NoMemory);
        };
        Ok(count)
    }
}
