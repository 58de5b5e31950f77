//! Sources and sinks in memory, which never fail.
ghost use Rattle.std.specs.Prelude.{◌≡◌, ◌≤◌, ◌++◌, List, ℕ, [], Some, OnOk, OnErr, drop, take, length, min, vec_len};

use crate::devices::{Failed, PutFault, Sink, Source};
use pybuf_value::{ByteList, Made};
use std::alloc::Global;
use std::marker::Model;

/// A source of bytes in memory. It never fails. A clause sees the list of the bytes that are left.
///
/// Example: that of `b"abcd"` has `b"abcd"` left.
#[derive(Debug, Drop)]
pub struct QuietSource {
    bytes: Vec<u8>,
    taken: usize,
}

impl Model for QuietSource {
    ghost Value = { List ℕ };

    ghost view = { λ source. drop source.taken source.bytes.items };

    ghost invariant = { λ source. source.taken ≤ vec_len source.bytes };
}

impl QuietSource {
    /// A source of these bytes. Takes no memory.
    ///
    /// Example: of `b"abcd"` it is a source that has `b"abcd"` left.
    pub fn new(bytes: ByteList) -> QuietSource
        ensures { result ≡ bytes }
    {
        QuietSource {
            bytes: bytes.into_vec(),
            taken: 0,
        }
    }

    /// The bytes that are left, lent.
    ///
    /// Example: of a source of `b"abcd"` from which nothing was taken it is `b"abcd"`.
    pub fn left(&self) -> &[u8]
        ensures { result.now ≡ self.now }
    {
        &self.bytes[self.taken..]
    }

    /// Moves the next bytes into the front of the room, as many as there are and fit, and no more than that.
    pub(crate) fn move_next(&mut self, room: &mut [u8], most: usize) -> usize
        ensures count { result ≡ min (min (length self.old) (length room.old)) most }
        ensures moved { take result room.new ≡ take result self.old }
        ensures left { self.new ≡ drop result self.old }
    {
        let count = move_front(&self.bytes[self.taken..], room, most);
        self.taken += count;
        count
    }
}

impl Source for QuietSource {
    ghost bytes_left = { λ source. Some source };

    ghost faults = { λ _. 0 };

    fn take(&mut self, room: &mut [u8]) -> Result<usize, Failed> {
        let most = room.len();
        Ok(self.move_next(room, most))
    }
}

/// Copies the front of a slice to the front of the room, as much as there is and fits, and no more than
/// that.
fn move_front(from: &[u8], room: &mut [u8], most: usize) -> usize
    ensures count { result ≡ min (min (length from.now) (length room.old)) most }
    ensures there { result ≤ length from.now }
    ensures copied { take result room.new ≡ take result from.now }
{
    let count = from.len().min(room.len()).min(most);
    room[..count].copy_from_slice(&from[..count]);
    count
}

/// A sink that keeps its bytes in memory. It never fails. A clause sees the list of the bytes.
///
/// Example: one into which `b"ab"` was put whole holds `b"ab"`.
#[derive(Debug, Drop)]
pub struct QuietSink {
    bytes: Vec<u8>,
}

impl Model for QuietSink {
    ghost Value = { List ℕ };

    ghost view = { λ sink. sink.bytes.items };
}

impl QuietSink {
    /// A sink that holds nothing. Takes no memory.
    ///
    /// Example: a new sink holds `b""`.
    pub fn new(alloc: Global) -> QuietSink
        ensures { result ≡ [] }
    {
        QuietSink {
            bytes: Vec::new(alloc),
        }
    }

    /// The bytes that were put, lent.
    ///
    /// Example: of a sink into which `b"ab"` was put whole it is `b"ab"`.
    pub fn bytes(&self) -> &[u8]
        ensures { result.now ≡ self.now }
    {
        self.bytes.as_slice()
    }

    /// The bytes that were put. Takes no memory.
    ///
    /// Example: of a sink into which `b"ab"` was put whole it is the list of `b"ab"`.
    pub fn into_bytes(self) -> ByteList
        ensures { result ≡ self }
    {
        let QuietSink { bytes } = self;
        ByteList::from_vec(bytes)
    }

    /// Puts the whole piece. Where memory runs out, nothing is put.
    pub(crate) fn keep(&mut self, piece: &[u8]) -> Made<()>
        ensures ok { OnOk result (self.new ≡ self.old ++ piece.now) }
        ensures err { OnErr result (self.new ≡ self.old) }
    {
        self.bytes.extend_from_slice(piece)?;
        Ok(())
    }
}

impl Sink for QuietSink {
    ghost bytes_held = { λ sink. Some sink };

    ghost faults = { λ _. 0 };

    fn put(&mut self, piece: &[u8]) -> Result<usize, PutFault> {
        self.keep(piece)?;
        Ok(piece.len())
    }
}
