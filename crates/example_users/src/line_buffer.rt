//! The lines that come in over a socket, which are answered where they lie.
ghost use Rattle.std.specs.Prelude.{◌≡◌, length, min, take, is_some, MatchOption, MatchResult};
ghost use Rattle.pybuf_value.specs.declared.halt.Halt.{Halt};

use pybuf::{Halt, PyByteArray, PyMemoryView, place_of_byte};
use std::alloc::Global;
use std::marker::Model;

/// A buffer of a fixed size for the bytes of a socket. What came in is parsed where it lies, and each line is
/// answered where it lies: by its letters in upper case. A memoryview of the whole buffer is never released, so
/// the buffer never moves and never grows.
///
/// A clause sees the answers that weren't sent, what came in and wasn't answered, and how many more bytes have
/// room.
#[derive(Debug, Drop)]
pub struct LineBuffer {
    room: PyByteArray,
    view: usize,
    begin: usize,
    end: usize,
}

impl Model for LineBuffer {
    ghost use Rattle.example_users.specs.Lines.{Lines, lines_in, IsLineBuffer};

    ghost Value = { Lines };

    ghost view = { λ buffer. lines_in buffer.room.bytes buffer.begin buffer.end };

    ghost invariant = { λ buffer. IsLineBuffer buffer.room buffer.view buffer.begin buffer.end };
}

impl LineBuffer {
    ghost use Rattle.example_users.specs.Lines.{empty_lines, received, next_line, answered, sent};

    /// A buffer with room for so many bytes. It fails for want of memory alone.
    pub fn new(alloc: Global, size: usize) -> Result<LineBuffer, Halt>
        ensures { MatchResult result (λ buffer. buffer ≡ empty_lines size) (λ halt. halt ≡ Halt.NoMemory) }
    {
        let mut room = PyByteArray::from(vec![in alloc; 0u8; size]?);
        let view = PyMemoryView::of_all(room.state_mut())?;
        Ok(LineBuffer {
            room,
            view: view.number(),
            begin: 0,
            end: 0,
        })
    }

    /// Takes bytes that came in, as many as there is room for. The result is how many.
    pub fn receive(&mut self, bytes: &[u8]) -> usize
        ensures count { result ≡ min (length bytes.now) self.old.free }
        ensures after { self.new ≡ received self.old (take result bytes.now) }
    {
        let count = bytes.len().min(self.room.byte_count() - self.end);
        let room = self.room.state_mut().contiguous_bytes_mut(self.view);
        room[self.end..self.end + count].copy_from_slice(&bytes[..count]);
        self.end += count;
        count
    }

    /// The first line that came in whole and wasn't answered, without its line feed, where it lies.
    pub fn line(&self) -> Option<&[u8]>
        ensures { MatchOption result (next_line self.now ≡ None) (λ line. next_line self.now ≡ Some line.now) }
    {
        let waiting = &self.room.as_slice()[self.begin..self.end];
        Some(&waiting[..place_of_byte(waiting, b'\n')?])
    }

    /// Answers that line: its answer lies in its place then. Without such a line nothing is done.
    pub fn answer(&mut self) -> bool
        ensures value { result ≡ is_some (next_line self.old) }
        ensures after { self.new ≡ answered self.old }
    {
        let Some(line) = self.line() else {
            return false;
        };
        let end = self.begin + line.len() + 1;
        let room = self.room.state_mut().contiguous_bytes_mut(self.view);
        room[self.begin..end].make_ascii_uppercase();
        self.begin = end;
        true
    }

    /// The answers that weren't sent.
    pub fn answers(&self) -> &[u8]
        ensures { result.now ≡ self.now.answers }
    {
        &self.room.as_slice()[..self.begin]
    }

    /// Drops the answers, which were sent, and makes room.
    pub fn sent(&mut self)
        ensures { self.new ≡ sent self.old }
    {
        let room = self.room.state_mut().contiguous_bytes_mut(self.view);
        room.copy_within(self.begin..self.end, 0);
        (self.begin, self.end) = (0, self.end - self.begin);
    }
}
