//! The traits of Rust's library that bytes and bytearrays have.
ghost use Rattle.std.specs.Prelude.{◌≡◌, ◌↔◌, ℕ, [], length, IsOk, IfOk, MatchResult, Some};
ghost use Rattle.std.specs.Borrow.{sem};
ghost use Rattle.std.specs.Io.BufRead.{Rests, FillKeeps, DropsConsumable};
ghost use Rattle.std.specs.Io.{ReadsAtMost, WritesAtMost, StartsWith};
ghost use Rattle.std.specs.Io.KnownBytes.{ReadConsumes, WriteAppends};
ghost use Rattle.std.specs.IoError.{error_kind};
ghost use Rattle.std.specs.Iterator.Runs.{EveryRun, ItemsMapTo};
ghost use Rattle.std.specs.Slice.Iter.{iter_rest, iter_steps};
ghost use Rattle.pybuf_command.specs.declared.kinds.ExporterKind.TheVariants as kinds;
ghost use Rattle.pybuf_state.specs.Exporter.{new_exporter};
ghost use Rattle.pybuf_object.specs.Plain.{may_resize};
ghost use Rattle.pybuf_object.specs.Queue as queue;
ghost use Rattle.pybuf_object.specs.contracts.byte_array.PyByteArray as byte_array;

use crate::byte_array::PyByteArray;
use crate::bytes::PyBytes;
use pybuf_value::Halt;
use std::convert::AsSlice;
use std::io::{BufRead, Error, ErrorKind, Read, Write};
use std::ops::DerefSlice;
use std::{io, slice};

/// The `bytes` of a vector. Takes no memory.
impl From<Vec<u8>> for PyBytes {
    ghost from_gives = { λ bytes made. made ≡ new_exporter kinds.Bytes bytes.items };

    fn from(bytes: Vec<u8>) -> PyBytes {
        let alloc = *bytes.allocator();
        PyBytes::from_vec(alloc, bytes)
    }
}

/// The `bytearray` of a vector. Takes no memory.
impl From<Vec<u8>> for PyByteArray {
    ghost from_gives = { λ bytes made. made ≡ new_exporter kinds.ByteArray bytes.items };

    fn from(bytes: Vec<u8>) -> PyByteArray {
        let alloc = *bytes.allocator();
        PyByteArray::from_vec(alloc, bytes)
    }
}

impl AsSlice<u8> for PyBytes {
    ghost items = { λ b. b.bytes };

    fn as_slice(&self) -> &[u8] {
        PyBytes::as_slice(self)
    }
}

impl AsSlice<u8> for PyByteArray {
    ghost items = { λ b. b.bytes };

    fn as_slice(&self) -> &[u8] {
        PyByteArray::as_slice(self)
    }
}

/// So `b[0]` and `&b[1..3]` are those of a slice.
impl DerefSlice for PyBytes {
    type Elem = u8;

    ghost deref_gives = { λ b bytes. bytes ≡ b.bytes };

    fn deref(&self) -> &[u8] {
        PyBytes::as_slice(self)
    }
}

/// So `a[0]` and `&a[1..3]` are those of a slice.
impl DerefSlice for PyByteArray {
    type Elem = u8;

    ghost deref_gives = { λ b bytes. bytes ≡ b.bytes };

    fn deref(&self) -> &[u8] {
        PyByteArray::as_slice(self)
    }
}

impl<'a> IntoIterator for &'a PyBytes {
    type Item = &'a u8;

    type IntoIter = slice::Iter<'a, u8>;

    ghost into_iter_gives = { λ b it. (iter_rest it ≡ b.now.bytes)
        × EveryRun (iter_steps {A = ℕ}) (λ p. ItemsMapTo p (λ byte. byte.now) (iter_rest p.from)) };

    fn into_iter(self) -> slice::Iter<'a, u8> {
        PyBytes::as_slice(self).iter()
    }
}

impl<'a> IntoIterator for &'a PyByteArray {
    type Item = &'a u8;

    type IntoIter = slice::Iter<'a, u8>;

    ghost into_iter_gives = { λ b it. (iter_rest it ≡ b.now.bytes)
        × EveryRun (iter_steps {A = ℕ}) (λ p. ItemsMapTo p (λ byte. byte.now) (iter_rest p.from)) };

    fn into_iter(self) -> slice::Iter<'a, u8> {
        PyByteArray::as_slice(self).iter()
    }
}

/// The error that tells a refusal, or want of memory.
fn error_of(halt: Halt) -> Error
    ensures { error_kind result ≡ queue.kind_of halt }
{
    match halt {
        Halt::NoMemory => Error::from(ErrorKind::OutOfMemory),
        Halt::Refused(_) => Error::from(ErrorKind::ResourceBusy),
    }
}

/// A queue: what is read is taken from the front, as much as there is room for. Takes no memory.
///
/// Refused with `ResourceBusy` exactly while a view is unreleased, or where another kind of exporter was put in;
/// nothing is taken then, and the room is as before.
impl Read for PyByteArray {
    ghost remaining = { λ b. Some b.bytes };

    fn read(&mut self, buf: &mut [u8]) -> io::Result<usize>
        ensures bound { ReadsAtMost result buf.new }
        ensures bytes { ReadConsumes (Some self.old.bytes) (Some self.new.bytes) result buf.new }
        ensures exact { queue.SettlesAsRead (queue.read_front self.old (length buf.old)) self.old result self.new }
        ensures room { MatchResult result (λ count. buf.new ≡ queue.filled_from self.old buf.old count) (λ _. buf.new ≡ buf.old) }
    {
        match self.read_front(buf) {
            Ok(count) => Ok(count),
            Err(halt) => Err(error_of(halt)),
        }
    }
}

/// A queue whose front is lent: `fill_buf` lends all bytes without a copy, and `consume` takes the first out. So it has
/// `read_until`, `read_line` and `lines`.
///
/// `fill_buf` is refused with `ResourceBusy` exactly while a view is unreleased, or where another kind of exporter was put
/// in. `consume` takes nothing out then, and all bytes where there are fewer.
impl BufRead for PyByteArray {
    ghost consumable_len = { λ b. Some (queue.consumable b) };

    fn fill_buf(&mut self) -> io::Result<&[u8]>
        ensures front { IfOk result (λ s. StartsWith self.old.bytes s.now) }
        ensures end { IfOk result (λ s. length s.now ≡ 0 → self.old.bytes ≡ []) }
        ensures* after_borrow { sem 𝓛 (Rests byte_array.the_row self.entry (λ new.
            FillKeeps (Some self.old.bytes) (Some new.bytes) (Some (queue.consumable new)) result)) }
        ensures value { MatchResult result (λ s. s.now ≡ self.old.bytes) (λ error. error_kind error ≡ ErrorKind.ResourceBusy) }
        ensures exact { IsOk result ↔ IsOk (may_resize self.old) }
    {
        if let Err(fault) = self.check_resizable() {
            return Err(error_of(Halt::Refused(fault)));
        }
        Ok(PyByteArray::as_slice(self))
    }

    fn consume(&mut self, amount: usize)
        ensures bytes { DropsConsumable (Some self.old.bytes) (Some self.new.bytes) (Some (queue.consumable self.old)) amount }
        ensures rest { self.new ≡ queue.consumed self.old amount }
    {
        let _ = self.drain_front(amount);
    }
}

/// A queue: what is written is added at the end, all of it.
///
/// Refused with `ResourceBusy` exactly while a view is unreleased, or where another kind of exporter was put in. It
/// fails with `OutOfMemory` for want of memory alone. Nothing is added then.
impl Write for PyByteArray {
    ghost contents = { λ b. Some b.bytes };

    fn write(&mut self, buf: &[u8]) -> io::Result<usize>
        ensures bound { WritesAtMost result buf.now }
        ensures bytes { WriteAppends (Some self.old.bytes) (Some self.new.bytes) result buf.now }
        ensures exact { queue.SettlesAsWrite (queue.written_behind self.old buf.now) self.old result self.new }
    {
        match self.write_behind(buf) {
            Ok(count) => Ok(count),
            Err(halt) => Err(error_of(halt)),
        }
    }

    /// Never fails, and changes nothing.
    fn flush(&mut self) -> io::Result<()>
        ensures ok { IsOk result }
        ensures kept { self.new ≡ self.old }
    {
        Ok(())
    }
}
