//! `PyByteArray` by plain arguments: each call makes no value, no loan and no reply.
ghost use Rattle.std.specs.Prelude.{◌≡◌, ◌==◌, ◌<◌, ◌≤◌, [], length, take, slice_set, true, Ok, Err, IfOk, IsSomeAnd, MatchOption, MatchResult};
ghost use Rattle.pybuf_value.specs.Halting.{AnsweredAtOnce};
ghost use Rattle.pybuf_command.specs.declared.kinds.ExporterKind.TheVariants as kinds;
ghost use Rattle.pybuf_state.specs.Exporter.{new_exporter};
ghost use Rattle.pybuf_index.specs.Places.{item_place, entry_in};
ghost use Rattle.pybuf_object.specs.Plain as spec;
ghost use Rattle.pybuf_object.specs.Queue as queue;

use crate::byte_array::PyByteArray;
use crate::slices;
use pybuf_command::ExporterKind;
use pybuf_index::{SequenceIndexOp, entry_in};
use pybuf_value::{Fault, Halt, Made};
use std::alloc::Global;

/// Puts a byte in place of the one that a number names.
///
/// Refused with `IndexError` exactly where there is none.
fn put(bytes: &mut [u8], index: isize, byte: u8) -> Result<(), Fault>
    ensures { MatchResult result (λ _. IsSomeAnd (item_place (length bytes.old) index) (λ place. bytes.new ≡ slice_set bytes.old place byte)) (λ fault. (entry_in (length bytes.old) index ≡ Err fault) × (bytes.new ≡ bytes.old)) }
{
    let place = entry_in(bytes.len(), index)?;
    bytes[place] = byte;
    Ok(())
}

impl PyByteArray {
    /// The `bytearray` without bytes, and no view of it. Takes no memory.
    /// Example: `PyByteArray::new(alloc).as_slice()` is `b""`.
    pub fn new(alloc: Global) -> PyByteArray
        ensures { result ≡ new_exporter kinds.ByteArray [] }
    {
        PyByteArray::from_vec(alloc, Vec::new(alloc))
    }

    /// The `bytearray` of a vector, and no view of it. Takes no memory.
    /// Example: of a vector of the bytes 97 and 98 it is `bytearray(b"ab")`.
    pub fn from_vec(alloc: Global, bytes: Vec<u8>) -> PyByteArray
        ensures { result ≡ new_exporter kinds.ByteArray bytes.items }
    {
        PyByteArray::new_ref(alloc, bytes)
    }

    /// The `bytearray` of a copy of bytes, and no view of it.
    /// Example: `PyByteArray::from_slice(alloc, b"abc")?` is `bytearray(b"abc")`.
    pub fn from_slice(alloc: Global, bytes: &[u8]) -> Made<PyByteArray>
        ensures { IfOk result (λ made. made ≡ new_exporter kinds.ByteArray bytes.now) }
    {
        Ok(PyByteArray::new_ref(alloc, Vec::from_slice(alloc, bytes)?))
    }

    /// The `bytearray` of a copy of these bytes, and no view of it.
    /// Example: the copy of `bytearray(b"abc")` stays `bytearray(b"abc")` where the first is then written.
    pub fn try_clone(&self, alloc: Global) -> Made<PyByteArray>
        ensures { IfOk result (λ made. made ≡ new_exporter kinds.ByteArray self.now.bytes) }
    {
        PyByteArray::from_slice(alloc, self.as_slice())
    }

    /// The bytes, lent without a copy. Takes no memory.
    /// Example: of `bytearray(b"!XYZ")` it is `b"!XYZ"`.
    pub fn as_slice(&self) -> &[u8]
        ensures { result.now ≡ self.now.bytes }
    {
        self.exporter.bytes()
    }

    /// The number of bytes, as Python's `len(bytearray)`. The method `len` is the command of that name. Takes no
    /// memory.
    /// Example: of `bytearray(b"abc")` it is 3.
    pub fn byte_count(&self) -> usize
        ensures { result ≡ length self.now.bytes }
    {
        self.exporter.bytes().len()
    }

    /// Whether there is no byte. Takes no memory.
    /// Example: of `PyByteArray::new(alloc)` it is true.
    pub fn is_empty(&self) -> bool
        ensures { result ≡ (length self.now.bytes == 0) }
    {
        self.exporter.bytes().is_empty()
    }

    /// The byte that an index names, where a negative one counts from the end; It is None exactly where there is no
    /// such byte. Takes no memory.
    /// Example: of `bytearray(b"abc")` the index -1 gets `Some(99)`, and the index 3 gets None.
    pub fn get(&self, index: isize) -> Option<u8>
        ensures { result ≡ spec.byte_at self.now.bytes index }
    {
        slices::byte_at(self.exporter.bytes(), index)
    }

    /// The bytes that the slice `start:stop:step` picks, where None stands for what isn't written.
    ///
    /// Refused with `ValueError` exactly where the step is 0.
    /// Example: of `bytearray(b"abcdef")`, `slice(alloc, None, None, Some(-2))?` has the bytes `b"fdb"`.
    pub fn slice(
        &self,
        alloc: Global,
        start: Option<isize>,
        stop: Option<isize>,
        step: Option<isize>,
    ) -> Result<Vec<u8>, Halt>
        ensures { spec.GivesBytes (spec.bytes_of_slice self.now.bytes start stop step) result }
    {
        slices::bytes_of_slice(alloc, self.exporter.bytes(), start, stop, step)
    }

    /// Whether the number of bytes may change.
    ///
    /// Refused with `UnknownName` where another kind of exporter was put in, and with `BufferError` where a view is
    /// unreleased.
    pub(crate) fn check_resizable(&self) -> Result<(), Fault>
        ensures { AnsweredAtOnce result (λ _. true) (spec.may_resize self.now) }
    {
        match self.exporter.kind() {
            ExporterKind::ByteArray => self.exporter.check_resizable(),
            _ => Err(Fault::UnknownName),
        }
    }

    /// Adds bytes at the end.
    fn add_behind(&mut self, bytes: &[u8]) -> Result<(), Halt>
        ensures { spec.Settles (spec.extended_by self.old bytes.now) self.old result self.new }
    {
        match self.exporter.kind() {
            ExporterKind::ByteArray => self.exporter.append_bytes(bytes),
            _ => Err(Halt::Refused(Fault::UnknownName)),
        }
    }

    /// Puts bytes before the byte at a place.
    fn put_before(&mut self, place: usize, bytes: &[u8]) -> Result<(), Halt>
        requires { place ≤ length self.old.bytes }
        ensures { spec.Settles (spec.put_before self.old place bytes.now) self.old result self.new }
    {
        match self.exporter.kind() {
            ExporterKind::ByteArray => self.exporter.replace_range(place, place, bytes),
            _ => Err(Halt::Refused(Fault::UnknownName)),
        }
    }

    /// Takes out the bytes from one place up to another. Takes no memory.
    fn cut_out(&mut self, start: usize, end: usize) -> Result<(), Fault>
        requires ordered { start ≤ end }
        requires inside { end ≤ length self.old.bytes }
        ensures { spec.SettlesFault (spec.cut_out self.old start end) self.old result self.new }
    {
        match self.exporter.kind() {
            ExporterKind::ByteArray => self.exporter.remove_range(start, end),
            _ => Err(Fault::UnknownName),
        }
    }

    /// Takes out the byte at a place. Takes no memory.
    fn take_out(&mut self, place: usize) -> Result<u8, Fault>
        requires { place < length self.old.bytes }
        ensures { spec.SettlesFault (spec.taken_out self.old place) self.old result self.new }
    {
        let byte = self.exporter.bytes()[place];
        self.cut_out(place, place + 1)?;
        Ok(byte)
    }

    /// Adds a byte at the end.
    ///
    /// Refused with `BufferError` where a view is unreleased. Nothing is changed then, nor where memory runs out.
    /// Example: to `bytearray(b"Abc")` the byte 100 makes `bytearray(b"Abcd")`.
    pub fn push(&mut self, byte: u8) -> Result<(), Halt>
        ensures { spec.Settles (spec.pushed self.old byte) self.old result self.new }
    {
        self.add_behind([byte].as_slice())
    }

    /// Adds bytes at the end, as Python's `bytearray.extend(bytes)`.
    ///
    /// Refused with `BufferError` where a view is unreleased, also for no bytes. Nothing is changed then, nor where
    /// memory runs out.
    /// Example: to `bytearray(b"ab")` the bytes `b"cd"` make `bytearray(b"abcd")`.
    pub fn extend_from_slice(&mut self, bytes: &[u8]) -> Result<(), Halt>
        ensures { spec.Settles (spec.extended_by self.old bytes.now) self.old result self.new }
    {
        self.add_behind(bytes)
    }

    /// Puts a byte before the place that is nearest to an index, where a negative one counts from the end.
    ///
    /// Refused with `BufferError` where a view is unreleased. Nothing is changed then, nor where memory runs out.
    /// Example: in `bytearray(b"abc")` the index -1 and the byte 90 make `bytearray(b"abZc")`.
    pub fn insert_at(&mut self, index: isize, byte: u8) -> Result<(), Halt>
        ensures { spec.Settles (spec.inserted_at self.old index byte) self.old result self.new }
    {
        let place = index.saturated_at(self.exporter.bytes().len());
        self.put_before(place, [byte].as_slice())
    }

    /// Takes the byte that an index names out, where a negative one counts from the end. Takes no memory.
    ///
    /// Refused with `BufferError` where a view is unreleased, and then with `IndexError` out of range. Nothing is
    /// changed then.
    /// Example: of `bytearray(b"abc")` the index 0 gives 97, and leaves `bytearray(b"bc")`.
    pub fn remove_at(&mut self, index: isize) -> Result<u8, Halt>
        ensures { spec.SettlesAtOnce (spec.removed_at self.old index) self.old result self.new }
    {
        self.check_resizable()?;
        let place = entry_in(self.exporter.bytes().len(), index)?;
        Ok(self.take_out(place)?)
    }

    /// Takes the last byte out. It is None where there is none. Takes no memory.
    ///
    /// Refused with `BufferError` where a view is unreleased. Nothing is changed then.
    /// Example: of `bytearray(b"Abcd")` it gives `Some(100)`, and leaves `bytearray(b"Abc")`.
    pub fn pop_last(&mut self) -> Result<Option<u8>, Halt>
        ensures { spec.SettlesAtOnce (spec.popped_last self.old) self.old result self.new }
    {
        self.check_resizable()?;
        match (-1isize).wrapped_at(self.exporter.bytes().len()) {
            None => Ok(None),
            Some(place) => Ok(Some(self.take_out(place)?)),
        }
    }

    /// Leaves so many bytes from the first on, and all where there are no more, as Python's `del a[count:]`. Takes no
    /// memory.
    ///
    /// Refused with `BufferError` where a view is unreleased, also where no byte would go. Nothing is changed then.
    /// Example: `bytearray(b"abcdef")` by 2 is `bytearray(b"ab")`.
    pub fn truncate(&mut self, count: usize) -> Result<(), Halt>
        ensures { spec.SettlesAtOnce (spec.truncated self.old count) self.old result self.new }
    {
        let end = self.exporter.bytes().len();
        self.cut_out(count.min(end), end)?;
        Ok(())
    }

    /// Takes so many bytes from the first on out, and all where there are no more, as Python's `del a[:count]`. Takes
    /// no memory, and no byte moves: what was taken out is left as room before the bytes.
    ///
    /// Refused with `BufferError` where a view is unreleased, also where no byte would go. Nothing is changed then.
    /// Example: `bytearray(b"abcdef")` by 2 is `bytearray(b"cdef")`.
    pub fn drain_front(&mut self, count: usize) -> Result<(), Halt>
        ensures { spec.SettlesAtOnce (spec.drained_front self.old count) self.old result self.new }
    {
        let end = self.exporter.bytes().len();
        self.cut_out(0, count.min(end))?;
        Ok(())
    }

    /// Takes the first bytes out, as many as are asked for. The result is a copy of them, and none of the others moves.
    ///
    /// Refused with `BufferError` where a view is unreleased, and then with `IndexError` where there are fewer bytes.
    /// Nothing is changed then, nor where memory runs out.
    /// Example: of `bytearray(b"abcdef")` the first two are `b"ab"`, and `bytearray(b"cdef")` is left.
    pub fn take_front(&mut self, alloc: Global, count: usize) -> Result<Vec<u8>, Halt>
        ensures { spec.SettlesBytes (spec.front_taken self.old count) self.old result self.new }
    {
        self.check_resizable()?;
        let bytes = self.exporter.bytes();
        if bytes.len() < count {
            return Err(Halt::Refused(Fault::Index));
        }
        let front = Vec::from_slice(alloc, &bytes[..count])?;
        self.cut_out(0, count)?;
        Ok(front)
    }

    /// The first bytes, as many as are asked for, lent without a copy. It is None exactly where there are fewer. Takes no memory.
    /// Example: of `bytearray(b"abc")` the first two are `Some(b"ab")`, and the first four None.
    pub fn peek(&self, count: usize) -> Option<&[u8]>
        ensures { spec.LendsFront self.now.bytes count result }
    {
        let bytes = self.exporter.bytes();
        if bytes.len() < count {
            return None;
        }
        Some(&bytes[..count])
    }

    /// Takes bytes from the front out into a room, as many as there is room for. The result is how many. Takes no
    /// memory.
    ///
    /// Refused with `UnknownName` where another kind of exporter was put in, and with `BufferError` where a view is
    /// unreleased; the room is as before then.
    pub(crate) fn read_front(&mut self, room: &mut [u8]) -> Result<usize, Halt>
        ensures settles { spec.SettlesAtOnce (queue.read_front self.old (length room.old)) self.old result self.new }
        ensures room { MatchResult result (λ count. room.new ≡ queue.filled_from self.old room.old count) (λ _. room.new ≡ room.old) }
    {
        self.check_resizable()?;
        let bytes = self.exporter.bytes();
        let count = room.len().min(bytes.len());
        room[..count].copy_from_slice(&bytes[..count]);
        self.cut_out(0, count)?;
        Ok(count)
    }

    /// Adds bytes at the end, all of them. The result is how many.
    ///
    /// Refused with `UnknownName` where another kind of exporter was put in, and with `BufferError` where a view is
    /// unreleased.
    pub(crate) fn write_behind(&mut self, bytes: &[u8]) -> Result<usize, Halt>
        ensures { spec.Settles (queue.written_behind self.old bytes.now) self.old result self.new }
    {
        self.add_behind(bytes)?;
        Ok(bytes.len())
    }

    /// Takes all bytes out. Takes no memory.
    ///
    /// Refused with `BufferError` where a view is unreleased, also where there is no byte. Nothing is changed then.
    /// Example: `bytearray(b"abc")` is `bytearray(b"")` then.
    pub fn clear_all(&mut self) -> Result<(), Halt>
        ensures { spec.SettlesAtOnce (spec.emptied self.old) self.old result self.new }
    {
        let end = self.exporter.bytes().len();
        self.cut_out(0, end)?;
        Ok(())
    }

    /// Puts a byte in place of the one that an index names, where a negative one counts from the end. The length
    /// stays, so this is done also while a view is unreleased, and the views of the byte show it. Takes no memory.
    ///
    /// Refused with `IndexError` out of range. Nothing is changed then.
    /// Example: in `bytearray(b"abc")` the index 0 and the byte 65 make `bytearray(b"Abc")`.
    pub fn set(&mut self, index: isize, byte: u8) -> Result<(), Halt>
        ensures { spec.SettlesAtOnce (spec.put_at self.old index byte) self.old result self.new }
    {
        match self.exporter.kind() {
            ExporterKind::ByteArray => Ok(put(self.exporter.bytes_mut(), index, byte)?),
            _ => Err(Halt::Refused(Fault::UnknownName)),
        }
    }

    /// Takes all bytes out and hands them over as a vector. No byte is copied to other memory, and none moves where none
    /// was taken from the front before. Takes no memory.
    ///
    /// Refused with `BufferError` where a view is unreleased, also where there is no byte. Nothing is changed then.
    /// Example: of `bytearray(b"abc")` it is a vector of the bytes `b"abc"`, and `bytearray(b"")` is left.
    pub fn take(&mut self) -> Result<Vec<u8>, Halt>
        ensures { spec.SettlesBytesAtOnce (spec.all_taken self.old) self.old result self.new }
    {
        match self.exporter.kind() {
            ExporterKind::ByteArray => Ok(self.exporter.take_bytes()?),
            _ => Err(Halt::Refused(Fault::UnknownName)),
        }
    }

    /// How many bytes there can be in all before adding some takes memory. It is never below the number of bytes, and at
    /// most `isize::MAX`. Takes no memory.
    /// Example: of `PyByteArray::new(alloc)` after `reserve(100)` it is 100 or more.
    pub fn capacity(&self) -> usize
        ensures { length self.now.bytes ≤ result }
    {
        self.exporter.capacity()
    }

    /// Takes memory ahead, so that so many bytes more can be added without any. The bytes stay.
    ///
    /// Refused with `BufferError` where a view is unreleased, since the bytes may get another place in memory, and then
    /// with `OverflowError` where with them there were more than `isize::MAX` bytes. Nothing is changed then, nor where
    /// memory runs out.
    /// Example: `array.reserve(usize::MAX)` of `bytearray(b"abc")` is `Err(Halt::Refused(Fault::Overflow))`.
    pub fn reserve(&mut self, additional: usize) -> Result<(), Halt>
        ensures { spec.Settles (spec.reserved self.old additional) self.old result self.new }
    {
        match self.exporter.kind() {
            ExporterKind::ByteArray => self.exporter.reserve(additional),
            _ => Err(Halt::Refused(Fault::UnknownName)),
        }
    }

    /// Gives back the memory that the bytes don't need, as far as the allocator takes it. The bytes stay. Takes no
    /// memory.
    ///
    /// Refused with `BufferError` where a view is unreleased, since the bytes may get another place in memory. Nothing is
    /// changed then.
    /// Example: after `array.reserve(100)?` and `array.shrink_to_fit()?` `bytearray(b"abc")` is as before.
    pub fn shrink_to_fit(&mut self) -> Result<(), Halt>
        ensures { spec.SettlesAtOnce (spec.shrunk self.old) self.old result self.new }
    {
        match self.exporter.kind() {
            ExporterKind::ByteArray => Ok(self.exporter.shrink_to_fit()?),
            _ => Err(Halt::Refused(Fault::UnknownName)),
        }
    }

    /// The bytes as a vector. No byte is copied to other memory, and no memory is taken.
    ///
    /// Refused with `BufferError` where a view is unreleased. The bytearray is let go of then too.
    /// Example: of `bytearray(b"abc")` it is a vector of the bytes `b"abc"`.
    pub fn into_vec(mut self) -> Result<Vec<u8>, Halt>
        ensures { MatchResult result (λ bytes. (spec.may_resize self ≡ Ok true) × (bytes.items ≡ self.bytes)) (λ halt. spec.IsRefusal (spec.may_resize self) halt) }
    {
        self.take()
    }
}
