//! Bytes that are kept behind free room, so that the first of them are taken away at no cost.
ghost use Rattle.std.specs.Prelude.{◌≡◌, ◌≤◌, ◌<◌, ◌+◌, ◌^◌, ◌++◌, [], drop, length, slice_range, vec_len, vec_capacity, IsOk, OnOk, OnErr};

use pybuf_slice::SliceableSequenceMutOp;
use pybuf_value::{Made, Steps};
use std::marker::Model;
use std::mem;
use std::ops::Range;
use std::sync::ledger::Ledger;

/// Bytes behind free room. A clause sees the bytes, how many bytes of room lie before them, and how many bytes
/// their block of memory has in all.
///
/// A step is one byte that is moved to another place within. What the allocator copies where it makes
/// more room, and what is written anew, isn't counted.
///
/// Example: `b"abcd"` whose first byte was dropped is `b"bcd"` behind a room of one byte.
#[derive(Debug, Drop)]
pub struct FrontBytes {
    bytes: Vec<u8>,
    room: usize,
}

impl Model for FrontBytes {
    ghost use Rattle.std.specs.Prelude.{◌≤◌, drop, vec_len, vec_capacity};
    ghost use Rattle.pybuf_front.specs.FrontContent.{FrontContent};

    ghost Value = { FrontContent };

    ghost view = { λ f. record { items = drop f.room f.bytes.items; room = f.room; memory = vec_capacity f.bytes } };

    ghost invariant = { λ f. f.room ≤ vec_len f.bytes };
}

/// Takes the first bytes of a vector out, and keeps its memory.
fn move_down(bytes: &mut Vec<u8>, start: usize)
    requires { start ≤ vec_len bytes.old }
    ensures items { bytes.new.items ≡ drop start bytes.old.items }
    ensures len { vec_len bytes.new + start ≡ vec_len bytes.old }
    ensures capacity { vec_capacity bytes.new ≡ vec_capacity bytes.old }
{
    let end = bytes.len();
    bytes.copy_within(start..end, 0);
    bytes.truncate(end - start);
}

/// Adds bytes for which there is memory.
fn append_within(bytes: &mut Vec<u8>, items: &[u8])
    requires { vec_len bytes.old + length items.now ≤ vec_capacity bytes.old }
    ensures items { bytes.new.items ≡ bytes.old.items ++ items.now }
    ensures capacity { vec_capacity bytes.old ≤ vec_capacity bytes.new }
{
    match bytes.extend_from_slice(items) {
        Ok(()) => {}
        Err(_) => unreachable!(),
    }
}

impl FrontBytes {
    ghost use Rattle.std.specs.Borrow.{sem};
    ghost use Rattle.pybuf_slice.specs.Edits.{replaced_range};
    ghost use Rattle.pybuf_front.specs.Front.{LendsItems, LendsItemsFrom, LendsVector};
    ghost use Rattle.pybuf_front.specs.FrontContent.{moved_down, room_kept, capacity_of};

    /// The bytes of a vector, without room. Takes no memory.
    ///
    /// Example: of the vector of `b"ab"` it is `b"ab"` with no room before it.
    pub fn from(bytes: Vec<u8>) -> FrontBytes
        ensures items { result.items ≡ bytes.items }
        ensures room { result.room ≡ 0 }
        ensures memory { result.memory ≡ vec_capacity bytes }
    {
        FrontBytes { bytes, room: 0 }
    }

    /// The number of bytes, at most `isize::MAX`.
    ///
    /// Example: of `b"abcd"` after `drop_front` of one byte it is 3.
    pub fn len(&self) -> usize
        ensures value { result ≡ length self.now.items }
        ensures small { result < 2 ^ 63 }
    {
        self.bytes.len() - self.room
    }

    /// How many bytes of free room lie before the first.
    ///
    /// Example: of `b"abcd"` after `drop_front` of one byte it is 1.
    pub fn front_room(&self) -> usize
        ensures { result ≡ self.now.room }
    {
        self.room
    }

    /// How many bytes there can be in all before `push_all` takes memory, at most `isize::MAX`. The free room before
    /// the bytes counts where there is as much of it as there are bytes, or more.
    ///
    /// Example: of `FrontBytes::from(Vec::new(alloc))` it is 0, and after `reserve` of 8 bytes it is 8 or more.
    pub fn capacity(&self) -> usize
        ensures value { result ≡ capacity_of self.now }
        ensures fits { length self.now.items ≤ result }
        ensures small { result < 2 ^ 63 }
    {
        if self.room < self.len() {
            return self.bytes.capacity() - self.room;
        }
        self.bytes.capacity()
    }

    /// The bytes, lent.
    ///
    /// Example: of `b"abcd"` after `drop_front` of one byte it is `b"bcd"`.
    pub fn as_slice(&self) -> &[u8]
        ensures { result.now ≡ self.now.items }
    {
        &self.bytes[self.room..]
    }

    /// The bytes, lent to be written in place. Their number and the room stay.
    ///
    /// Example: where `b'x'` is written at its place 0, `b"abcd"` becomes `b"xbcd"`.
    pub fn as_mut_slice(&mut self) -> &mut [u8]
        ensures* writes_back { sem 𝓛 (LendsItems self.entry result) }
        ensures value { result.now ≡ self.old.items }
    {
        self.bytes.slice_mut(self.room..)
    }

    /// The bytes from one place up to another, lent to be written in place.
    ///
    /// Example: of `b"abcd"`, from 1 up to 3, it is `b"bc"`.
    pub fn run_mut(&mut self, start: usize, end: usize) -> &mut [u8]
        requires ordered { start ≤ end }
        requires inside { end ≤ length self.old.items }
        ensures* writes_back { sem 𝓛 (LendsItemsFrom self.entry start result) }
        ensures value { result.now ≡ slice_range self.old.items start end }
    {
        self.bytes.slice_mut(self.room + start..self.room + end)
    }

    /// Takes the first bytes away, so many, and leaves them as room. Nothing moves, and no memory is taken.
    ///
    /// Example: with 1 the bytes `b"abcd"` become `b"bcd"`, and the room rises from 0 to 1.
    pub fn drop_front<L: Ledger>(&mut self, n: usize, moved: &mut Steps<L>)
        requires { n ≤ length self.old.items }
        ensures items { self.new.items ≡ drop n self.old.items }
        ensures room { self.new.room ≡ self.old.room + n }
        ensures memory { self.new.memory ≡ self.old.memory }
        ensures counter { moved.new ≡ moved.old }
    {
        self.room += n;
    }

    /// Adds bytes at the end. Where there was as much room as bytes, or more, all are first moved to the
    /// start, each once, and no room is left; else none moves, and the room stays. So each byte that is moved
    /// uses up a byte of room (the law `adding_is_paid_by_room`).
    ///
    /// It takes no memory where all fit in `capacity`. Where memory runs out, all is as before.
    ///
    /// Example: with `b"cd"` the bytes `b"ab"` become `b"abcd"`.
    pub fn push_all<L: Ledger>(&mut self, items: &[u8], moved: &mut Steps<L>) -> Made<()>
        ensures items { OnOk result (self.new.items ≡ self.old.items ++ items.now) }
        ensures room { OnOk result (self.new.room ≡ room_kept self.old) }
        ensures counter { OnOk result (moved.new ≡ moved.old + moved_down self.old) }
        ensures fits { length self.old.items + length items.now ≤ capacity_of self.old → IsOk result }
        ensures err { OnErr result (self.new ≡ self.old) }
        ensures err_counter { OnErr result (moved.new ≡ moved.old) }
    {
        let length = self.len();
        if self.room < length {
            self.bytes.reserve(items.len())?;
            append_within(&mut self.bytes, items);
            return Ok(());
        }
        if items.len() > self.room {
            self.bytes.reserve(items.len() - self.room)?;
        }
        move_down(&mut self.bytes, self.room);
        self.room = 0;
        moved.add(length);
        append_within(&mut self.bytes, items);
        Ok(())
    }

    /// Makes sure that so many bytes more can be added without memory. Nothing moves within the block.
    ///
    /// Where memory runs out, all is as before. It runs out also where `isize::MAX` is passed.
    ///
    /// Example: after `reserve` of 10 bytes `b"ab"` has a `capacity` of 12 or more.
    pub fn reserve(&mut self, additional: usize) -> Made<()>
        ensures items { self.new.items ≡ self.old.items }
        ensures room { self.new.room ≡ self.old.room }
        ensures memory { self.old.memory ≤ self.new.memory }
        ensures ok { OnOk result (length self.old.items + additional ≤ capacity_of self.new) }
        ensures fits { length self.old.items + additional ≤ capacity_of self.old → IsOk result }
        ensures err { OnErr result (self.new ≡ self.old) }
    {
        if self.room < self.len() {
            self.bytes.reserve(additional)?;
            return Ok(());
        }
        if additional > self.room {
            self.bytes.reserve(additional - self.room)?;
        }
        Ok(())
    }

    /// Gives back the memory that the bytes don't need, as far as the allocator takes it. The bytes are moved to the
    /// start where there is room before them. Takes no memory, or leaves the block as it is where there is none.
    ///
    /// Example: `b"abcd"` after `drop_front` of one byte is `b"bcd"` with no room before it then.
    pub fn shrink_to_fit<L: Ledger>(&mut self, moved: &mut Steps<L>)
        ensures items { self.new.items ≡ self.old.items }
        ensures room { self.new.room ≡ 0 }
        ensures memory { self.new.memory ≤ self.old.memory }
        ensures frees { length self.old.items ≡ 0 → self.new.memory ≡ 0 }
        ensures still { self.old.room ≡ 0 → moved.new ≡ moved.old }
        ensures few { moved.new ≤ moved.old + length self.old.items }
    {
        if self.room > 0 {
            let length = self.len();
            move_down(&mut self.bytes, self.room);
            self.room = 0;
            moved.add(length);
        }
        self.bytes.shrink_to_fit();
    }

    /// Puts other bytes, of any number, in place of those of a range. Those behind the range move once,
    /// where the number of bytes changes. Where bytes are put at the front, and there is room for what they have
    /// more, they use the room, and none moves. Where memory runs out, bytes, room and counter are as before.
    ///
    /// Example: with the range `1..2` and `b"xyz"` the bytes `b"abc"` become `b"axyzc"`.
    pub fn splice<L: Ledger>(
        &mut self,
        range: Range<usize>,
        items: &[u8],
        moved: &mut Steps<L>,
    ) -> Made<()>
        requires ordered { range.start ≤ range.end }
        requires inside { range.end ≤ length self.old.items }
        ensures items { OnOk result (self.new.items ≡ replaced_range self.old.items range.start range.end items.now) }
        ensures counter { OnOk result (moved.new ≤ moved.old + (length self.old.items + length self.new.items)) }
        ensures room { self.new.room ≤ self.old.room }
        ensures front_counter { range.start ≡ 0 → range.end ≤ length items.now → length items.now ≤ range.end + self.old.room → moved.new ≡ moved.old }
        ensures err_items { OnErr result (self.new.items ≡ self.old.items) }
        ensures err_room { OnErr result (self.new.room ≡ self.old.room) }
        ensures err_counter { OnErr result (moved.new ≡ moved.old) }
    {
        let count = items.len();
        if range.start == 0 && range.end <= count && count - range.end <= self.room {
            self.put_in_front(range.end, items);
            return Ok(());
        }
        self.splice_behind(range, items, moved)
    }

    /// Puts bytes in place of the first ones, and uses up room for what they have more. Nothing else is touched.
    fn put_in_front(&mut self, end: usize, items: &[u8])
        requires inside { end ≤ length self.old.items }
        requires more { end ≤ length items.now }
        requires room { length items.now ≤ end + self.old.room }
        ensures items { self.new.items ≡ replaced_range self.old.items 0 end items.now }
        ensures room { self.new.room ≤ self.old.room }
    {
        let start = self.room - (items.len() - end);
        self.bytes
            .slice_mut(start..self.room + end)
            .copy_from_slice(items);
        self.room = start;
    }

    /// Puts other bytes in place of those of a range. Those behind the range move once.
    fn splice_behind<L: Ledger>(
        &mut self,
        range: Range<usize>,
        items: &[u8],
        moved: &mut Steps<L>,
    ) -> Made<()>
        requires ordered { range.start ≤ range.end }
        requires inside { range.end ≤ length self.old.items }
        ensures items { OnOk result (self.new.items ≡ replaced_range self.old.items range.start range.end items.now) }
        ensures counter { OnOk result (moved.new ≤ moved.old + (length self.old.items + length self.new.items)) }
        ensures room { self.new.room ≡ self.old.room }
        ensures still { range.end ≡ range.start + length items.now → moved.new ≡ moved.old }
        ensures err_items { OnErr result (self.new.items ≡ self.old.items) }
        ensures err_counter { OnErr result (moved.new ≡ moved.old) }
    {
        let alloc = *self.bytes.allocator();
        let behind = self.len() - range.end;
        let places = self.room + range.start..self.room + range.end;
        let is_as_long = range.end - range.start == items.len();
        self.bytes.do_set_range(alloc, places, items)?;
        if !is_as_long {
            moved.add(behind);
        }
        Ok(())
    }

    /// Takes the bytes of a range out. Those behind it move once, where it has any. Takes no memory.
    ///
    /// Example: with the range `1..2` the bytes `b"abc"` become `b"ac"`.
    pub fn remove<L: Ledger>(&mut self, range: Range<usize>, moved: &mut Steps<L>)
        requires ordered { range.start ≤ range.end }
        requires inside { range.end ≤ length self.old.items }
        ensures items { self.new.items ≡ replaced_range self.old.items range.start range.end [] }
        ensures counter { moved.new ≤ moved.old + length self.old.items }
        ensures room { self.new.room ≡ self.old.room }
    {
        let behind = self.bytes.len() - self.room - range.end;
        let places = self.room + range.start..self.room + range.end;
        let is_empty = range.start == range.end;
        self.bytes.do_delete_range(places);
        if !is_empty {
            moved.add(behind);
        }
    }

    /// Hands all bytes over as a vector, and leaves none, no room and no memory. They are moved to the start of their
    /// block where there is room before them; else no byte is touched. Takes no memory.
    ///
    /// Example: of `b"abc"` it is the vector of `b"abc"`, and `b""` is left.
    pub fn take_bytes<L: Ledger>(&mut self, moved: &mut Steps<L>) -> Vec<u8>
        ensures value { result.items ≡ self.old.items }
        ensures memory { vec_capacity result ≡ self.old.memory }
        ensures items { self.new.items ≡ [] }
        ensures room { self.new.room ≡ 0 }
        ensures still { self.old.room ≡ 0 → moved.new ≡ moved.old }
        ensures few { moved.new ≤ moved.old + length self.old.items }
    {
        if self.room > 0 {
            let length = self.len();
            move_down(&mut self.bytes, self.room);
            self.room = 0;
            moved.add(length);
        }
        let empty = Vec::new(*self.bytes.allocator());
        mem::replace(&mut self.bytes, empty)
    }

    /// The bytes as a vector. They are moved to the start of their block where there is room before them; else no byte
    /// is touched. Takes no memory.
    ///
    /// Example: of `b"abcd"` after `drop_front` of one byte it is the vector of `b"bcd"`.
    pub fn into_vec(mut self) -> Vec<u8>
        ensures value { result.items ≡ self.items }
        ensures memory { vec_capacity result ≡ self.memory }
    {
        if self.room > 0 {
            move_down(&mut self.bytes, self.room);
        }
        self.bytes
    }

    /// The bytes, lent as a vector without room, to be changed in any way. Takes no memory.
    ///
    /// Example: of `b"abcd"` after `drop_front` of one byte it is the vector of `b"bcd"`.
    pub fn make_flat(&mut self) -> &mut Vec<u8>
        ensures* writes_back { sem 𝓛 (LendsVector self.entry result) }
        ensures value { result.now.items ≡ self.old.items }
    {
        if self.room > 0 {
            move_down(&mut self.bytes, self.room);
            self.room = 0;
        }
        &mut self.bytes
    }
}
