//! Where the bytes of an exporter are kept. Nothing else touches them.
ghost use Rattle.std.specs.Prelude.{◌≡◌, ◌≤◌, ◌<◌, ◌+◌, ◌^◌, ◌==◌, ◌++◌, [], length, reverse, set, slice_get, slice_range, IfSome, IsOk, OnOk, OnErr};

use pybuf_front::FrontBytes;
use pybuf_value::{Made, Steps};
use std::marker::Model;
use std::sync::ledger::Ledger;

/// The bytes of an exporter, behind free room. A clause sees them as a list, with the number of bytes of room.
/// Example: `Store::from_vec(bytes)` of a vector of `b"abc"` stands for these three bytes, without room.
#[derive(Debug, Drop)]
pub struct Store {
    bytes: FrontBytes,
}

impl Model for Store {
    ghost use Rattle.pybuf_state.specs.Bytes.{StoreContent};

    ghost Value = { StoreContent };

    ghost view = { λ s. s.bytes };
}

impl Store {
    ghost use Rattle.std.specs.Borrow.{sem};
    ghost use Rattle.pybuf_slice.specs.Edits.{replaced_range};
    ghost use Rattle.pybuf_front.specs.FrontContent.{IsSpare, capacity_of};
    ghost use Rattle.pybuf_state.specs.Store.{LendsItems, LendsItemsFrom, LendsVector};

    /// The bytes of a vector, without room. Takes no memory.
    /// Example: of a vector of `b"abc"` its `front_room()` is 0.
    pub fn from_vec(bytes: Vec<u8>) -> Store
        ensures items { result.items ≡ bytes.items }
        ensures room { result.room ≡ 0 }
    {
        Store {
            bytes: FrontBytes::from(bytes),
        }
    }

    /// The number of bytes, at most `isize::MAX`. Takes no memory.
    /// Example: of `b"abc"` it is 3.
    pub fn len(&self) -> usize
        ensures value { result ≡ length self.now.items }
        ensures small { result < 2 ^ 63 }
    {
        self.bytes.len()
    }

    /// Whether there are no bytes.
    /// Example: of `b""` it is true.
    pub fn is_empty(&self) -> bool
        ensures { result ≡ (length self.now.items == 0) }
    {
        self.bytes.len() == 0
    }

    /// How many bytes of free room lie before the first byte.
    /// Example: after the first two of four bytes were taken out it is 2.
    pub fn front_room(&self) -> usize
        ensures { result ≡ self.now.room }
    {
        self.bytes.front_room()
    }

    /// How many bytes there can be in all before adding some takes memory, at most `isize::MAX`.
    /// Example: of a vector of `b"abc"` it is 3 or more.
    pub fn capacity(&self) -> usize
        ensures value { result ≡ capacity_of self.now }
        ensures fits { length self.now.items ≤ result }
        ensures small { result < 2 ^ 63 }
    {
        self.bytes.capacity()
    }

    /// The bytes, lent without a copy.
    /// Example: of a vector of `b"abc"` it is `b"abc"`.
    pub fn as_slice(&self) -> &[u8]
        ensures { result.now ≡ self.now.items }
    {
        self.bytes.as_slice()
    }

    /// The bytes, lent to be written in place. Their number and the room stay.
    /// Example: after `store.as_mut_slice()[0] = b'A'` what was `b"abc"` is `b"Abc"`.
    pub fn as_mut_slice(&mut self) -> &mut [u8]
        ensures* writes_back { sem 𝓛 (LendsItems self.entry result) }
        ensures value { result.now ≡ self.old.items }
    {
        self.bytes.as_mut_slice()
    }

    /// The bytes from one place up to another, lent to be written in place.
    /// Example: `store.run_mut(1, 3)` of `b"abcd"` lends `b"bc"`.
    pub fn run_mut(&mut self, start: usize, end: usize) -> &mut [u8]
        requires ordered { start ≤ end }
        requires inside { end ≤ length self.old.items }
        ensures* writes_back { sem 𝓛 (LendsItemsFrom self.entry start result) }
        ensures value { result.now ≡ slice_range self.old.items start end }
    {
        self.bytes.run_mut(start, end)
    }

    /// The bytes, lent as a vector without room, to be changed in any way, in number too. Takes no memory.
    /// Example: after `store.as_vec_mut().push(b'd')?` what was `b"abc"` is `b"abcd"`.
    pub fn as_vec_mut(&mut self) -> &mut Vec<u8>
        ensures* writes_back { sem 𝓛 (LendsVector self.entry result) }
        ensures value { result.now.items ≡ self.old.items }
    {
        self.bytes.make_flat()
    }

    /// The byte at a place. It is None past the end.
    /// Example: of `b"abc"` the place 2 has `Some(99)`, and the place 3 None.
    pub fn get(&self, place: usize) -> Option<u8>
        ensures value { result ≡ slice_get self.now.items place }
        ensures small { IfSome result (λ _. place < 2 ^ 63) }
    {
        if place < self.bytes.len() {
            return Some(self.bytes.as_slice()[place]);
        }
        None
    }

    /// Writes a byte at a place.
    /// Example: in `b"abc"` the place 0 and the byte 65 make `b"Abc"`.
    pub fn put(&mut self, place: usize, byte: u8)
        requires { place < length self.old.items }
        ensures items { self.new.items ≡ set self.old.items place byte }
        ensures room { self.new.room ≡ self.old.room }
    {
        self.bytes.as_mut_slice()[place] = byte;
    }

    /// Puts the bytes in the other order, from the last to the first.
    /// Example: `b"abc"` is `b"cba"` then.
    pub fn reverse(&mut self)
        ensures items { self.new.items ≡ reverse self.old.items }
        ensures room { self.new.room ≡ self.old.room }
    {
        self.bytes.as_mut_slice().reverse();
    }

    /// Adds bytes at the end. Where there was as much room as bytes, they are first moved to the start. Where
    /// memory runs out, all is as before.
    pub(crate) fn append<L: Ledger>(&mut self, bytes: &[u8], moved: &mut Steps<L>) -> Made<()>
        ensures ok { OnOk result (self.new.items ≡ self.old.items ++ bytes.now) }
        ensures counter { OnOk result (moved.new + self.new.room ≤ moved.old + self.old.room) }
        ensures few { OnOk result (moved.new ≤ moved.old + length self.old.items) }
        ensures spare { OnOk result (IsSpare self.new) }
        ensures fits { length self.old.items + length bytes.now ≤ capacity_of self.old → IsOk result }
        ensures err { OnErr result (self.new ≡ self.old) }
        ensures err_counter { OnErr result (moved.new ≡ moved.old) }
    {
        self.bytes.push_all(bytes, moved)
    }

    /// Makes sure that so many bytes more can be added without memory. Where memory runs out, all is as before.
    pub(crate) fn reserve(&mut self, additional: usize) -> Made<()>
        ensures items { self.new.items ≡ self.old.items }
        ensures room { self.new.room ≡ self.old.room }
        ensures ok { OnOk result (length self.old.items + additional ≤ capacity_of self.new) }
        ensures fits { length self.old.items + additional ≤ capacity_of self.old → IsOk result }
        ensures err { OnErr result (self.new ≡ self.old) }
    {
        self.bytes.reserve(additional)
    }

    /// Gives back the memory that the bytes don't need, and the room. The bytes move once where there is room.
    pub(crate) fn shrink_to_fit<L: Ledger>(&mut self, moved: &mut Steps<L>)
        ensures items { self.new.items ≡ self.old.items }
        ensures room { self.new.room ≡ 0 }
        ensures memory { self.new.memory ≤ self.old.memory }
        ensures still { self.old.room ≡ 0 → moved.new ≡ moved.old }
        ensures few { moved.new ≤ moved.old + length self.old.items }
    {
        self.bytes.shrink_to_fit(moved);
    }

    /// Hands all bytes over as a vector, and leaves none and no room. They move once where there is room before them,
    /// and else not. Takes no memory.
    pub(crate) fn take_bytes<L: Ledger>(&mut self, moved: &mut Steps<L>) -> Vec<u8>
        ensures value { result.items ≡ self.old.items }
        ensures items { self.new.items ≡ [] }
        ensures room { self.new.room ≡ 0 }
        ensures still { self.old.room ≡ 0 → moved.new ≡ moved.old }
        ensures few { moved.new ≤ moved.old + length self.old.items }
    {
        self.bytes.take_bytes(moved)
    }

    /// Puts other bytes in place of those from one place up to another, as many as there are. The bytes
    /// behind move once. Where memory runs out, all is as before.
    pub(crate) fn replace_range<L: Ledger>(
        &mut self,
        start: usize,
        end: usize,
        bytes: &[u8],
        moved: &mut Steps<L>,
    ) -> Made<()>
        requires ordered { start ≤ end }
        requires inside { end ≤ length self.old.items }
        ensures ok { OnOk result (self.new.items ≡ replaced_range self.old.items start end bytes.now) }
        ensures counter { OnOk result (moved.new ≤ moved.old + (length self.old.items + length self.new.items)) }
        ensures err_items { OnErr result (self.new.items ≡ self.old.items) }
        ensures err_room { OnErr result (self.new.room ≡ self.old.room) }
        ensures err_counter { OnErr result (moved.new ≡ moved.old) }
    {
        self.bytes.splice(start..end, bytes, moved)
    }

    /// Takes the bytes from one place up to another out. Takes no memory: the bytes behind move once.
    pub(crate) fn remove_range<L: Ledger>(&mut self, start: usize, end: usize, moved: &mut Steps<L>)
        requires ordered { start ≤ end }
        requires inside { end ≤ length self.old.items }
        ensures items { self.new.items ≡ replaced_range self.old.items start end [] }
        ensures counter { moved.new ≤ moved.old + length self.old.items }
    {
        self.bytes.remove(start..end, moved);
    }

    /// Takes the first bytes out, so many, and leaves them as room. Nothing moves, and no memory is taken.
    pub(crate) fn drop_front<L: Ledger>(&mut self, n: usize, moved: &mut Steps<L>)
        requires { n ≤ length self.old.items }
        ensures items { self.new.items ≡ replaced_range self.old.items 0 n [] }
        ensures room { self.new.room ≡ self.old.room + n }
        ensures counter { moved.new ≡ moved.old }
    {
        self.bytes.drop_front(n, moved);
    }
}
