//! Numbers that are read from an array, and written over others.
ghost use Rattle.std.specs.Prelude.{◌≡◌, ◌<◌, ◌^◌, true, length, set, IfOk, IfSome};
ghost use Rattle.std.specs.Option.{ok_or};
ghost use Rattle.pybuf_value.specs.declared.faults.Fault.TheVariants as faults;
ghost use Rattle.pybuf_index.specs.Places.{entry_in};
ghost use Rattle.pybuf_numbers.specs.Codes.{holds};
ghost use Rattle.pybuf_numbers.specs.Numbers.{bytes_of};
ghost use Rattle.pybuf_array.specs.Array as spec;
ghost use Rattle.pybuf_array.specs.Operations.{SettlesAtOnce};

use crate::array::PyArray;
use crate::operations::IntList;
use pybuf_index::SequenceIndexOp;
use pybuf_numbers::{
    bytes_read_back, number_at, numbers, place_of_number, put_number, swap_numbers,
};
use pybuf_value::{ByteList, Fault, Made};

/// The place that an index names among so many, where a negative one counts from the end.
///
/// Refused with `IndexError` exactly where there is none.
pub(crate) fn entry_named(count: usize, index: i128) -> Result<usize, Fault>
    requires { count < 2 ^ 63 }
    ensures entry { result ≡ entry_in count index }
    ensures there { IfOk result (λ entry. entry < count) }
{
    match index.wrapped_at(count) {
        Some(entry) => Ok(entry),
        None => Err(Fault::Index),
    }
}

impl PyArray {
    /// The number at a place.
    pub(crate) fn at(&self, place: usize) -> i128
        requires { place < length self.now.numbers }
        ensures { result ≡ spec.number_at self.now place }
    {
        number_at(self.code, self.bytes.as_slice(), place)
    }

    /// Puts a number in place of the one at a place.
    pub(crate) fn put(&mut self, place: usize, value: i128)
        requires there { place < length self.old.numbers }
        requires range { holds self.old.code value ≡ true }
        ensures { self.new ≡ spec.with_numbers self.old (set self.old.numbers place value) }
    {
        put_number(self.code, self.bytes.borrow_buf_mut(), place, value);
    }

    /// All numbers, in order, as Python's `array.tolist()`. It is one pass.
    /// Example: of `array('h', [1, -2])` it has the numbers 1 and -2.
    pub fn numbers(&self) -> Made<IntList>
        ensures { IfOk result (λ list. list ≡ self.now.numbers) }
    {
        numbers(self.alloc, self.code, self.bytes.as_slice())
    }

    /// Reverses the bytes of each number, as Python's `array.byteswap()`. It is one pass, and takes no memory. It is
    /// done also while a view is unreleased, and the views show it.
    /// Example: `array('h', [1])` is `array('h', [256])` then.
    pub fn byteswap(&mut self)
        ensures { self.new ≡ spec.with_swapped self.old }
    {
        swap_numbers(self.code, self.bytes.borrow_buf_mut());
    }

    /// The place of the first number that is this one; None exactly where none is.
    pub(crate) fn place_of(&self, value: i128) -> Option<usize>
        ensures place { result ≡ spec.first_place self.now.numbers value }
        ensures there { IfSome result (λ place. place < length self.now.numbers) }
    {
        place_of_number(self.code, self.bytes.as_slice(), value)
    }

    /// The same, refused with `ValueError` where none is.
    pub(crate) fn place_named(&self, value: i128) -> Result<usize, Fault>
        ensures place { result ≡ ok_or (spec.first_place self.now.numbers value) faults.Value }
        ensures there { IfOk result (λ place. place < length self.now.numbers) }
    {
        match self.place_of(value) {
            Some(place) => Ok(place),
            None => Err(Fault::Value),
        }
    }

    /// The number at an index, as Python's `array[index]`, where a negative index counts from the end. Takes no memory.
    ///
    /// Refused with `IndexError` out of range.
    /// Example: of `array('h', [1, -2])` the index -1 gives `Ok(-2)`, and the index 2 `Err(Fault::Index)`.
    pub fn get(&self, index: i128) -> Result<i128, Fault>
        ensures { result ≡ spec.number_named self.now index }
    {
        let place = entry_named(self.len(), index)?;
        Ok(self.at(place))
    }

    /// Puts a number in place of the one at an index, as Python's `array[index] = value`. It is done also while a
    /// view is unreleased, and the views show it. Takes no memory.
    ///
    /// Refused with `IndexError` out of range, and then with `OverflowError` where the number is out of the code's
    /// range. Nothing is changed then.
    /// Example: `array('h', [1, -2])` with the index 0 and the number 5 is `array('h', [5, -2])`.
    pub fn set(&mut self, index: i128, value: i128) -> Result<(), Fault>
        ensures { SettlesAtOnce (spec.put_at self.old index value) self.old result self.new }
    {
        let place = entry_named(self.len(), index)?;
        self.check_range(value)?;
        self.put(place, value);
        Ok(())
    }

    /// The bytes of all numbers, in native order, as Python's `array.tobytes()`. It is one copy.
    /// Example: of `array('h', [1, -2])` it has the bytes `b"\x01\x00\xfe\xff"`.
    pub fn tobytes(&self) -> Made<ByteList>
        ensures { IfOk result (λ bytes. bytes ≡ bytes_of self.now.code self.now.numbers) }
    {
        bytes_read_back();
        let bytes = self.bytes.as_slice();
        ByteList::from_slice(self.alloc, bytes)
    }
}
