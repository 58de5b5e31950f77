//! Numbers that are added to an array, or taken out. Each call that does so without a check has it as a condition.
ghost use Rattle.std.specs.Prelude.{◌≡◌, ◌<◌, ◌≤◌, [], ◌∷◌, ◌++◌, true, length, All, Ok, Err, OnOk, OnErr, MatchResult};
ghost use Rattle.pybuf_slice.specs.Edits.{replaced_range};
ghost use Rattle.pybuf_numbers.specs.Codes.{holds};
ghost use Rattle.pybuf_numbers.specs.Numbers.{numbers_of, is_whole};
ghost use Rattle.pybuf_array.specs.Array as spec;
ghost use Rattle.pybuf_array.specs.Operations.{Settles, SettlesAtOnce};

use crate::array::PyArray;
use pybuf_index::{SequenceIndexOp, entry_in};
use pybuf_numbers::{bytes_of, insert_number, is_whole, push_bytes, push_number, remove_number};
use pybuf_value::{Fault, Halt, Made, fit_count};

impl PyArray {
    /// Refused with `BufferError` exactly where a view is unreleased.
    fn check_size(&self) -> Result<(), Fault>
        ensures { spec.RefusedAs (spec.may_resize self.now) result }
    {
        if self.exports() > 0 {
            return Err(Fault::Buffer);
        }
        Ok(())
    }

    /// Refused with `OverflowError` exactly where a number isn't in the range of the code.
    pub(crate) fn check_range(&self, value: i128) -> Result<(), Fault>
        ensures { spec.RefusedAs (spec.in_range self.now value) result }
    {
        if self.code().holds(value) {
            Ok(())
        } else {
            Err(Fault::Overflow)
        }
    }

    /// Adds a number.
    fn push(&mut self, value: i128) -> Made<()>
        requires range { holds self.old.code value ≡ true }
        requires free { spec.may_resize self.old ≡ Ok true }
        ensures ok { OnOk result (self.new ≡ spec.with_numbers self.old (self.old.numbers ++ value ∷ [])) }
        ensures err { OnErr result (self.new ≡ self.old) }
    {
        match self.bytes.try_resizable() {
            Ok(bytes) => push_number(self.code, bytes, value),
            Err(_) => unreachable!(),
        }
    }

    /// Adds the numbers of bytes.
    fn push_all(&mut self, others: &[u8]) -> Made<()>
        requires whole { is_whole self.old.code others.now ≡ true }
        requires free { spec.may_resize self.old ≡ Ok true }
        ensures ok { OnOk result (self.new ≡ spec.with_numbers self.old (self.old.numbers ++ numbers_of self.old.code others.now)) }
        ensures err { OnErr result (self.new ≡ self.old) }
    {
        match self.bytes.try_resizable() {
            Ok(bytes) => push_bytes(self.code, bytes, others),
            Err(_) => unreachable!(),
        }
    }

    /// Puts a number before the one at a place.
    fn put_before(&mut self, place: usize, value: i128) -> Made<()>
        requires range { holds self.old.code value ≡ true }
        requires there { place ≤ length self.old.numbers }
        requires free { spec.may_resize self.old ≡ Ok true }
        ensures ok { OnOk result (self.new ≡ spec.with_numbers self.old (replaced_range self.old.numbers place place (value ∷ []))) }
        ensures err { OnErr result (self.new ≡ self.old) }
    {
        match self.bytes.try_resizable() {
            Ok(bytes) => insert_number(self.alloc, self.code, bytes, place, value),
            Err(_) => unreachable!(),
        }
    }

    /// Takes the number at a place out.
    fn take_out(&mut self, place: usize)
        requires there { place < length self.old.numbers }
        requires free { spec.may_resize self.old ≡ Ok true }
        ensures { self.new ≡ spec.with_numbers self.old (spec.without self.old place) }
    {
        match self.bytes.try_resizable() {
            Ok(bytes) => remove_number(self.code, bytes, place),
            Err(_) => unreachable!(),
        }
    }

    /// Adds a number at the end, as Python's `array.append(value)`.
    ///
    /// Refused with `OverflowError` where the number is out of the code's range, and then with `BufferError` where a
    /// view is unreleased. Where it is refused, or memory runs out, nothing is changed.
    /// Example: `array('h', [1])` with 2 is `array('h', [1, 2])`, and 40,000 is refused with `OverflowError`.
    pub fn append(&mut self, value: i128) -> Result<(), Halt>
        ensures { Settles (spec.appended self.old value) self.old result self.new }
    {
        self.check_range(value)?;
        self.check_size()?;
        self.push(value)?;
        Ok(())
    }

    /// Whether the code has all of these numbers. Refused with `OverflowError` exactly where it hasn't one of them.
    fn check_ranges(&self, values: &[i128]) -> Result<(), Fault>
        ensures { MatchResult result (λ _. (spec.all_in_range self.now values.now ≡ Ok true) × All (λ n. holds self.now.code n ≡ true) values.now) (λ fault. spec.all_in_range self.now values.now ≡ Err fault) }
    {
        let code = self.code();
        if code.holds_all(values) {
            Ok(())
        } else {
            Err(Fault::Overflow)
        }
    }

    /// Adds numbers at the end, as Python's `array.extend(values)`. The array grows once.
    ///
    /// Refused with `OverflowError` where one of them is out of the code's range, and then with `BufferError` where a
    /// view is unreleased. Where it is refused, or memory runs out, nothing is changed.
    /// Example: `array('h')` with `[1, -2, 3]` is `array('h', [1, -2, 3])`.
    pub fn extend(&mut self, values: &[i128]) -> Result<(), Halt>
        ensures { Settles (spec.extended self.old values.now) self.old result self.new }
    {
        self.check_ranges(values)?;
        self.check_size()?;
        let bytes = bytes_of(self.alloc, self.code(), values)?;
        self.push_all(bytes.as_slice())?;
        Ok(())
    }

    /// Puts a number before the place that is nearest to an index, as Python's `array.insert(index, value)`. A
    /// negative index counts from the end.
    ///
    /// Refused with `OverflowError` where the index doesn't fit `isize`, and where the number is out of the code's
    /// range; then with `BufferError` where a view is unreleased. Where it is refused, or memory runs out, nothing is
    /// changed.
    /// Example: `array('h', [1, 3])` with the index 1 and the number 2 is `array('h', [1, 2, 3])`.
    pub fn insert(&mut self, index: i128, value: i128) -> Result<(), Halt>
        ensures { Settles (spec.inserted self.old index value) self.old result self.new }
    {
        let index = fit_count(index)?;
        self.check_range(value)?;
        self.check_size()?;
        let place = index.saturated_at(self.len());
        self.put_before(place, value)?;
        Ok(())
    }

    /// Takes the number at an index out, as Python's `array.pop(index)`, or the last where none is given.
    ///
    /// Refused with `OverflowError` where the index doesn't fit `isize`, with `IndexError` out of range, and then
    /// with `BufferError` where a view is unreleased. Nothing is changed then. Takes no memory.
    /// Example: of `array('h', [1, 20, 3])` `pop(None)` is `Ok(3)`, and leaves `array('h', [1, 20])`.
    pub fn pop(&mut self, index: Option<i128>) -> Result<i128, Fault>
        ensures { SettlesAtOnce (spec.popped self.old index) self.old result self.new }
    {
        let index = fit_count(index.unwrap_or(-1))?;
        let place = entry_in(self.len(), index)?;
        self.check_size()?;
        let number = self.at(place);
        self.take_out(place);
        Ok(number)
    }

    /// Takes out the first number that is this one, as Python's `array.remove(value)`.
    ///
    /// Refused with `ValueError` where no number is this one, and then with `BufferError` where a view is unreleased.
    /// Nothing is changed then. Takes no memory.
    /// Example: `array('h', [1, 2, 1])` without 1 is `array('h', [2, 1])`.
    pub fn remove(&mut self, value: i128) -> Result<(), Fault>
        ensures { SettlesAtOnce (spec.removed self.old value) self.old result self.new }
    {
        let place = self.place_named(value)?;
        self.check_size()?;
        self.take_out(place);
        Ok(())
    }

    /// Adds the numbers of bytes at the end, as Python's `array.frombytes(bytes)`. The array grows once.
    ///
    /// Refused with `ValueError` where the bytes aren't those of whole numbers, and then with `BufferError` where a
    /// view is unreleased. Where it is refused, or memory runs out, nothing is changed.
    /// Example: `array('h')` with `b"\x01\x00\x02\x00"` is `array('h', [1, 2])`; `b"\x01"` is refused with `ValueError`.
    pub fn frombytes(&mut self, bytes: &[u8]) -> Result<(), Halt>
        ensures { Settles (spec.read_from self.old bytes.now) self.old result self.new }
    {
        if !is_whole(self.code(), bytes) {
            return Err(Halt::Refused(Fault::Value));
        }
        self.check_size()?;
        self.push_all(bytes)?;
        Ok(())
    }
}
