//! Numbers and slices as keys of a sequence.
ghost use Rattle.std.specs.Prelude.{◌≡◌, ◌<◌, ◌^◌, ℕ, ℤ, Option, Result, IfOk};
ghost use Rattle.pybuf_value.specs.declared.faults.Fault.{Fault};
ghost use Rattle.pybuf_index.specs.Parts.{SliceParts, saturated_parts_of};
ghost use Rattle.pybuf_index.specs.Places.{saturated_place, item_place, entry_in, bound_in, bounds_in};
ghost use Rattle.pybuf_value.specs.declared.values.PySlice.{PySlice};
ghost use Rattle.pybuf_value.specs.Spelling.{slice_text};
ghost use Rattle.pybuf_index.specs.Compared.{compared_slices};
ghost use Rattle.pybuf_index.specs.Indices.{indices_of, sequence_index_of};

use crate::compared::{compare_slices, text_of};
use crate::saturated::{SaturatedSlice, part_of, placed_start, placed_stop, step_of};
use pybuf_value::{CompareOp, Fault, Made, PySlice, Text, Value, fit_index, index_of};
use std::alloc::Global;

/// A number that names a place in a sequence. A negative number counts from the end.
///
/// Example: -1 names the place 2 of three items.
pub trait SequenceIndexOp {
    ghost number: { Self → ℤ };

    /// The number, with `len` added where it is negative, at the nearest place from 0 to `len`.
    ///
    /// Example: `(-1).saturated_at(3)` is 2, and `9.saturated_at(3)` is 3.
    fn saturated_at(&self, len: usize) -> usize
        requires { len < 2 ^ 63 }
        ensures { result ≡ saturated_place len (number self.now) };

    /// The number, with `len` added where it is negative: `None` exactly where that is no place
    /// of an item.
    ///
    /// Example: `(-1).wrapped_at(3)` is `Some(2)`, and `3.wrapped_at(3)` is `None`.
    fn wrapped_at(&self, len: usize) -> Option<usize>
        requires { len < 2 ^ 63 }
        ensures { result ≡ item_place len (number self.now) };
}

impl SequenceIndexOp for isize {
    ghost number = { λ n. n };

    fn saturated_at(&self, len: usize) -> usize {
        let number = *self;
        if number < 0 {
            len.saturating_sub(number.unsigned_abs())
        } else {
            len.min(number as usize)
        }
    }

    fn wrapped_at(&self, len: usize) -> Option<usize> {
        let number = *self;
        if number < 0 {
            let back = number.unsigned_abs();
            if back <= len { Some(len - back) } else { None }
        } else {
            let place = number as usize;
            if place < len { Some(place) } else { None }
        }
    }
}

impl SequenceIndexOp for i128 {
    ghost number = { λ n. n };

    fn saturated_at(&self, len: usize) -> usize {
        let number = *self;
        let length = len as i128;
        if number < 0 {
            let place = number + length;
            if place < 0 { 0 } else { place as usize }
        } else {
            if number < length {
                number as usize
            } else {
                len
            }
        }
    }

    fn wrapped_at(&self, len: usize) -> Option<usize> {
        let number = *self;
        let length = len as i128;
        if number < 0 {
            let place = number + length;
            if place < 0 {
                None
            } else {
                Some(place as usize)
            }
        } else {
            if number < length {
                Some(number as usize)
            } else {
                None
            }
        }
    }
}

/// The entry among so many that an index names, where a negative one counts from the end.
///
/// Refused with `IndexError` exactly where there is none.
///
/// Example: `entry_in(3, -1)` is `Ok(2)`, and `entry_in(3, 3)` is `Err(Fault::Index)`.
pub fn entry_in(count: usize, index: isize) -> Result<usize, Fault>
    requires { count < 2 ^ 63 }
    ensures { result ≡ entry_in count index }
{
    match index.wrapped_at(count) {
        Some(entry) => Ok(entry),
        None => Err(Fault::Index),
    }
}

/// A key of a sequence: a number, or a slice.
///
/// Example: of the value -1 it is `SequenceIndex::Int(-1)`.
#[derive(Clone, Copy, Debug)]
pub enum SequenceIndex {
    /// A number, which names one item.
    /// Example: `Int(-1)` names the last item.
    Int(isize),
    /// A slice, which names the items at its indices.
    /// Example: `Slice` of `::2` names the first item and every second one behind it.
    Slice(SaturatedSlice),
}

impl SequenceIndex {
    /// The key that a value is. A truth value counts as 0 or 1.
    ///
    /// Refused with `IndexError` where a number doesn't fit `isize`, with the refusals of
    /// `SaturatedSlice::with_slice` where a slice is no slice of numbers, and with `TypeError`
    /// where the value is neither a number nor a slice.
    ///
    /// Example: of the value true it is `Ok(SequenceIndex::Int(1))`, and of a text it is `Err(Fault::Kind)`.
    pub fn try_from_value(value: &Value) -> Result<SequenceIndex, Fault>
        ensures { result ≡ sequence_index_of value.now }
    {
        match value {
            Value::Slice(slice) => {
                let slice = SaturatedSlice::with_slice(slice)?;
                Ok(SequenceIndex::Slice(slice))
            }
            other => {
                let number = index_of(other)?;
                let place = fit_index(number)?;
                Ok(SequenceIndex::Int(place))
            }
        }
    }
}

/// The bounds of a search, each of which may be absent.
///
/// Example: the start -2 without a stop names the last two items.
#[derive(Debug, Drop)]
pub struct OptionalRangeArgs {
    pub start: Option<Value>,
    pub stop: Option<Value>,
}

impl OptionalRangeArgs {
    /// The places of the bounds in a sequence of `len` items: an absent start is 0, and an absent
    /// stop is `len`. A number past either end, on which a negative one counts from the end, is
    /// that end. A truth value counts as 0 or 1.
    ///
    /// Refused with `TypeError` exactly where a bound that is there is no number.
    ///
    /// Example: of the start -2 without a stop, in five items, it is `Ok((3, 5))`.
    pub fn saturate(&self, len: usize) -> Result<(usize, usize), Fault>
        requires { len < 2 ^ 63 }
        ensures { result ≡ bounds_in len self.now.start self.now.stop }
    {
        let start = saturated_bound(&self.start, 0, len)?;
        let stop = saturated_bound(&self.stop, len, len)?;
        Ok((start, stop))
    }
}

fn saturated_bound(bound: &Option<Value>, absent: usize, len: usize) -> Result<usize, Fault>
    requires { len < 2 ^ 63 }
    ensures { result ≡ bound_in len absent bound.now }
{
    match bound {
        None => Ok(absent),
        Some(value) => {
            let number = index_of(value)?;
            Ok(number.saturated_at(len))
        }
    }
}

/// A slice as the numbers that it stands for.
///
/// Example: the slice `::2` in five items has the start 0, the stop 5 and the step 2.
pub trait SliceIndices {
    ghost slice: { Self → PySlice };

    /// The slice with each part at the nearest `isize`.
    ///
    /// Refused as by `SaturatedSlice::with_slice`.
    ///
    /// Example: of the slice `::0` it is `Err(Fault::Value)`, and of `::True` the step is 1.
    fn to_saturated(&self) -> Result<SaturatedSlice, Fault>
        ensures { result ≡ saturated_parts_of (slice self.now) };

    /// Start, stop and step of the slice of a sequence of this length, as "slice.indices" of
    /// Python's data model gives them.
    ///
    /// Refused with `ValueError` where the length is negative, and then as by
    /// `SaturatedSlice::with_slice`.
    ///
    /// Example: of the slice `5::-2` and the length 6 it is `Ok((5, -1, -2))`.
    fn indices(&self, length: i128) -> Result<(i128, i128, i128), Fault>
        ensures { result ≡ indices_of length (slice self.now) };

    /// What a comparison operator answers of two slices, which Python compares as the tuples of start,
    /// stop and step (language reference, "Value comparisons"). `==` and `!=` go by all parts. In an
    /// order the first parts that are unequal decide: two numbers, where a truth value counts as 0 or
    /// 1, two bytes values and two texts have an order. Of equal slices `<=` and `>=` hold.
    ///
    /// Refused with `TypeError` exactly where an order is asked and the parts that decide it have none.
    ///
    /// Example: of the slices `1:2` and `1:3` by `CompareOp::Lt` it is `Ok(true)`.
    fn compare(&self, op: CompareOp, other: &PySlice) -> Result<bool, Fault>
        ensures { result ≡ compared_slices op (slice self.now) other.now };

    /// The slice as Python's `repr` writes it: `slice(START, STOP, STEP)`, each part as a reply spells
    /// it, bytes and texts byte by byte.
    ///
    /// Example: of the slice `1:None:2` it gives the text `slice(1, None, 2)`.
    fn repr(&self, alloc: Global) -> Made<Text>
        ensures { IfOk result (λ text. text ≡ slice_text (slice self.now)) };
}

impl SliceIndices for PySlice {
    ghost slice = { λ s. s };

    fn to_saturated(&self) -> Result<SaturatedSlice, Fault> {
        SaturatedSlice::with_slice(self)
    }

    fn indices(&self, length: i128) -> Result<(i128, i128, i128), Fault> {
        if length < 0 {
            return Err(Fault::Value);
        }
        let step = step_of(&self.step)?;
        let start = part_of(&self.start)?;
        let stop = part_of(&self.stop)?;
        Ok((
            placed_start(length, start, step),
            placed_stop(length, stop, step),
            step,
        ))
    }

    fn compare(&self, op: CompareOp, other: &PySlice) -> Result<bool, Fault> {
        compare_slices(self, other, op)
    }

    fn repr(&self, alloc: Global) -> Made<Text> {
        text_of(alloc, self)
    }
}
