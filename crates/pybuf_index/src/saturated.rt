//! Slices whose parts fit `isize`.
ghost use Rattle.std.specs.Prelude.{◌≡◌, ◌<◌, ◌≤◌, ◌^◌, ◌≤ℤ◌, ◌<ℤ◌, ◌+ℤ◌, pos, negsuc, ℤ, Option, Result, IfOk, length, nat_abs};
ghost use Rattle.pybuf_value.specs.declared.faults.Fault.{Fault};
ghost use Rattle.pybuf_index.specs.Parts.{SliceParts, IsSaturated, FitsPart, saturated_parts_of, part_in, step_in, clamped_part, picks_of};
ghost use Rattle.pybuf_index.specs.Laws.{SameAsItsParts};
ghost use Rattle.pybuf_index.specs.Picks.{adjusted_part, start_of, stop_of, lower_bound, upper_bound};
ghost use Rattle.pybuf_index.specs.Runs.{span_start, span_limit, span_end, how_many, picks_in_span};

use crate::iter::SaturatedSliceIter;
use pybuf_value::{Fault, PySlice, Scalar, saturate};
use std::marker::Model;
use std::ops::Range;

/// A slice whose parts fit `isize`, and whose step is not 0. A clause sees its parts.
///
/// Example: of the slice `0:2**70` it has the start 0, the stop `isize::MAX` and the step 1.
#[derive(Clone, Copy, Debug)]
pub struct SaturatedSlice {
    start: Option<isize>,
    stop: Option<isize>,
    step: isize,
}

impl Model for SaturatedSlice {
    ghost use Rattle.pybuf_index.specs.Parts.{SliceParts, IsSaturated};

    ghost Value = { SliceParts };

    ghost view = { λ s. record { start = s.start; stop = s.stop; step = s.step } };

    ghost invariant = { λ s. IsSaturated (record { start = s.start; stop = s.stop; step = s.step }) };

    ghost inverse = { λ p. record { start = p.start; stop = p.stop; step = p.step } };
}

impl SaturatedSlice {
    /// The slice with each part at the nearest `isize`: for a sequence of at most `isize::MAX`
    /// items its indices are the same. An absent step is 1, and a truth value counts as 0 or 1.
    ///
    /// Refused with `TypeError` where the step is neither `None` nor a number, then with
    /// `ValueError` where it is 0, then with `TypeError` where the start, and then the stop, is
    /// neither `None` nor a number.
    ///
    /// Example: of the slice `::2` its step is 2, and of `::0` it is `Err(Fault::Value)`.
    pub fn with_slice(slice: &PySlice) -> Result<SaturatedSlice, Fault>
        ensures parts { result ≡ saturated_parts_of slice.now }
        ensures indices { IfOk result (λ saturated. SameAsItsParts slice.now saturated) }
    {
        let step = step_of(&slice.step)?;
        let start = part_of(&slice.start)?;
        let stop = part_of(&slice.stop)?;
        Ok(SaturatedSlice {
            start: saturated_part(start),
            stop: saturated_part(stop),
            step: saturate(step),
        })
    }

    /// The span of the slice in a sequence of `len` items, its step, and how many indices it has.
    ///
    /// The span goes from the start to the stop, or, where the step is negative, from one past the
    /// stop to one past the start. Where there are no indices the span is empty, and stands at the
    /// start, or at one past the stop.
    ///
    /// Example: of `::2` in five items it is `(0..5, 2, 3)`, and of `5:0:-2` in six items `(1..6, -2, 3)`.
    pub fn adjust_indices(&self, len: usize) -> (Range<usize>, isize, usize)
        requires { len < 2 ^ 63 }
        ensures saturated { IsSaturated self.now }
        ensures first { result.0.start ≡ span_start len self.now }
        ensures end { result.0.end ≡ span_end len self.now }
        ensures step { result.1 ≡ self.now.step }
        ensures count { result.2 ≡ length (picks_of len self.now) }
        ensures picks { picks_in_span result.0.start result.0.end result.1 ≡ picks_of len self.now }
        ensures ordered { result.0.start ≤ result.0.end }
        ensures within { result.0.end ≤ len }
    {
        let step = self.step;
        let low = first_place(len, self.start, self.stop, step);
        let high = low.max(limit_place(len, self.start, self.stop, step));
        let count = count_between(low, high, step.unsigned_abs());
        (low..high, step, count)
    }

    /// The indices of the slice in a sequence of `len` items, in order.
    ///
    /// Example: of `5:0:-2` in six items it gives 5, 3, 1.
    pub fn iter(&self, len: usize) -> SaturatedSliceIter
        requires { len < 2 ^ 63 }
        ensures { result ≡ picks_of len self.now }
    {
        SaturatedSliceIter::new(self, len)
    }
}

/// Where the span of a slice begins.
fn first_place(len: usize, start: Option<isize>, stop: Option<isize>, step: isize) -> usize
    requires { len < 2 ^ 63 }
    ensures place { result ≡ span_start len (record { start = start; stop = stop; step = step }) }
    ensures within { result ≤ len }
{
    if step < 0 {
        place_above(placed_stop(len as i128, widened(stop), step as i128))
    } else {
        let start = placed_start(len as i128, widened(start), step as i128);
        start as usize
    }
}

/// Where the span of a slice ends, unless that is before it begins.
fn limit_place(len: usize, start: Option<isize>, stop: Option<isize>, step: isize) -> usize
    requires { len < 2 ^ 63 }
    ensures place { result ≡ span_limit len (record { start = start; stop = stop; step = step }) }
    ensures within { result ≤ len }
{
    if step < 0 {
        place_above(placed_start(len as i128, widened(start), step as i128))
    } else {
        let stop = placed_stop(len as i128, widened(stop), step as i128);
        stop as usize
    }
}

/// The place that follows.
fn place_above(place: i128) -> usize
    requires low { negsuc 0 ≤ℤ place }
    requires high { place <ℤ pos (2 ^ 63) }
    ensures { result ≡ nat_abs (place +ℤ pos 1) }
{
    (place + 1) as usize
}

/// How many numbers from `low`, one stride apart, stay below `high`.
pub(crate) fn count_between(low: usize, high: usize, stride: usize) -> usize
    requires { 0 < stride }
    ensures count { result ≡ how_many low high stride }
{
    if low < high {
        // Most slices have the step 1, and a division takes as long as everything else here.
        if stride == 1 {
            return high - low;
        }
        (high - low - 1) / stride + 1
    } else {
        0
    }
}

fn widened(part: Option<isize>) -> Option<i128>
    ensures { result ≡ part }
{
    match part {
        None => None,
        Some(number) => Some(number as i128),
    }
}

/// The place of a start or a stop in a sequence of `length` items: a negative one counts from the
/// end.
fn placed(length: i128, part: i128, step: i128) -> i128
    requires { pos 0 ≤ℤ length }
    ensures place { result ≡ adjusted_part (nat_abs length) step part }
    ensures low { lower_bound step ≤ℤ result }
    ensures high { result ≤ℤ upper_bound (nat_abs length) step }
{
    if part < 0 {
        let low = if step < 0 { -1 } else { 0 };
        let from_end = part + length;
        if low < from_end { from_end } else { low }
    } else {
        let high = if step < 0 { length - 1 } else { length };
        if high < part { high } else { part }
    }
}

/// The place of the start, and where it is absent the end that the step leads away from.
pub(crate) fn placed_start(length: i128, start: Option<i128>, step: i128) -> i128
    requires { pos 0 ≤ℤ length }
    ensures place { result ≡ start_of (nat_abs length) start step }
    ensures low { lower_bound step ≤ℤ result }
    ensures high { result ≤ℤ upper_bound (nat_abs length) step }
{
    match start {
        None => { if step < 0 { length - 1 } else { 0 } }
        Some(part) => placed(length, part, step),
    }
}

/// The place of the stop, and where it is absent the end that the step leads to.
pub(crate) fn placed_stop(length: i128, stop: Option<i128>, step: i128) -> i128
    requires { pos 0 ≤ℤ length }
    ensures place { result ≡ stop_of (nat_abs length) stop step }
    ensures low { lower_bound step ≤ℤ result }
    ensures high { result ≤ℤ upper_bound (nat_abs length) step }
{
    match stop {
        None => { if step < 0 { -1 } else { length } }
        Some(part) => placed(length, part, step),
    }
}

/// A start or a stop, where it is there. Refused with `TypeError` where it is no number.
pub(crate) fn part_of(part: &Scalar) -> Result<Option<i128>, Fault>
    ensures { result ≡ part_in part.now }
{
    match part {
        Scalar::None => Ok(None),
        Scalar::Int(number) => Ok(Some(*number)),
        Scalar::Bool(truth) => { if *truth { Ok(Some(1)) } else { Ok(Some(0)) } }
        _ => Err(Fault::Kind),
    }
}

/// A step, 1 where it is absent. Refused with `TypeError` where it is no number, and with
/// `ValueError` where it is 0.
pub(crate) fn step_of(part: &Scalar) -> Result<i128, Fault>
    ensures { result ≡ step_in part.now }
{
    match part_of(part)? {
        None => Ok(1),
        Some(0) => Err(Fault::Value),
        Some(step) => Ok(step),
    }
}

fn saturated_part(part: Option<i128>) -> Option<isize>
    ensures clamped { result ≡ clamped_part part }
    ensures fits { FitsPart result }
{
    match part {
        None => None,
        Some(number) => Some(saturate(number)),
    }
}
