//! The numbers of an array one by one.

use crate::answers::Answer;
use crate::arrays::{array_of, mark_of_array};
use crate::data::drawn;
use crate::measuring::Kernel;
use crate::plan::Plan;
use pybuf_array::{ArrayCode, ArrayOp, ArrayReply, PyArray};
use pybuf_value::{Halt, Made};
use std::alloc::Global;

/// What is done with each number.
#[derive(Clone, Copy)]
pub enum Each {
    /// `array.append(k)`, from an array of none on.
    Append,
    /// `array[k]`.
    Get,
    /// `array[k] = k`.
    Set,
    /// The same by the methods of an array, in place of operations.
    PlainAppend,
    PlainGet,
    PlainSet,
}

/// An array of `i`, and how many numbers are added, read or written.
#[derive(Drop)]
pub struct EachNumber {
    array: PyArray,
    count: usize,
    each: Each,
}

/// Carries out an operation. The answer is whether it wasn't refused.
fn is_done(array: &mut PyArray, op: ArrayOp) -> Made<bool> {
    let reply = array.step(&op)?;
    Ok(matches!(reply, ArrayReply::Ok))
}

/// The number at a place; -1 where it is refused.
fn number_at(array: &mut PyArray, place: usize) -> Made<i128> {
    let index = place as i128;
    match array.step(&ArrayOp::Get { index })? {
        ArrayReply::Number(number) => Ok(number),
        _ => Ok(-1),
    }
}

/// Adds so many numbers.
fn append_all(array: &mut PyArray, count: usize) -> Result<Answer, Halt> {
    for place in 0..count {
        let value = place as i128;
        if !is_done(array, ArrayOp::Append { value })? {
            return Ok(Answer::Refused);
        }
    }
    Ok(Answer::Nothing)
}

/// Reads so many numbers, and adds them up.
fn get_all(array: &mut PyArray, count: usize) -> Result<Answer, Halt> {
    let mut sum = 0i128;
    for place in 0..count {
        sum = sum.wrapping_add(number_at(array, place)?);
    }
    Ok(Answer::Number(sum))
}

/// Writes so many numbers.
fn set_all(array: &mut PyArray, count: usize) -> Result<Answer, Halt> {
    for place in 0..count {
        let number = place as i128;
        let op = ArrayOp::Set {
            index: number,
            value: number,
        };
        if !is_done(array, op)? {
            return Ok(Answer::Refused);
        }
    }
    Ok(Answer::Nothing)
}

/// Adds so many numbers by the method.
fn append_all_plainly(array: &mut PyArray, count: usize) -> Result<Answer, Halt> {
    for place in 0..count {
        array.append(place as i128)?;
    }
    Ok(Answer::Nothing)
}

/// Reads so many numbers by the method, and adds them up.
fn get_all_plainly(array: &PyArray, count: usize) -> Result<Answer, Halt> {
    let mut sum = 0i128;
    for place in 0..count {
        sum = sum.wrapping_add(array.get(place as i128)?);
    }
    Ok(Answer::Number(sum))
}

/// Writes so many numbers by the method.
fn set_all_plainly(array: &mut PyArray, count: usize) -> Result<Answer, Halt> {
    for place in 0..count {
        array.set(place as i128, place as i128)?;
    }
    Ok(Answer::Nothing)
}

impl EachNumber {
    /// An array of so many drawn numbers, or of none where they are added.
    pub fn of(alloc: Global, plan: Plan, each: Each) -> Result<EachNumber, Halt> {
        let size = match each {
            Each::Append | Each::PlainAppend => 0,
            _ => plan.count.saturating_mul(4),
        };
        let bytes = drawn(alloc, plan.seed, size)?;
        Ok(EachNumber {
            array: array_of(alloc, ArrayCode::Int, bytes)?,
            count: plan.count,
            each,
        })
    }
}

impl Kernel for EachNumber {
    fn call(&mut self, alloc: Global) -> Result<Answer, Halt> {
        if let Each::Append | Each::PlainAppend = self.each {
            self.array = PyArray::new(alloc, ArrayCode::Int);
        }
        let array = &mut self.array;
        match self.each {
            Each::Append => append_all(array, self.count),
            Each::Get => get_all(array, self.count),
            Each::Set => set_all(array, self.count),
            Each::PlainAppend => append_all_plainly(array, self.count),
            Each::PlainGet => get_all_plainly(array, self.count),
            Each::PlainSet => set_all_plainly(array, self.count),
        }
    }

    fn written(&self, _alloc: Global) -> Result<i128, Halt> {
        mark_of_array(&self.array)
    }
}
