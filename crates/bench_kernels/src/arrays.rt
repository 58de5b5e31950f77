//! All numbers of an array at once.

use crate::answers::{Answer, mark_of_bytes};
use crate::data::drawn;
use crate::measuring::Kernel;
use crate::plan::Plan;
use pybuf_array::{ArrayCode, ArrayOp, ArrayReply, PyArray};
use pybuf_value::{ByteList, Halt, Made};
use std::alloc::Global;

/// What is done with all numbers.
#[derive(Clone, Copy)]
pub enum Whole {
    /// `array(code).frombytes(bytes)`.
    FromBytes,
    /// `array.tobytes()`.
    ToBytes,
    /// `array.tolist()`.
    ToList,
    /// `array.byteswap()`.
    ByteSwap,
}

/// An array, and what is asked of it.
#[derive(Drop)]
pub struct WholeArray {
    array: PyArray,
    op: ArrayOp,
    is_new: bool,
    code: ArrayCode,
}

/// An array of the numbers of bytes; of none where they are refused.
pub fn array_of(alloc: Global, code: ArrayCode, bytes: Vec<u8>) -> Made<PyArray> {
    let mut array = PyArray::new(alloc, code);
    let bytes = ByteList::from_vec(bytes);
    array.step(&ArrayOp::FromBytes { bytes })?;
    Ok(array)
}

/// The mark of an array's bytes.
pub fn mark_of_array(array: &PyArray) -> Result<i128, Halt> {
    let bytes = array.tobytes()?;
    Ok(mark_of_bytes(bytes.as_slice()))
}

/// The answer that a reply is.
fn answer_of(reply: ArrayReply) -> Answer {
    match reply {
        ArrayReply::Ok => Answer::Nothing,
        ArrayReply::Number(number) => Answer::Number(number),
        ArrayReply::Numbers(numbers) => Answer::Numbers(numbers),
        ArrayReply::Bytes(bytes) => Answer::Bytes(bytes.into_vec()),
        _ => Answer::Refused,
    }
}

impl WholeArray {
    /// An array of drawn bytes, or of none to which these are added.
    pub fn of(
        alloc: Global,
        plan: Plan,
        whole: Whole,
        code: ArrayCode,
    ) -> Result<WholeArray, Halt> {
        let bytes = drawn(alloc, plan.seed, plan.size)?;
        if let Whole::FromBytes = whole {
            let bytes = ByteList::from_vec(bytes);
            return Ok(WholeArray {
                array: PyArray::new(alloc, code),
                op: ArrayOp::FromBytes { bytes },
                is_new: true,
                code,
            });
        }
        let op = match whole {
            Whole::ToBytes => ArrayOp::ToBytes,
            Whole::ToList => ArrayOp::ToList,
            _ => ArrayOp::ByteSwap,
        };
        Ok(WholeArray {
            array: array_of(alloc, code, bytes)?,
            op,
            is_new: false,
            code,
        })
    }
}

impl Kernel for WholeArray {
    fn call(&mut self, alloc: Global) -> Result<Answer, Halt> {
        if self.is_new {
            self.array = PyArray::new(alloc, self.code);
        }
        let reply = self.array.step(&self.op)?;
        Ok(answer_of(reply))
    }

    fn written(&self, _alloc: Global) -> Result<i128, Halt> {
        mark_of_array(&self.array)
    }
}
