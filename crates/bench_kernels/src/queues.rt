//! A bytearray that grows and shrinks.

use crate::answers::{Answer, mark_of_bytes};
use crate::data::drawn;
use crate::keys::{count_of_reply, is_done, number};
use crate::measuring::Kernel;
use crate::plan::Plan;
use pybuf_command::LoanList;
use pybuf_object::PyByteArray;
use pybuf_value::{Halt, Made};
use std::alloc::Global;

/// Appends a byte at the end.
fn append(alloc: Global, object: &mut PyByteArray, place: usize) -> Made<bool> {
    is_done(object.append(number(place % 251), LoanList::new(alloc)))
}

/// So many bytes appended to an empty bytearray, and popped again.
#[derive(Clone, Copy)]
pub struct AppendPop {
    pub count: usize,
}

/// Pops a byte, and tells what it counts.
fn pop(alloc: Global, object: &mut PyByteArray) -> Made<i128> {
    count_of_reply(object.pop(None, LoanList::new(alloc)))
}

impl Kernel for AppendPop {
    fn call(&mut self, alloc: Global) -> Result<Answer, Halt> {
        let mut object = PyByteArray::new_ref(alloc, Vec::new(alloc));
        for place in 0..self.count {
            append(alloc, &mut object, place)?;
        }
        let mut sum = 0i128;
        for _ in 0..self.count {
            sum = sum.wrapping_add(pop(alloc, &mut object)?);
        }
        Ok(Answer::Number(sum))
    }
}

/// A bytearray that is used as a queue, and how many bytes go through it in a call.
#[derive(Drop)]
pub struct Queue {
    object: PyByteArray,
    count: usize,
}

impl Queue {
    /// A queue of so many drawn bytes.
    pub fn of(alloc: Global, plan: Plan, size: usize) -> Result<Queue, Halt> {
        let bytes = drawn(alloc, plan.seed, size)?;
        Ok(Queue {
            object: PyByteArray::new_ref(alloc, bytes),
            count: plan.count,
        })
    }
}

/// Pops the first byte.
fn pop_first(alloc: Global, object: &mut PyByteArray) -> Made<bool> {
    is_done(object.pop(Some(number(0)), LoanList::new(alloc)))
}

impl Kernel for Queue {
    fn call(&mut self, alloc: Global) -> Result<Answer, Halt> {
        for place in 0..self.count {
            append(alloc, &mut self.object, place)?;
            pop_first(alloc, &mut self.object)?;
        }
        Ok(Answer::Nothing)
    }

    fn written(&self, _alloc: Global) -> Result<i128, Halt> {
        Ok(mark_of_bytes(self.object.borrow_buf()))
    }
}
