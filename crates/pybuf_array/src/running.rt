//! Operations, one by one and many.
ghost use Rattle.std.specs.Prelude.{◌≡◌, ◌++◌, IfOk, OnOk, OnErr};
ghost use Rattle.pybuf_array.specs.Operations as spec;

use crate::array::PyArray;
use crate::operations::{ArrayOp, ArrayReply, ArrayReplyList};
use pybuf_value::{ByteList, Halt, Made, NoMemory, push_reserved};
use std::mem;

/// The answer as a reply: a refusal is one too.
fn closed(answer: Result<ArrayReply, Halt>) -> Made<ArrayReply>
    ensures { spec.Closes answer result }
{
    match answer {
        Ok(reply) => Ok(reply),
        Err(Halt::Refused(fault)) => Ok(ArrayReply::Refused(fault)),
        Err(Halt::NoMemory) => Err(NoMemory),
    }
}

impl PyArray {
    /// Carries out an operation.
    fn answer(&mut self, op: &ArrayOp) -> Result<ArrayReply, Halt>
        ensures { spec.Settles (spec.row_of self.old op.now) self.old result self.new }
    {
        match op {
            ArrayOp::Append { value } => {
                self.append(*value)?;
                Ok(ArrayReply::Ok)
            }
            ArrayOp::Extend { values } => {
                self.extend(values.as_slice())?;
                Ok(ArrayReply::Ok)
            }
            ArrayOp::Insert { index, value } => {
                self.insert(*index, *value)?;
                Ok(ArrayReply::Ok)
            }
            ArrayOp::Pop { index } => {
                let number = self.pop(*index)?;
                Ok(ArrayReply::Number(number))
            }
            ArrayOp::Remove { value } => {
                self.remove(*value)?;
                Ok(ArrayReply::Ok)
            }
            ArrayOp::FromBytes { bytes } => {
                self.frombytes(bytes.as_slice())?;
                Ok(ArrayReply::Ok)
            }
            ArrayOp::Get { index } => {
                let number = self.get(*index)?;
                Ok(ArrayReply::Number(number))
            }
            ArrayOp::Set { index, value } => {
                self.set(*index, *value)?;
                Ok(ArrayReply::Ok)
            }
            ArrayOp::Len => Ok(ArrayReply::Number(self.len() as i128)),
            ArrayOp::ToList => {
                let list = self.numbers()?;
                Ok(ArrayReply::Numbers(list))
            }
            ArrayOp::ToBytes => {
                let bytes = self.tobytes()?;
                Ok(ArrayReply::Bytes(bytes))
            }
            ArrayOp::ByteSwap => {
                self.byteswap();
                Ok(ArrayReply::Ok)
            }
            ArrayOp::View => {
                let view = self.view()?;
                Ok(ArrayReply::View(view))
            }
            ArrayOp::ViewSlice { view, slice } => {
                let view = self.vslice(*view, slice)?;
                Ok(ArrayReply::View(view))
            }
            ArrayOp::ViewGet { view, index } => {
                let number = self.vget(*view, *index)?;
                Ok(ArrayReply::Number(number))
            }
            ArrayOp::ViewSet { view, index, value } => {
                self.vset(*view, *index, *value)?;
                Ok(ArrayReply::Ok)
            }
            ArrayOp::Release { view } => {
                self.release(*view)?;
                Ok(ArrayReply::Ok)
            }
        }
    }

    /// Carries out an operation. A refusal is a reply, and changes nothing. Where memory runs out, nothing is changed.
    /// Example: `ArrayOp::Len` of `array('h', [1, -2])` replies `ArrayReply::Number(2)`.
    pub fn step(&mut self, op: &ArrayOp) -> Made<ArrayReply>
        ensures ok { IfOk result (λ r. spec.astep self.old op.now ≡ (self.new, r)) }
        ensures err { OnErr result (self.new ≡ self.old) }
    {
        closed(self.answer(op))
    }

    /// Carries out the operations in order, and adds a reply for each.
    fn run_onto(&mut self, ops: &[ArrayOp], replies: &mut Vec<ArrayReply>) -> Made<()>
        ensures array { OnOk result (self.new ≡ spec.array_after_all self.old ops.now) }
        ensures replies { OnOk result (replies.new.items ≡ replies.old.items ++ spec.replies_of self.old ops.now) }
        ensures stopped { OnErr result (spec.StopsAt self.old ops.now self.new replies.old.items replies.new.items) }
    {
        for op in ops {
            replies.reserve(1)?;
            let reply = self.step(op)?;
            push_reserved(replies, reply);
        }
        Ok(())
    }

    /// Carries out the operations in order, and adds a reply for each. A refusal is a reply too, and changes nothing.
    ///
    /// Where memory runs out, array and replies are those of the operations that were answered before. However the
    /// operations are cut in two, the number of numbers doesn't change in the second part where a view that was made
    /// in the first is unreleased at its end.
    /// Example: `append 1` and `len` on a new array add the replies `Ok` and `Number(1)`.
    pub fn run(&mut self, ops: &[ArrayOp], replies: &mut ArrayReplyList) -> Result<(), NoMemory>
        ensures array { OnOk result (self.new ≡ spec.array_after_all self.old ops.now) }
        ensures replies { OnOk result (replies.new ≡ replies.old ++ spec.replies_of self.old ops.now) }
        ensures stopped { OnErr result (spec.StopsAt self.old ops.now self.new replies.old replies.new) }
        ensures length { spec.KeepsLengthWhileViewed self.old ops.now }
    {
        let mut answered = mem::replace(replies, ArrayReplyList::new(self.alloc)).into_vec();
        let answer = self.run_onto(ops, &mut answered);
        *replies = ArrayReplyList::from_vec(answered);
        answer
    }
}
