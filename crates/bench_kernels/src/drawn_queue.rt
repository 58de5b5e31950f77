//! Commands that are drawn, on a bytearray that is used as a queue. What they reply, and the bytes in between, are
//! what Python's own `bytearray` does (`bench/kernels.py`).

use crate::answers::{Answer, mark_of_bytes};
use crate::data::drawn;
use crate::keys::{number, slice};
use crate::measuring::Kernel;
use pybuf_command::{ByteInnerNewOptions, LoanList, LocalReply};
use pybuf_memoryobject::PyMemoryView;
use pybuf_object::PyByteArray;
use pybuf_value::{ByteList, Fault, Halt, Item, Made, Scalar, Value};
use std::alloc::Global;

/// How many commands are drawn.
const COMMANDS: usize = 10_000;

/// The commands of a seed, in a call always all of them.
#[derive(Clone, Copy)]
pub struct DrawnQueue {
    pub seed: u64,
}

/// A bytearray, and the number of the view of it that is unreleased, where there is one.
#[derive(Drop)]
struct Queue {
    object: PyByteArray,
    live: Option<usize>,
}

/// A command that was drawn: which one, a byte, and how many.
#[derive(Clone, Copy)]
struct Drawn {
    kind: u8,
    byte: u8,
    count: u8,
    rare: u8,
}

fn byte_at(bytes: &[u8], place: usize) -> u8 {
    bytes.get(place).copied().unwrap_or(0)
}

/// The command of a number.
fn command_of(bytes: &[u8], place: usize) -> Drawn {
    let at = place.wrapping_mul(4);
    Drawn {
        kind: byte_at(bytes, at) % 16,
        byte: byte_at(bytes, at.wrapping_add(1)),
        count: byte_at(bytes, at.wrapping_add(2)),
        rare: byte_at(bytes, at.wrapping_add(3)) % 8,
    }
}

/// The number that stands for a reply.
fn told_of(reply: &LocalReply) -> u64 {
    match reply {
        LocalReply::Ok => 1,
        LocalReply::Item(Item::One(Scalar::Int(byte))) => u64::try_from(*byte)
            .unwrap_or(0)
            .wrapping_add(2),
        LocalReply::View(_) => 300,
        LocalReply::Refused(Fault::Buffer) => 302,
        LocalReply::Refused(Fault::Value) => 303,
        LocalReply::Refused(Fault::Index) => 304,
        _ => 305,
    }
}

/// The same of what a method answers.
#[inline(always)]
fn told(reply: Made<LocalReply>) -> Made<u64> {
    let reply = reply?;
    Ok(told_of(&reply))
}

/// So many equal bytes, as a value.
fn bytes_of(alloc: Global, byte: u8, count: usize) -> Made<Value> {
    let bytes = vec![in alloc; byte; count]?;
    Ok(Value::One(Scalar::Bytes(ByteList::from_vec(bytes))))
}

fn append(alloc: Global, object: &mut PyByteArray, byte: u8) -> Made<u64> {
    told(object.append(number(byte as usize), LoanList::new(alloc)))
}

fn extend(alloc: Global, object: &mut PyByteArray, drawn: Drawn) -> Made<u64> {
    let bytes = bytes_of(alloc, drawn.byte, drawn.count as usize % 40 + 1)?;
    told(object.extend(bytes, LoanList::new(alloc)))
}

fn insert(alloc: Global, object: &mut PyByteArray, byte: u8) -> Made<u64> {
    told(object.insert(number(0), number(byte as usize), LoanList::new(alloc)))
}

fn pop_first(alloc: Global, object: &mut PyByteArray) -> Made<u64> {
    told(object.pop(Some(number(0)), LoanList::new(alloc)))
}

/// Takes the first bytes away by a slice, from the first on or from the last.
fn cut(alloc: Global, object: &mut PyByteArray, drawn: Drawn) -> Made<u64> {
    let count = (drawn.count % 12) as isize;
    let key = if drawn.kind == 11 {
        slice(None, Some(count + 1), None)
    } else {
        slice(Some(count), None, Some(-1))
    };
    told(object.delitem(key, LoanList::new(alloc)))
}

/// The first byte is taken out by its value.
fn remove_first(alloc: Global, object: &mut PyByteArray, other: u8) -> Made<u64> {
    let byte = object.borrow_buf().first().copied().unwrap_or(other);
    told(object.remove(number(byte as usize), LoanList::new(alloc)))
}

/// The bytearray is made anew.
fn init(alloc: Global, object: &mut PyByteArray, drawn: Drawn) -> Made<u64> {
    let bytes = bytes_of(alloc, drawn.byte, drawn.count as usize)?;
    let options = ByteInnerNewOptions {
        source: Some(bytes),
        encoding: None,
        errors: None,
    };
    told(object.init(options, LoanList::new(alloc)))
}

fn set_front(alloc: Global, object: &mut PyByteArray, drawn: Drawn) -> Made<u64> {
    let bytes = bytes_of(alloc, drawn.byte, drawn.count as usize % 7)?;
    let key = slice(Some(0), Some((drawn.count % 9) as isize), None);
    told(object.setitem(key, bytes, LoanList::new(alloc)))
}

fn delete_first(alloc: Global, object: &mut PyByteArray) -> Made<u64> {
    told(object.delitem(number(0), LoanList::new(alloc)))
}

/// A copy of the bytearray.
fn copy_of(alloc: Global, object: &mut PyByteArray) -> Made<Option<PyByteArray>> {
    match object.copy(LoanList::new(alloc))? {
        LocalReply::Fresh(snap) => Ok(Some(PyByteArray::new_ref(alloc, snap.content.into_vec()))),
        _ => Ok(None),
    }
}

/// A view is released.
fn exit(alloc: Global, object: &mut PyByteArray, view: usize) -> Made<u64> {
    told(PyMemoryView::of(view).exit(object.state_mut(), LoanList::new(alloc)))
}

impl Queue {
    /// A copy takes the place of a bytearray without a view.
    fn copy(&mut self, alloc: Global) -> Made<u64> {
        if self.live.is_none() {
            if let Some(copy) = copy_of(alloc, &mut self.object)? {
                self.object = copy;
            }
        }
        Ok(1)
    }

    /// The view is released, or one is made of a bytearray that has bytes.
    fn view(&mut self, alloc: Global) -> Made<u64> {
        if let Some(view) = self.live {
            self.live = None;
            return exit(alloc, &mut self.object, view);
        }
        if self.object.borrow_buf().is_empty() {
            return Ok(1);
        }
        let reply = self.object.as_buffer(LoanList::new(alloc))?;
        self.live = reply.view();
        Ok(told_of(&reply))
    }

    /// A command that is drawn less often.
    fn rare(&mut self, alloc: Global, drawn: Drawn) -> Made<u64> {
        let object = &mut self.object;
        match drawn.rare {
            0 => init(alloc, object, drawn),
            1 => self.copy(alloc),
            2 => told(object.clear(LoanList::new(alloc))),
            3 => set_front(alloc, object, drawn),
            4 => delete_first(alloc, object),
            _ => told(object.pop(None, LoanList::new(alloc))),
        }
    }

    /// A command.
    fn carry_out(&mut self, alloc: Global, drawn: Drawn) -> Made<u64> {
        let object = &mut self.object;
        match drawn.kind {
            0..=4 => append(alloc, object, drawn.byte),
            5 => extend(alloc, object, drawn),
            6 => insert(alloc, object, drawn.byte),
            7..=10 => pop_first(alloc, object),
            11 | 12 => cut(alloc, object, drawn),
            13 => remove_first(alloc, object, drawn.byte),
            14 => self.view(alloc),
            _ => self.rare(alloc, drawn),
        }
    }
}

/// A number that stands for two numbers.
fn after(mark: u64, number: u64) -> u64 {
    mark.wrapping_mul(31).wrapping_add(number)
}

impl Kernel for DrawnQueue {
    fn call(&mut self, alloc: Global) -> Result<Answer, Halt> {
        let bytes = drawn(alloc, self.seed, COMMANDS * 4)?;
        let mut queue = Queue {
            object: PyByteArray::new_ref(alloc, Vec::new(alloc)),
            live: None,
        };
        let mut mark = 0u64;
        for place in 0..COMMANDS {
            mark = after(
                mark,
                queue.carry_out(alloc, command_of(bytes.as_slice(), place))?,
            );
            let content = mark_of_bytes(queue.object.borrow_buf());
            mark = after(mark, u64::try_from(content).unwrap_or(0));
        }
        Ok(Answer::Number(mark as i128))
    }
}
