//! Values: that copies succeed with ample memory and are equal, what values are made of, answers as one result, and texts,
//! which are those of Python's `repr` and of the program's lines.
use crate::telling::{tell, tell_bytes, tell_number, tell_truth};
use pybuf_command::{LocalReply, Reply};
use pybuf_copy::{Twin, copy_all};
use pybuf_value::{
    Answer, ByteList, CountList, Fault, Halt, Item, ItemList, Items, Made, NoMemory, Outcome,
    PySlice, Refusable, Scalar, ScalarList, Text, Tried, Value,
};
use std::alloc::Global;
use std::fmt::Display;
use std::test::Fail;

/// Whether each copy, a list of copies, and copies put over others are equal to the items.
fn are_copied<T: Twin + PartialEq>(alloc: Global, items: &[T]) -> bool {
    for item in items {
        if !matches!(item.copy(alloc), Ok(copy) if copy == *item) {
            return false;
        }
    }
    let Ok(mut copies) = copy_all(alloc, items) else {
        return false;
    };
    copies.as_slice() == items
        && copies.len() == items.len()
        && T::write_copies(alloc, items, copies.as_mut_slice()).is_ok()
        && copies.as_slice() == items
}

fn numbers_are_copied(alloc: Global) -> bool {
    are_copied(alloc, [0u8, 255].as_slice())
        && are_copied(alloc, [0u16, 65535].as_slice())
        && are_copied(alloc, [0u32, 4294967295].as_slice())
        && are_copied(alloc, [0u64, 18446744073709551615].as_slice())
        && are_copied(alloc, [0u128, 1 << 100].as_slice())
        && are_copied(alloc, [0usize, 7].as_slice())
        && are_copied(alloc, [-128i8, 127].as_slice())
        && are_copied(alloc, [-32768i16, 7].as_slice())
        && are_copied(alloc, [-1i32, 7].as_slice())
        && are_copied(alloc, [-1i64, 7].as_slice())
        && are_copied(alloc, [-1i128, 7].as_slice())
        && are_copied(alloc, [-1isize, 7].as_slice())
        && are_copied(alloc, [true, false].as_slice())
        && are_copied(alloc, ['a', 'é'].as_slice())
        && are_copied(alloc, [(1u8, true), (2, false)].as_slice())
        && are_copied(alloc, [(1u8, true, 'a'), (2, false, 'b')].as_slice())
        && are_copied(alloc, [Some(1u32), None].as_slice())
}

/// Whether something was made, and is equal to its copy.
fn is_copied<T: Twin + PartialEq + Drop>(alloc: Global, made: Made<T>) -> bool {
    match made {
        Ok(item) => match item.copy(alloc) {
            Ok(copy) => alike(item, copy),
            Err(_) => false,
        },
        Err(_) => false,
    }
}

/// A list of one item, put there through its vector.
fn one<T: Drop>(alloc: Global, item: Made<T>) -> Made<Items<T>> {
    let mut list = Items::new(alloc);
    list.push(item?)?;
    Ok(Items::from_vec(list.into_vec()))
}

/// A slice with bytes for its stop.
fn slice(alloc: Global) -> Made<PySlice> {
    Ok(PySlice {
        start: Scalar::Int(-1),
        stop: Scalar::bytes(alloc, b"\x07\xff")?,
        step: Scalar::Ellipsis,
    })
}

fn parts(alloc: Global) -> Made<ScalarList> {
    one(alloc, Scalar::bytes(alloc, b"\x07\xff"))
}

fn words(alloc: Global) -> Made<Vec<String>> {
    Ok(vec![in alloc; String::from_str(alloc, "é")?]?)
}

fn slice_value(alloc: Global) -> Made<Value> {
    Ok(Value::Slice(slice(alloc)?))
}

fn slices_value(alloc: Global) -> Made<Value> {
    Ok(Value::Slices(one(alloc, slice(alloc))?))
}

fn list_value(alloc: Global) -> Made<Value> {
    Ok(Value::List(parts(alloc)?))
}

fn item(alloc: Global) -> Made<Item> {
    Ok(Item::Many(parts(alloc)?))
}

fn values_are_copied(alloc: Global) -> bool {
    is_copied(alloc, words(alloc))
        && is_copied(alloc, one(alloc, Ok(5i128)))
        && is_copied(alloc, Text::from_str(alloc, "é"))
        && is_copied(alloc, slices_value(alloc))
        && is_copied(alloc, list_value(alloc))
        && is_copied(alloc, item(alloc))
}

#[test]
fn values_are_copied_and_made(rt: HostRuntime) -> Result<(), Fail> {
    assert!(rt; numbers_are_copied(rt.alloc()));
    assert!(rt; values_are_copied(rt.alloc()));
    assert!(rt; values_are_made());
    assert!(rt; answers_are_one_result());
    Ok(())
}

fn alike<T: PartialEq + Drop>(left: T, right: T) -> bool {
    let equal = left == right;
    drop(left);
    drop(right);
    equal
}

fn values_are_made() -> bool {
    alike(Scalar::from(true), Scalar::Bool(true))
        && alike(Scalar::from(255u8), Scalar::Int(255))
        && alike(Scalar::from(3usize), Scalar::Int(3))
        && alike(Scalar::from(-3i32), Scalar::Int(-3))
        && alike(Scalar::from(-3i64), Scalar::Int(-3))
        && alike(Value::from(-3i128), Value::One(Scalar::Int(-3)))
        && !alike(Value::from(1), Value::from(true))
        && alike(
            Value::slice(1..5),
            Value::Slice(PySlice::new(Some(1), Some(5), None)),
        )
        && alike(PySlice::from(2..), PySlice::new(Some(2), None, None))
        && alike(PySlice::from(..3), PySlice::new(None, Some(3), None))
        && alike(
            Value::from(PySlice::from(..)),
            Value::slice(PySlice::new(None, None, None)),
        )
}

fn answers_are_one_result() -> bool {
    let refused: Tried<u8> = Ok(Outcome::Refused(Fault::Kind));
    let wanting: Tried<u8> = Err(NoMemory);
    let plain: Result<u8, Fault> = Err(Fault::Index);
    let outcome: Outcome<u8> = Outcome::Done(7);
    refused.done() == Err(Halt::Refused(Fault::Kind))
        && wanting.done() == Err(Halt::NoMemory)
        && plain.done() == Err(Halt::Refused(Fault::Index))
        && outcome.into_result() == Ok(7)
}

/// Tells the number, the truth value, the view, the refusal and the text of a reply, or `-`, and its bytes, where it has
/// such.
fn tell_reply(told: &mut Vec<u8>, reply: LocalReply) {
    tell_number(told, reply.number().unwrap_or(-1));
    tell_truth(told, reply.truth() == Some(true));
    tell_number(told, reply.view().map_or(-1, |view| view as i128));
    tell(
        told,
        reply
            .refusal()
            .map_or("-", |fault| fault.python_name())
            .as_bytes(),
    );
    tell(told, reply.text().unwrap_or("-").as_bytes());
    if let Some(bytes) = reply.into_bytes() {
        tell_bytes(told, bytes.as_slice());
    }
}

#[test]
fn replies_are_read(rt: HostRuntime) -> Result<(), Fail> {
    let mut told = Vec::new(rt.alloc());
    tell_reply(&mut told, LocalReply::Item(Item::One(Scalar::Int(99))));
    tell_reply(&mut told, LocalReply::Item(Item::One(Scalar::Bool(true))));
    tell_reply(&mut told, LocalReply::Truth(true));
    tell_reply(&mut told, LocalReply::View(2));
    tell_reply(&mut told, LocalReply::Refused(Fault::Buffer));
    if let Ok(bytes) = ByteList::from_slice(rt.alloc(), b"ab") {
        tell_reply(&mut told, LocalReply::Bytes(bytes));
    }
    if let Ok(text) = Text::from_str(rt.alloc(), "H") {
        tell_reply(&mut told, LocalReply::Text(text));
    }
    assert!(rt; told.as_slice() == READ.as_bytes());
    Ok(())
}

const READ: &str =
    " 99 no -1 - - -1 yes -1 - - -1 yes -1 - - -1 no 2 - - -1 no -1 BufferError - -1 no -1 - - b'ab' -1 no -1 - H";

/// Tells the text of what was made.
fn tell_shown<D: Display + Drop>(told: &mut Vec<u8>, alloc: Global, made: Made<D>) {
    if let Ok(item) = made {
        if let Ok(text) = item.to_string(alloc) {
            tell(told, text.as_bytes());
        }
        drop(item);
    }
}

/// Rows of one number each.
fn rows(alloc: Global) -> Made<Reply> {
    let shape = CountList::from_slice(alloc, &[2, 1])?;
    let mut items = ItemList::new(alloc);
    items.push(Item::One(Scalar::Int(1)))?;
    items.push(Item::One(Scalar::Int(2)))?;
    Ok(Reply::Items { shape, items })
}

const FAULTS: [Fault; 8] = [
    Fault::Index,
    Fault::Value,
    Fault::Kind,
    Fault::Buffer,
    Fault::Struct,
    Fault::Overflow,
    Fault::NotImplemented,
    Fault::UnknownName,
];

#[test]
fn values_are_shown(rt: HostRuntime) -> Result<(), Fail> {
    let alloc = rt.alloc();
    let mut told = Vec::new(alloc);
    for fault in &FAULTS {
        tell_shown(&mut told, alloc, Ok(*fault));
    }
    tell_shown(&mut told, alloc, Ok(Halt::Refused(Fault::Index)));
    tell_shown(&mut told, alloc, Ok(Halt::NoMemory));
    tell_shown(&mut told, alloc, Value::bytes(alloc, b"it's\x00\xff\t\\"));
    tell_shown(&mut told, alloc, slice(alloc));
    tell_shown(&mut told, alloc, list_value(alloc));
    tell_shown(&mut told, alloc, Ok(Reply::Refused(Fault::Buffer)));
    tell_shown(&mut told, alloc, rows(alloc));
    assert!(rt; told.as_slice() == SHOWN.as_bytes());
    Ok(())
}

const SHOWN: &str =
    " IndexError ValueError TypeError BufferError StructError OverflowError NotImplementedError UnknownName IndexError MemoryError b\"it's\\x00\\xff\\t\\\\\" slice(-1, b'\\x07\\xff', Ellipsis) [b'\\x07\\xff'] ! BufferError [[1], [2]]";
