//! Answers as one result, and values that name another object.
use crate::telling::{equal, refuses, same};
use crate::values::none;
use pybuf::{
    Answer, Fault, FitLoans, Halt, Loan, LoanList, LocalReply, Made, PyByteArray, Scalar, Subject,
    Value,
};
use std::alloc::Global;
use std::test::Fail;

/// The number that a call replies.
fn number_at(alloc: Global, array: &mut PyByteArray, index: i128) -> Result<Option<i128>, Halt> {
    let reply = array.getitem(Value::from(index), none(alloc)).done()?;
    Ok(reply.number())
}

/// Loans by which the handle 7 names another bytearray.
fn lend(alloc: Global, other: &PyByteArray) -> Result<LoanList, Halt> {
    let Some(snap) = other.state().snap(alloc, Subject::Own)? else {
        return Err(Halt::Refused(Fault::UnknownName));
    };
    let mut loans = LoanList::new(alloc);
    loans.push((7, Loan::Other(snap)))?;
    Ok(loans)
}

/// Puts the bytes that the handle 7 names in place of two, as Python's `array[1:3] = other`.
fn assign(alloc: Global, array: &mut PyByteArray, loans: LoanList) -> Result<LocalReply, Halt> {
    if !loans.fit(alloc)? {
        return Err(Halt::Refused(Fault::Value));
    }
    let named = Value::One(Scalar::Handle(7));
    array.setitem(Value::slice(1..3), named, loans).done()
}

#[test]
fn answers_are_one_result(rt: HostRuntime) -> Result<(), Fail> {
    let alloc = rt.alloc();
    let mut array = PyByteArray::from_slice(alloc, b"abcd")?;
    let other = PyByteArray::from_slice(alloc, b"XYZ")?;
    let last = number_at(alloc, &mut array, -1)?;
    equal(&rt, last, Some(100));
    refuses(&rt, number_at(alloc, &mut array, 4), Fault::Index);
    drop(assign(alloc, &mut array, lend(alloc, &other)?)?);
    same(&rt, array.borrow_buf(), b"aXYZd");
    Ok(())
}
