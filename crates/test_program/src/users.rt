//! The five users of the library (`example_users`): what no clause says, that their calls succeed with ample
//! memory, and with which answers. What the documents show of them stands here word for word.
use example_users::{
    Handover, Header, Interpreter, LineBuffer, NumberArray, Reading, Statement, WeatherLog,
};
use pybuf::{ByteList, Fault, Item, PyBuffer, Reply, Scalar, Text};
use std::test::Fail;

#[test]
fn a_lent_view_shows_what_is_set(rt: HostRuntime) -> Result<(), Fail> {
    let alloc = rt.alloc();
    let mut numbers = NumberArray::new(alloc);
    numbers.push(258)?;
    let view = numbers.lend()?;
    assert!(rt; PyBuffer::of(view.number()).is_live(numbers.state()));
    assert!(rt; numbers.set(0, 513).is_ok());
    assert!(rt; numbers.state().bytes() == [1, 2].as_slice());
    assert!(rt; numbers.set_through(&view, 1, 772) == Err(Fault::Index));
    assert!(rt; numbers.set_through(&view, 0, 772).is_ok());
    assert!(rt; numbers.get(0) == Some(772));
    Ok(())
}

/// Two readings of the year 2024, as Python's `struct.pack('<4sHI', b'LOGS', 2024, 2)` and
/// `struct.pack('<IhB', ..)` of 86400, -35 and 1, and of 90000, 112 and 2 write them.
const LOG: &[u8; 24] =
    b"LOGS\xe8\x07\x02\x00\x00\x00\x80Q\x01\x00\xdd\xff\x01\x90_\x01\x00p\x00\x02";

#[test]
fn a_log_is_read(rt: HostRuntime) -> Result<(), Fail> {
    let alloc = rt.alloc();
    let log = WeatherLog::open(alloc, Vec::from_slice(alloc, LOG)?)?;
    let header = Header {
        year: 2024,
        count: 2,
    };
    assert!(rt; log.header() == header);
    let second = Reading {
        second: 90000,
        temperature: 112,
        station: 2,
    };
    assert!(rt; log.reading(alloc, 1)? == second);
    Ok(())
}

#[test]
fn lines_are_answered_where_they_lie(rt: HostRuntime) -> Result<(), Fail> {
    let alloc = rt.alloc();
    let mut buffer = LineBuffer::new(alloc, 10)?;
    assert!(rt; buffer.receive(b"get a") == 5);
    assert!(rt; buffer.line().is_none());
    assert!(rt; !buffer.answer());
    assert!(rt; buffer.receive(b"\nput b\n") == 5);
    assert!(rt; buffer.line() == Some(b"get a".as_slice()));
    assert!(rt; buffer.answer());
    assert!(rt; !buffer.answer());
    assert!(rt; buffer.answers() == b"GET A\n".as_slice());
    buffer.sent();
    assert!(rt; buffer.answers().len() == 0);
    assert!(rt; buffer.receive(b" b\n") == 3);
    assert!(rt; buffer.answer());
    assert!(rt; buffer.answers() == b"PUT  B\n".as_slice());
    Ok(())
}

/// A reply as a number: that of a handle or of an item, and others below 0.
fn told(reply: Reply) -> i128 {
    let number = match &reply {
        Reply::Ok => -1,
        Reply::Handle(handle) => *handle as i128,
        Reply::Item(Item::One(Scalar::Int(number))) => *number,
        Reply::Refused(Fault::Buffer) => -2,
        Reply::Refused(Fault::Value) => -3,
        _ => -9,
    };
    drop(reply);
    number
}

#[test]
fn statements_are_answered(rt: HostRuntime) -> Result<(), Fail> {
    let alloc = rt.alloc();
    let mut python = Interpreter::new(alloc);
    let bytes = ByteList::from_slice(alloc, b"\x01\x00\x02\x00")?;
    assert!(rt; told(python.step(Statement::ByteArray(bytes))?) == 0);
    assert!(rt; told(python.step(Statement::MemoryView(0))?) == 1);
    let format = Text::from_str(alloc, "H")?;
    assert!(rt; told(python.step(Statement::Cast(1, format))?) == 2);
    assert!(rt; told(python.step(Statement::GetItem(2, -1))?) == 2);
    assert!(rt; told(python.step(Statement::Append(0, 5))?) == -2);
    Ok(())
}

#[test]
fn bytes_are_handed_over(rt: HostRuntime) -> Result<(), Fail> {
    let alloc = rt.alloc();
    let from = ByteList::from_slice(alloc, b"cd")?;
    let to = ByteList::from_slice(alloc, b"ab")?;
    let both = Handover::between(&rt, alloc, from, to)?;
    assert!(rt; both.given() == b"cd".as_slice());
    assert!(rt; both.taken() == b"abcd".as_slice());
    Ok(())
}
