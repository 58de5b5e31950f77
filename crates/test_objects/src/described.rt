//! Views of every format of `struct`, which `PyBuffer::new` makes: `cast` makes those of one native code alone.
ghost use Rattle.pybuf_state.specs.Fits.{LoansFit};

use crate::answers::{Word, bytes, described, exporter_of, number, say, tell};
use pybuf_buffer::PyBuffer;
use pybuf_command::{Loan, LoanList, Subject, Verb};
use pybuf_exporter::ExporterState;
use pybuf_state::FitLoans;
use pybuf_value::{CompareOp, Made, Outcome, PySlice, Scalar, Value};
use std::alloc::Global;
use std::test::Fail;

/// What is written.
#[derive(Clone, Copy)]
enum Given {
    Number(i128),
    Bytes(&'static [u8]),
    /// What a handle names: the view of that number, or by 99 the exporter.
    Named(u64),
}

/// What is asked of a subject.
#[derive(Clone, Copy)]
enum Ask {
    /// That all items become those of a view.
    Assign(u64),
    Backwards,
    Equal(u64),
    Get(i128),
    Set(i128, Given),
    ToBytes,
    ToList,
}

/// The slice of all, with a step.
fn slice(step: i128) -> Value {
    Value::Slice(PySlice {
        start: Scalar::None,
        stop: Scalar::None,
        step: Scalar::Int(step),
    })
}

fn value_of(alloc: Global, given: Given) -> Value {
    match given {
        Given::Number(n) => number(n),
        Given::Bytes(given) => bytes(alloc, given),
        Given::Named(handle) => Value::One(Scalar::Handle(handle)),
    }
}

fn verb_of(alloc: Global, ask: Ask) -> Verb {
    match ask {
        Ask::Assign(view) => Verb::Set {
            key: slice(1),
            value: value_of(alloc, Given::Named(view)),
        },
        Ask::Backwards => Verb::Get { key: slice(-1) },
        Ask::Equal(view) => Verb::Compare {
            op: CompareOp::Eq,
            other: value_of(alloc, Given::Named(view)),
        },
        Ask::Get(index) => Verb::Get { key: number(index) },
        Ask::Set(index, given) => Verb::Set {
            key: number(index),
            value: value_of(alloc, given),
        },
        Ask::ToBytes => Verb::ToBytes { order: None },
        Ask::ToList => Verb::ToList,
    }
}

/// Two records of a byte and a number of two bytes each, with a gap between; the other two are the same but for the gaps.
const RECORDS: &[u8] = b"\x01\xff\x02\x00\x03\xfe\x04\x00\x01\x00\x02\x00\x03\xee\x04\x00";

/// Views: format, place of the first item, and number and size of the items, which lie one after the other.
const MADE: [(&str, usize, usize, u8, &str); 14] = [
    ("BH", 0, 2, 4, "0"),
    ("BH", 8, 2, 4, "1"),
    ("<h", 8, 4, 2, "2"),
    (">H", 8, 4, 2, "3"),
    ("<Bb2x", 0, 4, 4, "4"),
    ("8x", 0, 2, 8, "5"),
    ("<BxH", 8, 2, 4, "6"),
    ("xH", 0, 1, 4, "7"),
    ("4s", 0, 4, 4, "8"),
    ("4p", 8, 2, 4, "9"),
    ("4s", 12, 1, 4, "10"),
    ("2H", 4, 1, 4, "11"),
    ("3", 0, 1, 1, "StructError"),
    ("0s", 0, 1, 1, "TypeError"),
];

/// As `struct.unpack_from` and `struct.pack_into` of Python 3 read and write these bytes, and as memoryviews of these
/// formats, which its C API makes, are compared. By hand, since Python refuses it: what is assigned by a slice, and an
/// item of bytes that is written from a view or its object.
const ASKED: [(Subject, Ask, &str); 27] = [
    (
        Subject::View(0),
        Ask::Set(0, Given::Number(7)),
        "! TypeError",
    ),
    (Subject::View(1), Ask::ToList, "[(1, 2), (3, 4)]"),
    (Subject::View(0), Ask::Equal(1), "True"),
    (Subject::View(0), Ask::Backwards, "view 12"),
    (Subject::View(12), Ask::ToList, "[(3, 4), (1, 2)]"),
    (Subject::View(2), Ask::ToList, "[1, 2, -4605, 4]"),
    (Subject::View(3), Ask::Set(-1, Given::Number(258)), "ok"),
    (
        Subject::View(3),
        Ask::Set(0, Given::Number(65536)),
        "! TypeError",
    ),
    (Subject::View(2), Ask::Get(3), "513"),
    (Subject::View(4), Ask::Get(0), "(1, -1)"),
    (Subject::View(5), Ask::ToList, "[(), ()]"),
    (Subject::View(6), Ask::Equal(1), "True"),
    (Subject::View(7), Ask::Set(0, Given::Number(258)), "ok"),
    (Subject::View(8), Ask::Set(1, Given::Bytes(b"XY")), "ok"),
    (
        Subject::View(8),
        Ask::Set(1, Given::Number(5)),
        "! TypeError",
    ),
    (Subject::View(9), Ask::Set(1, Given::Bytes(b"abcdef")), "ok"),
    (Subject::View(9), Ask::Get(1), "b'abc'"),
    (Subject::View(8), Ask::Get(3), "b'\\x03abc'"),
    (Subject::View(0), Ask::Assign(1), "ok"),
    (Subject::View(0), Ask::Assign(6), "! ValueError"),
    (
        Subject::Own,
        Ask::ToBytes,
        "b'\\x01\\x00\\x02\\x00\\x03abc\\x01\\x00\\x02\\x00\\x03abc'",
    ),
    (Subject::View(8), Ask::Set(0, Given::Named(10)), "ok"),
    (Subject::View(8), Ask::Set(2, Given::Named(99)), "ok"),
    (Subject::View(8), Ask::Set(1, Given::Bytes(b"XYZWV")), "ok"),
    (Subject::View(8), Ask::Set(3, Given::Named(11)), "ok"),
    (
        Subject::View(8),
        Ask::Set(0, Given::Named(12)),
        "! TypeError",
    ),
    (Subject::Own, Ask::ToBytes, "b'\\x03abcXYZW\\x03abcXYZW'"),
];

/// Makes the views, and adds what is told and what is to be told.
fn make(
    state: &mut ExporterState,
    alloc: Global,
    told: &mut Vec<u8>,
    wanted: &mut Vec<u8>,
) -> Made<()> {
    for (format, start, count, size, word) in &MADE {
        say(wanted, Word::Shown(word.as_bytes()));
        let dims = [(*count, *size as isize, 0)];
        let descriptor = described(alloc, format, *size as usize, &dims)?;
        match PyBuffer::new(alloc, state, descriptor, *start)? {
            Outcome::Done(buffer) => say(told, Word::Count(buffer.number())),
            Outcome::Refused(fault) => say(told, Word::Fault(fault)),
        }
    }
    Ok(())
}

/// Asks a subject of an exporter. It has no clause, so that what a command says is no fact of the loop's proof.
fn ask_one(
    state: &mut ExporterState,
    alloc: Global,
    loans: &LoanList,
    asked: (Subject, Ask),
    told: &mut Vec<u8>,
)
    requires { LoansFit loans.now }
{
    let verb = verb_of(alloc, asked.1);
    let answer = state.carry_out(asked.0, &verb, loans);
    drop(verb);
    tell(told, alloc, answer);
}

/// What the handles name.
fn name_views(loans: &mut LoanList) -> Made<()> {
    for view in 0..13usize {
        loans.push((view as u64, Loan::View(view)))?;
    }
    loans.push((99, Loan::Own))
}

/// Asks all, and adds what is told and what is to be told.
fn ask_all(
    state: &mut ExporterState,
    alloc: Global,
    loans: &LoanList,
    told: &mut Vec<u8>,
    wanted: &mut Vec<u8>,
)
    requires { LoansFit loans.now }
{
    for (subject, ask, word) in &ASKED {
        say(wanted, Word::Shown(word.as_bytes()));
        ask_one(state, alloc, loans, (*subject, *ask), told);
    }
}

fn make_and_ask(
    state: &mut ExporterState,
    alloc: Global,
    loans: &mut LoanList,
    told: &mut Vec<u8>,
    wanted: &mut Vec<u8>,
) -> Made<()> {
    make(state, alloc, told, wanted)?;
    name_views(loans)?;
    if loans.fit(alloc)? {
        ask_all(state, alloc, loans, told, wanted);
    }
    Ok(())
}

#[test]
fn a_view_has_items_of_every_format(rt: HostRuntime) -> Result<(), Fail> {
    let alloc = rt.alloc();
    let (mut told, mut wanted) = (Vec::new(alloc), Vec::new(alloc));
    let mut state = exporter_of(alloc, RECORDS)?;
    let mut loans = LoanList::new(alloc);
    let done = make_and_ask(&mut state, alloc, &mut loans, &mut told, &mut wanted);
    drop(loans);
    drop(state);
    done?;
    assert_eq!(rt; told.as_slice(), wanted.as_slice());
    Ok(())
}
