//! The kernels by their names.

use crate::arrays::{Whole, WholeArray};
use crate::axes::{CopiedView, Form};
use crate::codes::{BYTE, INT, LONG, SHORT};
use crate::drawn_queue::DrawnQueue;
use crate::making::{MakeViews, Making};
use crate::measuring::{Measured, Stop, measure};
use crate::numbers::{Each, EachNumber};
use crate::plan::Plan;
use crate::queues::{AppendPop, Queue};
use crate::records::{Packing, Records};
use crate::scoped::{InScope, Scoped};
use crate::strings::{Call, Method};
use crate::tables::{Asked, Table};
use crate::viewed::{Given, Order};
use crate::views::{Doing, Views};
use crate::worlds::{Beside, Pair};
use pybuf_array::ArrayCode;
use std::time::CpuClock;

/// What a kernel does.
#[derive(Clone, Copy)]
pub enum Work {
    /// Something is done with views of one object.
    Views(Given, Doing),
    /// The lines of a text are followed in a world of two objects, and then one line is carried out again and again.
    Beside(Pair, &'static str, &'static str),
    /// Views are made and released, by plain arguments or not.
    Make(Making, bool),
    /// Something is done with scoped views.
    InScope(InScope),
    /// Records are read or written.
    Records(Packing),
    /// A bytearray grows and shrinks.
    Grow,
    /// Bytes go through a bytearray of this length, from its end to its front.
    Queue(usize),
    /// Drawn commands are carried out on a bytearray that is used as a queue.
    DrawnQueue,
    /// A method of a string of bytes is called.
    Call(Method),
    /// Numbers of an array of `i` are added, read or written, one by one.
    Each(Each),
    /// All numbers of an array of a code are read, written or turned round at once.
    Whole(Whole, ArrayCode),
    /// Records of a table are asked for.
    Table(Asked),
    /// A view in several dimensions is copied out.
    CopiedView(Form),
}

/// Kernels of bytes that views give or are assigned. With those below in the order in which they are measured; each table is
/// lent by a function of its own, since one that lent all would be too large for the prover.
pub const COPY_KERNELS: [(&str, Work); 38] = [
    (
        "tobytes-contiguous",
        Work::Views(Given::Numbers(BYTE, 1), Doing::ToBytes),
    ),
    (
        "tobytes-stepped",
        Work::Views(Given::Numbers(BYTE, 2), Doing::ToBytes),
    ),
    (
        "tobytes-stepped-H",
        Work::Views(Given::Numbers(SHORT, 2), Doing::ToBytes),
    ),
    (
        "tobytes-stepped-i",
        Work::Views(Given::Numbers(INT, 2), Doing::ToBytes),
    ),
    (
        "tobytes-stepped-q",
        Work::Views(Given::Numbers(LONG, 2), Doing::ToBytes),
    ),
    (
        "tobytes-reversed",
        Work::Views(Given::Numbers(BYTE, -1), Doing::ToBytes),
    ),
    (
        "tobytes-reversed-H",
        Work::Views(Given::Numbers(SHORT, -1), Doing::ToBytes),
    ),
    (
        "tobytes-reversed-i",
        Work::Views(Given::Numbers(INT, -1), Doing::ToBytes),
    ),
    (
        "tobytes-reversed-q",
        Work::Views(Given::Numbers(LONG, -1), Doing::ToBytes),
    ),
    ("tobytes-planes", Work::Views(Given::Planes, Doing::ToBytes)),
    (
        "tobytes-stepped-rows-B",
        Work::Views(Given::Rows(Order::EveryOther, BYTE, false), Doing::ToBytes),
    ),
    (
        "tobytes-stepped-rows-H",
        Work::Views(Given::Rows(Order::EveryOther, SHORT, false), Doing::ToBytes),
    ),
    (
        "tobytes-stepped-rows-i",
        Work::Views(Given::Rows(Order::EveryOther, INT, false), Doing::ToBytes),
    ),
    (
        "tobytes-stepped-rows-q",
        Work::Views(Given::Rows(Order::EveryOther, LONG, false), Doing::ToBytes),
    ),
    (
        "tobytes-reversed-rows-B",
        Work::Views(Given::Rows(Order::Backwards, BYTE, false), Doing::ToBytes),
    ),
    (
        "tobytes-reversed-rows-H",
        Work::Views(Given::Rows(Order::Backwards, SHORT, false), Doing::ToBytes),
    ),
    (
        "tobytes-reversed-rows-i",
        Work::Views(Given::Rows(Order::Backwards, INT, false), Doing::ToBytes),
    ),
    (
        "tobytes-reversed-rows-q",
        Work::Views(Given::Rows(Order::Backwards, LONG, false), Doing::ToBytes),
    ),
    (
        "set-contiguous",
        Work::Beside(Pair::Zeros(1), "", "set h1 None:None:1 h3"),
    ),
    (
        "set-stepped",
        Work::Beside(
            Pair::Zeros(2),
            "cast h1 'B'\ncast h3 'B'\nget h5 None:None:2",
            "set h4 None:None:2 h6",
        ),
    ),
    (
        "set-stepped-H",
        Work::Beside(
            Pair::Zeros(2),
            "cast h1 'H'\ncast h3 'H'\nget h5 None:None:2",
            "set h4 None:None:2 h6",
        ),
    ),
    (
        "set-stepped-i",
        Work::Beside(
            Pair::Zeros(2),
            "cast h1 'i'\ncast h3 'i'\nget h5 None:None:2",
            "set h4 None:None:2 h6",
        ),
    ),
    (
        "set-stepped-q",
        Work::Beside(
            Pair::Zeros(2),
            "cast h1 'q'\ncast h3 'q'\nget h5 None:None:2",
            "set h4 None:None:2 h6",
        ),
    ),
    (
        "set-reversed",
        Work::Beside(
            Pair::Zeros(1),
            "cast h1 'B'\ncast h3 'B'\nget h5 None:None:-1",
            "set h4 None:None:1 h6",
        ),
    ),
    (
        "set-reversed-H",
        Work::Beside(
            Pair::Zeros(1),
            "cast h1 'H'\ncast h3 'H'\nget h5 None:None:-1",
            "set h4 None:None:1 h6",
        ),
    ),
    (
        "set-reversed-i",
        Work::Beside(
            Pair::Zeros(1),
            "cast h1 'i'\ncast h3 'i'\nget h5 None:None:-1",
            "set h4 None:None:1 h6",
        ),
    ),
    (
        "set-reversed-q",
        Work::Beside(
            Pair::Zeros(1),
            "cast h1 'q'\ncast h3 'q'\nget h5 None:None:-1",
            "set h4 None:None:1 h6",
        ),
    ),
    (
        "set-planes",
        Work::Beside(Pair::Planes, "get h4 None:None:2", "set h0 0:None:None h5"),
    ),
    (
        "set-stepped-rows-B",
        Work::Views(Given::Rows(Order::EveryOther, BYTE, true), Doing::SetFront),
    ),
    (
        "set-stepped-rows-H",
        Work::Views(Given::Rows(Order::EveryOther, SHORT, true), Doing::SetFront),
    ),
    (
        "set-stepped-rows-i",
        Work::Views(Given::Rows(Order::EveryOther, INT, true), Doing::SetFront),
    ),
    (
        "set-stepped-rows-q",
        Work::Views(Given::Rows(Order::EveryOther, LONG, true), Doing::SetFront),
    ),
    (
        "set-reversed-rows-B",
        Work::Views(Given::Rows(Order::Backwards, BYTE, true), Doing::SetFront),
    ),
    (
        "set-reversed-rows-H",
        Work::Views(Given::Rows(Order::Backwards, SHORT, true), Doing::SetFront),
    ),
    (
        "set-reversed-rows-i",
        Work::Views(Given::Rows(Order::Backwards, INT, true), Doing::SetFront),
    ),
    (
        "set-reversed-rows-q",
        Work::Views(Given::Rows(Order::Backwards, LONG, true), Doing::SetFront),
    ),
    ("set-overlapping", Work::Views(Given::Shifted, Doing::Shift)),
    (
        "set-itself",
        Work::Views(Given::Numbers(BYTE, 1), Doing::Reverse),
    ),
];

/// Kernels of views that are made, of items, of records and of bytearrays that grow and shrink.
pub const ITEM_KERNELS: [(&str, Work); 36] = [
    (
        "tobytes-columns",
        Work::Views(Given::Table(BYTE), Doing::ToBytesInColumnOrder),
    ),
    (
        "tobytes-columns-i",
        Work::Views(Given::Table(INT), Doing::ToBytesInColumnOrder),
    ),
    (
        "tobytes-columns-q",
        Work::Views(Given::Table(LONG), Doing::ToBytesInColumnOrder),
    ),
    ("views", Work::Make(Making::View, false)),
    ("slices", Work::Make(Making::Slice, false)),
    ("slices-planes", Work::Make(Making::SliceOfPlanes, false)),
    ("casts", Work::Make(Making::Cast, false)),
    ("get-B", Work::Views(Given::Items(BYTE), Doing::Get)),
    ("get-i", Work::Views(Given::Items(INT), Doing::Get)),
    ("get-record", Work::Views(Given::Records, Doing::Get)),
    ("set-B", Work::Views(Given::Items(BYTE), Doing::Set(251))),
    (
        "set-i",
        Work::Views(Given::Items(INT), Doing::Set(1_000_003)),
    ),
    ("plain-views", Work::Make(Making::View, true)),
    ("plain-slices", Work::Make(Making::Slice, true)),
    (
        "plain-slices-planes",
        Work::Make(Making::SliceOfPlanes, true),
    ),
    ("plain-casts", Work::Make(Making::Cast, true)),
    (
        "plain-get-B",
        Work::Views(Given::Items(BYTE), Doing::GetPlainly),
    ),
    (
        "plain-get-i",
        Work::Views(Given::Items(INT), Doing::GetPlainly),
    ),
    (
        "plain-get-record",
        Work::Views(Given::Records, Doing::GetPlainly),
    ),
    (
        "plain-set-B",
        Work::Views(Given::Items(BYTE), Doing::SetPlainly(251)),
    ),
    (
        "plain-set-i",
        Work::Views(Given::Items(INT), Doing::SetPlainly(1_000_003)),
    ),
    ("scoped-views", Work::InScope(InScope::Make(Making::View))),
    ("scoped-slices", Work::InScope(InScope::Make(Making::Slice))),
    (
        "scoped-slices-planes",
        Work::InScope(InScope::Make(Making::SliceOfPlanes)),
    ),
    ("scoped-casts", Work::InScope(InScope::Make(Making::Cast))),
    ("scoped-get-B", Work::InScope(InScope::Get(BYTE))),
    ("scoped-get-i", Work::InScope(InScope::Get(INT))),
    ("scoped-set-B", Work::InScope(InScope::Set(BYTE, 251))),
    ("scoped-set-i", Work::InScope(InScope::Set(INT, 1_000_003))),
    ("set-record", Work::Records(Packing::Set)),
    ("unpack", Work::Records(Packing::Unpack)),
    ("pack-into", Work::Records(Packing::PackInto)),
    ("append-pop", Work::Grow),
    ("queue-long", Work::Queue(100_000)),
    ("queue-short", Work::Queue(10)),
    ("queue-drawn", Work::DrawnQueue),
];

/// Kernels of comparison and of methods of bytes. `z` and `cba` stand nowhere in a drawn text.
pub const METHOD_KERNELS: [(&str, Work); 23] = [
    ("compare", Work::Views(Given::Twins, Doing::Compare)),
    (
        "compare-beside",
        Work::Beside(Pair::Texts, "", "compare h1 == h3"),
    ),
    (
        "compare-reversed",
        Work::Beside(
            Pair::Texts,
            "get h1 None:None:-1\nget h3 None:None:-1",
            "compare h4 == h5",
        ),
    ),
    (
        "compare-codes",
        Work::Beside(
            Pair::Numbers,
            "cast h1 'H'\ncast h3 'i'",
            "compare h4 == h5",
        ),
    ),
    ("find-byte", Work::Call(Method::Find(b"z"))),
    ("find-three", Work::Call(Method::Find(b"cba"))),
    ("find-end", Work::Call(Method::FindEnd)),
    (
        "find-view",
        Work::Beside(Pair::Texts, "", "call h0 find h3"),
    ),
    (
        "contains-byte",
        Work::Beside(Pair::Texts, "", "contains h0 122"),
    ),
    ("count-byte", Work::Call(Method::Count(b"a"))),
    ("count-three", Work::Call(Method::Count(b"abc"))),
    ("split-comma", Work::Call(Method::SplitAtCommas)),
    ("split-blanks", Work::Call(Method::SplitAtBlanks)),
    ("splitlines", Work::Call(Method::SplitLines)),
    ("join", Work::Call(Method::Join)),
    ("add-view", Work::Beside(Pair::Texts, "", "call h0 add h3")),
    ("replace-same", Work::Call(Method::Replace(b"xy"))),
    ("replace-longer", Work::Call(Method::Replace(b"wxyz"))),
    ("translate", Work::Call(Method::Translate)),
    ("upper", Work::Call(Method::Upper)),
    ("strip", Work::Call(Method::Strip)),
    ("hex", Work::Call(Method::Hex)),
    ("fromhex", Work::Call(Method::FromHex)),
];

/// Kernels of typed arrays, of tables of records, and of views in several dimensions.
pub const OTHER_KERNELS: [(&str, Work); 21] = [
    ("array-append", Work::Each(Each::Append)),
    ("array-get", Work::Each(Each::Get)),
    ("array-set", Work::Each(Each::Set)),
    ("array-plain-append", Work::Each(Each::PlainAppend)),
    ("array-plain-get", Work::Each(Each::PlainGet)),
    ("array-plain-set", Work::Each(Each::PlainSet)),
    (
        "array-frombytes",
        Work::Whole(Whole::FromBytes, ArrayCode::Int),
    ),
    ("array-tobytes", Work::Whole(Whole::ToBytes, ArrayCode::Int)),
    (
        "array-tolist-H",
        Work::Whole(Whole::ToList, ArrayCode::UShort),
    ),
    ("array-tolist-i", Work::Whole(Whole::ToList, ArrayCode::Int)),
    (
        "array-tolist-q",
        Work::Whole(Whole::ToList, ArrayCode::LongLong),
    ),
    (
        "array-byteswap-H",
        Work::Whole(Whole::ByteSwap, ArrayCode::UShort),
    ),
    (
        "array-byteswap-i",
        Work::Whole(Whole::ByteSwap, ArrayCode::Int),
    ),
    (
        "array-byteswap-q",
        Work::Whole(Whole::ByteSwap, ArrayCode::LongLong),
    ),
    ("table-iter-unpack", Work::Table(Asked::All)),
    ("table-select", Work::Table(Asked::InOrder)),
    ("table-select-equal", Work::Table(Asked::Equal)),
    ("nd-flipped", Work::CopiedView(Form::Flipped)),
    ("nd-transposed", Work::CopiedView(Form::Transposed)),
    ("nd-inner", Work::CopiedView(Form::Inner)),
    ("nd-permuted", Work::CopiedView(Form::Permuted)),
];

/// Measures a kernel.
pub fn measure_work<R: CpuClock + AllocGlobal>(
    rt: &R,
    plan: Plan,
    work: Work,
) -> Result<Measured, Stop> {
    let alloc = rt.alloc();
    match work {
        Work::Views(given, doing) => measure(rt, plan, Views::of(alloc, plan, given, doing)?),
        Work::Beside(pair, lines, line) => {
            measure(rt, plan, Beside::of(alloc, plan, pair, lines, line)?)
        }
        Work::Make(making, is_plain) => {
            let kernel = MakeViews {
                making,
                is_plain,
                plan,
            };
            measure(rt, plan, kernel)
        }
        Work::InScope(doing) => measure(rt, plan, Scoped::of(alloc, plan, doing)?),
        Work::Records(packing) => measure(rt, plan, Records::of(alloc, plan, packing)?),
        Work::Grow => measure(rt, plan, AppendPop { count: plan.count }),
        Work::Queue(size) => measure(rt, plan, Queue::of(alloc, plan, size)?),
        Work::DrawnQueue => measure(rt, plan, DrawnQueue { seed: plan.seed }),
        Work::Call(method) => measure(rt, plan, Call::of(alloc, plan, method)?),
        Work::Each(each) => measure(rt, plan, EachNumber::of(alloc, plan, each)?),
        Work::Whole(whole, code) => measure(rt, plan, WholeArray::of(alloc, plan, whole, code)?),
        Work::Table(asked) => measure(rt, plan, Table::of(alloc, plan, asked)?),
        Work::CopiedView(form) => measure(rt, plan, CopiedView::of(alloc, plan, form)?),
    }
}
