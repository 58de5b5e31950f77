//! The slice rule, and lists that are read and edited by slices and by indices. What is wanted is what Python's `slice` and
//! `list` answer.
use crate::telling::{tell, tell_bytes, tell_fault, tell_made};
use pybuf_index::{SaturatedSlice, SequenceIndexOp, SliceIndices, hash_of_lanes};
use pybuf_slice::{SequenceExt, SequenceMutExt, SliceableSequenceMutOp, SliceableSequenceOp};
use pybuf_value::{CompareOp, Fault, Halt, Made, Outcome, PySlice, Scalar, Tried};
use std::alloc::Global;
use std::test::Fail;

/// Stands for an absent part.
const NONE: i128 = i128::MAX;

const PARTS: [i128; 10] = [NONE, -4, -3, -2, -1, 0, 1, 2, 3, 4];

const STEPS: [i128; 9] = [NONE, -4, -3, -2, -1, 1, 2, 3, 4];

/// For each length `n` from 0 to 5 and each step of `STEPS` a checksum, made by Python 3 of the list `xs` of the numbers
/// from 20 on, over all `s = slice(a, b, step)`, `a` and then `b` being each of `PARTS`: of `s.indices(n)`, the length and
/// the items of `xs[s]`, and those of `xs` after `del xs[s]`, after `xs[s] = new[:count]` for each `count` from 0 to 3, with
/// 1 before them, or 0 where that raises `ValueError`, and after `xs[s] = new[:len(xs[s])]`, `new` being the numbers from 70
/// on. From 0 on, `h = (h * 31 + v + 10) % 1000003` for each number `v`.
const SUMS: [[i128; 9]; 6] = [
    [
        648153, 959901, 886969, 814037, 741105, 648153, 173981, 101049, 28117,
    ],
    [
        664385, 338861, 160229, 981600, 802968, 664385, 467619, 288987, 110355,
    ],
    [
        216196, 347697, 313855, 280013, 920949, 216196, 360208, 326366, 292524,
    ],
    [
        440113, 387685, 739434, 766296, 501305, 440113, 243815, 767483, 119229,
    ],
    [
        431923, 765224, 912027, 735199, 385544, 431923, 773467, 2705, 953210,
    ],
    [
        858807, 552457, 966132, 540756, 151507, 858807, 117759, 164411, 109993,
    ],
];

/// Length, start, stop, step, and of `range(*slice(start, stop, step).indices(length))` in Python 3 the number of indices,
/// the first and the last.
type Ends = (
    usize,
    i128,
    i128,
    i128,
    (usize, Option<usize>, Option<usize>),
);

/// One more than the greatest number of a word with a sign.
const WORD: i128 = 9223372036854775808;

const LONGEST: usize = isize::MAX as usize;

const ENDS: [Ends; 25] = [
    (5, NONE, NONE, WORD - 1, (1, Some(0), Some(0))),
    (5, NONE, NONE, -WORD, (1, Some(4), Some(4))),
    (5, NONE, NONE, WORD, (1, Some(0), Some(0))),
    (5, NONE, NONE, -WORD - 1, (1, Some(4), Some(4))),
    (5, 1 << 100, -(1 << 100), -1, (5, Some(4), Some(0))),
    (5, -(1 << 100), 1 << 100, 1, (5, Some(0), Some(4))),
    (5, WORD - 1, NONE, -2, (3, Some(4), Some(0))),
    (5, -WORD, NONE, 2, (3, Some(0), Some(4))),
    (5, NONE, -WORD, -2, (3, Some(4), Some(0))),
    (5, NONE, -WORD - 1, -1, (5, Some(4), Some(0))),
    (5, 4, 1, 2, (0, None, None)),
    (5, 1, 4, -2, (0, None, None)),
    (0, NONE, NONE, -1, (0, None, None)),
    (0, 5, -5, -1, (0, None, None)),
    (0, -WORD, WORD - 1, WORD - 1, (0, None, None)),
    (1, -1, NONE, -WORD, (1, Some(0), Some(0))),
    (
        LONGEST,
        NONE,
        NONE,
        1,
        (LONGEST, Some(0), Some(LONGEST - 1)),
    ),
    (
        LONGEST,
        NONE,
        NONE,
        -1,
        (LONGEST, Some(LONGEST - 1), Some(0)),
    ),
    (LONGEST, NONE, NONE, WORD - 1, (1, Some(0), Some(0))),
    (
        LONGEST,
        -WORD,
        WORD - 1,
        WORD - 2,
        (2, Some(0), Some(LONGEST - 1)),
    ),
    (
        LONGEST,
        WORD - 2,
        NONE,
        -WORD,
        (1, Some(LONGEST - 1), Some(LONGEST - 1)),
    ),
    (
        LONGEST,
        -1,
        -WORD,
        -WORD + 1,
        (1, Some(LONGEST - 1), Some(LONGEST - 1)),
    ),
    (
        LONGEST,
        -3,
        NONE,
        2,
        (2, Some(LONGEST - 3), Some(LONGEST - 1)),
    ),
    (3, -WORD, -WORD, 1, (0, None, None)),
    (3, WORD - 1, WORD - 1, -1, (0, None, None)),
];

/// Numbers, and the place that Python's `range(5)[number]` gives, or none where it raises `IndexError`.
const PLACES: [(i128, Option<usize>); 8] = [
    (4, Some(4)),
    (5, None),
    (-5, Some(0)),
    (-6, None),
    (WORD, None),
    (-WORD - 1, None),
    (i128::MAX, None),
    (i128::MIN, None),
];

fn part(number: i128) -> Scalar {
    if number == NONE {
        Scalar::None
    } else {
        Scalar::Int(number)
    }
}

fn slice_of(start: i128, stop: i128, step: i128) -> PySlice {
    PySlice {
        start: part(start),
        stop: part(stop),
        step: part(step),
    }
}

/// What `slice.indices` gives for a length, and the slice with its parts at the nearest `isize`.
fn indices_of(
    length: usize,
    start: i128,
    stop: i128,
    step: i128,
) -> Result<((i128, i128, i128), SaturatedSlice), Fault> {
    let slice = slice_of(start, stop, step);
    let indices = slice.indices(length as i128);
    let saturated = slice.to_saturated();
    drop(slice);
    Ok((indices?, saturated?))
}

fn more(sum: i128, number: i128) -> i128 {
    sum.wrapping_mul(31)
        .wrapping_add(number)
        .wrapping_add(10)
        .rem_euclid(1000003)
}

fn with_list(sum: i128, list: &[u8]) -> i128 {
    let mut sum = more(sum, list.len() as i128);
    for item in list {
        sum = more(sum, *item as i128);
    }
    sum
}

const OLD: &[u8] = &[20, 21, 22, 23, 24];

const NEW: &[u8] = &[70, 71, 72, 73, 74];

/// Adds to a checksum a list after as many of its items as a slice picks were set.
fn with_as_many(alloc: Global, sum: i128, old: &[u8], slice: SaturatedSlice) -> Made<i128> {
    let mut list = Vec::from_slice(alloc, old)?;
    let count = slice.iter(list.as_slice().len()).len();
    let new = NEW.get(..count).unwrap_or(NEW);
    let set = list.setitem_by_slice_no_resize(alloc, slice, new);
    Ok(if matches!(set, Ok(Outcome::Done(()))) {
        with_list(sum, list.as_slice())
    } else {
        0
    })
}

/// Adds to a checksum a list after a slice of it was set to so many new items.
fn with_set(alloc: Global, sum: i128, old: &[u8], slice: SaturatedSlice, new: &[u8]) -> Made<i128> {
    let mut list = Vec::from_slice(alloc, old)?;
    let set = matches!(
        list.setitem_by_slice(alloc, slice, new),
        Ok(Outcome::Done(()))
    );
    Ok(with_list(more(sum, set as i128), list.as_slice()))
}

/// Adds to a checksum what a slice picks of a list, and the list without that.
fn with_picked(alloc: Global, sum: i128, old: &[u8], slice: SaturatedSlice) -> Made<i128> {
    let mut list = Vec::from_slice(alloc, old)?;
    let picked = list.getitem_by_slice(alloc, slice)?;
    list.delitem_by_slice(slice);
    Ok(with_list(with_list(sum, picked.as_slice()), list.as_slice()))
}

fn with_slice(
    alloc: Global,
    sum: i128,
    length: usize,
    start: i128,
    stop: i128,
    step: i128,
) -> Result<i128, Halt> {
    let ((first, last, by), slice) = indices_of(length, start, stop, step)?;
    let old = OLD.get(..length).unwrap_or(OLD);
    let mut sum = more(more(more(sum, first), last), by);
    sum = with_picked(alloc, sum, old, slice)?;
    for new in &[&NEW[..0], &NEW[..1], &NEW[..2], &NEW[..3]] {
        sum = with_set(alloc, sum, old, slice, new)?;
    }
    Ok(with_as_many(alloc, sum, old, slice)?)
}

fn sum_of_step(alloc: Global, length: usize, step: i128) -> Result<i128, Halt> {
    let mut sum = 0;
    for start in &PARTS {
        for stop in &PARTS {
            sum = with_slice(alloc, sum, length, *start, *stop, step)?;
        }
    }
    Ok(sum)
}

/// The number of indices, the first and the last.
fn ends_of(length: usize, slice: SaturatedSlice) -> (usize, Option<usize>, Option<usize>) {
    if length > isize::MAX as usize {
        return (0, None, None);
    }
    let indices = slice.iter(length);
    (
        indices.len(),
        slice.iter(length).next(),
        slice.iter(length).next_back(),
    )
}

#[test]
fn slices_pick_what_they_pick_in_python(rt: HostRuntime) -> Result<(), Fail> {
    for (length, sums) in SUMS.iter().enumerate() {
        for (step, sum) in STEPS.iter().zip(sums) {
            assert!(rt; sum_of_step(rt.alloc(), length, *step) == Ok(*sum));
        }
    }
    for (length, start, stop, step, ends) in &ENDS {
        let (_, slice) = indices_of(*length, *start, *stop, *step)?;
        assert!(rt; ends_of(*length, slice) == *ends);
    }
    for (number, place) in &PLACES {
        assert!(rt; number.wrapped_at(5) == *place);
    }
    Ok(())
}

/// Slices of numbers, and what `==`, `!=`, `<`, `<=`, `>` and `>=` of Python answer of two: 1, 0, or `T` for `TypeError`.
const COMPARED: [([i128; 3], [i128; 3], &[u8]); 7] = [
    ([NONE, NONE, NONE], [NONE, NONE, NONE], b"100101"),
    ([1, 0, NONE], [1, 2, NONE], b"011100"),
    ([2, NONE, NONE], [1, 5, NONE], b"010011"),
    ([NONE, 1, 2], [NONE, 2, 1], b"011100"),
    ([NONE, NONE, NONE], [1, NONE, NONE], b"01TTTT"),
    ([1, 1, NONE], [1, 1, 5], b"01TTTT"),
    ([1, 1, 2], [1, 1, 1], b"010011"),
];

const OPERATORS: [CompareOp; 6] = [
    CompareOp::Eq,
    CompareOp::Ne,
    CompareOp::Lt,
    CompareOp::Le,
    CompareOp::Gt,
    CompareOp::Ge,
];

fn compared(left: &[i128; 3], op: CompareOp, right: &[i128; 3]) -> u8 {
    let (left, right) = (
        slice_of(left[0], left[1], left[2]),
        slice_of(right[0], right[1], right[2]),
    );
    let answer = left.compare(op, &right);
    drop(left);
    drop(right);
    match answer {
        Ok(true) => b'1',
        Ok(false) => b'0',
        Err(Fault::Kind) => b'T',
        Err(_) => b'?',
    }
}

/// Three lanes and their hash. Python 3.12 gives the first three for `hash(slice(1, 2, 3))` and so on; the others were
/// worked out by the same formula in Python.
const HASHES: [(u64, u64, u64, i64); 7] = [
    (1, 2, 3, -2340833382717974474),
    (0, 0, 0, 140260061923537301),
    (3, 2, 1, -3795564141188014756),
    (u64::MAX, 0, 0, -1),
    (0, u64::MAX, 0, -1),
    (0, 0, u64::MAX, -1),
    (
        u64::MAX - 1,
        u64::MAX - 1,
        u64::MAX - 1,
        -9003561552544638732,
    ),
];

#[test]
fn slices_are_compared_and_hashed_as_in_python(rt: HostRuntime) -> Result<(), Fail> {
    for (left, right, answers) in &COMPARED {
        for (op, wanted) in OPERATORS.iter().zip(*answers) {
            assert!(rt; compared(left, *op, right) == *wanted);
        }
    }
    for (start, stop, step, wanted) in &HASHES {
        assert!(rt; hash_of_lanes(*start, *stop, *step) == *wanted);
    }
    Ok(())
}

/// Tells the item of a number, or why there is none.
fn tell_item(told: &mut Vec<u8>, item: Tried<u8>) {
    match item {
        Ok(Outcome::Done(item)) => tell(told, &[item]),
        Ok(Outcome::Refused(fault)) => tell_fault(told, fault),
        Err(_) => {}
    }
}

/// Tells what the places and ranges of five bytes read.
fn tell_reads(told: &mut Vec<u8>, alloc: Global, list: &Vec<u8>) {
    if list.as_slice().len() != 5 {
        return;
    }
    if let Ok(item) = list.do_get(alloc, 3) {
        tell(told, &[item]);
    }
    tell_made(told, list.do_slice(alloc, 1..4));
    tell_made(told, list.do_slice_reverse(alloc, 1..4));
    tell_made(told, list.do_stepped_slice(alloc, 0..5, 2));
    tell_made(told, list.do_stepped_slice_reverse(alloc, 0..4, 3));
    tell_item(told, list.getitem_by_index(alloc, -1));
    tell_item(told, list.getitem_by_index(alloc, 5));
}

/// Edits bytes by indices, and tells what is refused.
fn tell_edits(told: &mut Vec<u8>, list: &mut Vec<u8>) {
    for index in &[-5, 5] {
        if let Err(fault) = list.setitem_by_index(*index, b'x') {
            tell_fault(told, fault);
        }
    }
    for index in &[-1, -5] {
        if let Err(fault) = list.delitem_by_index(*index) {
            tell_fault(told, fault);
        }
    }
    if list.as_vec_mut().push(b'y').is_ok() {
        tell_bytes(told, list.as_slice());
    }
}

/// Bytes, and how often they are repeated.
const REPEATED: [(&[u8], isize); 5] = [
    (b"ab", 3),
    (b"ab", -1),
    // if there are no bytes, the answer has none, however often they are repeated
    (b"", isize::MAX),
    (b"", isize::MIN),
    (b"ab", isize::MAX),
];

/// Tells bytes that are repeated, and repeats them where they lie, or tells why not.
fn tell_repeated(told: &mut Vec<u8>, alloc: Global, list: &mut Vec<u8>, times: isize) {
    if let Ok(Outcome::Done(more)) = list.mul(alloc, times) {
        tell_bytes(told, more.as_slice());
    }
    match list.imul(alloc, times) {
        Ok(Outcome::Done(())) => tell_bytes(told, list.as_slice()),
        Ok(Outcome::Refused(fault)) => tell_fault(told, fault),
        Err(_) => {}
    }
}

// The texts are those of Python's lists of the same bytes, and of its `repr`. If a list would be longer than any
// memory, Python raises `MemoryError`.
#[test]
fn lists_are_read_and_edited(rt: HostRuntime) -> Result<(), Fail> {
    let alloc = rt.alloc();
    let mut told = Vec::new(alloc);
    let mut list = Vec::from_slice(alloc, b"abcde")?;
    tell_reads(&mut told, alloc, &list);
    tell_edits(&mut told, &mut list);
    for (bytes, times) in &REPEATED {
        let mut list = Vec::from_slice(alloc, bytes)?;
        tell_repeated(&mut told, alloc, &mut list, *times);
    }
    if let Ok(text) = slice_of(1, NONE, -2).repr(alloc) {
        tell(&mut told, text.as_slice());
    }
    assert!(rt;
        told.as_slice()
            == b" d b'bcd' b'dcb' b'ace' b'da' e IndexError IndexError IndexError b'xbcdy' b'ababab' b'ababab' b'' b'' b'' b'' b'' b'' OverflowError slice(1, None, -2)".as_slice()
    );
    Ok(())
}
