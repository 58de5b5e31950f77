//! Strings of bytes: the calls of strings of any kind, searches in lent bytes, and what no line and no table of
//! `golden_methods` asks. What is wanted is what Python's `bytes` answers; parts that are cut from the right stand from the
//! last to the first.
use crate::telling::{
    tell, tell_bytes, tell_fault, tell_made, tell_number, tell_place, tell_text, tell_tried,
    tell_truth,
};
use pybuf_anystr::{AnyStr, AnyStrContainer, Bytes};
use pybuf_bytes::{
    ByteInnerFindOptions, ByteInnerPaddingOptions, ByteStr, Needle, PyBytesInner, SplitArgs,
    SplitLinesArgs,
};
use pybuf_search::begins_with;
use pybuf_value::{
    Answer, ByteLists, CompareOp, Halt, Made, NoHandles, Outcome, Text, Tried, Twin, Value,
};
use std::alloc::Global;
use std::hash::{DefaultHasher, Hasher};
use std::test::Fail;

/// A string that grows, made of two pieces.
fn grown<C: AnyStrContainer + Drop>(alloc: Global, first: &[u8], second: &[u8]) -> Made<C> {
    let mut string = C::with_capacity(alloc, 4)?;
    string.push_str(first)?;
    string.push_str(second)?;
    Ok(string)
}

fn inner(alloc: Global, bytes: &[u8]) -> Made<PyBytesInner> {
    Ok(PyBytesInner::from(Vec::from_slice(alloc, bytes)?))
}

/// Tells the parts, and how many there are.
fn tell_parts(told: &mut Vec<u8>, answer: Made<ByteLists>) {
    if let Ok(parts) = answer {
        tell_number(told, parts.len() as i128);
        for part in parts.as_slice() {
            tell_bytes(told, part.as_slice());
        }
    }
}

fn tell_three(told: &mut Vec<u8>, answer: Tried<(Vec<u8>, bool, Vec<u8>)>) {
    if let Ok(Outcome::Done((front, found, back))) = answer {
        tell_bytes(told, front.as_slice());
        tell_truth(told, found);
        tell_bytes(told, back.as_slice());
    }
}

/// Tells the number of characters, or why there are none.
fn tell_characters(told: &mut Vec<u8>, answer: Tried<Vec<char>>) {
    match answer {
        Ok(Outcome::Done(characters)) => tell_number(told, characters.len() as i128),
        Ok(Outcome::Refused(fault)) => tell_fault(told, fault),
        Err(_) => {}
    }
}

fn tell_copy(told: &mut Vec<u8>, copy: Made<Bytes>) {
    if let Ok(copy) = copy {
        tell_bytes(told, copy.elements());
        tell_truth(told, copy.is_empty());
    }
}

/// The parts between separators, with two cuts at most.
fn split(alloc: Global, string: &Bytes, separator: &[u8]) -> Result<ByteLists, Halt> {
    let sep = Some(inner(alloc, separator)?);
    string
        .py_split(alloc, SplitArgs { sep, maxsplit: 2 })
        .done()
}

fn tell_split(told: &mut Vec<u8>, alloc: Global, string: &Bytes, separator: &[u8]) {
    match split(alloc, string, separator) {
        Ok(parts) => tell_parts(told, Ok(parts)),
        Err(Halt::Refused(fault)) => tell_fault(told, fault),
        Err(Halt::NoMemory) => {}
    }
}

/// Tells what is read of ` ab\nab `.
fn tell_reads(told: &mut Vec<u8>, alloc: Global, string: &Bytes, end: &PyBytesInner) {
    if string.bytes_len() != 7 {
        return;
    }
    tell_bytes(told, string.get_bytes(1..3));
    tell_bytes(told, string.get_chars(4..7));
    tell_place(told, string.py_find(b"b", 3..7));
    tell_number(told, string.py_count(b"ab", 0..7) as i128);
    tell_bytes(told, string.py_strip(None));
    tell_bytes(told, string.py_removeprefix(end));
    tell_bytes(told, string.py_removesuffix(end));
    tell_truth(
        told,
        string.py_iscase(|b| b.is_ascii_lowercase(), |b| b.is_ascii_uppercase()),
    );
    tell_copy(told, string.to_container(alloc));
    tell_parts(told, string.py_split_whitespace(alloc, 1));
    tell_parts(told, string.py_rsplit_whitespace(alloc, 1));
    tell_parts(
        told,
        string.py_bytes_splitlines(alloc, SplitLinesArgs { keepends: true }),
    );
    tell_split(told, alloc, string, b" ");
    tell_split(told, alloc, string, b"");
    tell_three(told, string.py_partition(alloc, end));
}

/// Tells what is made of `-a`.
fn tell_made_of(
    told: &mut Vec<u8>,
    alloc: Global,
    string: &Bytes,
    options: &ByteInnerPaddingOptions,
) {
    if string.bytes_len() != 2 {
        return;
    }
    tell_tried(told, string.py_add(alloc, b"b"));
    tell_tried(told, string.py_join(alloc, &ByteLists::new(alloc)));
    tell_tried(told, string.py_center(alloc, options, &NoHandles));
    tell_tried(told, string.py_ljust(alloc, options, &NoHandles));
    tell_tried(told, string.py_rjust(alloc, options, &NoHandles));
    tell_made(told, string.py_zfill(alloc, 4));
    tell_made(told, string.py_pad(alloc, 1, 2, b'x'));
}

/// Tells whether `-a` begins with a value.
fn tell_begins(told: &mut Vec<u8>, alloc: Global, string: &Bytes, affix: &Value) {
    let begins = |bytes: &[u8], prefix: &[u8]| begins_with(bytes, prefix);
    match string.py_startsendswith(alloc, affix, &begins, &NoHandles) {
        Ok(Outcome::Done(truth)) => tell_truth(told, truth),
        Ok(Outcome::Refused(fault)) => tell_fault(told, fault),
        Err(_) => {}
    }
}

/// Tells the text of two pieces, and how many characters it has.
fn tell_grown(told: &mut Vec<u8>, alloc: Global, first: &[u8], second: &[u8]) {
    if let Ok(string) = grown::<Bytes>(alloc, first, second) {
        tell_text(told, string.as_utf8_str(alloc));
        tell_characters(told, string.chars(alloc));
    }
}

#[test]
fn strings_of_any_kind_answer_as_bytes_do(rt: HostRuntime) -> Result<(), Fail> {
    let alloc = rt.alloc();
    let mut told = Vec::new(alloc);
    tell_grown(&mut told, alloc, b"a\xc3", b"\xa9");
    tell_grown(&mut told, alloc, b"a\xc3", b"");
    if let (Ok(string), Ok(end)) = (grown::<Bytes>(alloc, b" ab\n", b"ab "), inner(alloc, b"b ")) {
        tell_reads(&mut told, alloc, &string, &end);
    }
    if let (Ok(string), Ok(affix)) = (
        grown::<Bytes>(alloc, b"-", b"a"),
        Value::bytes(alloc, b"-"),
    ) {
        let options = ByteInnerPaddingOptions {
            width: 5,
            fillchar: None,
        };
        tell_made_of(&mut told, alloc, &string, &options);
        tell_begins(&mut told, alloc, &string, &affix);
        tell_begins(&mut told, alloc, &string, &Value::from(45));
    }
    assert!(rt; told.as_slice() == WANTED.as_bytes());
    Ok(())
}

const WANTED: &str =
    " aé 2 ValueError ValueError b'ab' b'ab ' 5 2 b'ab\\nab' b' ab\\nab ' b' ab\\na' yes b' ab\\nab ' no 2 b'ab' b'ab ' 2 b'ab' b' ab' 2 b' ab\\n' b'ab ' 3 b'' b'ab\\nab' b'' ValueError b' ab\\na' yes b'' b'-ab' b'' b'  -a ' b'-a   ' b'   -a' b'-00a' b'x-axx' yes TypeError";

/// Tells how `it's\n` is written, and what of its first byte and its length.
fn tell_written(told: &mut Vec<u8>, alloc: Global, string: &PyBytesInner, name: &Text) {
    tell_text(told, string.repr_bytes(alloc));
    tell_text(told, string.repr_with_name(alloc, name));
    tell_truth(told, string.cmp(b"its", CompareOp::Lt));
    tell_truth(told, string.first() == Some(&b'i'));
    if let Ok(copy) = string.copy(alloc) {
        tell_bytes(told, copy.as_bytes());
    }
}

/// Tells a string that is repeated where it lies, or why it isn't.
fn tell_repeated(told: &mut Vec<u8>, alloc: Global, string: &mut PyBytesInner, times: isize) {
    match string.imul(alloc, times) {
        Ok(Outcome::Done(())) => tell_bytes(told, string.as_bytes()),
        Ok(Outcome::Refused(fault)) => tell_fault(told, fault),
        Err(_) => {}
    }
}

/// Tells a string with a part replaced once by another of the same length.
fn tell_replaced(
    told: &mut Vec<u8>,
    alloc: Global,
    string: &PyBytesInner,
    from: &PyBytesInner,
    to: &PyBytesInner,
) {
    if from.len() == to.len() {
        tell_made(told, string.replace_in_place(alloc, from, to, Some(1)));
    }
}

/// Tells what is searched for, and where, by options that name a byte by its number and a place from the end of three.
fn tell_search(told: &mut Vec<u8>, alloc: Global, number: i128) {
    let options = ByteInnerFindOptions {
        sub: Needle::Number(number),
        start: Some(-2),
        end: None,
    };
    match options.get_value(alloc, 3) {
        Ok(Outcome::Done((needle, range))) => {
            tell_bytes(told, needle.as_slice());
            tell_number(told, range.start as i128);
            tell_number(told, range.end as i128);
        }
        Ok(Outcome::Refused(fault)) => tell_fault(told, fault),
        Err(_) => {}
    }
}

#[test]
fn strings_of_bytes_answer_as_by_python(rt: HostRuntime) -> Result<(), Fail> {
    let alloc = rt.alloc();
    let mut told = Vec::new(alloc);
    if let (Ok(string), Ok(name)) = (inner(alloc, b"it's\n"), Text::from_str(alloc, "bytearray")) {
        tell_written(&mut told, alloc, &string, &name);
    }
    if let (Ok(mut string), Ok(from), Ok(to)) = (
        inner(alloc, b"tot"),
        inner(alloc, b"t"),
        inner(alloc, b"."),
    ) {
        tell_replaced(&mut told, alloc, &string, &from, &to);
        tell_repeated(&mut told, alloc, &mut string, 3);
        tell_repeated(&mut told, alloc, &mut string, isize::MAX);
    }
    tell_search(&mut told, alloc, 98);
    tell_search(&mut told, alloc, 256);
    tell_tried(&mut told, PyBytesInner::fromhex(alloc, b"0a\x0b\x0c\r10"));
    assert!(rt; told.as_slice() == WRITTEN.as_bytes());
    Ok(())
}

const WRITTEN: &str =
    " b\"it's\\n\" bytearray(b\"it's\\n\") yes yes b\"it's\\n\" b'.ot' b'tottottot' OverflowError b'b' 1 3 ValueError b'\\n\\x10'";

/// Whether a hasher is fed the bytes.
fn is_hashed(bytes: &PyBytesInner) -> bool {
    let mut hasher = DefaultHasher::new();
    bytes.hash(&mut hasher);
    let mut fed = DefaultHasher::new();
    fed.write(bytes.as_bytes());
    hasher.finish() == fed.finish()
}

/// What is searched for in `TEXT`, the bounds, and what `find`, `rfind`, `count`, `startswith` and `endswith` answer.
type Search = (
    &'static [u8],
    Option<isize>,
    Option<isize>,
    (Option<usize>, Option<usize>, usize, bool, bool),
);

const TEXT: &[u8] = b"key=a,b,,c=key";

const SEARCHES: [Search; 9] = [
    (b"key", None, None, (Some(0), Some(11), 2, true, true)),
    (b"key", Some(1), None, (Some(11), Some(11), 1, false, true)),
    (b"key", Some(-3), None, (Some(11), Some(11), 1, true, true)),
    (b"", Some(3), Some(2), (None, None, 0, false, false)),
    (b"", Some(14), None, (Some(14), Some(14), 1, true, true)),
    (b"", Some(15), None, (None, None, 0, false, false)),
    (b",", None, Some(-9), (None, None, 0, false, false)),
    (b"zz", None, None, (None, None, 0, false, false)),
    (b"a", Some(0), Some(-100), (None, None, 0, false, false)),
];

#[test]
fn lent_bytes_are_searched_and_hashed(rt: HostRuntime) -> Result<(), Fail> {
    let bytes = ByteStr::new(TEXT);
    for (sub, start, end, answers) in &SEARCHES {
        let places = (
            bytes.find(sub, *start, *end),
            bytes.rfind(sub, *start, *end),
        );
        let counted = bytes.count(sub, *start, *end);
        let ends = (
            bytes.startswith(sub, *start, *end),
            bytes.endswith(sub, *start, *end),
        );
        assert!(rt; (places.0, places.1, counted, ends.0, ends.1) == *answers);
    }
    assert!(rt; is_hashed(&inner(rt.alloc(), b"abc")?));
    Ok(())
}
