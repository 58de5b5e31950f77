//! Formats against the `struct` module of CPython 3.11 on a 64-bit little-endian machine: `struct.calcsize(format)` (`SIZES`),
//! `struct.pack(format, *values)` at the ends of each code's range and with alignment (`NUMBERS`, `STRINGS`), the numbers
//! that it refuses (`PAST`), and `struct.unpack(format, bytes)` (`NUMBERS`). By hand: the texts that are refused, `u`, what
//! is of a wrong kind, handles, and Pascal strings past 255 bytes. What else is unpacked is in the cases of `cases/tables`.
use crate::telling::{tell_number, tell_truth};
use pybuf_struct::{Endianness, FormatSpec, FormatType};
use pybuf_value::{
    ByteList, CountList, Fault, Halt, Made, Scalar, ScalarList, Snap, SnapKind, SnapList, Text,
    Twin,
};
use std::alloc::Global;
use std::test::Fail;

/// A size, and the formats that have it.
const SIZES: [(usize, &[&str]); 27] = [
    (
        0,
        &[
            "", "@", "=", "<", ">", "!", "0i", "0s", "0p", "<0q", ">0s0p", "0x0c0?",
        ],
    ),
    (1, &["x", "b", "B", "c", "?", "s", "p", "=b0l"]),
    (2, &["h", "H", "x0h"]),
    (3, &["3p", "hb"]),
    (4, &["i", "I", "b0i", "i0h", "hb0h"]),
    (
        5,
        &[
            "=bi", "<bi", ">bi", "!bi", "h3x", "=cl", "<cl", "3c2?", "<lb", "=?i",
        ],
    ),
    (6, &["3xh"]),
    (
        8,
        &[
            "l", "L", "q", "Q", "n", "N", "@bi", "bi", "b0q", "xi", "xxxH0q", "b0l", "b3si",
            "b3pi", "b0n", "@b0Q", "@N0b",
        ],
    ),
    (9, &["lb", "!cq"]),
    (10, &["10s"]),
    (12, &["1x1i1x1h"]),
    (13, &["=3s2p1q"]),
    (16, &["cl", "cL", "?q", "?N", "bn", "2h3i"]),
    (18, &["=10sq"]),
    (19, &["=bhilq", "<bhilq", ">bhilq", "!bhilq"]),
    (20, &[">LqQ", "4xb4xh4xi"]),
    (23, &["qlihb"]),
    (24, &["bhilq", "b2n", "10sq", "9xq"]),
    (28, &["07i"]),
    (96, &["b2h3i4l5q"]),
    (256, &["256p"]),
    (1000, &["1000b"]),
    (4096, &["<4096x"]),
    (65536, &["65536B"]),
    (9223372036854775800, &[">1152921504606846975q"]),
    (9223372036854775804, &["9223372036854775800x1i"]),
    (9223372036854775807, &["9223372036854775807x"]),
];

/// The least and the greatest numbers of the codes `bhilqBHILQ`, in standard sizes and native.
const LEAST: [i128; 10] = [
    -128,
    -32768,
    -2147483648,
    -2147483648,
    -9223372036854775808,
    0,
    0,
    0,
    0,
    0,
];

const GREATEST: [i128; 10] = [
    127,
    32767,
    2147483647,
    2147483647,
    9223372036854775807,
    255,
    65535,
    4294967295,
    4294967295,
    18446744073709551615,
];

const NATIVE_LEAST: [i128; 10] = [
    -128,
    -32768,
    -2147483648,
    -9223372036854775808,
    -9223372036854775808,
    0,
    0,
    0,
    0,
    0,
];

const NATIVE_GREATEST: [i128; 10] = [
    127,
    32767,
    2147483647,
    9223372036854775807,
    9223372036854775807,
    255,
    65535,
    4294967295,
    18446744073709551615,
    18446744073709551615,
];

/// Numbers, and the bytes that they are written as and read from.
const NUMBERS: [(&str, &[i128], &[u8]); 31] = [
    (
        "<bhilqBHILQ",
        &LEAST,
        b"\x80\x00\x80\x00\x00\x00\x80\x00\x00\x00\x80\x00\x00\x00\x00\x00\x00\x00\x80\x00\x00\x00\x00\x00\x00\x00\x00\x00\x00\x00\x00\x00\x00\x00\x00\x00\x00\x00",
    ),
    (
        "<bhilqBHILQ",
        &GREATEST,
        b"\x7f\xff\x7f\xff\xff\xff\x7f\xff\xff\xff\x7f\xff\xff\xff\xff\xff\xff\xff\x7f\xff\xff\xff\xff\xff\xff\xff\xff\xff\xff\xff\xff\xff\xff\xff\xff\xff\xff\xff",
    ),
    (
        ">bhilqBHILQ",
        &LEAST,
        b"\x80\x80\x00\x80\x00\x00\x00\x80\x00\x00\x00\x80\x00\x00\x00\x00\x00\x00\x00\x00\x00\x00\x00\x00\x00\x00\x00\x00\x00\x00\x00\x00\x00\x00\x00\x00\x00\x00",
    ),
    (
        ">bhilqBHILQ",
        &GREATEST,
        b"\x7f\x7f\xff\x7f\xff\xff\xff\x7f\xff\xff\xff\x7f\xff\xff\xff\xff\xff\xff\xff\xff\xff\xff\xff\xff\xff\xff\xff\xff\xff\xff\xff\xff\xff\xff\xff\xff\xff\xff",
    ),
    (
        "=bhilqBHILQ",
        &LEAST,
        b"\x80\x00\x80\x00\x00\x00\x80\x00\x00\x00\x80\x00\x00\x00\x00\x00\x00\x00\x80\x00\x00\x00\x00\x00\x00\x00\x00\x00\x00\x00\x00\x00\x00\x00\x00\x00\x00\x00",
    ),
    (
        "=bhilqBHILQ",
        &GREATEST,
        b"\x7f\xff\x7f\xff\xff\xff\x7f\xff\xff\xff\x7f\xff\xff\xff\xff\xff\xff\xff\x7f\xff\xff\xff\xff\xff\xff\xff\xff\xff\xff\xff\xff\xff\xff\xff\xff\xff\xff\xff",
    ),
    (
        "!bhilqBHILQ",
        &LEAST,
        b"\x80\x80\x00\x80\x00\x00\x00\x80\x00\x00\x00\x80\x00\x00\x00\x00\x00\x00\x00\x00\x00\x00\x00\x00\x00\x00\x00\x00\x00\x00\x00\x00\x00\x00\x00\x00\x00\x00",
    ),
    (
        "!bhilqBHILQ",
        &GREATEST,
        b"\x7f\x7f\xff\x7f\xff\xff\xff\x7f\xff\xff\xff\x7f\xff\xff\xff\xff\xff\xff\xff\xff\xff\xff\xff\xff\xff\xff\xff\xff\xff\xff\xff\xff\xff\xff\xff\xff\xff\xff",
    ),
    (
        "@bhilqBHILQ",
        &NATIVE_LEAST,
        b"\x80\x00\x00\x80\x00\x00\x00\x80\x00\x00\x00\x00\x00\x00\x00\x80\x00\x00\x00\x00\x00\x00\x00\x80\x00\x00\x00\x00\x00\x00\x00\x00\x00\x00\x00\x00\x00\x00\x00\x00\x00\x00\x00\x00\x00\x00\x00\x00",
    ),
    (
        "@bhilqBHILQ",
        &NATIVE_GREATEST,
        b"\x7f\x00\xff\x7f\xff\xff\xff\x7f\xff\xff\xff\xff\xff\xff\xff\x7f\xff\xff\xff\xff\xff\xff\xff\x7f\xff\x00\xff\xff\xff\xff\xff\xff\xff\xff\xff\xff\xff\xff\xff\xff\xff\xff\xff\xff\xff\xff\xff\xff",
    ),
    (
        "<bhilq",
        &[-2, -2, -2, -2, -2],
        b"\xfe\xfe\xff\xfe\xff\xff\xff\xfe\xff\xff\xff\xfe\xff\xff\xff\xff\xff\xff\xff",
    ),
    (
        ">bhilqHQ",
        &[-2, -2, -2, -2, -2, 258, 72623859790382856],
        b"\xfe\xff\xfe\xff\xff\xff\xfe\xff\xff\xff\xfe\xff\xff\xff\xff\xff\xff\xff\xfe\x01\x02\x01\x02\x03\x04\x05\x06\x07\x08",
    ),
    (
        "nN",
        &[-9223372036854775808, 0],
        b"\x00\x00\x00\x00\x00\x00\x00\x80\x00\x00\x00\x00\x00\x00\x00\x00",
    ),
    (
        "nN",
        &[9223372036854775807, 18446744073709551615],
        b"\xff\xff\xff\xff\xff\xff\xff\x7f\xff\xff\xff\xff\xff\xff\xff\xff",
    ),
    ("bi", &[-1, 5], b"\xff\x00\x00\x00\x05\x00\x00\x00"),
    ("=bi", &[-1, 5], b"\xff\x05\x00\x00\x00"),
    ("3xh", &[-2], b"\x00\x00\x00\x00\xfe\xff"),
    ("h3x", &[258], b"\x02\x01\x00\x00\x00"),
    ("<2xHxB", &[65535, 7], b"\x00\x00\xff\xff\x00\x07"),
    ("b0i", &[1], b"\x01\x00\x00\x00"),
    ("b0q", &[2], b"\x02\x00\x00\x00\x00\x00\x00\x00"),
    ("i0q", &[3], b"\x03\x00\x00\x00\x00\x00\x00\x00"),
    (
        "b2h3i",
        &[1, 2, 3, 4, 5, 6],
        b"\x01\x00\x02\x00\x03\x00\x00\x00\x04\x00\x00\x00\x05\x00\x00\x00\x06\x00\x00\x00",
    ),
    (
        "4xb4xh4xi",
        &[1, 2, 3],
        b"\x00\x00\x00\x00\x01\x00\x00\x00\x00\x00\x02\x00\x00\x00\x00\x00\x03\x00\x00\x00",
    ),
    ("x0q", &[], b"\x00\x00\x00\x00\x00\x00\x00\x00"),
    ("", &[], b""),
    (">3h", &[1, -32768, -2], b"\x00\x01\x80\x00\xff\xfe"),
    ("b0hh", &[127, 32767], b"\x7f\x00\xff\x7f"),
    ("0i", &[], b""),
    (
        "07B",
        &[1, 2, 3, 4, 5, 6, 7],
        b"\x01\x02\x03\x04\x05\x06\x07",
    ),
    (
        "3u",
        &[-2147483648, -1, 259],
        b"\x00\x00\x00\x80\xff\xff\xff\xff\x03\x01\x00\x00",
    ),
];

/// The greatest number below those that a code takes, and the least above.
const PAST: [(&str, i128, i128); 18] = [
    ("<b", -129, 128),
    ("<B", -1, 256),
    ("<h", -32769, 32768),
    ("<H", -1, 65536),
    ("<i", -2147483649, 2147483648),
    ("<I", -1, 4294967296),
    ("<l", -2147483649, 2147483648),
    ("<L", -1, 4294967296),
    ("<q", -9223372036854775809, 9223372036854775808),
    ("<Q", -1, 18446744073709551616),
    (">h", -32769, 32768),
    (">H", -1, 65536),
    (">q", -9223372036854775809, 9223372036854775808),
    (">Q", -1, 18446744073709551616),
    ("@l", -9223372036854775809, 9223372036854775808),
    ("@L", -1, 18446744073709551616),
    ("@q", -9223372036854775809, 9223372036854775808),
    ("@Q", -1, 18446744073709551616),
];

/// A bytes value, and the bytes that it is written as.
const STRINGS: [(&str, &[u8], &[u8]); 17] = [
    ("c", b"\x00", b"\x00"),
    (">c", b"\xff", b"\xff"),
    ("3s", b"abc", b"abc"),
    ("3s", b"ab", b"ab\x00"),
    ("3s", b"abcd", b"abc"),
    ("0s", b"abc", b""),
    ("s", b"", b"\x00"),
    ("5s", b"\x80\xff", b"\x80\xff\x00\x00\x00"),
    ("3p", b"abc", b"\x02ab"),
    ("3p", b"a", b"\x01a\x00"),
    ("3p", b"", b"\x00\x00\x00"),
    ("p", b"abc", b"\x00"),
    ("2p", b"abc", b"\x01a"),
    ("=4p", b"xyz", b"\x03xyz"),
    ("<10p", b"0123456789", b"\x09012345678"),
    ("x3s2x", b"abc", b"\x00abc\x00\x00"),
    ("4xs", b"q", b"\x00\x00\x00\x00q"),
];

/// Why texts are no formats, and such texts.
const REFUSED: [(&str, &[&str]); 5] = [
    (
        "a code that only native formats have",
        &["<u", ">u", "!u", "=u", "<n", ">n", "=n", "!N", "=N", "<N"],
    ),
    ("a count without a code", &["3", "12", "B3", "@3"]),
    ("a blank", &["B B", " B", "B ", "@ i"]),
    (
        "no code",
        &[
            "e", "f", "d", "P", "<e", "2d", "@@", "<<", ">=", "b@", "é", "b\0", "A", "-1b", "1.5b",
        ],
    ),
    (
        "past `isize::MAX`",
        &[
            "99999999999999999999b",
            "9223372036854775808x",
            "18446744073709551616s",
            "9223372036854775807h",
            "9223372036854775807xb",
            "9223372036854775807s0q",
            "9223372036854775800x2q",
            "4611686018427387904H",
            "1152921504606846976q",
            "=1152921504606846976q",
        ],
    ),
];

/// Handle, kind, content.
const SNAPS: [(u64, SnapKind, &[u8]); 3] = [
    (1, SnapKind::Bytes, b"k"),
    (2, SnapKind::ByteArray, b"xyz"),
    (7, SnapKind::Bytes, b"kk"),
];

fn lender(alloc: Global) -> Made<SnapList> {
    let mut lender = SnapList::new(alloc);
    for (handle, kind, content) in &SNAPS {
        let snap = Snap {
            kind: *kind,
            format: Text::new(alloc),
            itemsize: 1,
            shape: CountList::new(alloc),
            content: ByteList::from_slice(alloc, content)?,
            contiguous: true,
            released: false,
        };
        lender.push((*handle, snap))?;
    }
    Ok(lender)
}

/// Whether a room of other bytes has these after the values are written into it, or is as it was where they are refused.
fn is_packed(
    alloc: Global,
    format: &FormatSpec,
    values: &ScalarList,
    lender: &SnapList,
    wanted: Result<&[u8], Fault>,
) -> bool {
    match vec![in alloc; 0xaau8; format.size()] {
        Ok(mut room) => match (
            format.pack_into(room.as_mut_slice(), values, lender),
            wanted,
        ) {
            (Ok(()), Ok(bytes)) => room.as_slice() == bytes,
            (Err(fault), Err(wanted)) => fault == wanted && room.iter().all(|byte| *byte == 0xaa),
            _ => false,
        },
        Err(_) => false,
    }
}

/// Whether values that were made are written so by a format.
fn is_written(
    alloc: Global,
    format: &str,
    values: Made<ScalarList>,
    lender: &SnapList,
    wanted: Result<&[u8], Fault>,
) -> bool {
    match (FormatSpec::from_str(alloc, format), values) {
        (Ok(format), Ok(values)) => is_packed(alloc, &format, &values, lender, wanted),
        _ => false,
    }
}

fn is_unpacked(alloc: Global, format: &FormatSpec, values: &ScalarList, bytes: &[u8]) -> bool {
    matches!(format.unpack_values(alloc, bytes), Ok(read) if read == *values)
}

/// Whether values that were made are read from these bytes.
fn is_read(alloc: Global, format: &str, values: Made<ScalarList>, bytes: &[u8]) -> bool {
    match (FormatSpec::from_str(alloc, format), values) {
        (Ok(format), Ok(values)) => is_unpacked(alloc, &format, &values, bytes),
        _ => false,
    }
}

fn numbers_of(alloc: Global, numbers: &[i128]) -> Made<ScalarList> {
    let mut values = ScalarList::new(alloc);
    for number in numbers {
        values.push(Scalar::Int(*number))?;
    }
    Ok(values)
}

fn bytes_of(alloc: Global, bytes: &[u8]) -> Made<ScalarList> {
    let mut values = ScalarList::new(alloc);
    values.push(Scalar::bytes(alloc, bytes)?)?;
    Ok(values)
}

/// A handle, or nothing, and a number behind it, if there is one.
fn given(alloc: Global, handle: Option<u64>, number: Option<i128>) -> Made<ScalarList> {
    let mut values = ScalarList::new(alloc);
    let first = match handle {
        None => Scalar::None,
        Some(handle) => Scalar::Handle(handle),
    };
    values.push(first)?;
    if let Some(number) = number {
        values.push(Scalar::Int(number))?;
    }
    Ok(values)
}

// Each function that follows checks one table. It gives the format of the first row that isn't as the table says.

fn other_numbers(alloc: Global, lender: &SnapList) -> Option<&'static str> {
    for (format, numbers, bytes) in &NUMBERS {
        if !is_written(alloc, format, numbers_of(alloc, numbers), lender, Ok(bytes))
            || !is_read(alloc, format, numbers_of(alloc, numbers), bytes)
        {
            return Some(format);
        }
    }
    None
}

fn numbers_taken(alloc: Global, lender: &SnapList) -> Option<&'static str> {
    for (format, below, above) in &PAST {
        let refused = Err(Fault::Struct);
        if !is_written(alloc, format, numbers_of(alloc, &[*below]), lender, refused)
            || !is_written(alloc, format, numbers_of(alloc, &[*above]), lender, refused)
        {
            return Some(format);
        }
    }
    None
}

fn other_strings(alloc: Global, lender: &SnapList) -> Option<&'static str> {
    for (format, content, bytes) in &STRINGS {
        if !is_written(alloc, format, bytes_of(alloc, content), lender, Ok(bytes)) {
            return Some(format);
        }
    }
    None
}

/// A handle or nothing, a number behind it, if there is one, and the bytes that they are written as, or why they are refused.
/// The lender hasn't the handle 99.
const GIVEN: [(&str, Option<u64>, Option<i128>, Result<&[u8], Fault>); 19] = [
    ("c", Some(1), None, Ok(b"k")),
    ("2s", Some(2), None, Ok(b"xy")),
    ("3p", Some(2), None, Ok(b"\x02xy")),
    ("0p", Some(99), None, Ok(b"")),
    ("b", Some(1), None, Err(Fault::Struct)),
    ("Q", Some(99), None, Err(Fault::Struct)),
    ("?", Some(1), None, Err(Fault::Kind)),
    ("?", Some(99), None, Err(Fault::Kind)),
    ("c", Some(2), None, Err(Fault::Kind)),
    ("c", Some(7), None, Err(Fault::Struct)),
    ("c", Some(99), None, Err(Fault::UnknownName)),
    ("1p", Some(99), None, Err(Fault::UnknownName)),
    ("sb", Some(99), Some(300), Err(Fault::UnknownName)),
    ("bs", Some(99), Some(300), Err(Fault::Struct)),
    ("s", Some(99), Some(300), Err(Fault::Struct)),
    ("?b", Some(99), Some(300), Err(Fault::Kind)),
    ("4s", None, None, Err(Fault::Kind)),
    ("4p", None, None, Err(Fault::Kind)),
    ("c", None, None, Err(Fault::Kind)),
];

fn other_given(alloc: Global, lender: &SnapList) -> Option<&'static str> {
    for (format, handle, number, wanted) in &GIVEN {
        if !is_written(
            alloc,
            format,
            given(alloc, *handle, *number),
            lender,
            *wanted,
        ) {
            return Some(format);
        }
    }
    None
}

fn wrong(alloc: Global, lender: &SnapList) -> Option<&'static str> {
    if !is_long_pascal(alloc, lender) {
        return Some("300p");
    }
    if let Some(format) = other_numbers(alloc, lender) {
        return Some(format);
    }
    if let Some(format) = numbers_taken(alloc, lender) {
        return Some(format);
    }
    if let Some(format) = other_strings(alloc, lender) {
        return Some(format);
    }
    other_given(alloc, lender)
}

#[test]
fn values_are_packed_and_unpacked(rt: HostRuntime) -> Result<(), Fail> {
    let lender = lender(rt.alloc())?;
    let wrong = wrong(rt.alloc(), &lender);
    drop(lender);
    assert_eq!(rt; wrong, None);
    Ok(())
}

/// Whether a field of 300 bytes is written of so many bytes or more, and reads the first 255.
fn is_long_pascal(alloc: Global, lender: &SnapList) -> bool {
    let mut field = [b'a'; 300];
    field[0] = 255;
    is_written(
        alloc,
        "300p",
        bytes_of(alloc, &field[1..]),
        lender,
        Ok(&field),
    ) && is_read(alloc, "300p", bytes_of(alloc, &field[1..256]), &field)
}

fn size_of(alloc: Global, text: &str) -> Result<usize, Halt> {
    let format = FormatSpec::from_str(alloc, text)?;
    let size = format.size();
    drop(format);
    Ok(size)
}

/// The first text of another size, or that isn't refused.
fn of_another_size(alloc: Global) -> Option<&'static str> {
    for (size, formats) in &SIZES {
        for format in *formats {
            if size_of(alloc, format) != Ok(*size) {
                return Some(format);
            }
        }
    }
    for (_why, formats) in &REFUSED {
        for format in *formats {
            if size_of(alloc, format) != Err(Halt::Refused(Fault::Struct)) {
                return Some(format);
            }
        }
    }
    None
}

/// Tells of a format its size, its fields and, of each code, the count, the padding and the fields, and whether it is that of
/// wide characters.
fn tell_format(told: &mut Vec<u8>, format: &FormatSpec) {
    tell_number(told, format.size() as i128);
    tell_number(told, format.arg_count() as i128);
    tell_truth(told, format.endianness() == Endianness::Native);
    for code in format.codes() {
        tell_number(told, code.repeat() as i128);
        tell_number(told, code.pre_padding() as i128);
        tell_number(told, code.arg_count() as i128);
        tell_truth(told, code.code() == FormatType::WideChar);
    }
}

fn tell_copy(told: &mut Vec<u8>, alloc: Global, format: &FormatSpec) {
    if let Ok(copy) = format.copy(alloc) {
        tell_format(told, &copy);
    }
}

#[test]
fn formats_have_sizes_or_are_refused(rt: HostRuntime) -> Result<(), Fail> {
    assert_eq!(rt; of_another_size(rt.alloc()), None);
    let mut told = Vec::new(rt.alloc());
    if let Ok(format) = FormatSpec::from_str(rt.alloc(), "b3ux") {
        tell_copy(&mut told, rt.alloc(), &format);
    }
    assert!(rt; told.as_slice() == b" 17 4 yes 1 0 1 no 3 3 3 yes 1 0 0 no".as_slice());
    Ok(())
}
