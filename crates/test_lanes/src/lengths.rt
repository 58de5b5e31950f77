//! Each length at each place.
use crate::plain::{self, SOURCE};
use pybuf_lanes::{
    count_byte, gather_halves, leading_blanks, read_digits, trailing_blanks, write_digits,
};
use std::test::Fail;

/// How many bytes are looked at most.
const MOST: usize = 200;

/// Whether the calls that only look at bytes say of these what loops say.
fn looks_alike(bytes: &[u8], wanted: u8) -> bool {
    count_byte(bytes, wanted) == plain::count_byte(bytes, wanted)
        && leading_blanks(bytes) == plain::leading_blanks(bytes)
        && trailing_blanks(bytes) == plain::trailing_blanks(bytes)
}

#[test]
fn what_looks_at_bytes_says_what_loops_say(rt: HostRuntime) -> Result<(), Fail> {
    let mut source = [0; SOURCE];
    for blanks in [false, true] {
        plain::fill(&mut source, blanks);
        for place in 0..16 {
            for length in 0..MOST + 1 {
                assert!(rt; looks_alike(&source[place..place + length], 9));
            }
        }
    }
    Ok(())
}

#[test]
fn the_one_byte_that_is_no_blank_is_found_at_each_place(rt: HostRuntime) -> Result<(), Fail> {
    let mut source = [32; SOURCE];
    for place in 0..16 {
        assert!(rt; looks_alike(&source[place..], 32));
        for stop in place..place + MOST {
            source[stop] = 46;
            assert!(rt; looks_alike(&source[place..place + MOST], 46));
            source[stop] = 32;
        }
    }
    Ok(())
}

/// Whether the digits of these bytes are those of the loop, and give the bytes back as far as blocks go.
fn goes_there_and_back(bytes: &[u8]) -> bool {
    let mut digits = [0; 2 * MOST];
    let mut wanted = [0; 2 * MOST];
    let mut back = [0; MOST];
    let length = bytes.len();
    if length > MOST {
        return false;
    }
    write_digits(bytes, &mut digits[..2 * length]);
    plain::write_digits(bytes, &mut wanted);
    if digits != wanted {
        return false;
    }
    let read = read_digits(&digits[..2 * length], &mut back[..length]);
    read == length / 16 * 16 && read <= length && back[..read] == bytes[..read]
}

#[test]
fn digits_of_each_length_are_those_of_a_loop(rt: HostRuntime) -> Result<(), Fail> {
    let mut source = [0; SOURCE];
    plain::fill(&mut source, false);
    for place in 0..16 {
        for length in 0..MOST + 1 {
            assert!(rt; goes_there_and_back(&source[place..place + length]));
        }
    }
    Ok(())
}

/// Bytes that are no digit, but stand beside digits in the table of bytes.
const NO_DIGITS: [u8; 10] = [47, 58, 64, 71, 96, 103, 32, 0, 128, 255];

#[test]
fn reading_stops_before_the_block_with_a_byte_that_is_no_digit(
    rt: HostRuntime,
) -> Result<(), Fail> {
    let mut digits =
        *b"0123456789abcdefABCDEF0123456789fedcba9876543210FEDCBA98765432100f1e2d3c4b5a69788796A5B4C3D2E1F0";
    for place in 0..96 {
        let digit = digits[place];
        for other in &NO_DIGITS {
            digits[place] = *other;
            let mut room = [0; 48];
            assert!(rt; read_digits(&digits, &mut room) == place / 32 * 16);
        }
        digits[place] = digit;
    }
    let mut room = [0; 48];
    assert!(rt; read_digits(&digits, &mut room) == 48);
    assert!(rt; room[..4] == [1, 35, 69, 103]);
    assert!(rt; room[44..] == [195, 210, 225, 240]);
    Ok(())
}

/// Whether every second byte is what the loop takes.
fn halves_alike(bytes: &[u8]) -> bool {
    let mut halves = [0; MOST];
    let mut wanted = [0; MOST];
    let half = bytes.len().div_ceil(2);
    if half > MOST {
        return false;
    }
    gather_halves(bytes, &mut halves[..half]);
    plain::gather_halves(bytes, &mut wanted);
    halves == wanted
}

#[test]
fn every_second_byte_of_each_length_is_that_of_a_loop(rt: HostRuntime) -> Result<(), Fail> {
    let mut source = [0; SOURCE];
    plain::fill(&mut source, false);
    for place in 0..16 {
        for length in 0..MOST + 1 {
            assert!(rt; halves_alike(&source[place..place + length]));
        }
    }
    Ok(())
}
