//! Hexadecimal digits, read.
ghost use Rattle.std.specs.Prelude.{◌≡◌, ◌≤◌, ◌<◌, ◌/◌, false, Ok, Err, IfOk, MatchResult, length, take};
ghost use Rattle.hex.specs.Hex.{hex_digit_value};
ghost use Rattle.pybuf_letters.specs.Classes.{is_blank};
ghost use Rattle.pybuf_value.specs.Halting.{Gives, outcome_of};
ghost use Rattle.pybuf_shaping.specs.Digits as spec;

use pybuf_lanes::read_digits;
use pybuf_letters::is_py_ascii_whitespace;
use pybuf_value::{ByteList, Fault, Halt, Tried, tried};
use std::alloc::Global;

/// The value of a digit of either case, or 16. It is one look-up, since a branch for each kind of digit
/// is seldom foreseen, in a text that is lent, since a local table would be made at each call. `hex`
/// branches so, and its `decode_to_slice` takes more than twice as long on digits that are drawn.
fn digit_value(digit: u8) -> u8
    ensures value { hex_digit_value digit ≡ spec.value_below_16 result }
    ensures printed { result < 16 → is_blank digit ≡ false }
{
    b"\x10\x10\x10\x10\x10\x10\x10\x10\x10\x10\x10\x10\x10\x10\x10\x10\
        \x10\x10\x10\x10\x10\x10\x10\x10\x10\x10\x10\x10\x10\x10\x10\x10\
        \x10\x10\x10\x10\x10\x10\x10\x10\x10\x10\x10\x10\x10\x10\x10\x10\
        \x00\x01\x02\x03\x04\x05\x06\x07\x08\x09\x10\x10\x10\x10\x10\x10\
        \x10\x0a\x0b\x0c\x0d\x0e\x0f\x10\x10\x10\x10\x10\x10\x10\x10\x10\
        \x10\x10\x10\x10\x10\x10\x10\x10\x10\x10\x10\x10\x10\x10\x10\x10\
        \x10\x0a\x0b\x0c\x0d\x0e\x0f\x10\x10\x10\x10\x10\x10\x10\x10\x10\
        \x10\x10\x10\x10\x10\x10\x10\x10\x10\x10\x10\x10\x10\x10\x10\x10\
        \x10\x10\x10\x10\x10\x10\x10\x10\x10\x10\x10\x10\x10\x10\x10\x10\
        \x10\x10\x10\x10\x10\x10\x10\x10\x10\x10\x10\x10\x10\x10\x10\x10\
        \x10\x10\x10\x10\x10\x10\x10\x10\x10\x10\x10\x10\x10\x10\x10\x10\
        \x10\x10\x10\x10\x10\x10\x10\x10\x10\x10\x10\x10\x10\x10\x10\x10\
        \x10\x10\x10\x10\x10\x10\x10\x10\x10\x10\x10\x10\x10\x10\x10\x10\
        \x10\x10\x10\x10\x10\x10\x10\x10\x10\x10\x10\x10\x10\x10\x10\x10\
        \x10\x10\x10\x10\x10\x10\x10\x10\x10\x10\x10\x10\x10\x10\x10\x10\
        \x10\x10\x10\x10\x10\x10\x10\x10\x10\x10\x10\x10\x10\x10\x10\x10"[digit as usize]
}

/// Writes the bytes of pairs of digits to the front of a room, and gives how many they are. Pairs that the text begins
/// with are read by lanes. Behind them, whether a byte is a blank is asked only where it is no digit.
fn write_pairs(room: &mut [u8], text: &[u8]) -> Result<usize, Fault>
    requires { length room.old ≡ length text.now / 2 }
    ensures bytes { MatchResult result (λ count. spec.bytes_of_hex text.now ≡ Ok (take count room.new)) (λ f. spec.bytes_of_hex text.now ≡ Err f) }
    ensures inside { IfOk result (λ count. count ≤ length room.new) }
    ensures same_length { length room.new ≡ length room.old }
{
    let mut count = read_digits(text, room);
    let mut at = 2 * count;
    while at < text.len() {
        let high = digit_value(text[at]);
        if high > 15 {
            if is_py_ascii_whitespace(text[at]) {
                at += 1;
                continue;
            }
            return Err(Fault::Value);
        }
        if at + 1 == text.len() {
            return Err(Fault::Value);
        }
        let low = digit_value(text[at + 1]);
        if low > 15 {
            return Err(Fault::Value);
        }
        room[count] = high * 16 + low;
        count += 1;
        at += 2;
    }
    Ok(count)
}

/// The bytes of pairs of digits. They are written into a room that is as long as they can be, since
/// bytes that are added to a list one by one cost three times as much.
fn read_pairs(alloc: Global, text: &[u8]) -> Result<ByteList, Halt>
    ensures { Gives (spec.bytes_of_hex text.now) result }
{
    let mut bytes = Vec::new(alloc);
    bytes.resize(text.len() / 2, 0)?;
    let count = write_pairs(bytes.as_mut_slice(), text)?;
    bytes.truncate(count);
    Ok(ByteList::from_vec(bytes))
}

/// The bytes that a text writes as pairs of hexadecimal digits of either case, high digit first; blanks
/// of ASCII between pairs are skipped (Python's library reference, "Bytes Objects", `bytes.fromhex`).
///
/// Refused with `ValueError` exactly for every other text.
///
/// Example: of `b"01 aB"` it gives `b"\x01\xab"`, and of `b"1"` it is refused with `ValueError`.
pub fn bytes_of_hex(alloc: Global, text: &[u8]) -> Tried<ByteList>
    ensures { IfOk result (λ outcome. outcome ≡ outcome_of (spec.bytes_of_hex text.now)) }
{
    tried(read_pairs(alloc, text))
}
