//! Values without parts as they are spelled on a line.
ghost use Rattle.std.specs.Prelude.{◌≡◌, ◌≤◌, ◌^◌, pos, neg_ℤ, true, Some, None, MatchOption};
ghost use Rattle.std.specs.List.{list_all};
ghost use Rattle.pybuf_line.specs.Scalars.{constant_in, number_below, handle_in, positive_in, negative_in, bytes_in, enclosed_text, is_text_byte, is_text, text_in, plain_in, scalar_in};
ghost use Rattle.pybuf_line.specs.Reading.{Reads};

use crate::unread::Unread;
use hex::FromHexError;
use pybuf_value::{ByteList, Scalar, Text};
use std::alloc::Global;

/// The names of values.
#[tactic(auto, unfolding(crate::specs::Scalars::constant_in))]
fn name(text: &[u8]) -> Result<Scalar, Unread>
    ensures { Reads result (constant_in text.now) }
{
    if text == "None".as_bytes() {
        return Ok(Scalar::None);
    }
    if text == "True".as_bytes() {
        return Ok(Scalar::Bool(true));
    }
    if text == "False".as_bytes() {
        return Ok(Scalar::Bool(false));
    }
    if text == "...".as_bytes() {
        return Ok(Scalar::Ellipsis);
    }
    Err(Unread::NoCommand)
}

/// The number that a text spells in decimal digits, where it is below 2^64. None exactly for every
/// other text.
///
/// Example: `word_number(b"12")` is `Some(12)`, and `word_number(b"-1")` is `None`.
pub fn word_number(text: &[u8]) -> Option<u64>
    ensures { result ≡ number_below (2 ^ 64) text.now }
{
    if text.is_empty() {
        return None;
    }
    let mut number: u64 = 0;
    for c in text {
        if !c.is_ascii_digit() {
            return None;
        }
        // a number that is too large stays too large, whatever digits follow
        let Some(tens) = number.checked_mul(10) else {
            return None;
        };
        let Some(longer) = tens.checked_add(u64::from(*c - b'0')) else {
            return None;
        };
        number = longer;
    }
    Some(number)
}

/// The number that a text spells in decimal digits, where it is below a bound.
fn number(bound: u128, text: &[u8]) -> Option<u128>
    ensures { result ≡ number_below bound text.now }
{
    if text.is_empty() {
        return None;
    }
    let mut number: u128 = 0;
    for c in text {
        if !c.is_ascii_digit() {
            return None;
        }
        // a number that is too large stays too large, whatever digits follow
        let Some(tens) = number.checked_mul(10) else {
            return None;
        };
        let Some(longer) = tens.checked_add(u128::from(*c - b'0')) else {
            return None;
        };
        number = longer;
    }
    if number < bound { Some(number) } else { None }
}

/// The handle that a text spells: `h` and a number below 2^64.
pub fn handle(text: &[u8]) -> Option<u64>
    ensures { result ≡ handle_in text.now }
{
    match text {
        [b'h', digits @ ..] => word_number(digits),
        _ => None,
    }
}

/// The whole number that digits without a sign spell: most of them by one machine word.
#[tactic(auto, using(crate::proofs::Digits::wider))]
fn positive(digits: &[u8]) -> Result<Scalar, Unread>
    ensures { Reads result (positive_in digits.now) }
{
    if let Some(number) = word_number(digits) {
        return Ok(Scalar::Int(i128::from(number)));
    }
    match number(1 << 127, digits) {
        Some(number) => Ok(Scalar::Int(number as i128)),
        None => Err(Unread::NoCommand),
    }
}

/// The negative of a number of at most 2^127.
fn negated(number: u128) -> i128
    requires { number ≤ 2 ^ 127 }
    ensures { result ≡ neg_ℤ (pos number) }
{
    if number == 1 << 127 {
        return i128::MIN;
    }
    -(number as i128)
}

/// The whole number that the digits after `-` spell: most of them by one machine word.
#[tactic(auto, using(crate::proofs::Digits::wider))]
fn negative(digits: &[u8]) -> Result<Scalar, Unread>
    ensures { Reads result (negative_in digits.now) }
{
    if let Some(number) = word_number(digits) {
        return Ok(Scalar::Int(-i128::from(number)));
    }
    match number((1 << 127) + 1, digits) {
        Some(number) => Ok(Scalar::Int(negated(number))),
        None => Err(Unread::NoCommand),
    }
}

/// The bytes that a text spells: `x` and pairs of hexadecimal digits, maybe none.
fn bytes(alloc: Global, text: &[u8]) -> Result<Scalar, Unread>
    ensures { Reads result (bytes_in text.now) }
{
    let [b'x', pairs @ ..] = text else {
        return Err(Unread::NoCommand);
    };
    match hex::decode(alloc, pairs) {
        Ok(bytes) => Ok(Scalar::Bytes(ByteList::from_vec(bytes))),
        Err(FromHexError::OutOfMemory) => Err(Unread::NoMemory),
        Err(_) => Err(Unread::NoCommand),
    }
}

/// What stands between a first byte and a last one.
pub fn between(opening: u8, closing: u8, text: &[u8]) -> Option<&[u8]>
    ensures { MatchOption result (enclosed_text opening closing text.now ≡ None) (λ inner. enclosed_text opening closing text.now ≡ Some inner.now) }
{
    match text {
        [first, rest @ ..] => {
            if *first == opening {
                rest.strip_suffix(&[closing])
            } else {
                None
            }
        }
        [] => None,
    }
}

/// Whether a byte may stand in a text.
fn may_stand(b: u8) -> bool
    ensures { result ≡ is_text_byte b }
{
    if b < 0x21 {
        return false;
    }
    if b > 0x7e {
        return false;
    }
    b != b'\''
}

/// Whether each byte may stand in a text.
fn all_may_stand(text: &[u8]) -> bool
    ensures { result ≡ list_all is_text_byte text.now }
{
    text.iter().all(|b| may_stand(*b))
}

/// Whether there are one or more bytes, each of which may stand in a text.
fn may_be_text(text: &[u8]) -> bool
    ensures { result ≡ is_text text.now }
{
    if text.is_empty() {
        return false;
    }
    all_may_stand(text)
}

/// A text of bytes that may stand in one.
fn text_of(alloc: Global, bytes: &[u8]) -> Result<Text, Unread>
    requires { is_text bytes.now ≡ true }
    ensures { Reads result (Some bytes.now) }
{
    match str::from_utf8(bytes) {
        Ok(text) => {
            let text = String::from_str(alloc, text)?;
            Ok(Text::from_string(text))
        }
        Err(_) => Err(Unread::NoCommand),
    }
}

/// The text that is spelled between quotes.
fn text(alloc: Global, quoted: &[u8]) -> Result<Scalar, Unread>
    ensures { Reads result (text_in quoted.now) }
{
    let Some(bytes) = between(b'\'', b'\'', quoted) else {
        return Err(Unread::NoCommand);
    };
    if may_be_text(bytes) {
        let text = text_of(alloc, bytes)?;
        Ok(Scalar::Text(text))
    } else {
        Err(Unread::NoCommand)
    }
}

/// The scalar other than text that a text spells, by its first byte.
pub fn plain(alloc: Global, text: &[u8]) -> Result<Scalar, Unread>
    ensures { Reads result (plain_in handle_in text.now) }
{
    let [first, rest @ ..] = text else {
        return Err(Unread::NoCommand);
    };
    if first.is_ascii_digit() {
        return positive(text);
    }
    if *first == b'x' {
        return bytes(alloc, text);
    }
    if *first == b'-' {
        return negative(rest);
    }
    if *first == b'h' {
        return match handle(text) {
            Some(handle) => Ok(Scalar::Handle(handle)),
            None => Err(Unread::NoCommand),
        };
    }
    name(text)
}

/// The scalar that a text spells, which is a text where it begins with a quote.
///
/// It answers `NoCommand` where the text spells none, and `NoMemory` where memory runs out.
///
/// Example: of `b"x6162"` it gives `Scalar::Bytes` of `b"ab"`, and of `b"'H'"` it gives `Scalar::Text` of `H`.
pub fn scalar(alloc: Global, spelled: &[u8]) -> Result<Scalar, Unread>
    ensures { Reads result (scalar_in handle_in spelled.now) }
{
    let [first, ..] = spelled else {
        return Err(Unread::NoCommand);
    };
    if *first == b'\'' {
        return text(alloc, spelled);
    }
    plain(alloc, spelled)
}
