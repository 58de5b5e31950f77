//! Bytes as hexadecimal digits.
ghost use Rattle.std.specs.Prelude.{◌≡◌, ◌+◌, ◌-◌, ◌*◌, ◌<◌, ◌≤◌, ◌^◌, ◌++◌, ◌∷◌, ◌≢◌, pos, IfOk, OnOk, length, take, drop};
ghost use Rattle.std.specs.List.{flat_map};
ghost use Rattle.std.specs.Option.{option_copied};
ghost use Rattle.hex.specs.Hex.{encode_lower};
ghost use Rattle.pybuf_value.specs.Halting.{Gives, outcome_of};
ghost use Rattle.pybuf_value.specs.Texts.{fitted};
ghost use Rattle.pybuf_shaping.specs.Digits as spec;

use pybuf_lanes::write_digits;
use pybuf_value::{Fault, Halt, Made, Text, Tried, tried};
use std::alloc::Global;

/// Adds the digits of the bytes.
fn push_digits(out: &mut Vec<u8>, bytes: &[u8]) -> Made<()>
    requires { length out.old.items + 2 * length bytes.now < 2 ^ 63 }
    ensures { OnOk result (out.new.items ≡ out.old.items ++ encode_lower bytes.now) }
{
    let start = out.len();
    out.resize(start + 2 * bytes.len(), 0)?;
    write_digits(bytes, &mut out.as_mut_slice()[start..]);
    Ok(())
}

/// Adds the digits of so many groups, each behind a separator.
fn push_groups(
    out: &mut Vec<u8>,
    separator: u8,
    size: usize,
    count: usize,
    bytes: &[u8],
) -> Made<()>
    requires { length out.old.items + count + 2 * length bytes.now < 2 ^ 63 }
    ensures { OnOk result (out.new.items ≡ out.old.items ++ flat_map (spec.behind separator) (spec.groups_of size count bytes.now)) }
{
    let mut rest = bytes;
    for _group in 0..count {
        out.push(separator)?;
        let (group, others) = rest.split_at(size.min(rest.len()));
        push_digits(out, group)?;
        rest = others;
    }
    Ok(())
}

/// The digits of bytes, not in groups, made in one block.
fn plain_text(alloc: Global, bytes: &[u8]) -> Result<Text, Halt>
    ensures { Gives (fitted (encode_lower bytes.now)) result }
{
    if bytes.len() > isize::MAX as usize / 2 {
        return Err(Halt::Refused(Fault::Overflow));
    }
    let mut text = Vec::with_capacity(alloc, 2 * bytes.len())?;
    push_digits(&mut text, bytes)?;
    Ok(Text::from_utf8(text))
}

/// The digits of a first group of bytes and of so many further ones, in room that is taken once.
fn separated_text(
    alloc: Global,
    separator: u8,
    first: usize,
    size: usize,
    count: usize,
    bytes: &[u8],
) -> Result<Text, Halt>
    requires ascii { separator < 128 }
    requires inside { first ≤ length bytes.now }
    requires few { count ≤ length bytes.now }
    requires whole { length bytes.now ≤ first + count * size }
    ensures { Gives (fitted (spec.separated separator (take first bytes.now ∷ spec.groups_of size count (drop first bytes.now)))) result }
{
    let total = 2 * bytes.len() as u128 + count as u128;
    if total > isize::MAX as u128 {
        return Err(Halt::Refused(Fault::Overflow));
    }
    let (group, others) = bytes.split_at(first);
    let mut text = Vec::with_capacity(alloc, total as usize)?;
    push_digits(&mut text, group)?;
    push_groups(&mut text, separator, size, count, others)?;
    Ok(Text::from_utf8(text))
}

/// The one byte of a separator.
fn separator_in(separator: &[u8]) -> Result<u8, Fault>
    ensures { result ≡ spec.separator_in separator.now }
{
    match separator {
        [byte] => {
            if *byte < 128 {
                Ok(*byte)
            } else {
                Err(Fault::Value)
            }
        }
        _ => Err(Fault::Value),
    }
}

/// The digits in groups of a size, by the side that groups are counted from.
fn text_by_groups(alloc: Global, separator: &[u8], size: isize, bytes: &[u8]) -> Result<Text, Halt>
    requires some_bytes { 0 < length bytes.now }
    requires some_size { size ≢ pos 0 }
    ensures { Gives (spec.text_by_groups separator.now size bytes.now) result }
{
    let byte = separator_in(separator)?;
    let width = size.unsigned_abs();
    let count = (bytes.len() - 1) / width;
    if size > 0 {
        separated_text(
            alloc,
            byte,
            bytes.len() - count * width,
            width,
            count,
            bytes,
        )
    } else {
        separated_text(alloc, byte, width.min(bytes.len()), width, count, bytes)
    }
}

/// The digits of bytes, where a separator may be given.
fn text_of(alloc: Global, separator: Option<&[u8]>, size: isize, bytes: &[u8]) -> Result<Text, Halt>
    ensures { Gives (spec.hex_text (option_copied separator.entry) size bytes.now) result }
{
    if bytes.is_empty() {
        return Ok(Text::new(alloc));
    }
    let Some(separator) = separator else {
        return plain_text(alloc, bytes);
    };
    if size == 0 {
        return plain_text(alloc, bytes);
    }
    text_by_groups(alloc, separator, size, bytes)
}

/// The bytes as pairs of lower-case hexadecimal digits (Python's library reference, "Bytes Objects",
/// `bytes.hex`). A separator, where one is given, stands between each two groups of `size` bytes.
/// Groups are counted from the right for a positive size and from the left for a negative one, and for
/// 0 there is no separator. No bytes give the empty text.
///
/// Refused with `ValueError` exactly where there are bytes, the size isn't 0, and a separator is given
/// that isn't one byte below 128; and then with `OverflowError` exactly where the text is more than
/// `isize::MAX` bytes.
///
/// Example: `hex_text(alloc, b"\x01\xab\xff", Some(b":"), 2)` gives the text `01:abff`, and for -2 the text `01ab:ff`.
pub fn hex_text(alloc: Global, bytes: &[u8], separator: Option<&[u8]>, size: isize) -> Tried<Text>
    ensures { IfOk result (λ outcome. outcome ≡ outcome_of (spec.hex_text (option_copied separator.entry) size bytes.now)) }
{
    tried(text_of(alloc, separator, size, bytes))
}
