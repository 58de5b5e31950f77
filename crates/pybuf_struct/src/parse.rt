//! Texts to formats.
ghost use Rattle.std.specs.Prelude.{◌≡◌, ◌+◌, ◌-◌, ◌*◌, ◌<◌, ◌≤◌, ◌^◌, IfSome, IfNone, IsTrue, ok_or, unwrap_or};
ghost use Rattle.std.specs.Char.{is_ascii_digit};
ghost use Rattle.pybuf_value.specs.declared.faults.Fault.{Fault};
ghost use Rattle.pybuf_struct.specs.Formats.{allowed_code, prefix_of, code_at, offset_after, format_after_prefix, format_of};
ghost use Rattle.pybuf_value.specs.Halting.{GivesOutcome};

use crate::format::{FormatCode, FormatSpec};
use crate::table::{Endianness, FormatType};
use pybuf_value::{Fault, Outcome, Tried};
use std::alloc::Global;

/// The most codes that a list of codes has room for at first. So the codes of nearly every format take one block, and
/// a long text takes no more at first than a short one.
const ROOM: usize = 8;

/// The order that a format's first byte says, and the text after it.
fn split_prefix(format: &[u8]) -> (Endianness, &[u8])
    ensures order { result.0 ≡ (prefix_of format.now).0 }
    ensures rest { result.1.now ≡ (prefix_of format.now).1 }
{
    match format {
        [b'@', rest @ ..] => (Endianness::Native, rest),
        [b'=', rest @ ..] => (Endianness::Host, rest),
        [b'<', rest @ ..] => (Endianness::Little, rest),
        [b'>', rest @ ..] => (Endianness::Big, rest),
        [b'!', rest @ ..] => (Endianness::Big, rest),
        _ => (Endianness::Native, format),
    }
}

/// The count with one more digit, or None where it passes `isize::MAX`.
fn with_digit(count: Option<usize>, digit: u8) -> Option<usize>
    requires digit { IsTrue (is_ascii_digit digit) }
    ensures fits { IfSome result (λ n. n ≡ unwrap_or count 0 * 10 + (digit - 48)) }
    ensures bound { IfSome result (λ n. n < 2 ^ 63) }
    ensures past { IfNone result (2 ^ 63 ≤ unwrap_or count 0 * 10 + (digit - 48)) }
{
    let tens = count.unwrap_or(0).checked_mul(10)?;
    let total = tens.checked_add((digit - b'0') as usize)?;
    if total > isize::MAX as usize {
        return None;
    }
    Some(total)
}

/// The code that a byte spells, where formats of this prefix have it.
fn allowed_code(order: Endianness, letter: u8) -> Option<FormatType>
    ensures { result ≡ allowed_code order letter }
{
    let code = FormatType::from_letter(letter)?;
    if code.is_allowed(order) {
        Some(code)
    } else {
        None
    }
}

/// The code after an offset, and the offset after the code, or None where that passes `isize::MAX`.
fn place(
    order: Endianness,
    offset: usize,
    repeat: usize,
    code: FormatType,
) -> Option<(FormatCode, usize)>
    requires { offset < 2 ^ 63 }
    ensures code { IfSome result (λ x. x.0 ≡ code_at order offset (record { repeat = repeat; code = code })) }
    ensures fits { IfSome result (λ x. x.1 ≡ offset_after order offset (code_at order offset (record { repeat = repeat; code = code }))) }
    ensures bound { IfSome result (λ x. x.1 < 2 ^ 63) }
    ensures past { IfNone result (2 ^ 63 ≤ offset_after order offset (code_at order offset (record { repeat = repeat; code = code }))) }
{
    let alignment = code.alignment(order);
    let over = offset % alignment;
    let pre_padding = if over == 0 { 0 } else { alignment - over };
    let len = repeat.checked_mul(code.size(order))?;
    let end = (offset + pre_padding).checked_add(len)?;
    if end > isize::MAX as usize {
        return None;
    }
    Some((FormatCode::new(repeat, code, pre_padding), end))
}

/// The format whose codes the text spells after its prefix.
fn spell(alloc: Global, order: Endianness, text: &[u8]) -> Tried<FormatSpec>
    ensures { GivesOutcome (ok_or (format_after_prefix order text.now) Fault.Struct) result }
{
    let mut codes = Vec::with_capacity(alloc, text.len().min(ROOM))?;
    let mut offset = 0usize;
    let mut arg_count = 0usize;
    let mut count = None;
    for &b in text {
        if b.is_ascii_digit() {
            match with_digit(count, b) {
                Some(n) => count = Some(n),
                None => return Ok(Outcome::Refused(Fault::Struct)),
            }
        } else {
            let Some(code) = allowed_code(order, b) else {
                return Ok(Outcome::Refused(Fault::Struct));
            };
            let Some((code, end)) = place(order, offset, count.unwrap_or(1), code) else {
                return Ok(Outcome::Refused(Fault::Struct));
            };
            codes.push(code)?;
            arg_count += code.arg_count();
            offset = end;
            count = None;
        }
    }
    if count.is_some() {
        return Ok(Outcome::Refused(Fault::Struct));
    }
    Ok(Outcome::Done(FormatSpec::new(order, codes, offset, arg_count)))
}

impl FormatSpec {
    /// The format that a text spells: an optional prefix and then any number of codes, each with
    /// an optional decimal count, as Python's `struct` page has it under "Byte Order, Size, and
    /// Alignment" and "Format Characters".
    ///
    /// Refused with `StructError` exactly where the text spells none: at a count without a code,
    /// at a byte that is neither a digit nor a code of the table (white space too), at `n`, `N` or
    /// `u` under another prefix than `@`, and where a count or the offset after a code passes
    /// `isize::MAX`.
    ///
    /// Example: of `b"<hI"` it gives a format of the size 6, and of `b"<h 2"` it is refused with `StructError`.
    pub fn parse(alloc: Global, format: &[u8]) -> Tried<FormatSpec>
        ensures { GivesOutcome (format_of format.now) result }
    {
        let (order, text) = split_prefix(format);
        spell(alloc, order, text)
    }
}
