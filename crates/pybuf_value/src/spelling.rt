//! Values as texts, as Python's `repr` writes them.
ghost use Rattle.std.specs.Prelude.{◌≡◌, ◌++◌, OnOk, IsTrue, codes};
ghost use Rattle.std.specs.Str.{IsUtf8};
ghost use Rattle.std.specs.Fmt.{signed_decimal};
ghost use Rattle.pybuf_value.specs.Quotes.{quoted_text, repr_of};
ghost use Rattle.pybuf_value.specs.Halting.{Gives, GivesOutcome};
ghost use Rattle.pybuf_value.specs.Spelling.{bytes_text, truth_text, handle_text, scalar_text};
ghost use Rattle.pybuf_value.specs.Texts.{is_ascii, fitted};

use crate::faults::{Fault, Tried};
use crate::halt::{Halt, tried};
use crate::quotes::{push_quoted, quoted_length};
use crate::text::Text;
use crate::values::Scalar;
use itoa::Buffer;
use pybuf_copy::Made;
use std::alloc::Global;

/// The bytes between quotes, after two texts and before another, in room that is taken once.
///
/// Refused with `OverflowError` exactly where that is more than `isize::MAX` bytes.
fn quoted_between(
    alloc: Global,
    name: &[u8],
    opening: &[u8],
    bytes: &[u8],
    closing: &[u8],
) -> Result<Text, Halt>
    requires name { IsUtf8 name.now }
    requires opening { IsUtf8 opening.now }
    requires closing { IsUtf8 closing.now }
    ensures { Gives (fitted (repr_of (name.now ++ opening.now) bytes.now closing.now)) result }
{
    let around = name.len() as u128 + opening.len() as u128 + closing.len() as u128;
    let length = around + quoted_length(bytes);
    if length > isize::MAX as u128 {
        return Err(Halt::Refused(Fault::Overflow));
    }
    let mut text = Vec::with_capacity(alloc, length as usize)?;
    text.extend_from_slice(name)?;
    text.extend_from_slice(opening)?;
    push_quoted(&mut text, bytes)?;
    text.extend_from_slice(closing)?;
    Ok(Text::from_utf8(text))
}

/// The bytes between quotes, as Python's `repr` writes them, after one text and before another, both
/// of ASCII: `b'..'` after `b` and before nothing, `bytearray(b'..')` after `bytearray(b` and before
/// `)` (Python's library reference, "Bytes Objects" and "Bytearray Objects"). The room is taken once.
///
/// Refused with `OverflowError` exactly where the text is more than `isize::MAX` bytes.
///
/// Example: `repr_text(alloc, b"b", b"a\0", b"")` gives the text `b'a\x00'`.
pub fn repr_text(alloc: Global, before: &[u8], bytes: &[u8], after: &[u8]) -> Tried<Text>
    requires before { IsTrue (is_ascii before.now) }
    requires after { IsTrue (is_ascii after.now) }
    ensures { GivesOutcome (fitted (repr_of before.now bytes.now after.now)) result }
{
    tried(quoted_between(alloc, b"", before, bytes, after))
}

/// The bytes as the argument of a call of a name, as Python's `repr` of a bytearray writes them:
/// `NAME(b'..')` (library reference, "Bytearray Objects").
///
/// Refused with `OverflowError` exactly where the text is more than `isize::MAX` bytes.
///
/// Example: `named_repr_text(alloc, "bytearray", b"ab")` gives the text `bytearray(b'ab')`.
pub fn named_repr_text(alloc: Global, name: &str, bytes: &[u8]) -> Tried<Text>
    ensures { GivesOutcome (fitted (repr_of (name.now ++ codes "(b") bytes.now (codes ")"))) result }
{
    tried(quoted_between(alloc, name.as_bytes(), b"(b", bytes, b")"))
}

/// Adds a number in decimal digits, with its sign.
///
/// Where memory runs out, a part of it may have been added.
///
/// Example: of -5 it adds `-5`.
pub fn push_number(out: &mut Vec<u8>, number: i128) -> Made<()>
    ensures { OnOk result (out.new.items ≡ out.old.items ++ signed_decimal number) }
{
    let mut buffer = Buffer::new();
    out.extend_from_slice(buffer.format(number).as_bytes())?;
    Ok(())
}

/// Adds bytes as Python's `repr` writes them.
///
/// Where memory runs out, a part of it may have been added.
///
/// Example: of `b"a\0"` it adds `b'a\x00'`.
pub fn push_bytes(out: &mut Vec<u8>, bytes: &[u8]) -> Made<()>
    ensures { OnOk result (out.new.items ≡ out.old.items ++ bytes_text bytes.now) }
{
    out.push(b'b')?;
    push_quoted(out, bytes)
}

/// Adds a truth value, `True` or `False`.
///
/// Where memory runs out, a part of it may have been added.
///
/// Example: of true it adds `True`.
pub fn push_truth(out: &mut Vec<u8>, truth: bool) -> Made<()>
    ensures { OnOk result (out.new.items ≡ out.old.items ++ truth_text truth) }
{
    if truth {
        out.extend_from_slice(b"True")?;
    } else {
        out.extend_from_slice(b"False")?;
    }
    Ok(())
}

/// Adds a handle: `h` and its number.
///
/// Where memory runs out, a part of it may have been added.
///
/// Example: of 3 it adds `h3`.
pub fn push_handle(out: &mut Vec<u8>, handle: u64) -> Made<()>
    ensures { OnOk result (out.new.items ≡ out.old.items ++ handle_text handle) }
{
    let mut buffer = Buffer::new();
    out.push(b'h')?;
    out.extend_from_slice(buffer.format(handle).as_bytes())?;
    Ok(())
}

/// Adds a value without parts as a reply spells it: `None`, `True`, `False` and `Ellipsis` by name,
/// a number in decimal digits, bytes and texts between quotes, bytes with a `b` before them, and a
/// handle as `h` and its number.
///
/// Where memory runs out, a part of it may have been added.
///
/// Example: of the text `H` it adds `'H'`, and of `Scalar::None` it adds `None`.
pub fn push_scalar(out: &mut Vec<u8>, value: &Scalar) -> Made<()>
    ensures { OnOk result (out.new.items ≡ out.old.items ++ scalar_text handle_text value.now) }
{
    match value {
        Scalar::None => out.extend_from_slice(b"None")?,
        Scalar::Bool(truth) => push_truth(out, *truth)?,
        Scalar::Int(number) => push_number(out, *number)?,
        Scalar::Text(text) => push_quoted(out, text.as_slice())?,
        Scalar::Bytes(bytes) => push_bytes(out, bytes.as_slice())?,
        Scalar::Ellipsis => out.extend_from_slice(b"Ellipsis")?,
        Scalar::Handle(handle) => push_handle(out, *handle)?,
    }
    Ok(())
}
