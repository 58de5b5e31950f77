//! Methods that give bytes another shape.
ghost use Rattle.std.specs.Prelude.{◌≡◌, length, Some, IfOk};
ghost use Rattle.std.specs.Option.{option_copied};
ghost use Rattle.pybuf_value.specs.Halting.{Gives};
ghost use Rattle.pybuf_bytes.specs.Shaping.{decoded};
ghost use Rattle.pybuf_shaping.specs.Arguments.{translation};
ghost use Rattle.pybuf_shaping.specs.Arguments as arguments;
ghost use Rattle.pybuf_shaping.specs.Digits.{hex_text, bytes_of_hex};
ghost use Rattle.pybuf_shaping.specs.Padding.{centered, justified_left, justified_right};
ghost use Rattle.pybuf_methods.specs.Shaped as spec;
ghost use Rattle.pybuf_value.specs.Lent.{lent_bytes, Lends};

use crate::contents::{Contents, bytes_of, fill_of, separator_given};
use crate::given::{
    at_most_one, at_most_two, done, one, one_or_two, text_given, two, two_or_three,
};
use pybuf_bytes::{MethodReply, decode_text};
use pybuf_shaping::{identity_table, tab_size};
use pybuf_value::{ByteList, Fault, Halt, Lent, Scalar, Text, Value, count_in, count_or, text_in};
use std::alloc::Global;

/// Hexadecimal digits, or why not.
fn digits_of(
    alloc: Global,
    bytes: &[u8],
    separator: Option<&[u8]>,
    size: isize,
) -> Result<Text, Halt>
    ensures { Gives (hex_text (option_copied separator.entry) size bytes.now) result }
{
    done(pybuf_shaping::hex_text(alloc, bytes, separator, size))
}

/// The bytes of hexadecimal digits, or why not.
fn bytes_of_digits(alloc: Global, text: &Text) -> Result<ByteList, Halt>
    ensures { Gives (bytes_of_hex text.now) result }
{
    done(pybuf_shaping::bytes_of_hex(alloc, text.as_slice()))
}

/// The table of 256 bytes that a value is read as; what can't be read is a wrong value. Python's `None` is
/// the one by which each byte stays.
fn table_in<'a, N: Contents>(
    alloc: Global,
    value: &'a Value,
    names: &'a N,
) -> Result<Lent<'a>, Halt>
    ensures table { Lends (arguments.table_in (N.pairs names.now) value.now) result }
    ensures full { IfOk result (λ table. length (lent_bytes table) ≡ 256) }
{
    if let Value::One(Scalar::None) = value {
        return Ok(Lent::Gathered(identity_table(alloc)?.into_vec()));
    }
    match bytes_of(alloc, value, names) {
        Ok(table) => {
            if table.as_slice().len() != 256 {
                return Err(Halt::Refused(Fault::Value));
            }
            Ok(table)
        }
        Err(Halt::Refused(Fault::UnknownName)) => Err(Halt::Refused(Fault::UnknownName)),
        Err(Halt::Refused(_)) => Err(Halt::Refused(Fault::Value)),
        Err(Halt::NoMemory) => Err(Halt::NoMemory),
    }
}

/// The bytes to be dropped: none where none are given.
fn dropped_given<'a, N: Contents>(
    alloc: Global,
    value: Option<&'a Value>,
    names: &'a N,
) -> Result<Lent<'a>, Halt>
    ensures { Lends (arguments.dropped_given (N.pairs names.now) (option_copied value.entry)) result }
{
    match value {
        None => Ok(Lent::Lies(&[])),
        Some(value) => bytes_of(alloc, value, names),
    }
}

/// Bytes mapped by a table, or why not.
fn mapped<N: Contents>(
    alloc: Global,
    bytes: &[u8],
    table: &Value,
    delete: Option<&Value>,
    names: &N,
) -> Result<ByteList, Halt>
    ensures { Gives (translation (N.pairs names.now) (Some table.now) (option_copied delete.entry) bytes.now) result }
{
    let table = table_in(alloc, table, names)?;
    let dropped = dropped_given(alloc, delete, names)?;
    let whole = pybuf_shaping::translate(alloc, bytes, table.as_slice(), dropped.as_slice())?;
    Ok(whole)
}

/// The text that bytes are, or why not.
fn text_of(
    alloc: Global,
    bytes: &[u8],
    encoding: Option<&Text>,
    errors: Option<&Text>,
) -> Result<Text, Halt>
    ensures { Gives (decoded bytes.now (option_copied encoding.entry) (option_copied errors.entry)) result }
{
    done(decode_text(alloc, bytes, encoding, errors))
}

/// The hexadecimal digits of bytes, with a separator between groups where one is given, as an argument
/// of Python's `bytes.hex`. The groups are of one byte where no size is given.
///
/// Refused with `UnknownName` where the separator is a handle that names nothing, and with `TypeError`
/// where it is neither a text nor bytes; then with `TypeError` and `OverflowError` by the size; then,
/// where there are bytes and the size isn't 0, with `ValueError` for a separator that isn't one byte
/// below 128, and with `OverflowError` where the text is longer than `isize::MAX`.
///
/// Example: of `b"Abc"`, the separator `':'` and the size 2 it gives the text `41:6263`.
pub fn hex_of<N: Contents>(
    alloc: Global,
    bytes: &[u8],
    separator: Option<&Value>,
    size: Option<&Value>,
    names: &N,
) -> Result<Text, Halt>
    ensures { Gives (spec.hex_of (N.pairs names.now) (option_copied separator.entry) (option_copied size.entry) bytes.now) result }
{
    let separator = separator_given(separator, names)?;
    let size = count_or(1, size)?;
    digits_of(alloc, bytes, separator, size)
}

/// The method of this name.
pub(crate) fn hex<N: Contents>(
    alloc: Global,
    bytes: &[u8],
    args: &[Value],
    names: &N,
) -> Result<MethodReply, Halt>
    ensures { Gives (spec.hex (N.pairs names.now) bytes.now args.now) result }
{
    let (separator, size) = at_most_two(args)?;
    let text = hex_of(alloc, bytes, separator, size, names)?;
    Ok(MethodReply::Text(text))
}

/// The bytes that hexadecimal digits write.
pub(crate) fn fromhex(alloc: Global, args: &[Value]) -> Result<MethodReply, Halt>
    ensures { Gives (spec.fromhex args.now) result }
{
    let digits = one(args)?;
    let text = text_in(digits)?;
    let bytes = bytes_of_digits(alloc, text)?;
    Ok(MethodReply::Bytes(bytes))
}

/// The width and the fill byte of padding.
fn width_and_fill<N: Contents>(args: &[Value], names: &N) -> Result<(isize, u8), Fault>
    ensures { result ≡ spec.width_and_fill (N.pairs names.now) args.now }
{
    let (width, fill) = one_or_two(args)?;
    let width = count_in(width)?;
    let fill = fill_of(fill, names)?;
    Ok((width, fill))
}

/// The bytes in the middle of a width.
pub(crate) fn center<N: Contents>(
    alloc: Global,
    bytes: &[u8],
    args: &[Value],
    names: &N,
) -> Result<MethodReply, Halt>
    ensures { Gives (spec.padded centered (N.pairs names.now) bytes.now args.now) result }
{
    let (width, fill) = width_and_fill(args, names)?;
    let whole = pybuf_shaping::center(alloc, bytes, width, fill)?;
    Ok(MethodReply::Bytes(whole))
}

/// The bytes on the left of a width.
pub(crate) fn ljust<N: Contents>(
    alloc: Global,
    bytes: &[u8],
    args: &[Value],
    names: &N,
) -> Result<MethodReply, Halt>
    ensures { Gives (spec.padded justified_left (N.pairs names.now) bytes.now args.now) result }
{
    let (width, fill) = width_and_fill(args, names)?;
    let whole = pybuf_shaping::justify_left(alloc, bytes, width, fill)?;
    Ok(MethodReply::Bytes(whole))
}

/// The bytes on the right of a width.
pub(crate) fn rjust<N: Contents>(
    alloc: Global,
    bytes: &[u8],
    args: &[Value],
    names: &N,
) -> Result<MethodReply, Halt>
    ensures { Gives (spec.padded justified_right (N.pairs names.now) bytes.now args.now) result }
{
    let (width, fill) = width_and_fill(args, names)?;
    let whole = pybuf_shaping::justify_right(alloc, bytes, width, fill)?;
    Ok(MethodReply::Bytes(whole))
}

/// Zeros up to a width.
pub(crate) fn zfill(alloc: Global, bytes: &[u8], args: &[Value]) -> Result<MethodReply, Halt>
    ensures { Gives (spec.zfill bytes.now args.now) result }
{
    let width = one(args)?;
    let width = count_in(width)?;
    let whole = pybuf_shaping::zero_fill(alloc, bytes, width)?;
    Ok(MethodReply::Bytes(whole))
}

/// Spaces in place of tabs, of size 8 where none is given.
pub(crate) fn expandtabs(alloc: Global, bytes: &[u8], args: &[Value]) -> Result<MethodReply, Halt>
    ensures { Gives (spec.expandtabs bytes.now args.now) result }
{
    let size = at_most_one(args)?;
    let size = count_or(8, size)?;
    let whole = done(pybuf_shaping::expand_tabs(alloc, bytes, tab_size(size)))?;
    Ok(MethodReply::Bytes(whole))
}

/// A table of counterparts.
pub(crate) fn maketrans<N: Contents>(
    alloc: Global,
    args: &[Value],
    names: &N,
) -> Result<MethodReply, Halt>
    ensures { Gives (spec.maketrans (N.pairs names.now) args.now) result }
{
    let (from, to) = two(args)?;
    let from = bytes_of(alloc, from, names)?;
    let to = bytes_of(alloc, to, names)?;
    let table = done(pybuf_shaping::make_table(alloc, from.as_slice(), to.as_slice()))?;
    Ok(MethodReply::Bytes(table))
}

/// Bytes mapped by a table.
pub(crate) fn translate<N: Contents>(
    alloc: Global,
    bytes: &[u8],
    args: &[Value],
    names: &N,
) -> Result<MethodReply, Halt>
    ensures { Gives (spec.translate (N.pairs names.now) bytes.now args.now) result }
{
    let (table, delete) = one_or_two(args)?;
    let whole = mapped(alloc, bytes, table, delete, names)?;
    Ok(MethodReply::Bytes(whole))
}

/// Others in place of matches, of all where no number is given.
pub(crate) fn replace<N: Contents>(
    alloc: Global,
    bytes: &[u8],
    args: &[Value],
    names: &N,
) -> Result<MethodReply, Halt>
    ensures { Gives (spec.replace (N.pairs names.now) bytes.now args.now) result }
{
    let (old, new, most) = two_or_three(args)?;
    let old = bytes_of(alloc, old, names)?;
    let new = bytes_of(alloc, new, names)?;
    let most = count_or(-1, most)?;
    let whole = done(pybuf_shaping::replace(alloc, bytes, old.as_slice(), new.as_slice(), most))?;
    Ok(MethodReply::Bytes(whole))
}

/// The text that the bytes are.
pub(crate) fn decode(alloc: Global, bytes: &[u8], args: &[Value]) -> Result<MethodReply, Halt>
    ensures { Gives (spec.decode bytes.now args.now) result }
{
    let (encoding, errors) = at_most_two(args)?;
    let encoding = text_given(encoding)?;
    let errors = text_given(errors)?;
    let text = text_of(alloc, bytes, encoding, errors)?;
    Ok(MethodReply::Text(text))
}
