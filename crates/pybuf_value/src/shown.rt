//! Values as they are shown (`Display`): the texts that replies have, and Python's `repr` of slices, tuples and lists.
ghost use Rattle.std.specs.Prelude.{◌≡◌, ◌<◌, ◌++◌, ◌∷◌, [], List, ℕ, Some, codes};
ghost use Rattle.std.specs.Fmt.{WritesOnOk, signed_decimal};
ghost use Rattle.std.specs.List.{flat_map};
ghost use Rattle.pybuf_value.specs.Quotes.{digits_of, escaped_byte, quoted_text};
ghost use Rattle.pybuf_value.specs.Spelling.{bytes_text, truth_text, handle_text, scalar_text, next_part_text, tuple_text, list_text, item_text, slice_text, value_text};

use crate::list::ByteList;
use crate::quotes::{hexadecimal, quote};
use crate::values::{Item, PySlice, Scalar, Value};
use std::fmt;

/// Writes a byte as `\x` and two hexadecimal digits.
fn write_hexadecimal<W: fmt::Write>(f: &mut fmt::Formatter<W>, byte: u8) -> fmt::Result
    ensures { WritesOnOk W.write_str_gives f.old result (codes "\\x" ++ digits_of byte) f.new }
{
    let digits = hexadecimal(byte);
    f.write_str("\\x")?;
    f.write_char(char::from(digits[0]))?;
    f.write_char(char::from(digits[1]))
}

/// Writes a byte as it stands between such quotes.
fn write_escaped_byte<W: fmt::Write>(f: &mut fmt::Formatter<W>, quote: u8, byte: u8) -> fmt::Result
    requires { quote < 128 }
    ensures { WritesOnOk W.write_str_gives f.old result (escaped_byte quote byte) f.new }
{
    if byte == quote {
        f.write_char('\\')?;
        return f.write_char(char::from(byte));
    }
    if byte == b'\\' {
        return f.write_str("\\\\");
    }
    if byte == b'\t' {
        return f.write_str("\\t");
    }
    if byte == b'\n' {
        return f.write_str("\\n");
    }
    if byte == b'\r' {
        return f.write_str("\\r");
    }
    if byte >= 32 {
        if byte <= 126 {
            return f.write_char(char::from(byte));
        }
    }
    write_hexadecimal(f, byte)
}

/// Writes bytes as they stand between such quotes.
fn write_escaped<W: fmt::Write>(f: &mut fmt::Formatter<W>, quote: u8, bytes: &[u8]) -> fmt::Result
    requires { quote < 128 }
    ensures { WritesOnOk W.write_str_gives f.old result (flat_map (escaped_byte quote) bytes.now) f.new }
{
    for byte in bytes {
        write_escaped_byte(f, quote, *byte)?;
    }
    Ok(())
}

/// Writes bytes between quotes, as Python's `repr` writes them, without the `b`.
///
/// Example: of `b"a\0"` it writes `'a\x00'`.
pub fn write_quoted<W: fmt::Write>(f: &mut fmt::Formatter<W>, bytes: &[u8]) -> fmt::Result
    ensures { WritesOnOk W.write_str_gives f.old result (quoted_text bytes.now) f.new }
{
    let quote = quote(bytes);
    f.write_char(char::from(quote))?;
    write_escaped(f, quote, bytes)?;
    f.write_char(char::from(quote))
}

/// Writes bytes, as Python's `repr` writes them.
///
/// Example: of `b"a\0"` it writes `b'a\x00'`.
pub fn write_bytes<W: fmt::Write>(f: &mut fmt::Formatter<W>, bytes: &[u8]) -> fmt::Result
    ensures { WritesOnOk W.write_str_gives f.old result (bytes_text bytes.now) f.new }
{
    f.write_str("b")?;
    write_quoted(f, bytes)
}

/// Writes a truth value, `True` or `False`.
///
/// Example: of true it writes `True`.
pub fn write_truth<W: fmt::Write>(f: &mut fmt::Formatter<W>, truth: bool) -> fmt::Result
    ensures { WritesOnOk W.write_str_gives f.old result (truth_text truth) f.new }
{
    if truth {
        f.write_str("True")
    } else {
        f.write_str("False")
    }
}

/// As replies have it: `None`, `True`, `False` and `Ellipsis` by name, a number in decimal digits, bytes and texts
/// between quotes, bytes with a `b` before them, and a handle as `h` and its number.
impl fmt::Display for Scalar {
    ghost output = { λ s. Some (scalar_text handle_text s) };

    fn fmt<W: fmt::Write>(&self, f: &mut fmt::Formatter<W>) -> fmt::Result {
        match self {
            Scalar::None => f.write_str("None"),
            Scalar::Bool(truth) => write_truth(f, *truth),
            Scalar::Int(number) => write!(f, "{number}"),
            Scalar::Text(text) => write_quoted(f, text.as_slice()),
            Scalar::Bytes(bytes) => write_bytes(f, bytes.as_slice()),
            Scalar::Ellipsis => f.write_str("Ellipsis"),
            Scalar::Handle(handle) => write!(f, "h{handle}"),
        }
    }
}

/// What a tuple or a list that is shown may have as its parts.
///
/// Example: the number 5 is a part that is written as `5`.
pub trait Shown {
    // The text that a part is written as.
    ghost text: { Self → List ℕ };

    /// Writes the part, as it stands in a tuple or a list.
    ///
    /// Example: of the bytes `b"ab"` it writes `b'ab'`.
    fn show<W: fmt::Write>(&self, f: &mut fmt::Formatter<W>) -> fmt::Result
        ensures { WritesOnOk W.write_str_gives f.old result (text self.now) f.new };
}

impl Shown for i128 {
    ghost text = { signed_decimal };

    fn show<W: fmt::Write>(&self, f: &mut fmt::Formatter<W>) -> fmt::Result {
        let number = *self;
        write!(f, "{number}")
    }
}

impl Shown for ByteList {
    ghost text = { bytes_text };

    fn show<W: fmt::Write>(&self, f: &mut fmt::Formatter<W>) -> fmt::Result {
        write_bytes(f, self.as_slice())
    }
}

impl Shown for Scalar {
    ghost text = { scalar_text handle_text };

    fn show<W: fmt::Write>(&self, f: &mut fmt::Formatter<W>) -> fmt::Result {
        write!(f, "{self}")
    }
}

impl Shown for PySlice {
    ghost text = { slice_text };

    fn show<W: fmt::Write>(&self, f: &mut fmt::Formatter<W>) -> fmt::Result {
        write!(f, "{self}")
    }
}

impl Shown for Item {
    ghost text = { item_text handle_text };

    fn show<W: fmt::Write>(&self, f: &mut fmt::Formatter<W>) -> fmt::Result {
        write!(f, "{self}")
    }
}

/// Writes the parts of a tuple or a list after the first.
fn write_next_parts<T: Shown, W: fmt::Write>(f: &mut fmt::Formatter<W>, parts: &[T]) -> fmt::Result
    ensures { WritesOnOk W.write_str_gives f.old result (flat_map (next_part_text T.text) parts.now) f.new }
{
    for part in parts {
        f.write_str(", ")?;
        part.show(f)?;
    }
    Ok(())
}

/// Writes a tuple, as Python's `repr` does.
///
/// Example: of 1, 2 it writes `(1, 2)`, and of 1 alone `(1,)`.
pub fn write_tuple<T: Shown, W: fmt::Write>(f: &mut fmt::Formatter<W>, parts: &[T]) -> fmt::Result
    ensures { WritesOnOk W.write_str_gives f.old result (tuple_text T.text parts.now) f.new }
{
    match parts {
        [] => f.write_str("()"),
        [part] => {
            f.write_str("(")?;
            part.show(f)?;
            f.write_str(",)")
        }
        [part, more @ ..] => {
            f.write_str("(")?;
            part.show(f)?;
            write_next_parts(f, more)?;
            f.write_str(")")
        }
    }
}

/// Writes a list, as Python's `repr` does.
///
/// Example: of 1, 2 it writes `[1, 2]`.
pub fn write_list<T: Shown, W: fmt::Write>(f: &mut fmt::Formatter<W>, parts: &[T]) -> fmt::Result
    ensures { WritesOnOk W.write_str_gives f.old result (list_text T.text parts.now) f.new }
{
    match parts {
        [] => f.write_str("[]"),
        [part, more @ ..] => {
            f.write_str("[")?;
            part.show(f)?;
            write_next_parts(f, more)?;
            f.write_str("]")
        }
    }
}

/// As Python's `repr` of a slice.
impl fmt::Display for PySlice {
    ghost output = { λ s. Some (slice_text s) };

    fn fmt<W: fmt::Write>(&self, f: &mut fmt::Formatter<W>) -> fmt::Result {
        let PySlice { start, stop, step } = self;
        write!(f, "slice({start}, {stop}, {step})")
    }
}

/// As replies have it: the one value, or the values as a tuple.
impl fmt::Display for Item {
    ghost output = { λ i. Some (item_text handle_text i) };

    fn fmt<W: fmt::Write>(&self, f: &mut fmt::Formatter<W>) -> fmt::Result {
        match self {
            Item::One(part) => write!(f, "{part}"),
            Item::Many(parts) => write_tuple(f, parts.as_slice()),
        }
    }
}

/// As Python's `repr`: a slice, a tuple or a list by their parts, and else as a reply has it.
impl fmt::Display for Value {
    ghost output = { λ v. Some (value_text v) };

    fn fmt<W: fmt::Write>(&self, f: &mut fmt::Formatter<W>) -> fmt::Result {
        match self {
            Value::One(part) => write!(f, "{part}"),
            Value::Slice(slice) => write!(f, "{slice}"),
            Value::Tuple(parts) => write_tuple(f, parts.as_slice()),
            Value::List(parts) => write_list(f, parts.as_slice()),
            Value::Slices(slices) => write_tuple(f, slices.as_slice()),
        }
    }
}
