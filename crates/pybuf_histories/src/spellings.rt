//! Values as lines spell them, with the names of their handles.
ghost use Rattle.std.specs.Prelude.{◌≡◌, [], ◌∷◌, ◌++◌, List, ℕ, OnOk};
ghost use Rattle.std.specs.Str.{byte};
ghost use Rattle.pybuf_line.specs.Scalars.{written_scalar};
ghost use Rattle.pybuf_line.specs.Spellings.{written_slice, written_parts, written_value};
ghost use Rattle.pybuf_histories.specs.Names.{name_of};
ghost use Rattle.pybuf_histories.specs.Words.{after_commas};
ghost use Rattle.pybuf_histories.specs.Pushing.{Pushes};

use crate::names::{push_bytes_value, push_name};
use pybuf_command::LoanList;
use pybuf_value::{Made, PySlice, Scalar, Value, push_number, push_truth};

/// Adds a text between quotes, in which nothing is escaped.
fn push_text(out: &mut Vec<u8>, text: &[u8]) -> Made<()>
    ensures { OnOk result (out.new.items ≡ out.old.items ++ (byte "'" ∷ text.now ++ byte "'" ∷ [])) }
{
    out.push(b'\'')?;
    out.extend_from_slice(text)?;
    out.push(b'\'')?;
    Ok(())
}

/// What a tuple or a list of a line may have as its parts.
trait Part {
    // The text that a part is written as, if a function tells how handles are written.
    ghost spelling: { (ℕ → List ℕ) → Self → List ℕ };

    /// Adds the part.
    fn push_part(&self, out: &mut Vec<u8>, loans: &LoanList) -> Made<()>
        ensures { OnOk result (out.new.items ≡ out.old.items ++ spelling (name_of loans.now) self.now) };
}

impl Part for Scalar {
    ghost spelling = { written_scalar };

    fn push_part(&self, out: &mut Vec<u8>, loans: &LoanList) -> Made<()> {
        match self {
            Scalar::None => out.extend_from_slice(b"None")?,
            Scalar::Bool(truth) => push_truth(out, *truth)?,
            Scalar::Int(number) => push_number(out, *number)?,
            Scalar::Text(text) => push_text(out, text.as_slice())?,
            Scalar::Bytes(bytes) => push_bytes_value(out, bytes.as_slice())?,
            Scalar::Ellipsis => out.extend_from_slice(b"...")?,
            Scalar::Handle(handle) => push_name(out, loans, *handle)?,
        }
        Ok(())
    }
}

impl Part for PySlice {
    ghost spelling = { written_slice };

    fn push_part(&self, out: &mut Vec<u8>, loans: &LoanList) -> Made<()> {
        self.start.push_part(out, loans)?;
        out.push(b':')?;
        self.stop.push_part(out, loans)?;
        out.push(b':')?;
        self.step.push_part(out, loans)
    }
}

/// Adds parts, each after a comma.
fn push_next_parts<T: Part>(out: &mut Vec<u8>, loans: &LoanList, parts: &[T]) -> Made<()>
    ensures { Pushes (after_commas (T.spelling (name_of loans.now)) parts.now) out.old out.new result }
{
    for part in parts {
        out.push(b',')?;
        part.push_part(out, loans)?;
    }
    Ok(())
}

/// Adds a first part, and others, each after a comma.
fn push_first_parts<T: Part>(out: &mut Vec<u8>, loans: &LoanList, first: &T, more: &[T]) -> Made<()>
    ensures { Pushes (written_parts (T.spelling (name_of loans.now)) (first.now ∷ more.now)) out.old out.new result }
{
    first.push_part(out, loans)?;
    push_next_parts(out, loans, more)
}

/// Adds parts with a comma between each two.
fn push_parts<T: Part>(out: &mut Vec<u8>, loans: &LoanList, parts: &[T]) -> Made<()>
    ensures { Pushes (written_parts (T.spelling (name_of loans.now)) parts.now) out.old out.new result }
{
    match parts {
        [] => Ok(()),
        [first, more @ ..] => push_first_parts(out, loans, first, more),
    }
}

/// Adds parts between an opening byte and a closing one.
fn push_enclosed<T: Part>(
    out: &mut Vec<u8>,
    loans: &LoanList,
    opening: u8,
    parts: &[T],
    closing: u8,
) -> Made<()>
    ensures { Pushes (opening ∷ written_parts (T.spelling (name_of loans.now)) parts.now ++ closing ∷ []) out.old out.new result }
{
    out.push(opening)?;
    push_parts(out, loans, parts)?;
    out.push(closing)?;
    Ok(())
}

/// Adds a value.
pub fn push_value(out: &mut Vec<u8>, loans: &LoanList, value: &Value) -> Made<()>
    ensures { OnOk result (out.new.items ≡ out.old.items ++ written_value (name_of loans.now) value.now) }
{
    match value {
        Value::One(one) => one.push_part(out, loans),
        Value::Slice(slice) => slice.push_part(out, loans),
        Value::Tuple(parts) => push_enclosed(out, loans, b'(', parts.as_slice(), b')'),
        Value::List(parts) => push_enclosed(out, loans, b'[', parts.as_slice(), b']'),
        Value::Slices(slices) => push_enclosed(out, loans, b'(', slices.as_slice(), b')'),
    }
}
