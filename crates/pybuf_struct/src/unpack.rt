//! Values from bytes.
ghost use Rattle.std.specs.Prelude.{◌≡◌, ◌+◌, ◌*◌, ◌≤◌, ◌<◌, ◌^◌, ◌++◌, length, IfOk, OnOk, IsTrue};
ghost use Rattle.pybuf_struct.specs.Table.{size_of};
ghost use Rattle.pybuf_struct.specs.Formats.{span, extent, fields_from};
ghost use Rattle.pybuf_value.specs.Halting.{GivesOutcome};
ghost use Rattle.pybuf_struct.specs.Values.{is_length, pascal_content, value_of, unpacked_values, values_in_row, values_of_code, values_of_codes};

use crate::digits::number;
use crate::format::{FormatCode, FormatSpec};
use crate::table::{Endianness, FormatType};
use pybuf_value::{ByteList, Fault, Made, Outcome, Scalar, ScalarList, Tried};
use std::alloc::Global;

/// The value of a field's bytes.
#[inline(always)]
fn value_of(alloc: Global, order: Endianness, code: FormatType, bytes: &[u8]) -> Made<Scalar>
    requires { IsTrue (is_length order code (length bytes.now)) }
    ensures { IfOk result (λ v. v ≡ value_of order code bytes.now) }
{
    match code {
        FormatType::Pad => Ok(Scalar::None),
        FormatType::Bool => Ok(Scalar::Bool(bytes[0] != 0)),
        FormatType::Char | FormatType::Str => {
            let content = Vec::from_slice(alloc, bytes)?;
            Ok(Scalar::Bytes(ByteList::from_vec(content)))
        }
        FormatType::Pascal => {
            let content = Vec::from_slice(alloc, pascal_content(bytes))?;
            Ok(Scalar::Bytes(ByteList::from_vec(content)))
        }
        _ => Ok(Scalar::Int(number(order.is_big(), code.is_signed(), bytes))),
    }
}

/// The bytes of a Pascal string: as many as its first byte says, at most the rest of the field.
fn pascal_content(field: &[u8]) -> &[u8]
    ensures { result.now ≡ pascal_content field.now }
{
    match field {
        [] => field,
        [len, rest @ ..] => &rest[..rest.len().min(*len as usize)],
    }
}

/// Adds the values of so many fields of one size from an offset on, and gives the offset after them.
fn push_row(
    alloc: Global,
    out: &mut Vec<Scalar>,
    order: Endianness,
    code: FormatType,
    bytes: &[u8],
    offset: usize,
    count: usize,
) -> Made<usize>
    requires one { IsTrue (is_length order code (size_of order code)) }
    requires within { offset + count * size_of order code ≤ length bytes.now }
    ensures values { OnOk result (out.new.items ≡ out.old.items ++ values_in_row order bytes.now code offset count) }
    ensures end { IfOk result (λ end. end ≡ offset + count * size_of order code) }
{
    let size = code.size(order);
    let mut at = offset;
    for _done in 0..count {
        let end = at + size;
        out.push(value_of(alloc, order, code, &bytes[at..end])?)?;
        at = end;
    }
    Ok(at)
}

/// Adds the values of a code's fields, of which the first is at an offset, and gives the offset after them.
fn push_code(
    alloc: Global,
    out: &mut Vec<Scalar>,
    order: Endianness,
    code: &FormatCode,
    bytes: &[u8],
    offset: usize,
) -> Made<usize>
    requires { offset + span order code.now ≤ length bytes.now }
    ensures values { OnOk result (out.new.items ≡ out.old.items ++ values_of_code order bytes.now code.now offset) }
    ensures end { IfOk result (λ end. end ≡ offset + span order code.now) }
{
    let kind = code.code();
    let repeat = code.repeat();
    match kind {
        FormatType::Pad => Ok(offset + repeat),
        FormatType::Str | FormatType::Pascal => {
            let end = offset + repeat;
            out.push(value_of(alloc, order, kind, &bytes[offset..end])?)?;
            Ok(end)
        }
        _ => push_row(alloc, out, order, kind, bytes, offset, repeat),
    }
}

/// Adds the values of the fields of codes that follow one another.
fn push_all(
    alloc: Global,
    out: &mut Vec<Scalar>,
    order: Endianness,
    codes: &[FormatCode],
    bytes: &[u8],
) -> Made<()>
    requires { extent order codes.now ≤ length bytes.now }
    ensures { OnOk result (out.new.items ≡ out.old.items ++ values_of_codes order bytes.now codes.now) }
{
    let mut at = 0;
    for code in codes {
        at = push_code(alloc, out, order, code, bytes, at + code.pre_padding())?;
    }
    Ok(())
}

impl FormatSpec {
    /// The values of the bytes, one for each field, in order: numbers as whole numbers, truth
    /// values for `?`, and bytes values for `c`, `s` and `p`. Bytes of `x` and of alignment are
    /// not looked at.
    ///
    /// Refused with `StructError` exactly where the number of bytes isn't the format's size.
    ///
    /// Example: of `<hI` and `b"\xff\xff\x05\0\0\0"` it gives -1 and 5.
    pub fn unpack(&self, alloc: Global, bytes: &[u8]) -> Tried<ScalarList>
        ensures { GivesOutcome (unpacked_values self.now bytes.now) result }
    {
        if bytes.len() != self.size() {
            return Ok(Outcome::Refused(Fault::Struct));
        }
        let mut out = Vec::with_capacity(alloc, self.arg_count())?;
        push_all(alloc, &mut out, self.endianness(), self.codes(), bytes)?;
        Ok(Outcome::Done(ScalarList::from_vec(out)))
    }
}
