//! The value of one field of a record, read from where it lies and compared.
ghost use Rattle.std.specs.Prelude.{◌≡◌, true, ◌+◌, ◌≤◌, length, IsTrue};
ghost use Rattle.pybuf_value.specs.declared.values.Scalar.TheVariants as scalar;
ghost use Rattle.pybuf_value.specs.Equality.{counted};
ghost use Rattle.pybuf_struct.specs.Values.{is_length, pascal_content, value_of, value_in};
ghost use Rattle.pybuf_table.specs.Chosen.{compares, has_value};

use crate::field_place::FieldPlace;
use crate::numbers::{is_big, is_signed, number};
use pybuf_struct::{Endianness, FormatType};
use pybuf_value::{CompareOp, Scalar, compare_bytes};

/// A value of a field: a number, as which a truth value counts too, or bytes that lie in the record.
#[derive(Clone, Copy)]
pub(crate) enum LentValue<'a> {
    Number(i128),
    Bytes(&'a [u8]),
}

/// The bytes of a Pascal string: as many as its first byte says, at most the rest of the field.
pub(crate) fn pascal_content(field: &[u8]) -> &[u8]
    ensures { result.now ≡ pascal_content field.now }
{
    match field {
        [] => field,
        [len, rest @ ..] => &rest[..rest.len().min(*len as usize)],
    }
}

/// What an operator answers of two numbers.
fn compare_numbers(op: CompareOp, left: i128, right: i128) -> bool
    ensures { result ≡ compares op (scalar.Int left) (scalar.Int right) }
{
    match op {
        CompareOp::Eq => left == right,
        CompareOp::Ne => left != right,
        _ => op.answer(left.cmp(&right)),
    }
}

/// What an operator answers of a number and a value.
fn compare_number(op: CompareOp, left: i128, right: &Scalar) -> bool
    ensures { result ≡ compares op (scalar.Int left) right.now }
{
    match right {
        Scalar::Int(number) => compare_numbers(op, left, *number),
        Scalar::Bool(truth) => {
            if *truth {
                compare_numbers(op, left, 1)
            } else {
                compare_numbers(op, left, 0)
            }
        }
        _ => matches!(op, CompareOp::Ne),
    }
}

/// What an operator answers of bytes and a value.
fn compare_lent(op: CompareOp, left: &[u8], right: &Scalar) -> bool
    ensures { result ≡ compares op (scalar.Bytes left.now) right.now }
{
    match right {
        Scalar::Bytes(bytes) => match op {
            CompareOp::Eq => left == bytes.as_slice(),
            CompareOp::Ne => left != bytes.as_slice(),
            _ => compare_bytes(left, bytes.as_slice(), op),
        },
        _ => matches!(op, CompareOp::Ne),
    }
}

impl<'a> LentValue<'a> {
    ghost use Rattle.pybuf_table.specs.Lending.{scalar_of};

    /// The value of a field's bytes.
    pub(crate) fn of_bytes(order: Endianness, code: FormatType, bytes: &'a [u8]) -> LentValue<'a>
        requires long { IsTrue (is_length order code (length bytes.now)) }
        requires valued { has_value code ≡ true }
        ensures { scalar_of result ≡ counted (value_of order code bytes.now) }
    {
        match code {
            FormatType::Bool => LentValue::Number(if bytes[0] == 0 { 0 } else { 1 }),
            FormatType::Pad => unreachable!(),
            FormatType::Char | FormatType::Str => LentValue::Bytes(bytes),
            FormatType::Pascal => LentValue::Bytes(pascal_content(bytes)),
            _ => LentValue::Number(number(is_big(order), is_signed(code), bytes)),
        }
    }

    /// The value of a field of a record.
    pub(crate) fn of_field(order: Endianness, place: FieldPlace, bytes: &'a [u8]) -> LentValue<'a>
        requires inside { place.offset + place.length ≤ length bytes.now }
        requires long { IsTrue (is_length order place.code place.length) }
        requires valued { has_value place.code ≡ true }
        ensures { scalar_of result ≡ counted (value_in order bytes.now place) }
    {
        let end = place.offset + place.length;
        LentValue::of_bytes(order, place.code, &bytes[place.offset..end])
    }

    /// What an operator answers of it and a value.
    pub(crate) fn compare(self, op: CompareOp, right: &Scalar) -> bool
        ensures { result ≡ compares op (scalar_of self.entry) right.now }
    {
        match self {
            LentValue::Number(number) => compare_number(op, number, right),
            LentValue::Bytes(bytes) => compare_lent(op, bytes, right),
        }
    }
}
