//! Where the fields of a record lie.
ghost use Rattle.std.specs.Prelude.{◌≡◌, true, ◌+◌, ◌≤◌, ◌<◌, ◌^◌, Some, IfSome, IsTrue, slice_get};
ghost use Rattle.pybuf_struct.specs.Table.{size_of};
ghost use Rattle.pybuf_struct.specs.Formats.{span, extent, field_count, fields, fields_of_code, fields_from};
ghost use Rattle.pybuf_struct.specs.Values.{is_length};
ghost use Rattle.pybuf_table.specs.Chosen.{has_value};

use pybuf_struct::{Endianness, FormatCode, FormatSpec, FormatType};
use std::marker::Model;

/// Where a field lies in its record, and what it holds.
#[derive(Clone, Copy, Debug)]
pub(crate) struct FieldPlace {
    pub(crate) code: FormatType,
    pub(crate) offset: usize,
    pub(crate) length: usize,
}

impl Model for FieldPlace {
    ghost use Rattle.pybuf_struct.specs.Formats.{Field};

    ghost Value = { Field };

    ghost view = { λ f. record { code = f.code; offset = f.offset; length = f.length } };

    ghost inverse = { λ f. record { code = f.code; offset = f.offset; length = f.length } };
}

/// The bytes that one unit of a code's count takes.
fn unit_size(order: Endianness, code: FormatType) -> usize
    ensures value { result ≡ size_of order code }
    ensures small { result ≤ 8 }
{
    match code {
        FormatType::Short | FormatType::UShort => 2,
        FormatType::Int | FormatType::UInt | FormatType::WideChar => 4,
        FormatType::Long | FormatType::ULong => {
            if matches!(order, Endianness::Native) {
                8
            } else {
                4
            }
        }
        FormatType::LongLong | FormatType::ULongLong | FormatType::SSizeT | FormatType::SizeT => 8,
        _ => 1,
    }
}

/// The bytes of a code without its padding.
fn span(order: Endianness, code: &FormatCode) -> usize
    requires { span order code.now < 2 ^ 64 }
    ensures { result ≡ span order code.now }
{
    code.repeat() * unit_size(order, code.code())
}

/// The field of a number among those of a code, of which the first begins at a place.
#[tactic(auto, using(pybuf_lemmas::proofs::Numbers::item_ends_before_next, crate::proofs::FieldLemmas::unit_in_row))]
fn field_of_code(order: Endianness, code: &FormatCode, start: usize, number: usize) -> FieldPlace
    requires there { number < field_count code.now }
    requires fits { start + span order code.now < 2 ^ 63 }
    ensures value { slice_get (fields_of_code code.now.code (size_of order code.now.code) start code.now.repeat) number ≡ Some result }
    ensures inside { result.offset + result.length ≤ start + span order code.now }
    ensures long { IsTrue (is_length order result.code result.length) }
    ensures valued { has_value result.code ≡ true }
{
    let kind = code.code();
    let repeat = code.repeat();
    match kind {
        FormatType::Str | FormatType::Pascal => FieldPlace {
            code: kind,
            offset: start,
            length: repeat,
        },
        _ => {
            let size = unit_size(order, kind);
            FieldPlace {
                code: kind,
                offset: start + number * size,
                length: size,
            }
        }
    }
}

/// The field of a number, None where the format has fewer.
pub(crate) fn find_field(format: &FormatSpec, field: usize) -> Option<FieldPlace>
    ensures value { result ≡ slice_get (fields format.now) field }
    ensures inside { IfSome result (λ place. place.offset + place.length ≤ format.now.size) }
    ensures long { IfSome result (λ place. IsTrue (is_length format.now.order place.code place.length)) }
    ensures valued { IfSome result (λ place. has_value place.code ≡ true) }
{
    let order = format.endianness();
    let _size = format.size();
    let codes = format.codes();
    let mut left = field;
    let mut at = 0;
    for code in codes {
        let start = at + code.pre_padding();
        let count = code.arg_count();
        if left < count {
            return Some(field_of_code(order, code, start, left));
        }
        left -= count;
        at = start + span(order, code);
    }
    None
}
