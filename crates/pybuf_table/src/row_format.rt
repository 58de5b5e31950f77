//! A format with the places of its fields, which are found once for all records.
ghost use Rattle.std.specs.Prelude.{◌≡◌, ◌+◌, ◌<◌, ◌≤◌, ◌^◌, ◌++◌, length, map, IfOk, IfSome, OnOk, IsTrue};
ghost use Rattle.std.specs.List.{All};
ghost use Rattle.pybuf_struct.specs.Formats.{fields};
ghost use Rattle.pybuf_struct.specs.Values.{is_length, value_of, value_in, values};
ghost use Rattle.pybuf_table.specs.RowFormats.{ArePlaces};

use crate::field_place::{FieldPlace, find_field};
use crate::lent_values::pascal_content;
use crate::numbers::{is_big, is_signed, number};
use pybuf_struct::{Endianness, FormatSpec, FormatType};
use pybuf_value::{ByteList, Made, Outcome, Scalar, ScalarList};
use std::alloc::Global;
use std::marker::Model;

/// The most fields whose places are kept. A text of twenty bytes can spell more fields than there is memory for.
const MOST_PLACES: usize = 64;

/// A format, and where its fields lie, unless they are many. A clause sees the format.
#[derive(Debug, Drop)]
pub(crate) struct RowFormat {
    format: FormatSpec,
    places: Option<Vec<FieldPlace>>,
}

impl Model for RowFormat {
    ghost use Rattle.pybuf_struct.specs.Formats.{Format};
    ghost use Rattle.std.specs.Prelude.{IfSome};
    ghost use Rattle.pybuf_table.specs.RowFormats.{ArePlaces};

    ghost Value = { Format };

    ghost view = { λ r. r.format };

    ghost invariant = { λ r. IfSome r.places (λ places. ArePlaces r.format places.items) };
}

/// Where the fields of a format lie, in order.
fn places_of(alloc: Global, format: &FormatSpec) -> Made<Vec<FieldPlace>>
    ensures { IfOk result (λ places. ArePlaces format.now places.items) }
{
    let count = format.arg_count();
    let mut places = Vec::with_capacity(alloc, count)?;
    for number in 0..count {
        let Some(place) = find_field(format, number) else {
            unreachable!();
        };
        places.push(place)?;
    }
    Ok(places)
}

/// The value of a field's bytes.
#[inline(always)]
fn value_of(alloc: Global, order: Endianness, code: FormatType, bytes: &[u8]) -> Made<Scalar>
    requires { IsTrue (is_length order code (length bytes.now)) }
    ensures { IfOk result (λ v. v ≡ value_of order code bytes.now) }
{
    match code {
        FormatType::Pad => Ok(Scalar::None),
        FormatType::Bool => Ok(Scalar::Bool(bytes[0] != 0)),
        FormatType::Char | FormatType::Str => {
            let content = Vec::from_slice(alloc, bytes)?;
            Ok(Scalar::Bytes(ByteList::from_vec(content)))
        }
        FormatType::Pascal => {
            let content = Vec::from_slice(alloc, pascal_content(bytes))?;
            Ok(Scalar::Bytes(ByteList::from_vec(content)))
        }
        _ => Ok(Scalar::Int(number(is_big(order), is_signed(code), bytes))),
    }
}

/// The value of a field of a record.
#[inline(always)]
fn value_in(alloc: Global, order: Endianness, place: FieldPlace, bytes: &[u8]) -> Made<Scalar>
    requires inside { place.offset + place.length ≤ length bytes.now }
    requires long { IsTrue (is_length order place.code place.length) }
    ensures { IfOk result (λ v. v ≡ value_in order bytes.now place) }
{
    let end = place.offset + place.length;
    value_of(alloc, order, place.code, &bytes[place.offset..end])
}

/// Adds the values of a record's fields.
fn push_values(
    alloc: Global,
    out: &mut Vec<Scalar>,
    order: Endianness,
    places: &[FieldPlace],
    bytes: &[u8],
) -> Made<()>
    requires inside { All (λ place. place.offset + place.length ≤ length bytes.now) places.now }
    requires long { All (λ place. IsTrue (is_length order place.code place.length)) places.now }
    ensures { OnOk result (out.new.items ≡ out.old.items ++ map (value_in order bytes.now) places.now) }
{
    for place in places {
        out.push(value_in(alloc, order, *place, bytes)?)?;
    }
    Ok(())
}

impl RowFormat {
    /// The same format, with the places of its fields.
    pub(crate) fn new(alloc: Global, format: FormatSpec) -> Made<RowFormat>
        ensures { IfOk result (λ row_format. row_format ≡ format) }
    {
        if format.arg_count() > MOST_PLACES {
            return Ok(RowFormat {
                format,
                places: None,
            });
        }
        let places = places_of(alloc, &format)?;
        Ok(RowFormat {
            format,
            places: Some(places),
        })
    }

    /// The number of bytes of a record.
    pub(crate) fn size(&self) -> usize
        ensures total { result ≡ self.now.size }
        ensures bound { result < 2 ^ 63 }
    {
        self.format.size()
    }

    /// The format of a record.
    pub(crate) fn spec(&self) -> &FormatSpec
        ensures { result.now ≡ self.now }
    {
        &self.format
    }

    /// The values of the bytes of one record.
    pub(crate) fn unpack(&self, alloc: Global, bytes: &[u8]) -> Made<ScalarList>
        requires { length bytes.now ≡ self.now.size }
        ensures { IfOk result (λ row. row ≡ values self.now bytes.now) }
    {
        match &self.places {
            Some(places) => {
                let mut row = Vec::with_capacity(alloc, places.len())?;
                push_values(
                    alloc,
                    &mut row,
                    self.format.endianness(),
                    places.as_slice(),
                    bytes,
                )?;
                Ok(ScalarList::from_vec(row))
            }
            None => unpack_record(alloc, &self.format, bytes),
        }
    }
}

/// The values of the bytes of one record.
pub(crate) fn unpack_record(alloc: Global, format: &FormatSpec, bytes: &[u8]) -> Made<ScalarList>
    requires { length bytes.now ≡ format.now.size }
    ensures { IfOk result (λ row. row ≡ values format.now bytes.now) }
{
    match format.unpack(alloc, bytes)? {
        Outcome::Done(row) => Ok(row),
        Outcome::Refused(_) => unreachable!(),
    }
}
