//! Records that are chosen by one of their fields, which alone is read of the others.
ghost use Rattle.std.specs.Prelude.{◌≡◌, true, ◌++◌, ◌∷◌, [], ◌+◌, ◌≤◌, length, Some, IfOk, OnOk, IsTrue, slice_get, if◌then◌else◌};
ghost use Rattle.pybuf_value.specs.Halting.{outcome_of};
ghost use Rattle.pybuf_struct.specs.Formats.{fields};
ghost use Rattle.pybuf_struct.specs.Values.{is_length, values};
ghost use Rattle.pybuf_table.specs.Records.{IsLeft};
ghost use Rattle.pybuf_table.specs.Chosen.{compares_so, is_chosen, chosen, has_value, has_bytes, has_order, selected};

use crate::field_place::{FieldPlace, find_field};
use crate::lent_values::LentValue;
use crate::records::Records;
use crate::row_format::unpack_record;
use pybuf_struct::{FormatSpec, FormatType};
use pybuf_value::{CompareOp, Fault, Items, Made, Outcome, Scalar, ScalarList, Tried, is_order};
use std::alloc::Global;

/// Records, each with its number, counted from 0, and its values.
/// Example: `records.select(..)` gives one, in which `(1, values)` stands for the second record.
pub type RowList = Items<(usize, ScalarList)>;

/// Whether the values of a code are bytes.
fn has_bytes(code: FormatType) -> bool
    ensures { result ≡ has_bytes code }
{
    matches!(
        code,
        FormatType::Char | FormatType::Str | FormatType::Pascal
    )
}

/// Whether a value is in an order with the values of a code.
fn has_order(code: FormatType, value: &Scalar) -> bool
    ensures { result ≡ has_order code value.now }
{
    match value {
        Scalar::Bytes(_) => has_bytes(code),
        Scalar::Int(_) | Scalar::Bool(_) => !has_bytes(code),
        _ => false,
    }
}

/// Whether a field of a record compares so with a value. The other fields aren't read.
#[tactic(auto, using(crate::proofs::ChosenLemmas::field_compares))]
fn compares_so(
    format: &FormatSpec,
    field: usize,
    place: FieldPlace,
    op: CompareOp,
    value: &Scalar,
    bytes: &[u8],
) -> bool
    requires there { slice_get (fields format.now) field ≡ Some place }
    requires inside { place.offset + place.length ≤ format.now.size }
    requires long { IsTrue (is_length format.now.order place.code place.length) }
    requires valued { has_value place.code ≡ true }
    requires whole { length bytes.now ≡ format.now.size }
    ensures { result ≡ compares_so op value.now (slice_get (values format.now bytes.now) field) }
{
    LentValue::of_field(format.endianness(), place, bytes).compare(op, value)
}

/// Adds a record, where it is chosen.
fn push_if_chosen(
    alloc: Global,
    format: &FormatSpec,
    field: usize,
    place: FieldPlace,
    op: CompareOp,
    value: &Scalar,
    number: usize,
    bytes: &[u8],
    out: &mut Vec<(usize, ScalarList)>,
) -> Made<()>
    requires there { slice_get (fields format.now) field ≡ Some place }
    requires inside { place.offset + place.length ≤ format.now.size }
    requires long { IsTrue (is_length format.now.order place.code place.length) }
    requires valued { has_value place.code ≡ true }
    requires whole { length bytes.now ≡ format.now.size }
    ensures { OnOk result (out.new.items ≡ out.old.items ++ (if is_chosen field op value.now (number, values format.now bytes.now) then (number, values format.now bytes.now) ∷ [] else [])) }
{
    if compares_so(format, field, place, op, value, bytes) {
        let row = unpack_record(alloc, format, bytes)?;
        out.push((number, row))?;
    }
    Ok(())
}

/// The chosen records of bytes that are whole records.
fn chosen(
    alloc: Global,
    format: &FormatSpec,
    field: usize,
    place: FieldPlace,
    op: CompareOp,
    value: &Scalar,
    bytes: &[u8],
) -> Made<RowList>
    requires there { slice_get (fields format.now) field ≡ Some place }
    requires inside { place.offset + place.length ≤ format.now.size }
    requires long { IsTrue (is_length format.now.order place.code place.length) }
    requires valued { has_value place.code ≡ true }
    requires whole { IsLeft format.now bytes.now }
    ensures { IfOk result (λ rows. rows ≡ chosen format.now field op value.now bytes.now) }
{
    let size = format.size();
    let mut out = Vec::new(alloc);
    let mut number = 0;
    let mut rest = bytes;
    while !rest.is_empty() {
        let (first, after) = rest.split_at(size);
        push_if_chosen(
            alloc, format, field, place, op, value, number, first, &mut out,
        )?;
        number += 1;
        rest = after;
    }
    Ok(RowList::from_vec(out))
}

impl Records {
    /// The records of which the field of a number compares so with a value, each with its number, in order. One field of
    /// each record is read where it lies, and a record is unpacked only once it is chosen.
    ///
    /// Numbers and truth values are in the order of numbers, and bytes in that of their lists. Refused with `IndexError`
    /// exactly where there is no such field; then with `StructError` exactly where the number of bytes is no multiple of
    /// a record's size; then with `TypeError` exactly where the operator asks for an order and the value and the field's
    /// values aren't both numbers or truth values, or both bytes, also where there is no record.
    /// Example: by `<4sH`, field 0 and `CompareOp::Eq` with `b"bob\0"` it gives the record 1 of `b"ada\0\x05\0bob\0\x07\0"`.
    pub fn select(
        &self,
        alloc: Global,
        bytes: &[u8],
        field: usize,
        op: CompareOp,
        value: &Scalar,
    ) -> Tried<RowList>
        ensures { IfOk result (λ o. o ≡ outcome_of (selected self.now.format field op value.now bytes.now)) }
    {
        let Some(place) = find_field(self.format(), field) else {
            return Ok(Outcome::Refused(Fault::Index));
        };
        if bytes.len() % self.size() != 0 {
            return Ok(Outcome::Refused(Fault::Struct));
        }
        if is_order(op) {
            if !has_order(place.code, value) {
                return Ok(Outcome::Refused(Fault::Kind));
            }
        }
        let rows = chosen(alloc, self.format(), field, place, op, value, bytes)?;
        Ok(Outcome::Done(rows))
    }
}
