//! Bytes from values.
ghost use Rattle.std.specs.Prelude.{◌≡◌, ◌<◌, ◌≤◌, ◌-◌, ◌^◌, true, false, ◌||◌, length, Ok, OnOk, OnErr, IsOk, IsTrue};
ghost use Rattle.pybuf_struct.specs.Digits.{is_width};
ghost use Rattle.pybuf_struct.specs.Formats.{extent, fields_from};
ghost use Rattle.pybuf_value.specs.Halting.{refusal_of, GivesOutcomeOfBytes};
ghost use Rattle.pybuf_struct.specs.Values.{is_length};
ghost use Rattle.pybuf_struct.specs.Packing.{is_in_range, complement_of, digits_of, truth_byte, fitted_to, pascal_bytes, bytes_of, contents_of, room_with_contents, packed_bytes};

use crate::cursor::Cursor;
use crate::digits::modulus_of;
use crate::format::{FormatCode, FormatSpec};
use crate::table::{Endianness, FormatType};
use pybuf_value::{
    Fault, Lender, Outcome, Scalar, ScalarList, Tried, bytes_alone, bytes_like, number_in,
};
use std::alloc::Global;

/// The byte of a truth value, or of a number: 0 for 0, else 1.
pub(crate) fn truth_byte(value: &Scalar) -> Result<u8, Fault>
    ensures { result ≡ truth_byte value.now }
{
    match value {
        Scalar::Int(number) => { if *number == 0 { Ok(0) } else { Ok(1) } }
        Scalar::Bool(truth) => { if *truth { Ok(1) } else { Ok(0) } }
        _ => Err(Fault::Kind),
    }
}

/// Whether a number has a place in so many bytes.
pub(crate) fn is_in_range(signed: bool, size: usize, number: i128) -> bool
    requires { IsTrue (is_width size) }
    ensures { result ≡ is_in_range signed size number }
{
    let modulus = modulus_of(size);
    if !signed {
        return number >= 0 && number < modulus;
    }
    let half = modulus / 2;
    -half <= number && number < half
}

/// The number in two's complement of so many bytes.
pub(crate) fn complement_of(size: usize, number: i128) -> u64
    requires width { IsTrue (is_width size) }
    requires range { IsTrue (is_in_range true size number || is_in_range false size number) }
    ensures { result ≡ complement_of size number }
{
    if number < 0 {
        (number + modulus_of(size)) as u64
    } else {
        number as u64
    }
}

/// Writes the digits of a number in base 256.
pub(crate) fn put_digits(big: bool, number: u64, place: &mut [u8])
    requires { IsTrue (is_width (length place.old)) }
    ensures { place.new ≡ digits_of big (length place.old) number }
{
    let size = place.len();
    if big {
        let word = number.to_be_bytes();
        place.copy_from_slice(&word[8 - size..]);
    } else {
        let word = number.to_le_bytes();
        place.copy_from_slice(&word[..size]);
    }
}

/// Writes the first of the bytes, or all of them and then zeros.
fn put_fitted(bytes: &[u8], place: &mut [u8])
    ensures { place.new ≡ fitted_to (length place.old) bytes.now }
{
    let len = bytes.len().min(place.len());
    let (front, back) = place.split_at_mut(len);
    front.copy_from_slice(&bytes[..len]);
    back.fill(0);
}

/// Whether a field of a code and a length takes a value.
fn check_field<L: Lender>(
    order: Endianness,
    code: FormatType,
    length: usize,
    value: &Scalar,
    lender: &L,
) -> Result<(), Fault>
    requires { IsTrue (is_length order code length) }
    ensures { result ≡ refusal_of (bytes_of order (L.pairs lender.now) code length value.now) }
{
    match code {
        FormatType::Pad => Err(Fault::Struct),
        FormatType::Char => {
            if bytes_alone(value, lender)?.len() != 1 {
                return Err(Fault::Struct);
            }
            Ok(())
        }
        FormatType::Bool => {
            truth_byte(value)?;
            Ok(())
        }
        FormatType::Str => {
            bytes_like(value, lender)?;
            Ok(())
        }
        FormatType::Pascal => {
            if length != 0 {
                bytes_like(value, lender)?;
            }
            Ok(())
        }
        _ => {
            match number_in(value) {
                Ok(number) => {
                    if !is_in_range(code.is_signed(), length, number) {
                        return Err(Fault::Struct);
                    }
                    Ok(())
                }
                Err(_) => Err(Fault::Struct),
            }
        }
    }
}

/// Writes a Pascal string: its length in one byte, and then its bytes.
fn put_pascal(bytes: &[u8], place: &mut [u8])
    requires { 0 < length place.old }
    ensures { place.new ≡ pascal_bytes (length place.old - 1) bytes.now }
{
    let room = place.len() - 1;
    let (first, rest) = place.split_at_mut(1);
    first.copy_from_slice(&[bytes.len().min(room.min(255)) as u8]);
    put_fitted(bytes, rest);
}

/// Writes a value that the field takes.
fn write_field<L: Lender>(
    order: Endianness,
    code: FormatType,
    value: &Scalar,
    lender: &L,
    place: &mut [u8],
)
    requires fits { IsTrue (is_length order code (length place.old)) }
    requires accepted { IsOk (bytes_of order (L.pairs lender.now) code (length place.old) value.now) }
    ensures { bytes_of order (L.pairs lender.now) code (length place.old) value.now ≡ Ok place.new }
{
    match code {
        FormatType::Pad => {}
        FormatType::Char => {
            if let Ok(bytes) = bytes_alone(value, lender) {
                place.copy_from_slice(bytes);
            }
        }
        FormatType::Bool => {
            if let Ok(byte) = truth_byte(value) {
                place.copy_from_slice(&[byte]);
            }
        }
        FormatType::Str => {
            if let Ok(bytes) = bytes_like(value, lender) {
                put_fitted(bytes, place);
            }
        }
        FormatType::Pascal => {
            if place.len() != 0 {
                if let Ok(bytes) = bytes_like(value, lender) {
                    put_pascal(bytes, place);
                }
            }
        }
        _ => {
            if let Ok(number) = number_in(value) {
                put_digits(order.is_big(), complement_of(place.len(), number), place);
            }
        }
    }
}

/// Whether the fields take values, one each.
fn check_all<L: Lender>(
    order: Endianness,
    codes: &[FormatCode],
    values: &[Scalar],
    lender: &L,
) -> Result<(), Fault>
    requires bound { extent order codes.now < 2 ^ 63 }
    requires count { length values.now ≡ length (fields_from order 0 codes.now) }
    ensures { result ≡ refusal_of (contents_of order (L.pairs lender.now) (fields_from order 0 codes.now) values.now) }
{
    let mut cursor = Cursor::new(order, codes);
    for value in values {
        let Some(field) = cursor.next() else {
            return Err(Fault::Struct);
        };
        let answer = check_field(order, field.code, field.length, value, lender);
        if answer.is_err() {
            return answer;
        }
    }
    Ok(())
}

/// Writes values that the fields take, one each.
fn write_all<L: Lender>(
    order: Endianness,
    codes: &[FormatCode],
    values: &[Scalar],
    lender: &L,
    room: &mut [u8],
)
    requires bound { extent order codes.now < 2 ^ 63 }
    requires within { extent order codes.now ≤ length room.old }
    requires accepted { IsOk (contents_of order (L.pairs lender.now) (fields_from order 0 codes.now) values.now) }
    ensures { room_with_contents (fields_from order 0 codes.now) (contents_of order (L.pairs lender.now) (fields_from order 0 codes.now) values.now) room.old ≡ Ok room.new }
{
    let mut cursor = Cursor::new(order, codes);
    for value in values {
        let Some(field) = cursor.next() else {
            return;
        };
        let end = field.offset + field.length;
        write_field(
            order,
            field.code,
            value,
            lender,
            &mut room[field.offset..end],
        );
    }
}

impl FormatSpec {
    /// Why values are refused, if they are.
    fn check<L: Lender>(&self, args: &[Scalar], lender: &L) -> Result<(), Fault>
        ensures { result ≡ refusal_of (packed_bytes self.now (L.pairs lender.now) args.now) }
    {
        let _ = self.size();
        if args.len() != self.arg_count() {
            return Err(Fault::Struct);
        }
        check_all(self.endianness(), self.codes(), args, lender)
    }

    /// Puts the bytes of the values in place of as many; a refusal comes before a byte is written.
    pub(crate) fn fill<L: Lender>(
        &self,
        room: &mut [u8],
        args: &[Scalar],
        lender: &L,
    ) -> Result<(), Fault>
        requires { length room.old ≡ self.now.size }
        ensures refusal { result ≡ refusal_of (packed_bytes self.now (L.pairs lender.now) args.now) }
        ensures ok { OnOk result (packed_bytes self.now (L.pairs lender.now) args.now ≡ Ok room.new) }
        ensures err { OnErr result (room.new ≡ room.old) }
    {
        let answer = self.check(args, lender);
        if answer.is_err() {
            return answer;
        }
        let _ = self.size();
        room.fill(0);
        write_all(self.endianness(), self.codes(), args, lender, room);
        Ok(())
    }

    /// The bytes of the values, one for each field: as many bytes as the format's size, with zeros
    /// in alignment and at `x`. A handle counts as the bytes that it names.
    ///
    /// Refused with `StructError` where the number of values isn't that of the fields. Else the
    /// first value from the left that its field refuses decides:
    ///
    /// - a number code takes a whole number, or a truth value as 0 or 1, in the code's range;
    ///   else `StructError`;
    /// - `?` takes a truth value or a whole number, of which every one but 0 is written as 1;
    ///   else `TypeError`;
    /// - `c` takes a bytes value, or a handle of kind bytes; else `TypeError`. Its length is 1, else
    ///   `StructError`;
    /// - `s` and `p` take a bytes value, a handle of an exporter, or one of a view whose items lie
    ///   one after another; a released view is `ValueError`, else `TypeError`. `s` cuts the bytes
    ///   or fills them with zeros. `p` does so after a first byte, which is the least of the number
    ///   of bytes, the field's length less 1, and 255. A `p` of length 0 takes every value;
    /// - a handle that `c`, `s` or `p` looks at and the lender hasn't is `UnknownName`.
    ///
    /// Example: of `<hI` and the values -1 and 5 it gives `b"\xff\xff\x05\0\0\0"`.
    pub fn pack<L: Lender>(&self, alloc: Global, args: &ScalarList, lender: &L) -> Tried<Vec<u8>>
        ensures { GivesOutcomeOfBytes (packed_bytes self.now (L.pairs lender.now) args.now) result }
    {
        if let Err(fault) = self.check(args.as_slice(), lender) {
            return Ok(Outcome::Refused(fault));
        }
        let mut room = vec![in alloc; 0u8; self.size()]?;
        write_all(
            self.endianness(),
            self.codes(),
            args.as_slice(),
            lender,
            room.as_mut_slice(),
        );
        Ok(Outcome::Done(room))
    }

    /// Writes into the room the bytes that `pack` gives of the values, zeros in alignment and at
    /// `x` too. Takes no memory.
    ///
    /// Refused as `pack` is, before a byte is written.
    ///
    /// Example: of `<H` and the value 258 it writes `b"\x02\x01"` into a room of two bytes.
    pub fn pack_into<L: Lender>(
        &self,
        room: &mut [u8],
        args: &ScalarList,
        lender: &L,
    ) -> Result<(), Fault>
        // A room of another size is the caller's mistake.
        requires { length room.old ≡ self.now.size }
        ensures refusal { result ≡ refusal_of (packed_bytes self.now (L.pairs lender.now) args.now) }
        ensures ok { OnOk result (packed_bytes self.now (L.pairs lender.now) args.now ≡ Ok room.new) }
        ensures err { OnErr result (room.new ≡ room.old) }
    {
        self.fill(room, args.as_slice(), lender)
    }
}
