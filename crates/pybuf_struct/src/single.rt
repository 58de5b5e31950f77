//! Formats of one code's letter alone, whose items are read and written without parsing them.
ghost use Rattle.std.specs.Prelude.{◌≡◌, ◌≤◌, [], ◌∷◌, true, false, length, Ok, Err, None, IfSome, IfNone, IsErr, ℕ, List};
ghost use Rattle.pybuf_struct.specs.declared.table.Endianness.TheVariants as order;
ghost use Rattle.pybuf_struct.specs.Table.{size_of};
ghost use Rattle.pybuf_struct.specs.Values.{value_of};
ghost use Rattle.pybuf_struct.specs.Packing.{bytes_of};
ghost use Rattle.pybuf_value.specs.declared.snaps.Snap.{Snap};
ghost use Rattle.pybuf_struct.specs.Singles as spec;

use crate::digits::number;
use crate::pack::{complement_of, is_in_range, put_digits, truth_byte};
use crate::table::{Endianness, FormatType};
use pybuf_value::{Scalar, number_in};

/// The code of a text that is its letter alone.
pub(crate) fn single_code(text: &[u8]) -> Option<FormatType>
    ensures { result ≡ spec.single_code text.now }
{
    match text {
        [letter] => FormatType::from_letter(*letter),
        _ => None,
    }
}

/// Whether a code's value is a whole number or a truth value.
fn is_numeric(code: FormatType) -> bool
    ensures { result ≡ spec.is_numeric code }
{
    match code {
        FormatType::Pad | FormatType::Char | FormatType::Str | FormatType::Pascal => false,
        _ => true,
    }
}

/// The code of a text that is its letter alone, where its value is a whole number or a truth value.
fn numeric_code(text: &[u8]) -> Option<FormatType>
    ensures code { result ≡ spec.numeric_code text.now }
    ensures numeric { IfSome result (λ code. spec.is_numeric code ≡ true) }
{
    let code = single_code(text)?;
    if is_numeric(code) { Some(code) } else { None }
}

/// The value of the bytes of a code whose value is a whole number or a truth value.
fn value_of(code: FormatType, bytes: &[u8]) -> Scalar
    requires numeric { spec.is_numeric code ≡ true }
    requires long { length bytes.now ≡ size_of order.Native code }
    ensures { result ≡ value_of order.Native code bytes.now }
{
    match code {
        FormatType::Bool => Scalar::Bool(bytes[0] != 0),
        _ => Scalar::Int(number(false, code.is_signed(), bytes)),
    }
}

/// Whether a text is the letter alone of a code whose value is a whole number or a truth value, and
/// values of the code have so many bytes. Then `single_value` and `pack_single` decide what its
/// items are. Takes no memory.
///
/// Example: `is_numeric_letter(b"H", 2)` is `true`, and `is_numeric_letter(b"c", 1)` is `false`.
pub fn is_numeric_letter(text: &[u8], size: usize) -> bool
    ensures { result ≡ spec.is_as_long (spec.numeric_code text.now) size }
{
    match numeric_code(text) {
        Some(code) => size == code.size(Endianness::Native),
        None => false,
    }
}

/// The one value that bytes are read as by the format of a text of one code's letter: a whole number or
/// a truth value. Takes no memory.
///
/// None exactly where the text isn't the letter of such a code alone, or the bytes aren't as many as
/// the code's size.
///
/// Example: of `b"H"` and the bytes `b"\x02\x01"` it is `Some(Scalar::Int(258))`, and of `b"<H"` it is `None`.
#[tactic(auto, using(crate::proofs::Singles::value_of_single))]
pub fn single_value(text: &[u8], bytes: &[u8]) -> Option<Scalar>
    ensures value { IfSome result (λ value. spec.values_by text.now bytes.now ≡ Ok (value ∷ [])) }
    ensures none { IfNone result (spec.is_as_long (spec.numeric_code text.now) (length bytes.now) ≡ false) }
{
    let code = numeric_code(text)?;
    if bytes.len() != code.size(Endianness::Native) {
        return None;
    }
    Some(value_of(code, bytes))
}

/// Writes a value as that of a code whose value is a whole number or a truth value, and says whether
/// it did.
fn put_value(code: FormatType, room: &mut [u8], value: &Scalar) -> bool
    requires numeric { spec.is_numeric code ≡ true }
    requires long { length room.old ≡ size_of order.Native code }
    ensures written { result ≡ true → bytes_of order.Native [] code (size_of order.Native code) value.now ≡ Ok room.new }
    ensures refused { result ≡ false → IsErr (bytes_of order.Native [] code (size_of order.Native code) value.now) }
    ensures left { result ≡ false → room.new ≡ room.old }
{
    match code {
        FormatType::Bool => {
            let Ok(byte) = truth_byte(value) else {
                return false;
            };
            room.copy_from_slice(&[byte]);
        }
        _ => {
            let Ok(number) = number_in(value) else {
                return false;
            };
            if !is_in_range(code.is_signed(), room.len(), number) {
                return false;
            }
            put_digits(false, complement_of(room.len(), number), room);
        }
    }
    true
}

/// Writes a value by the format of a text of one code's letter, a whole number or a truth value, and
/// says whether it did. Takes no memory.
///
/// It answers false, and the room is as it was, exactly where the text isn't the letter of such a code
/// alone, where the room isn't of the code's size, or where the format refuses the value.
///
/// Example: of `b"H"`, a room of two bytes and 258 it answers true, and the room is `b"\x02\x01"`; of 65536 it answers false.
#[tactic(auto, using(crate::proofs::Singles::packed_single, crate::proofs::Singles::refused_single))]
pub fn pack_single(text: &[u8], room: &mut [u8], value: &Scalar) -> bool
    ensures written { result ≡ true → (pairs : List (ℕ × Snap)) → spec.bytes_by text.now pairs (value.now ∷ []) ≡ Ok room.new }
    ensures refused { result ≡ false → spec.is_as_long (spec.numeric_code text.now) (length room.old) ≡ true → (pairs : List (ℕ × Snap)) → IsErr (spec.bytes_by text.now pairs (value.now ∷ [])) }
    ensures left { result ≡ false → room.new ≡ room.old }
{
    let Some(code) = numeric_code(text) else {
        return false;
    };
    if room.len() != code.size(Endianness::Native) {
        return false;
    }
    put_value(code, room, value)
}
