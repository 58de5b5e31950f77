//! `set`: the item at a key is written.
ghost use Rattle.std.specs.Prelude.{◌≡◌, ◌+◌, ◌<◌, ◌≤◌, [], ◌∷◌, length, slice_index, true, false, Ok, Err, IfOk, IfSome, OnErr, MatchResult, ℕ, List};
ghost use Rattle.pybuf_value.specs.declared.faults.Fault.{Fault};
ghost use Rattle.pybuf_value.specs.declared.snaps.Snap.{Snap};
ghost use Rattle.pybuf_struct.specs.Singles.{is_as_long, numeric_code};
ghost use Rattle.pybuf_value.specs.declared.values.Scalar.TheVariants as scalar;
ghost use Rattle.pybuf_memoryview.specs.Items.{piece_by, scalar_in};
ghost use Rattle.pybuf_state.specs.Exporter.{exports_of};
ghost use Rattle.pybuf_state.specs.Loans.{lents_of_value};
ghost use Rattle.pybuf_state.specs.Sound.{IsFormed};
ghost use Rattle.pybuf_state.specs.Answers.{exporter_of, IsWhole, AnswersIn, ChangesTo};
ghost use Rattle.pybuf_verbs_writes.specs.Set.{byte_set, set_of_own, set_target, item_set, set_of_view};
ghost use Rattle.pybuf_verbs_writes.specs.Writing.{bytes_packed, bytes_by_letter, single_byte_set, IsStartOfTarget};

use pybuf_command::{ExporterKind, LocalReply};
use pybuf_index::entry_in;
use pybuf_memoryview::{
    KeptLayout, args_of, byte_for_item, format_of, index_in, is_byte_format, is_none, place_of_key,
};
use pybuf_state::{Names, Parts, lent_to};
use pybuf_struct::{FormatSpec, is_numeric_letter, pack_single};
use pybuf_value::{Fault, Halt, Scalar, ScalarList, SnapList, Value, value_from_object};

#[tactic(auto, using(crate::proofs::Bytes::bytes_with_one))]
fn set_byte(parts: &mut Parts, key: &Value, value: &Value) -> Result<LocalReply, Halt>
    requires { IsWhole parts.old }
    ensures answer { AnswersIn parts.old (λ e. byte_set e key.now value.now) result parts.new }
    ensures counted { parts.new.exports ≡ exports_of (exporter_of parts.new) }
    ensures room { parts.new.bytes.room ≡ parts.old.bytes.room }
{
    let index = index_in(key)?;
    let byte = value_from_object(value)?;
    let place = entry_in(parts.bytes.len(), index)?;
    parts.bytes.put(place, byte);
    Ok(LocalReply::Ok)
}

/// Writes the byte of a bytearray at a key. Refused with `UnknownName` where the exporter is no bytearray; then with
/// `TypeError` where the key is no number, and with `IndexError` where it doesn't fit `isize`; then with `TypeError`
/// where the value is no number, and with `ValueError` outside `0..256`; and then with `IndexError` out of range.
/// Nothing is changed then.
/// Example: in `bytearray(b"abc")` the key 0 and the value 65 make `bytearray(b"Abc")`.
pub fn of_own(parts: &mut Parts, key: &Value, value: &Value) -> Result<LocalReply, Halt>
    requires { IsWhole parts.old }
    ensures answer { AnswersIn parts.old (λ e. set_of_own e key.now value.now) result parts.new }
    ensures counted { parts.new.exports ≡ exports_of (exporter_of parts.new) }
    ensures room { parts.new.bytes.room ≡ parts.old.bytes.room }
{
    match parts.kind {
        ExporterKind::ByteArray => set_byte(parts, key, value),
        _ => Err(Halt::Refused(Fault::UnknownName)),
    }
}

/// The layout of the view, and where the item that is written starts.
fn target<'a>(
    parts: &'a Parts,
    view: usize,
    key: &Value,
    value: &Value,
) -> Result<(&'a KeptLayout, usize), Fault>
    requires { IsWhole parts.now }
    ensures exact { MatchResult result (λ target. IsStartOfTarget (set_target (exporter_of parts.now) view key.now value.now) target.0.now target.1) (λ fault. set_target (exporter_of parts.now) view key.now value.now ≡ Err fault) }
    ensures formed { IfOk result (λ target. IsFormed target.0.now) }
    ensures inside { IfOk result (λ target. target.1 + target.0.now.itemsize ≤ length parts.now.bytes.items) }
{
    let layout = parts.live_layout(view)?;
    if layout.is_readonly() {
        return Err(Fault::Kind);
    }
    if is_none(value) {
        return Err(Fault::Kind);
    }
    let place = place_of_key(layout, key)?;
    Ok((layout, place))
}

/// Writes an item at a place by its format.
fn write_item(
    bytes: &mut [u8],
    place: usize,
    format: &FormatSpec,
    args: &ScalarList,
    pairs: &SnapList,
) -> Result<(), Fault>
    requires { place + format.now.size ≤ length bytes.old }
    ensures exact { ChangesTo (bytes_packed bytes.old place format.now pairs.now args.now) result bytes.new }
    ensures err { OnErr result (bytes.new ≡ bytes.old) }
{
    let end = place + format.size();
    match format.pack_into(&mut bytes[place..end], args, pairs) {
        Ok(()) => Ok(()),
        Err(_) => Err(Fault::Kind),
    }
}

/// Writes a byte as an item of the format `B`.
#[tactic(auto, using(crate::proofs::Bytes::bytes_with_one))]
fn write_byte(parts: &mut Parts, place: usize, value: &Value) -> Result<LocalReply, Halt>
    requires whole { IsWhole parts.old }
    requires inside { place < length parts.old.bytes.items }
    ensures answer { AnswersIn parts.old (λ e. single_byte_set e place value.now) result parts.new }
    ensures counted { parts.new.exports ≡ exports_of (exporter_of parts.new) }
    ensures room { parts.new.bytes.room ≡ parts.old.bytes.room }
{
    let byte = byte_for_item(value)?;
    parts.bytes.put(place, byte);
    Ok(LocalReply::Ok)
}

/// The letter that the format of a view is, where the value of its code is a whole number or a truth
/// value.
fn numeric_letter(layout: &KeptLayout) -> Option<u8>
    ensures text { IfSome result (λ letter. layout.now.format ≡ letter ∷ []) }
    ensures numeric { IfSome result (λ letter. is_as_long (numeric_code (letter ∷ [])) layout.now.itemsize ≡ true) }
{
    let text = layout.format_text().as_slice();
    if let [letter] = text {
        if is_numeric_letter(text, layout.itemsize()) {
            return Some(*letter);
        }
    }
    None
}

/// The scalar that an item is written as: the value's own, and an ellipsis, which no number is,
/// where it is none.
fn scalar_of<'a>(value: &'a Value, none: &'a Scalar) -> &'a Scalar
    requires { none.now ≡ scalar.Ellipsis }
    ensures { result.now ≡ scalar_in value.now }
{
    match value {
        Value::One(scalar) => scalar,
        _ => none,
    }
}

/// Writes a value into the room of an item by the letter of its format, and says whether it did.
fn put_value(letter: u8, room: &mut [u8], value: &Value) -> bool
    requires numeric { is_as_long (numeric_code (letter ∷ [])) (length room.old) ≡ true }
    ensures written { result ≡ true → (pairs : List (ℕ × Snap)) → piece_by (letter ∷ []) pairs value.now ≡ Ok room.new }
    ensures refused { result ≡ false → (pairs : List (ℕ × Snap)) → piece_by (letter ∷ []) pairs value.now ≡ Err Fault.Kind }
    ensures left { result ≡ false → room.new ≡ room.old }
{
    let none = Scalar::Ellipsis;
    pack_single(&[letter], room, scalar_of(value, &none))
}

/// Writes an item at a place by the letter of its format.
fn write_number(
    bytes: &mut [u8],
    place: usize,
    size: usize,
    letter: u8,
    value: &Value,
) -> Result<(), Fault>
    requires numeric { is_as_long (numeric_code (letter ∷ [])) size ≡ true }
    requires inside { place + size ≤ length bytes.old }
    ensures exact { (pairs : List (ℕ × Snap)) → ChangesTo (bytes_by_letter bytes.old place letter pairs value.now) result bytes.new }
    ensures err { OnErr result (bytes.new ≡ bytes.old) }
{
    let end = place + size;
    if put_value(letter, &mut bytes[place..end], value) {
        Ok(())
    } else {
        Err(Fault::Kind)
    }
}

/// Writes the item of a view at a key. A byte of the format `B`, which most views have, and numbers of a format of
/// one letter are written without parsing it. Refused with `UnknownName` for a view that was never given, and with
/// `ValueError` for a released one; with `TypeError` where it may only be read, and for `None`; then as
/// `place_of_key` refuses the key; and then with `TypeError` where the format doesn't take the value. Nothing is
/// changed then, nor where memory runs out.
/// Example: through a view of all bytes of `b"abc"` the key 0 and the value 65 make `b"Abc"`.
pub fn of_view<N: Names>(
    parts: &mut Parts,
    view: usize,
    key: &Value,
    value: &Value,
    names: &N,
) -> Result<LocalReply, Halt>
    requires whole { IsWhole parts.old }
    requires fit { N.fit names.now }
    ensures answer { AnswersIn parts.old (λ e. set_of_view e view key.now value.now (lents_of_value e (N.named names.now) value.now)) result parts.new }
    ensures counted { parts.new.exports ≡ exports_of (exporter_of parts.new) }
    ensures room { parts.new.bytes.room ≡ parts.old.bytes.room }
{
    pybuf_memoryview::byte_items_are_their_byte();
    let (layout, place) = target(parts, view, key, value)?;
    if is_byte_format(layout.format_text().as_slice()) {
        return write_byte(parts, place, value);
    }
    if let Some(letter) = numeric_letter(layout) {
        let size = layout.itemsize();
        write_number(parts.bytes.as_mut_slice(), place, size, letter, value)?;
        return Ok(LocalReply::Ok);
    }
    let format = format_of(parts.alloc, layout)?;
    let pairs = lent_to(parts, parts.alloc, &format, names, value)?;
    let args = args_of(parts.alloc, value)?;
    write_item(parts.bytes.as_mut_slice(), place, &format, &args, &pairs)?;
    Ok(LocalReply::Ok)
}
