//! The bytes and texts that arguments stand for.
ghost use Rattle.std.specs.Prelude.{◌≡◌, Ok, Err, IfOk, IfErr, Some};
ghost use Rattle.std.specs.Option.{option_copied};
ghost use Rattle.pybuf_value.specs.Halting.{Gives, GivesLent, GivesOutcome};
ghost use Rattle.pybuf_value.specs.Texts.{text_in};
ghost use Rattle.pybuf_value.specs.Snaps.{bytes_like, bytes_alone, bytes_in, bytes_in_parts, byte_in_scalar, content_of_named, string_bytes_of, string_of_named};

use crate::faults::{Fault, Tried};
use crate::halt::{Halt, tried};
use crate::lent::{content_of_snap, run_of_snap};
use crate::list::ByteList;
use crate::numbers::{ByteOr, number_in};
use crate::snaps::{Lender, Snap, SnapKind};
use crate::text::Text;
use crate::values::{Scalar, Value};
use pybuf_copy::Twin;
use std::alloc::Global;

/// The text that a value is.
///
/// Refused with `TypeError` for every other value.
///
/// Example: of the value of the text `H` it is that text, and of the value 5 it is `Err(Fault::Kind)`.
pub fn text_in(value: &Value) -> Result<&Text, Fault>
    ensures { GivesLent (text_in value.now) result }
{
    match value {
        Value::One(Scalar::Text(text)) => Ok(text),
        _ => Err(Fault::Kind),
    }
}

/// The bytes of a bytes value, or of the exporter or view that a handle names, as it stands.
/// Nothing is copied.
///
/// Refused with `UnknownName` where the lender hasn't the handle, with `ValueError` where the
/// handle names a released view, and with `TypeError` where it names a view whose items don't lie
/// one after another or an iterator, and for every other value.
///
/// Example: of the bytes value `b"ab"` it is `Ok(b"ab")`, and of the number 5 it is `Err(Fault::Kind)`.
pub fn bytes_like<'a, L: Lender>(value: &'a Scalar, lender: &'a L) -> Result<&'a [u8], Fault>
    ensures ok { IfOk result (λ bytes. bytes_like (L.pairs lender.now) value.now ≡ Ok bytes.now) }
    ensures err { IfErr result (λ fault. bytes_like (L.pairs lender.now) value.now ≡ Err fault) }
{
    match value {
        Scalar::Bytes(bytes) => Ok(bytes.as_slice()),
        Scalar::Handle(handle) => match lender.lend(*handle) {
            Some(snap) => run_of_snap(snap),
            None => Err(Fault::UnknownName),
        },
        _ => Err(Fault::Kind),
    }
}

/// The bytes of a bytes value, or of the exporter of kind bytes that a handle names. Nothing is
/// copied.
///
/// Refused with `UnknownName` where the lender hasn't the handle, and with `TypeError` where it
/// names anything else than an exporter of kind bytes, and for every other value.
///
/// Example: of the bytes value `b"ab"` it is `Ok(b"ab")`, and of a handle of a bytearray it is `Err(Fault::Kind)`.
pub fn bytes_alone<'a, L: Lender>(value: &'a Scalar, lender: &'a L) -> Result<&'a [u8], Fault>
    ensures ok { IfOk result (λ bytes. bytes_alone (L.pairs lender.now) value.now ≡ Ok bytes.now) }
    ensures err { IfErr result (λ fault. bytes_alone (L.pairs lender.now) value.now ≡ Err fault) }
{
    match value {
        Scalar::Bytes(bytes) => Ok(bytes.as_slice()),
        Scalar::Handle(handle) => {
            let Some(snap) = lender.lend(*handle) else {
                return Err(Fault::UnknownName);
            };
            match snap.kind {
                SnapKind::Bytes => Ok(snap.content.as_slice()),
                _ => Err(Fault::Kind),
            }
        }
        _ => Err(Fault::Kind),
    }
}

/// The bytes of what a handle names, as it stands; the items of a view may lie apart.
///
/// Refused with `UnknownName` where nothing is named, with `ValueError` for a released view, and with
/// `TypeError` for an iterator.
fn content_of(snap: Option<&Snap>) -> Result<&[u8], Fault>
    ensures { GivesLent (content_of_named (option_copied snap.entry)) result }
{
    match snap {
        Some(snap) => content_of_snap(snap),
        None => Err(Fault::UnknownName),
    }
}

/// The byte that a part of a list is.
fn byte_in_scalar(part: &Scalar) -> Result<u8, Fault>
    ensures { result ≡ byte_in_scalar part.now }
{
    let number = number_in(part)?;
    number.byte_or()
}

/// The bytes that the parts of a list are. The first that is none decides.
fn bytes_in_parts(alloc: Global, parts: &[Scalar]) -> Result<ByteList, Halt>
    ensures { Gives (bytes_in_parts parts.now) result }
{
    let mut bytes = Vec::with_capacity(alloc, parts.len())?;
    for part in parts {
        let byte = byte_in_scalar(part)?;
        bytes.push(byte)?;
    }
    Ok(ByteList::from_vec(bytes))
}

/// The bytes that a value is read as.
fn bytes_in<L: Lender>(alloc: Global, value: &Value, lender: &L) -> Result<ByteList, Halt>
    ensures { Gives (bytes_in (L.pairs lender.now) value.now) result }
{
    match value {
        Value::One(Scalar::Bytes(bytes)) => Ok(bytes.copy(alloc)?),
        Value::One(Scalar::Handle(handle)) => {
            let bytes = content_of(lender.lend(*handle))?;
            Ok(ByteList::from_vec(Vec::from_slice(alloc, bytes)?))
        }
        Value::Tuple(parts) => bytes_in_parts(alloc, parts.as_slice()),
        Value::List(parts) => bytes_in_parts(alloc, parts.as_slice()),
        _ => Err(Halt::Refused(Fault::Kind)),
    }
}

/// A copy of the bytes that a value is read as: those of a bytes value, of the exporter or the view
/// that a handle names, contiguous or not, and those that the parts of a list or a tuple are. So
/// Python's `bytes(value)` reads any value that is neither a size nor a text (Library reference,
/// "Bytes Objects").
///
/// Refused with `UnknownName` where the lender hasn't the handle, and with `ValueError` where it
/// names a released view. Of a list or a tuple the first refused part decides: with `TypeError`
/// where it is no number, else with `ValueError` where it is outside `0..256`. Every other value is
/// refused with `TypeError`.
///
/// Example: of the list 97, 98 it gives `b"ab"`, and of the list 256 it is refused with `ValueError`.
pub fn bytes_from_object<L: Lender>(alloc: Global, value: &Value, lender: &L) -> Tried<ByteList>
    ensures { GivesOutcome (bytes_in (L.pairs lender.now) value.now) result }
{
    tried(bytes_in(alloc, value, lender))
}

/// The bytes of what a handle names, where that is an exporter of kind bytes or bytearray.
fn string_of(snap: Option<&Snap>) -> Option<&[u8]>
    ensures { option_copied result ≡ string_of_named (option_copied snap.entry) }
{
    match snap {
        Some(
            Snap {
                kind: SnapKind::Bytes,
                content,
                ..
            },
        ) => Some(content.as_slice()),
        Some(
            Snap {
                kind: SnapKind::ByteArray,
                content,
                ..
            },
        ) => Some(content.as_slice()),
        _ => None,
    }
}

/// The bytes of a bytes value, or of an exporter of kind bytes or bytearray that a handle names, lent.
/// None exactly for every other value.
///
/// Example: of the bytes value `b"ab"` it is `Some(b"ab")`, and of the list 97, 98 it is `None`.
pub fn try_as_bytes<'a, L: Lender>(value: &'a Value, lender: &'a L) -> Option<&'a [u8]>
    ensures { option_copied result ≡ string_bytes_of (L.pairs lender.now) value.now }
{
    match value {
        Value::One(Scalar::Bytes(bytes)) => Some(bytes.as_slice()),
        Value::One(Scalar::Handle(handle)) => string_of(lender.lend(*handle)),
        _ => None,
    }
}
