//! Bytes as texts.
ghost use Rattle.std.specs.Prelude.{◌≡◌};
ghost use Rattle.std.specs.Option.{option_copied};
ghost use Rattle.std.specs.Str.{is_utf8};
ghost use Rattle.pybuf_value.specs.Halting.{Gives, GivesOutcome};
ghost use Rattle.pybuf_bytes.specs.Shaping as spec;

use crate::options::{is_ascii_name, is_strict, is_utf8_name};
use pybuf_value::{Fault, Halt, Text, Tried, is_ascii, tried};
use std::alloc::Global;

/// The codec and the handler of errors by which bytes are decoded, as arguments of Python's
/// `bytes.decode`. Without a codec it is UTF-8; without a handler, errors are refused.
///
/// Example: the codec `ascii` without a handler refuses `b"\xff"`.
#[derive(Debug, Drop)]
pub struct DecodeArgs {
    pub encoding: Option<Text>,
    pub errors: Option<Text>,
}

/// Whether a codec is UTF-8.
fn is_utf8_codec(encoding: Option<&Text>) -> bool
    ensures { result ≡ spec.is_utf8_codec (option_copied encoding.entry) }
{
    match encoding {
        None => true,
        Some(name) => is_utf8_name(name.as_slice()),
    }
}

/// Whether a codec is ASCII.
fn is_ascii_codec(encoding: Option<&Text>) -> bool
    ensures { result ≡ spec.is_ascii_codec (option_copied encoding.entry) }
{
    match encoding {
        None => false,
        Some(name) => is_ascii_name(name.as_slice()),
    }
}

/// The text of bytes of UTF-8, as a copy.
fn text_of(alloc: Global, bytes: &[u8]) -> Result<Text, Halt>
    ensures { Gives (spec.text_of bytes.now) result }
{
    match str::from_utf8(bytes) {
        Ok(text) => Ok(Text::from_string(String::from_str(alloc, text)?)),
        Err(_) => Err(Halt::Refused(Fault::Value)),
    }
}

/// The text that bytes are.
fn decoded(
    alloc: Global,
    bytes: &[u8],
    encoding: Option<&Text>,
    errors: Option<&Text>,
) -> Result<Text, Halt>
    ensures { Gives (spec.decoded bytes.now (option_copied encoding.entry) (option_copied errors.entry)) result }
{
    let ascii = is_ascii_codec(encoding);
    if !(is_utf8_codec(encoding) || ascii) {
        return Err(Halt::Refused(Fault::Value));
    }
    if !is_strict(errors) {
        return Err(Halt::Refused(Fault::Value));
    }
    if ascii && !is_ascii(bytes) {
        return Err(Halt::Refused(Fault::Value));
    }
    text_of(alloc, bytes)
}

/// The text that the bytes are by a codec, `utf-8`, `utf8` or `ascii` (Python's library reference, "Bytes
/// and Bytearray Operations", `bytes.decode`). Without a codec it is UTF-8; without a handler, errors are
/// refused. The codec is looked at also for no bytes.
///
/// Refused with `ValueError` exactly for another codec, for another handler of errors than `strict`, for
/// a byte past ASCII under `ascii`, and for bytes that are no UTF-8.
///
/// Example: of `b"\xc3\xa9"` without a codec it gives the text `é`, and by `ascii` it is refused with `ValueError`.
pub fn decode_text(
    alloc: Global,
    bytes: &[u8],
    encoding: Option<&Text>,
    errors: Option<&Text>,
) -> Tried<Text>
    ensures { GivesOutcome (spec.decoded bytes.now (option_copied encoding.entry) (option_copied errors.entry)) result }
{
    tried(decoded(alloc, bytes, encoding, errors))
}

/// The text that the bytes are by the codec and the handler of the arguments.
///
/// Refused as `decode_text` is.
///
/// Example: of `b"ab"` and the codec `utf-8` it gives the text `ab`.
pub fn bytes_decode(alloc: Global, bytes: &[u8], args: &DecodeArgs) -> Tried<Text>
    ensures { GivesOutcome (spec.decoded bytes.now args.now.encoding args.now.errors) result }
{
    decode_text(alloc, bytes, args.encoding.as_ref(), args.errors.as_ref())
}
