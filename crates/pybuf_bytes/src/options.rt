//! The bytes that options ask for.
ghost use Rattle.std.specs.Prelude.{◌≡◌, ◌<◌, ◌^◌, pos};
ghost use Rattle.std.specs.Option.{option_copied};
ghost use Rattle.std.specs.Str.{bytes_eq};
ghost use Rattle.pybuf_value.specs.Halting.{Gives, GivesLentOption, GivesOutcome};
ghost use Rattle.pybuf_command.specs.declared.options.ByteInnerNewOptions.{ByteInnerNewOptions};
ghost use Rattle.pybuf_bytes.specs.Options as spec;

use crate::inner::PyBytesInner;
use pybuf_command::ByteInnerNewOptions;
use pybuf_value::{
    Answer, Fault, Halt, Lender, Text, Tried, Value, bytes_from_object, fit_count, index_of,
    is_ascii, text_in, tried,
};
use std::alloc::Global;

/// Whether a text is a name, byte by byte.
fn is_name(text: &[u8], name: &str) -> bool
    ensures { result ≡ bytes_eq text.now name.now }
{
    text == name.as_bytes()
}

/// Whether a name is that of UTF-8.
pub(crate) fn is_utf8_name(name: &[u8]) -> bool
    ensures { result ≡ spec.is_utf8_name name.now }
{
    is_name(name, "utf-8") || is_name(name, "utf8")
}

/// Whether a name is that of ASCII.
pub(crate) fn is_ascii_name(name: &[u8]) -> bool
    ensures { result ≡ spec.is_ascii_name name.now }
{
    is_name(name, "ascii")
}

/// Whether errors are handled by a refusal, as they are where no handler is named.
pub(crate) fn is_strict(errors: Option<&Text>) -> bool
    ensures { result ≡ spec.is_strict (option_copied errors.entry) }
{
    match errors {
        None => true,
        Some(name) => is_name(name.as_slice(), "strict"),
    }
}

/// So many bytes of 0, as one block.
fn zeros(alloc: Global, number: i128) -> Result<PyBytesInner, Halt>
    ensures { Gives (spec.sized_bytes number) result }
{
    let size = fit_count(number)?;
    if size < 0 {
        return Err(Halt::Refused(Fault::Value));
    }
    let bytes = Vec::from_elem(alloc, 0, size as usize)?;
    Ok(PyBytesInner::from(bytes))
}

/// The bytes of a source alone.
fn bytes_of_source<L: Lender>(
    alloc: Global,
    source: &Value,
    lender: &L,
) -> Result<PyBytesInner, Halt>
    ensures { Gives (spec.bytes_of_source (L.pairs lender.now) source.now) result }
{
    match index_of(source) {
        Ok(number) => zeros(alloc, number),
        Err(_) => {
            let bytes = bytes_from_object(alloc, source, lender).done()?;
            Ok(PyBytesInner::from(bytes.into_vec()))
        }
    }
}

/// The bytes of a text by an encoding.
fn encoded(
    alloc: Global,
    source: &Value,
    encoding: &Text,
    errors: Option<&Text>,
) -> Result<PyBytesInner, Halt>
    ensures { Gives (spec.encoded source.now encoding.now (option_copied errors.entry)) result }
{
    let text = text_in(source)?;
    let ascii = is_ascii_name(encoding.as_slice());
    if !(is_utf8_name(encoding.as_slice()) || ascii) {
        return Err(Halt::Refused(Fault::Value));
    }
    if !is_strict(errors) {
        return Err(Halt::Refused(Fault::Value));
    }
    if ascii && !is_ascii(text.as_slice()) {
        return Err(Halt::Refused(Fault::Value));
    }
    Ok(PyBytesInner::from(Vec::from_slice(alloc, text.as_slice())?))
}

/// The text of an argument that may not be given.
fn text_given(value: &Option<Value>) -> Result<Option<&Text>, Fault>
    ensures { GivesLentOption (spec.text_given value.now) result }
{
    match value {
        None => Ok(None),
        Some(value) => {
            let text = text_in(value)?;
            Ok(Some(text))
        }
    }
}

/// The bytes by what is given.
fn bytes_by<L: Lender>(
    alloc: Global,
    source: &Option<Value>,
    encoding: Option<&Text>,
    errors: Option<&Text>,
    lender: &L,
) -> Result<PyBytesInner, Halt>
    ensures { Gives (spec.bytes_by (L.pairs lender.now) source.now (option_copied encoding.entry) (option_copied errors.entry)) result }
{
    match (source, encoding, errors) {
        (None, None, None) => Ok(PyBytesInner::from(Vec::new(alloc))),
        (None, _, _) => Err(Halt::Refused(Fault::Kind)),
        (Some(source), None, None) => bytes_of_source(alloc, source, lender),
        (Some(_), None, Some(_)) => Err(Halt::Refused(Fault::Kind)),
        (Some(source), Some(encoding), errors) => encoded(alloc, source, encoding, errors),
    }
}

/// The bytes of options.
fn bytes_of_options<L: Lender>(
    alloc: Global,
    options: &ByteInnerNewOptions,
    lender: &L,
) -> Result<PyBytesInner, Halt>
    ensures { Gives (spec.bytes_asked (L.pairs lender.now) options.now) result }
{
    let encoding = text_given(&options.encoding)?;
    let errors = text_given(&options.errors)?;
    bytes_by(alloc, &options.source, encoding, errors, lender)
}

/// The same, as a call answers it.
fn bytes_answered<L: Lender>(
    alloc: Global,
    options: &ByteInnerNewOptions,
    lender: &L,
) -> Tried<PyBytesInner>
    ensures { GivesOutcome (spec.bytes_asked (L.pairs lender.now) options.now) result }
{
    tried(bytes_of_options(alloc, options, lender))
}

/// The bytes that options ask for. The options are words of commands and stand below strings of bytes, so
/// that these calls are those of a trait.
///
/// Example: the options with the source 3 alone ask for `b"\0\0\0"`.
pub trait NewOptions {
    ghost options: { Self → ByteInnerNewOptions };

    /// The bytes that the options ask for, for Python's `bytes`. Without arguments there are none. A
    /// number alone asks for so many zeros, and any other source alone for the bytes that it is read
    /// as. A text with its encoding, `utf-8`, `utf8` or `ascii`, asks for the bytes of the text.
    ///
    /// Refused, in this order, with `TypeError` where an encoding or a handler of errors is no text, or
    /// is given without a source; where the source is alone, with `OverflowError` for a number that
    /// doesn't fit `isize`, with `ValueError` for a negative one, with `TypeError` for a text, and else
    /// as `bytes_from_object` refuses it; with `TypeError` for a handler of errors without an encoding,
    /// and for a source with an encoding that is no text; with `ValueError` for another encoding, for
    /// another handler of errors than `strict`, and for a character past ASCII.
    ///
    /// Example: of the text `é` with the encoding `utf-8` it gives `b"\xc3\xa9"`.
    fn get_bytes<L: Lender>(&self, alloc: Global, lender: &L) -> Tried<PyBytesInner>
        ensures { GivesOutcome (spec.bytes_asked (L.pairs lender.now) (options self.now)) result };

    /// The bytes that the options ask for, for Python's `bytearray`, which takes the same arguments as
    /// `bytes`.
    ///
    /// Refused as `get_bytes` is.
    ///
    /// Example: of the source 3 alone it gives `b"\0\0\0"`.
    fn get_bytearray_inner<L: Lender>(&self, alloc: Global, lender: &L) -> Tried<PyBytesInner>
        ensures { GivesOutcome (spec.bytes_asked (L.pairs lender.now) (options self.now)) result };
}

impl NewOptions for ByteInnerNewOptions {
    ghost options = { λ o. o };

    fn get_bytes<L: Lender>(&self, alloc: Global, lender: &L) -> Tried<PyBytesInner> {
        bytes_answered(alloc, self, lender)
    }

    fn get_bytearray_inner<L: Lender>(&self, alloc: Global, lender: &L) -> Tried<PyBytesInner> {
        bytes_answered(alloc, self, lender)
    }
}
