//! Values of commands, made of the numbers and bytes that a caller passes.
ghost use Rattle.std.specs.Prelude.{◌≡◌, IfOk, MatchOption};
ghost use Rattle.std.specs.Str.{IsUtf8};
ghost use Rattle.pybuf_console.specs.Values as spec;

use pybuf_command::ByteInnerNewOptions;
use pybuf_value::{ByteList, Made, PySlice, Scalar, ScalarList, Text, Value};
use std::alloc::Global;

/// A slice whose parts may be absent, as a program in C passes it.
/// Example: `has_step: false` with a start of 1 and a stop of 3 stands for `1:3`.
#[repr(C)]
#[derive(Clone, Copy)]
pub struct SliceWords {
    /// The start, where there is one.
    pub start: i64,
    /// The stop, where there is one.
    pub stop: i64,
    /// The step, where there is one.
    pub step: i64,
    /// Whether there is a start; else it is `None`.
    pub has_start: bool,
    /// Whether there is a stop; else it is `None`.
    pub has_stop: bool,
    /// Whether there is a step; else it is `None`.
    pub has_step: bool,
}

/// A number as a value. Takes no memory.
/// Example: `number_value(5)` is `Value::One(Scalar::Int(5))`.
#[inline(always)]
pub fn number_value(number: i128) -> Value
    ensures { result ≡ spec.number_value number }
{
    Value::One(Scalar::Int(number))
}

/// A handle as a value. Takes no memory.
/// Example: `object_value(3)` is `Value::One(Scalar::Handle(3))`.
#[inline(always)]
pub fn object_value(handle: u64) -> Value
    ensures { result ≡ spec.object_value handle }
{
    Value::One(Scalar::Handle(handle))
}

/// A copy of bytes as a value.
/// Example: `bytes_value(alloc, b"ab")?` is the value `x6162`.
pub fn bytes_value(alloc: Global, bytes: &[u8]) -> Made<Value>
    ensures { IfOk result (λ value. value ≡ spec.bytes_value bytes.now) }
{
    Ok(Value::One(Scalar::Bytes(ByteList::from_slice(alloc, bytes)?)))
}

/// A part of a slice, or none.
fn part_of(there: bool, number: i64) -> Scalar
    ensures { result ≡ spec.part_of there number }
{
    if there {
        Scalar::Int(number as i128)
    } else {
        Scalar::None
    }
}

/// A slice, with `None` for each part that is absent. Takes no memory.
/// Example: the start 1, the stop 3 and no step give `1:3:None`.
pub fn slice_of(words: &SliceWords) -> PySlice
    ensures { result ≡ spec.slice_of words.now }
{
    PySlice {
        start: part_of(words.has_start, words.start),
        stop: part_of(words.has_stop, words.stop),
        step: part_of(words.has_step, words.step),
    }
}

/// The options by which an exporter of these bytes is made.
/// Example: of `b"ab"` they are the source `x6162` alone.
pub fn source_of(alloc: Global, bytes: &[u8]) -> Made<ByteInnerNewOptions>
    ensures { IfOk result (λ options. options ≡ spec.source_of bytes.now) }
{
    let source = Some(bytes_value(alloc, bytes)?);
    Ok(ByteInnerNewOptions {
        source,
        encoding: None,
        errors: None,
    })
}

/// A copy of a text as a value. It is None exactly where the bytes are no UTF-8.
/// Example: of `b"H"` it is the value `'H'`, and of the byte 255 None.
pub fn text_value(alloc: Global, bytes: &[u8]) -> Made<Option<Value>>
    ensures { IfOk result (λ made. MatchOption made (IsUtf8 bytes.now → ⊥) (λ value. value ≡ spec.text_value bytes.now)) }
{
    match str::from_utf8(bytes) {
        Ok(text) => {
            let text = Text::from_string(String::from_str(alloc, text)?);
            Ok(Some(Value::One(Scalar::Text(text))))
        }
        Err(_) => Ok(None),
    }
}

/// Numbers as a tuple.
/// Example: of `&[2, 3]` it is the value `(2,3)`.
pub fn tuple_of(alloc: Global, numbers: &[i64]) -> Made<Value>
    ensures { IfOk result (λ value. value ≡ spec.tuple_of numbers.now) }
{
    let mut parts = ScalarList::new(alloc);
    for number in numbers {
        parts.push(Scalar::Int(*number as i128))?;
    }
    Ok(Value::Tuple(parts))
}
