//! The commands of a script.
ghost use Rattle.std.specs.Prelude.{◌≡◌};
ghost use Rattle.pybuf_make.specs.Script as spec;

use pybuf_command::{ByteInnerNewOptions, Command, ExporterKind, Verb};
use pybuf_value::{ByteList, PySlice, Scalar, Value};
use std::alloc::Global;

/// A whole number as a value.
fn number(n: u64) -> Value
    ensures { result ≡ spec.number n }
{
    Value::One(Scalar::Int(i128::from(n)))
}

/// All items, the last one first.
fn turned_round() -> Value
    ensures { result ≡ spec.turned_round }
{
    Value::Slice(PySlice {
        start: Scalar::None,
        stop: Scalar::None,
        step: Scalar::Int(-1),
    })
}

/// A bytearray without bytes is made. Takes no memory.
pub fn new_bytearray(alloc: Global) -> Command
    ensures { result ≡ spec.new_bytearray }
{
    Command::New {
        kind: ExporterKind::ByteArray,
        options: ByteInnerNewOptions {
            source: Some(Value::One(Scalar::Bytes(ByteList::new(alloc)))),
            encoding: None,
            errors: None,
        },
    }
}

/// Something is asked of what a handle names.
pub fn ask(handle: u64, verb: Verb) -> Command
    ensures { result ≡ Command.Do handle verb }
{
    Command::Do {
        subject: handle,
        verb,
    }
}

/// A byte is added to the bytearray.
pub fn append(n: u64) -> Command
    ensures { result ≡ spec.append n }
{
    ask(0, Verb::Append { value: number(n) })
}

/// The first byte of the bytearray is taken out.
pub fn pop_first() -> Command
    ensures { result ≡ spec.pop_first }
{
    ask(
        0,
        Verb::Pop {
            index: Some(number(0)),
        },
    )
}

/// A view of the items of another, the last one first.
pub fn turn_round(handle: u64) -> Command
    ensures { result ≡ Command.Do handle (Verb.Get spec.turned_round) }
{
    ask(
        handle,
        Verb::Get {
            key: turned_round(),
        },
    )
}
