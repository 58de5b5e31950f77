//! The first line of an input of sessions.
ghost use Rattle.std.specs.Prelude.{◌≡◌, Some};
ghost use Rattle.pybuf_sessions.specs.Sessions.{bytes_in_value, bytes_alone, opening_of, opening_in};
ghost use Rattle.pybuf_sessions.specs.Reading.{ReadsOpening};

use pybuf_command::{ByteInnerNewOptions, Command, ExporterKind};
use pybuf_line::{Unread, command};
use pybuf_value::{ByteList, Scalar, Value};
use std::alloc::Global;

/// The bytes that options give, where these are bytes alone.
fn bytes_of(options: ByteInnerNewOptions) -> Option<ByteList>
    ensures { result ≡ bytes_alone options.source options.encoding options.errors }
{
    let ByteInnerNewOptions {
        source,
        encoding,
        errors,
    } = options;
    // What is dropped is handed over to a call. If it ended with its scope, the drop would spell out all its variants.
    if encoding.is_some() {
        drop(source);
        drop(encoding);
        drop(errors);
        return None;
    }
    drop(encoding);
    if errors.is_some() {
        drop(source);
        drop(errors);
        return None;
    }
    drop(errors);
    match source {
        Some(source) => bytes_of_value(source),
        None => None,
    }
}

/// The bytes that a value is.
fn bytes_of_value(source: Value) -> Option<ByteList>
    ensures { result ≡ bytes_in_value source }
{
    match source {
        Value::One(Scalar::Bytes(bytes)) => Some(bytes),
        _ => None,
    }
}

/// The kind and the bytes of a new exporter, where it is made of bytes alone.
fn opening_made(asked: Command) -> Result<(ExporterKind, ByteList), Unread>
    ensures { ReadsOpening result (opening_of (Some asked)) }
{
    match asked {
        Command::New { kind, options } => match bytes_of(options) {
            Some(bytes) => Ok((kind, bytes)),
            None => Err(Unread::NoCommand),
        },
        other => {
            other.let_go();
            Err(Unread::NoCommand)
        }
    }
}

/// The kind and the bytes of the exporter that the first line asks for.
#[tactic(auto, unfolding(crate::specs::Sessions::opening_in))]
pub fn opening(alloc: Global, line: &[u8]) -> Result<(ExporterKind, ByteList), Unread>
    ensures { ReadsOpening result (opening_in line.now) }
{
    let asked = command(alloc, line)?;
    opening_made(asked)
}
