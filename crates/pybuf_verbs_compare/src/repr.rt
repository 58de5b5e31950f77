//! `repr`: the text that a subject is shown as, as by Python's `repr`.
ghost use Rattle.std.specs.Prelude.{IsTrue, ◌≡◌, ◌++◌, [], codes, decimal, IfOk};
ghost use Rattle.pybuf_value.specs.Quotes.{repr_of};
ghost use Rattle.pybuf_value.specs.Texts.{is_ascii};
ghost use Rattle.pybuf_state.specs.Answers.{ReadsIn};
ghost use Rattle.pybuf_verbs_compare.specs.Repr as spec;

use itoa::Buffer;
use pybuf_command::{ExporterKind, LocalReply};
use pybuf_state::Parts;
use pybuf_value::{Answer, Fault, Halt, Made, Text, repr_text};
use std::alloc::Global;

/// Shows the bytes of an exporter between quotes, after one text and before another.
fn shown_between(parts: &Parts, before: &[u8], after: &[u8]) -> Result<LocalReply, Halt>
    requires before { IsTrue (is_ascii before.now) }
    requires after { IsTrue (is_ascii after.now) }
    ensures { ReadsIn parts.now (λ e. spec.shown e (repr_of before.now parts.now.bytes.items after.now)) result }
{
    let text = repr_text(parts.alloc, before, parts.bytes.as_slice(), after).done()?;
    Ok(LocalReply::Shown(text))
}

/// The bytes between quotes, as Python writes them, with `b` before them or within `bytearray(b` and `)`.
///
/// Refused with `UnknownName` for a vector, and with `OverflowError` where the text has more than `isize::MAX` bytes.
/// Example: of the bytearray of the bytes 97 and 0 it shows `bytearray(b'a\x00')`.
pub fn of_own(parts: &Parts) -> Result<LocalReply, Halt>
    ensures { ReadsIn parts.now spec.repr_of_own result }
{
    match parts.kind {
        ExporterKind::Vector { readonly: _ } => Err(Halt::Refused(Fault::UnknownName)),
        ExporterKind::ByteArray => shown_between(parts, b"bytearray(b", b")"),
        ExporterKind::Bytes => shown_between(parts, b"b", b""),
    }
}

/// A number between words.
fn numbered(alloc: Global, before: &str, number: usize, after: &str) -> Made<Text>
    ensures { IfOk result (λ text. text ≡ before.now ++ decimal number ++ after.now) }
{
    let mut buffer = Buffer::new();
    let mut text = String::from_str(alloc, before)?;
    text.push_str(buffer.format(number))?;
    text.push_str(after)?;
    Ok(Text::from_string(text))
}

/// The number of a view in its exporter, counted from 0, and whether it was released.
///
/// Refused with `UnknownName` where no such view was given.
/// Example: of the view 0 it shows `<memory 0>`, and `<released memory 0>` once it is released.
pub fn of_view(parts: &Parts, view: usize) -> Result<LocalReply, Halt>
    ensures { ReadsIn parts.now (λ e. spec.repr_of_view e view) result }
{
    let stored = parts.view(view)?;
    if stored.is_released() {
        let text = numbered(parts.alloc, "<released memory ", view, ">")?;
        return Ok(LocalReply::Shown(text));
    }
    let text = numbered(parts.alloc, "<memory ", view, ">")?;
    Ok(LocalReply::Shown(text))
}
