//! `bytes`: the subject's bytes, of a view in an order.
ghost use Rattle.std.specs.Prelude.{◌≡◌, None, IfOk};
ghost use Rattle.pybuf_desc.specs.Layouts.{LiesInside};
ghost use Rattle.std.specs.Prelude.{length};
ghost use Rattle.pybuf_state.specs.Answers.{IsWhole, ReadsIn, as_bytes};
ghost use Rattle.pybuf_verbs_reads.specs.ToBytes.{bytes_of_own, bytes_of_view, by_letter, by_text, content_in, is_column_order};

use pybuf_command::LocalReply;
use pybuf_memoryview::{KeptLayout, column_content_of, content_of};
use pybuf_state::Parts;
use pybuf_value::{ByteList, Fault, Halt, Made, Scalar, Value, text_in};
use std::alloc::Global;

/// All the bytes. An order that is given is refused with `TypeError`.
/// Example: of `bytearray(b"abc")` without an order it replies `b"abc"`.
pub fn of_own(parts: &Parts, order: &Option<Value>) -> Result<LocalReply, Halt>
    ensures { ReadsIn parts.now (λ e. bytes_of_own e order.now) result }
{
    if order.is_some() {
        return Err(Halt::Refused(Fault::Kind));
    }
    let bytes = Vec::from_slice(parts.alloc, parts.bytes.as_slice())?;
    Ok(LocalReply::Bytes(ByteList::from_vec(bytes)))
}

/// Whether a letter asks for column order.
fn by_letter(layout: &KeptLayout, letter: u8) -> Result<bool, Fault>
    ensures { result ≡ by_letter layout.now letter }
{
    match letter {
        b'C' => Ok(false),
        b'F' => Ok(true),
        b'A' => Ok(layout.is_f_contiguous() && !layout.is_contiguous()),
        _ => Err(Fault::Value),
    }
}

/// Whether a text does.
fn by_text(layout: &KeptLayout, text: &[u8]) -> Result<bool, Fault>
    ensures { result ≡ by_text layout.now text.now }
{
    match text {
        [letter] => by_letter(layout, *letter),
        _ => Err(Fault::Value),
    }
}

/// Whether an order does that may be absent or None.
fn is_column_order(layout: &KeptLayout, order: &Option<Value>) -> Result<bool, Fault>
    ensures { result ≡ is_column_order layout.now order.now }
{
    match order {
        None => Ok(false),
        Some(Value::One(Scalar::None)) => Ok(false),
        Some(order) => {
            let text = text_in(order)?;
            by_text(layout, text.as_slice())
        }
    }
}

/// The bytes of a view's items in column order, or in row-major order.
fn content_in(alloc: Global, columns: bool, bytes: &[u8], layout: &KeptLayout) -> Made<Vec<u8>>
    requires { LiesInside (length bytes.now) layout.now }
    ensures { IfOk result (λ list. list.items ≡ content_in columns bytes.now layout.now) }
{
    if columns {
        column_content_of(alloc, bytes, layout)
    } else {
        content_of(alloc, bytes, layout)
    }
}

/// The bytes of a view's items, row-major, as a vector. Refused with `UnknownName` for a view that was never given,
/// and with `ValueError` for a released one.
/// Example: of the view `memoryview(b"abcdef")[::-2]` it has the bytes `b"fdb"`.
pub fn content(parts: &Parts, view: usize) -> Result<Vec<u8>, Halt>
    requires { IsWhole parts.now }
    ensures { ReadsIn parts.now (λ e. bytes_of_view e view None) (as_bytes result) }
{
    let layout = parts.live_layout(view)?;
    Ok(content_of(parts.alloc, parts.bytes.as_slice(), layout)?)
}

/// The bytes of a view's items, in an order: row by row by `C`, by None and without one, in column order by `F`, and
/// by `A` in column order only where the items lie one after the other in it and not row by row. Refused with
/// `UnknownName` for a view that was never given, and with `ValueError` for a released one; then with `TypeError` for
/// an order that is no text, and with `ValueError` for another text.
/// Example: of the items `[[97, 98, 99], [100, 101, 102]]` in the format `B` the order `'F'` gives `b"adbecf"`.
pub fn of_view(parts: &Parts, view: usize, order: &Option<Value>) -> Result<LocalReply, Halt>
    requires { IsWhole parts.now }
    ensures { ReadsIn parts.now (λ e. bytes_of_view e view order.now) result }
{
    let layout = parts.live_layout(view)?;
    let columns = is_column_order(layout, order)?;
    let bytes = content_in(parts.alloc, columns, parts.bytes.as_slice(), layout)?;
    Ok(LocalReply::Bytes(ByteList::from_vec(bytes)))
}
