//! The texts of replies.
ghost use Rattle.std.specs.Prelude.{◌≡◌, ◌++◌, List, ℕ, OnOk, codes, decimal};
ghost use Rattle.std.specs.Fmt.{signed_decimal};
ghost use Rattle.std.specs.List.{flat_map};
ghost use Rattle.pybuf_value.specs.Names.{python_name_of};
ghost use Rattle.pybuf_value.specs.Spelling.{bytes_text, handle_text, scalar_text, next_part_text, tuple_text, item_text, list_text};
ghost use Rattle.pybuf_command.specs.Shown.{nested_text, reply_text};
ghost use Rattle.pybuf_line.specs.Replies.{reply_line, bad_line_text};

use itoa::Buffer;
use pybuf_command::Reply;
use pybuf_value::{
    ByteList, Fault, Item, Made, Scalar, push_bytes, push_handle, push_number, push_quoted,
    push_scalar, push_truth,
};

/// Adds a number in decimal digits.
///
/// Where memory runs out, a part of it may have been added.
///
/// Example: of 12 it adds `12`.
pub fn push_decimal(out: &mut Vec<u8>, number: u64) -> Made<()>
    ensures { OnOk result (out.new.items ≡ out.old.items ++ decimal number) }
{
    let mut buffer = Buffer::new();
    out.extend_from_slice(buffer.format(number).as_bytes())?;
    Ok(())
}

/// Adds a text as it is.
fn push_text(out: &mut Vec<u8>, text: &[u8]) -> Made<()>
    ensures { OnOk result (out.new.items ≡ out.old.items ++ text.now) }
{
    out.extend_from_slice(text)?;
    Ok(())
}

/// What a tuple or a list of a reply may have as its parts.
///
/// Example: a number, bytes, a scalar and an item are such parts.
pub trait Part {
    // The text that a part is written as.
    ghost text: { Self → List ℕ };

    /// Adds the part, as it stands in a tuple or a list.
    ///
    /// Where memory runs out, a part of it may have been added.
    ///
    /// Example: of the number 5 it adds `5`.
    fn push_part(&self, out: &mut Vec<u8>) -> Made<()>
        ensures { OnOk result (out.new.items ≡ out.old.items ++ text self.now) };
}

impl Part for i128 {
    ghost text = { signed_decimal };

    fn push_part(&self, out: &mut Vec<u8>) -> Made<()> {
        push_number(out, *self)
    }
}

impl Part for Scalar {
    ghost text = { scalar_text handle_text };

    fn push_part(&self, out: &mut Vec<u8>) -> Made<()> {
        push_scalar(out, self)
    }
}

impl Part for ByteList {
    ghost text = { bytes_text };

    fn push_part(&self, out: &mut Vec<u8>) -> Made<()> {
        push_bytes(out, self.as_slice())
    }
}

/// Adds the parts of a tuple or a list after the first.
fn push_next_parts<T: Part>(out: &mut Vec<u8>, parts: &[T]) -> Made<()>
    ensures { OnOk result (out.new.items ≡ out.old.items ++ flat_map (next_part_text T.text) parts.now) }
{
    for part in parts {
        out.extend_from_slice(b", ")?;
        part.push_part(out)?;
    }
    Ok(())
}

/// Adds a tuple, as Python's `repr` writes it.
///
/// Where memory runs out, a part of it may have been added.
///
/// Example: of 3 alone it adds `(3,)`.
pub fn push_tuple<T: Part>(out: &mut Vec<u8>, parts: &[T]) -> Made<()>
    ensures { OnOk result (out.new.items ≡ out.old.items ++ tuple_text T.text parts.now) }
{
    match parts {
        [] => out.extend_from_slice(b"()")?,
        [part] => {
            out.push(b'(')?;
            part.push_part(out)?;
            out.extend_from_slice(b",)")?;
        }
        [part, more @ ..] => {
            out.push(b'(')?;
            part.push_part(out)?;
            push_next_parts(out, more)?;
            out.push(b')')?;
        }
    }
    Ok(())
}

impl Part for Item {
    ghost text = { item_text handle_text };

    fn push_part(&self, out: &mut Vec<u8>) -> Made<()> {
        match self {
            Item::One(part) => push_scalar(out, part),
            Item::Many(parts) => push_tuple(out, parts.as_slice()),
        }
    }
}

/// Adds a list, as Python's `repr` writes it.
///
/// Where memory runs out, a part of it may have been added.
///
/// Example: of `b"a"` and `b"b"` it adds `[b'a', b'b']`.
pub fn push_list<T: Part>(out: &mut Vec<u8>, parts: &[T]) -> Made<()>
    ensures { OnOk result (out.new.items ≡ out.old.items ++ list_text T.text parts.now) }
{
    match parts {
        [] => out.extend_from_slice(b"[]")?,
        [part, more @ ..] => {
            out.push(b'[')?;
            part.push_part(out)?;
            push_next_parts(out, more)?;
            out.push(b']')?;
        }
    }
    Ok(())
}

/// Adds items nested by a shape. Each block is lent, and none is copied.
///
/// Where memory runs out, a part of it may have been added.
///
/// Example: of the shape 2, 3 and the items 0 to 5 it adds `[[0, 1, 2], [3, 4, 5]]`.
pub fn push_nested(out: &mut Vec<u8>, shape: &[usize], items: &[Item]) -> Made<()>
    ensures { OnOk result (out.new.items ≡ out.old.items ++ nested_text (item_text handle_text) shape.now items.now) }
{
    match shape {
        [] | [_] => push_list(out, items)?,
        [0, ..] => out.extend_from_slice(b"[]")?,
        [entries, inner @ ..] => {
            let size = items.len() / *entries;
            let (block, mut rest) = items.split_at(size);
            out.push(b'[')?;
            push_nested(out, inner, block)?;
            for _ in 1..*entries {
                let (block, more) = rest.split_at(size);
                out.extend_from_slice(b", ")?;
                push_nested(out, inner, block)?;
                rest = more;
            }
            out.push(b']')?;
        }
    }
    Ok(())
}

/// Adds the handles of an exporter and of its view.
fn push_pair(out: &mut Vec<u8>, exporter: u64, view: u64) -> Made<()>
    ensures { OnOk result (out.new.items ≡ out.old.items ++ handle_text exporter ++ codes " " ++ handle_text view) }
{
    push_handle(out, exporter)?;
    out.push(b' ')?;
    push_handle(out, view)
}

/// Adds a refusal.
fn push_refusal(out: &mut Vec<u8>, fault: Fault) -> Made<()>
    ensures { OnOk result (out.new.items ≡ out.old.items ++ codes "! " ++ python_name_of fault) }
{
    out.extend_from_slice(b"! ")?;
    push_text(out, fault.python_name().as_bytes())
}

/// Adds the text of a reply.
///
/// Where memory runs out, a part of it may have been added. It ends in each arm, since one way out for
/// all arms would be too much for the prover.
///
/// Example: of `Reply::Truth(true)` it adds `True`, and of `Reply::Refused(Fault::Index)` it adds `! IndexError`.
pub fn push_reply(out: &mut Vec<u8>, reply: &Reply) -> Made<()>
    ensures { OnOk result (out.new.items ≡ out.old.items ++ reply_text handle_text reply.now) }
{
    match reply {
        Reply::Ok => push_text(out, b"ok"),
        Reply::Handle(handle) => push_handle(out, *handle),
        Reply::Pair { exporter, view } => push_pair(out, *exporter, *view),
        Reply::Item(item) => item.push_part(out),
        Reply::Items { shape, items } => push_nested(out, shape.as_slice(), items.as_slice()),
        Reply::Bytes(bytes) => push_bytes(out, bytes.as_slice()),
        Reply::ByteLists(lists) => push_list(out, lists.as_slice()),
        Reply::Text(text) => push_quoted(out, text.as_slice()),
        Reply::Shown(text) => push_text(out, text.as_slice()),
        Reply::Truth(truth) => push_truth(out, *truth),
        Reply::NotImplementedReply => push_text(out, b"NotImplemented"),
        Reply::Stop => push_text(out, b"stop"),
        Reply::Numbers(numbers) => push_tuple(out, numbers.as_slice()),
        Reply::Refused(fault) => push_refusal(out, *fault),
    }
}

/// Adds a reply and its line feed.
///
/// Where memory runs out, a part of it may have been added.
///
/// Example: of `Reply::Handle(0)` it adds `h0` and a line feed.
pub fn push_reply_line(out: &mut Vec<u8>, reply: &Reply) -> Made<()>
    ensures { OnOk result (out.new.items ≡ out.old.items ++ reply_line handle_text reply.now) }
{
    push_reply(out, reply)?;
    out.push(b'\n')?;
    Ok(())
}

/// Adds what is written of an input whose line of this number is no command.
///
/// Where memory runs out, a part of it may have been added.
///
/// Example: of 2 it adds `line 2 is not a command` and a line feed.
pub fn push_bad_line(out: &mut Vec<u8>, number: u64) -> Made<()>
    ensures { OnOk result (out.new.items ≡ out.old.items ++ bad_line_text number) }
{
    out.extend_from_slice(b"line ")?;
    push_decimal(out, number)?;
    out.extend_from_slice(b" is not a command\n")?;
    Ok(())
}
