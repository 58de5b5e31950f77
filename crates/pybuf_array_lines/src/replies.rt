//! The texts of what arrays reply.
ghost use Rattle.std.specs.Prelude.{◌≡◌, ◌++◌, OnOk};
ghost use Rattle.pybuf_array_lines.specs.Replies.{view_text, array_reply_text, array_reply_line};

use pybuf_array::ArrayReply;
use pybuf_line::{push_decimal, push_list};
use pybuf_value::{Made, push_bytes, push_number};

/// Adds the number of a view, as `v3`.
fn push_view(out: &mut Vec<u8>, view: usize) -> Made<()>
    ensures { OnOk result (out.new.items ≡ out.old.items ++ view_text view) }
{
    out.push(b'v')?;
    push_decimal(out, view as u64)
}

/// Adds the text of a reply.
///
/// Where memory runs out, a part of it may have been added.
///
/// Example: of `ArrayReply::View(0)` it adds `v0`, and of `ArrayReply::Refused(Fault::Buffer)` it adds `! BufferError`.
pub fn push_array_reply(out: &mut Vec<u8>, reply: &ArrayReply) -> Made<()>
    ensures { OnOk result (out.new.items ≡ out.old.items ++ array_reply_text reply.now) }
{
    match reply {
        ArrayReply::Ok => out.extend_from_slice(b"ok")?,
        ArrayReply::Number(number) => push_number(out, *number)?,
        ArrayReply::Numbers(numbers) => push_list(out, numbers.as_slice())?,
        ArrayReply::Bytes(bytes) => push_bytes(out, bytes.as_slice())?,
        ArrayReply::View(view) => push_view(out, *view)?,
        ArrayReply::Refused(fault) => {
            out.extend_from_slice(b"! ")?;
            out.extend_from_slice(fault.python_name().as_bytes())?;
        }
    }
    Ok(())
}

/// Adds a reply and its line feed.
///
/// Where memory runs out, a part of it may have been added.
///
/// Example: of `ArrayReply::Ok` it adds `ok` and a line feed.
pub fn push_array_reply_line(out: &mut Vec<u8>, reply: &ArrayReply) -> Made<()>
    ensures { OnOk result (out.new.items ≡ out.old.items ++ array_reply_line reply.now) }
{
    push_array_reply(out, reply)?;
    out.push(b'\n')?;
    Ok(())
}
