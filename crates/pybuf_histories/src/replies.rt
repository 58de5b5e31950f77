//! The texts of the replies of one exporter.
ghost use Rattle.std.specs.Prelude.{◌≡◌, ◌++◌, codes, OnOk};
ghost use Rattle.pybuf_value.specs.Names.{python_name_of};
ghost use Rattle.pybuf_value.specs.Spelling.{bytes_text};
ghost use Rattle.pybuf_histories.specs.Replies.{local_reply_text};

use crate::names::{push_iterator, push_subject, push_view};
use pybuf_command::{LocalReply, Subject};
use pybuf_line::{Part, push_list, push_nested, push_tuple};
use pybuf_value::{Fault, Made, push_bytes, push_quoted, push_truth};

/// Adds a refusal.
fn push_refusal(out: &mut Vec<u8>, fault: Fault) -> Made<()>
    ensures { OnOk result (out.new.items ≡ out.old.items ++ (codes "! " ++ python_name_of fault)) }
{
    out.extend_from_slice(b"! ")?;
    out.extend_from_slice(fault.python_name().as_bytes())?;
    Ok(())
}

/// Adds the bytes of what a new exporter is to be made of.
fn push_fresh(out: &mut Vec<u8>, bytes: &[u8]) -> Made<()>
    ensures { OnOk result (out.new.items ≡ out.old.items ++ (codes "fresh " ++ bytes_text bytes.now)) }
{
    out.extend_from_slice(b"fresh ")?;
    push_bytes(out, bytes)
}

/// Adds the reply to a command of a subject.
pub fn push_local_reply(out: &mut Vec<u8>, asked: Subject, reply: &LocalReply) -> Made<()>
    ensures { OnOk result (out.new.items ≡ out.old.items ++ local_reply_text asked reply.now) }
{
    match reply {
        LocalReply::Ok => out.extend_from_slice(b"ok")?,
        LocalReply::View(view) => push_view(out, *view)?,
        LocalReply::Iter(iterator) => push_iterator(out, *iterator)?,
        LocalReply::Itself => push_subject(out, asked)?,
        LocalReply::Own => push_subject(out, Subject::Own)?,
        LocalReply::Item(item) => item.push_part(out)?,
        LocalReply::Items { shape, items } => {
            push_nested(out, shape.as_slice(), items.as_slice())?
        }
        LocalReply::Bytes(bytes) => push_bytes(out, bytes.as_slice())?,
        LocalReply::Text(text) => push_quoted(out, text.as_slice())?,
        LocalReply::Shown(text) => out.extend_from_slice(text.as_slice())?,
        LocalReply::Truth(truth) => push_truth(out, *truth)?,
        LocalReply::NotImplementedReply => out.extend_from_slice(b"NotImplemented")?,
        LocalReply::Numbers(numbers) => push_tuple(out, numbers.as_slice())?,
        LocalReply::ByteLists(lists) => push_list(out, lists.as_slice())?,
        LocalReply::Stop => out.extend_from_slice(b"stop")?,
        LocalReply::Fresh(snap) => push_fresh(out, snap.content.as_slice())?,
        LocalReply::Refused(fault) => push_refusal(out, *fault)?,
    }
    Ok(())
}
