//! Replies as they are shown (`Display`).
ghost use Rattle.pybuf_command.specs.Shown.{shown_local_reply, shown_reply};

use crate::commands::LocalReply;
use crate::worlds::Reply;
use pybuf_value::{Item, write_bytes, write_list, write_quoted, write_truth, write_tuple};
use std::fmt;

/// Writes items nested by a shape.
fn write_nested<W: fmt::Write>(
    f: &mut fmt::Formatter<W>,
    shape: &[usize],
    items: &[Item],
) -> fmt::Result {
    match shape {
        [] | [_] => write_list(f, items),
        [0, ..] => f.write_str("[]"),
        [entries, inner @ ..] => {
            let size = items.len() / *entries;
            let mut rest = items;
            f.write_str("[")?;
            for entry in 0..*entries {
                if entry > 0 {
                    f.write_str(", ")?;
                }
                let (block, more) = rest.split_at(size.min(rest.len()));
                write_nested(f, inner, block)?;
                rest = more;
            }
            f.write_str("]")
        }
    }
}

/// The text of its line.
impl fmt::Display for Reply {
    ghost output = { shown_reply };

    fn fmt<W: fmt::Write>(&self, f: &mut fmt::Formatter<W>) -> fmt::Result {
        match self {
            Reply::Ok => f.write_str("ok"),
            Reply::Handle(handle) => write!(f, "h{handle}"),
            Reply::Pair { exporter, view } => write!(f, "h{exporter} h{view}"),
            Reply::Item(item) => write!(f, "{item}"),
            Reply::Items { shape, items } => write_nested(f, shape.as_slice(), items.as_slice()),
            Reply::Bytes(bytes) => write_bytes(f, bytes.as_slice()),
            Reply::ByteLists(lists) => write_list(f, lists.as_slice()),
            Reply::Text(text) => write_quoted(f, text.as_slice()),
            Reply::Shown(text) => f.write_str(text.as_str()),
            Reply::Truth(truth) => write_truth(f, *truth),
            Reply::NotImplementedReply => f.write_str("NotImplemented"),
            Reply::Stop => f.write_str("stop"),
            Reply::Numbers(numbers) => write_tuple(f, numbers.as_slice()),
            Reply::Refused(fault) => {
                f.write_str("! ")?;
                f.write_str(fault.python_name())
            }
        }
    }
}

/// The text of the line of such a reply, and `view 0`, `iterator 0`, `itself`, `the exporter` and `a copy of b'..'` for
/// what a line shows by a handle.
impl fmt::Display for LocalReply {
    ghost output = { shown_local_reply };

    fn fmt<W: fmt::Write>(&self, f: &mut fmt::Formatter<W>) -> fmt::Result {
        match self {
            LocalReply::Ok => f.write_str("ok"),
            LocalReply::View(view) => write!(f, "view {view}"),
            LocalReply::Iter(iterator) => write!(f, "iterator {iterator}"),
            LocalReply::Itself => f.write_str("itself"),
            LocalReply::Own => f.write_str("the exporter"),
            LocalReply::Item(item) => write!(f, "{item}"),
            LocalReply::Items { shape, items } => {
                write_nested(f, shape.as_slice(), items.as_slice())
            }
            LocalReply::Bytes(bytes) => write_bytes(f, bytes.as_slice()),
            LocalReply::Text(text) => write_quoted(f, text.as_slice()),
            LocalReply::Shown(text) => f.write_str(text.as_str()),
            LocalReply::Truth(truth) => write_truth(f, *truth),
            LocalReply::NotImplementedReply => f.write_str("NotImplemented"),
            LocalReply::Numbers(numbers) => write_tuple(f, numbers.as_slice()),
            LocalReply::ByteLists(lists) => write_list(f, lists.as_slice()),
            LocalReply::Stop => f.write_str("stop"),
            LocalReply::Fresh(snap) => {
                f.write_str("a copy of ")?;
                write_bytes(f, snap.content.as_slice())
            }
            LocalReply::Refused(fault) => {
                f.write_str("! ")?;
                f.write_str(fault.python_name())
            }
        }
    }
}
