//! The lines of a history.
ghost use Rattle.std.specs.Prelude.{◌≡◌, ◌++◌, OnOk};
ghost use Rattle.pybuf_histories.specs.Entries.{entry_text, entry_line, last_lines};

use crate::commands::push_command;
use crate::replies::push_local_reply;
use pybuf_line::push_decimal;
use pybuf_share::Entry;
use pybuf_value::{Made, push_bytes};

/// Adds an entry.
pub(crate) fn push_entry(out: &mut Vec<u8>, entry: &Entry) -> Made<()>
    ensures { OnOk result (out.new.items ≡ out.old.items ++ entry_text entry.now) }
{
    let command = entry.command.as_command();
    push_decimal(out, entry.session)?;
    out.extend_from_slice(b": ")?;
    push_command(out, command)?;
    out.extend_from_slice(b" -> ")?;
    push_local_reply(out, command.subject, &entry.reply)
}

/// Adds the line of an entry, as `0: get v0 1 -> 97`, with its line feed. The number of its session comes first. The
/// command is spelled as on a line, and the reply as on a line of replies, but for names: the exporter is `own`, its
/// views are `v0`, `v1` and so on by their numbers, its iterators `j0`, `j1` and so on, and what wasn't given is `none`;
/// the bytes that another exporter lends are spelled as bytes, and what a new exporter is to be made of is `fresh` and
/// its bytes.
///
/// Where memory runs out, a part of it may have been added.
///
/// Example: of session 0, which made the first view of the exporter, it adds `0: view own -> v0` and a line feed.
pub fn push_entry_line(out: &mut Vec<u8>, entry: &Entry) -> Made<()>
    ensures { OnOk result (out.new.items ≡ out.old.items ++ entry_line entry.now) }
{
    push_entry(out, entry)?;
    out.push(b'\n')?;
    Ok(())
}

/// Adds what stands behind the last entry: how many there are, and the bytes of the exporter, a line each.
///
/// Where memory runs out, a part of it may have been added.
///
/// Example: of 6 and `b"ab"` it adds the lines `calls 6` and `bytes b'ab'`.
pub fn push_last_lines(out: &mut Vec<u8>, calls: usize, bytes: &[u8]) -> Made<()>
    ensures { OnOk result (out.new.items ≡ out.old.items ++ last_lines calls bytes.now) }
{
    out.extend_from_slice(b"calls ")?;
    push_decimal(out, calls as u64)?;
    out.extend_from_slice(b"\nbytes ")?;
    push_bytes(out, bytes)?;
    out.push(b'\n')?;
    Ok(())
}
