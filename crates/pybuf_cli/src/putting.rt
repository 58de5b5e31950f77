//! Texts that are put a piece at a time, and the line that tells which line is no command.
ghost use Rattle.std.specs.Prelude.{◌≡◌, ◌≤◌, true, false, [], ◌++◌, IfOk, OnOk, OnErr, IfErr};
ghost use Rattle.pybuf_line.specs.Replies.{bad_line_text};
ghost use Rattle.pybuf_cli.specs.Devices.{Rose, Puts, PutsPrefix, SendsOf};
ghost use Rattle.pybuf_cli.specs.declared.devices.PutFault.{PutFault};
ghost use Rattle.pybuf_cli.specs.Program.{OrFails};

use crate::devices::{PutFault, Sink};
use crate::loops::{PIECE, write_all};
use crate::status::Status;
use pybuf_line::push_bad_line;
use pybuf_value::Made;
use std::alloc::Global;

/// Puts the text, and leaves none to wait.
fn send<K: Sink>(sink: &mut K, text: &mut Vec<u8>) -> Result<(), PutFault>
    ensures put { OnOk result (Puts K.bytes_held sink.old text.old.items sink.new) }
    ensures empty { OnOk result (text.new.items ≡ []) }
    ensures prefix { OnErr result (PutsPrefix K.bytes_held sink.old text.old.items sink.new) }
    ensures rose { IfErr result (λ fault. fault ≡ PutFault.Failed → Rose (K.faults sink.old) (K.faults sink.new)) }
    ensures later { K.faults sink.old ≤ K.faults sink.new }
{
    write_all(sink, text.as_slice())?;
    text.clear();
    Ok(())
}

/// Puts the text where it is long.
fn send_long<K: Sink>(sink: &mut K, text: &mut Vec<u8>) -> Result<(), PutFault>
    ensures sent { OnOk result (SendsOf K.bytes_held sink.old text.old.items text.new.items sink.new) }
    ensures prefix { OnErr result (PutsPrefix K.bytes_held sink.old text.old.items sink.new) }
    ensures rose { IfErr result (λ fault. fault ≡ PutFault.Failed → Rose (K.faults sink.old) (K.faults sink.new)) }
    ensures later { K.faults sink.old ≤ K.faults sink.new }
{
    if text.len() < PIECE {
        return Ok(());
    }
    send(sink, text)
}

/// Adds a reply to those that wait, and leaves none, where it is short and there is room for it.
fn joins(text: &mut Vec<u8>, reply: &mut Vec<u8>) -> bool
    ensures text { result ≡ true → text.new.items ≡ text.old.items ++ reply.old.items }
    ensures empty { result ≡ true → reply.new.items ≡ [] }
    ensures text_apart { result ≡ false → text.new.items ≡ text.old.items }
    ensures reply_apart { result ≡ false → reply.new.items ≡ reply.old.items }
{
    if reply.len() >= PIECE {
        return false;
    }
    match text.extend_from_slice(reply.as_slice()) {
        Ok(()) => {
            reply.clear();
            true
        }
        Err(_) => false,
    }
}

/// Adds a reply to those that wait, and puts these where they are long. A reply that is long by itself,
/// or for which there is no room, is put from where it was written.
pub(crate) fn send_reply<K: Sink>(
    sink: &mut K,
    text: &mut Vec<u8>,
    reply: &mut Vec<u8>,
) -> Result<(), PutFault>
    ensures sent { OnOk result (SendsOf K.bytes_held sink.old (text.old.items ++ reply.old.items) text.new.items sink.new) }
    ensures empty { OnOk result (reply.new.items ≡ []) }
    ensures prefix { OnErr result (PutsPrefix K.bytes_held sink.old (text.old.items ++ reply.old.items) sink.new) }
    ensures rose { IfErr result (λ fault. fault ≡ PutFault.Failed → Rose (K.faults sink.old) (K.faults sink.new)) }
    ensures later { K.faults sink.old ≤ K.faults sink.new }
{
    if joins(text, reply) {
        return send_long(sink, text);
    }
    send(sink, text)?;
    send(sink, reply)
}

/// Puts as much of the text as the sink takes.
pub(crate) fn send_front<K: Sink>(sink: &mut K, text: &[u8])
    ensures prefix { PutsPrefix K.bytes_held sink.old text.now sink.new }
    ensures later { K.faults sink.old ≤ K.faults sink.new }
{
    let _ = write_all(sink, text);
}

/// The text that tells which line is no command.
fn bad_line(alloc: Global, number: u64) -> Made<Vec<u8>>
    ensures { IfOk result (λ text. text.items ≡ bad_line_text number) }
{
    let mut text = Vec::new(alloc);
    push_bad_line(&mut text, number)?;
    Ok(text)
}

/// Puts which line is no command.
pub(crate) fn write_bad_line<K: Sink>(alloc: Global, sink: &mut K, number: u64) -> Status
    ensures put { result ≡ Status.BadLine → Puts K.bytes_held sink.old (bad_line_text number) sink.new }
    ensures prefix { PutsPrefix K.bytes_held sink.old (bad_line_text number) sink.new }
    ensures rose { result ≡ Status.WriteFault → Rose (K.faults sink.old) (K.faults sink.new) }
    ensures ending { OrFails (result ≡ Status.BadLine) result }
{
    match bad_line(alloc, number) {
        Ok(text) => match write_all(sink, text.as_slice()) {
            Ok(()) => Status::BadLine,
            Err(PutFault::Failed) => Status::WriteFault,
            Err(PutFault::NoMemory) => Status::NoMemory,
        },
        Err(_) => Status::NoMemory,
    }
}
