//! The form `share`: sessions of one exporter, each in a thread of its own, and the history that they make.
ghost use Rattle.std.specs.Prelude.{◌≡◌, ◌≢◌, ◌<◌, ◌≤◌, ◌⊎◌, false, ℕ, List, Some, IfOk, IfErr, OnOk, OnErr, ◌++◌, length};
ghost use Rattle.std.specs.List.{All, flat_map};
ghost use Rattle.pybuf_share.specs.Working.{ScriptFits};
ghost use Rattle.pybuf_share.specs.declared.joined.FinishFault.{FinishFault};
ghost use Rattle.pybuf_sessions.specs.Sessions.{sessions_in};
ghost use Rattle.pybuf_histories.specs.Entries.{entry_line, last_lines};
ghost use Rattle.pybuf_histories.specs.Faults.{fault_text};
ghost use Rattle.pybuf_cli.specs.declared.devices.PutFault.{PutFault};
ghost use Rattle.pybuf_cli.specs.Devices.{PutsFrontOf, Rose, Puts, PutsPrefix, SendsOf};
ghost use Rattle.pybuf_cli.specs.Sharing.{IsOfSessions, IsDueOfLines, IsDueShared, EndsOfLines, EndsShared, PutsHistory, PutsFault, IsDoneShared, IsBadLineShared, IsDisagreed, SessionsPut, joined_text};
ghost use Rattle.pybuf_cli.specs.Program.{Ended, TakesTooMany, TakesAtMost, PutsOneDue, MeetsAnEnding, OrFails, BadLinePut};

use crate::devices::{PutFault, Sink, Source};
use crate::loops::{ReadStop, read_all, write_all};
use crate::putting::{send_front, send_reply, write_bad_line};
use crate::status::Status;
use pybuf_histories::{push_entry_line, push_fault, push_last_lines};
use pybuf_line::Misread;
use pybuf_sessions::{Sessions, read_sessions};
use pybuf_share::{Entry, FinishFault, Gate, Joined, run_sessions};
use pybuf_value::Made;
use std::alloc::Global;
use std::sync::Wait;
use std::thread::Threads;

/// Puts the lines of entries, a piece at a time, and gives what waits behind them. Where memory runs out for a line, those
/// before it are put first.
fn put_entries<K: Sink>(alloc: Global, sink: &mut K, entries: &[Entry]) -> Result<Vec<u8>, PutFault>
    ensures sent { IfOk result (λ text. SendsOf K.bytes_held sink.old (flat_map entry_line entries.now) text.items sink.new) }
    ensures prefix { OnErr result (PutsPrefix K.bytes_held sink.old (flat_map entry_line entries.now) sink.new) }
    ensures rose { IfErr result (λ fault. fault ≡ PutFault.Failed → Rose (K.faults sink.old) (K.faults sink.new)) }
    ensures later { K.faults sink.old ≤ K.faults sink.new }
{
    let mut text = Vec::new(alloc);
    // A line is written into a text of its own, and not behind the lines that wait, since memory may run out while it
    // is written.
    let mut line = Vec::new(alloc);
    for entry in entries {
        let Ok(()) = push_entry_line(&mut line, entry) else {
            send_front(sink, text.as_slice());
            return Err(PutFault::NoMemory);
        };
        send_reply(sink, &mut text, &mut line)?;
    }
    Ok(text)
}

/// Puts what waits, and then what stands behind the last entry.
fn put_last<K: Sink>(
    alloc: Global,
    sink: &mut K,
    text: &mut Vec<u8>,
    calls: usize,
    bytes: &[u8],
) -> Result<(), PutFault>
    ensures all { OnOk result (Puts K.bytes_held sink.old (text.old.items ++ last_lines calls bytes.now) sink.new) }
    ensures prefix { OnErr result (PutsPrefix K.bytes_held sink.old (text.old.items ++ last_lines calls bytes.now) sink.new) }
    ensures rose { IfErr result (λ fault. fault ≡ PutFault.Failed → Rose (K.faults sink.old) (K.faults sink.new)) }
    ensures later { K.faults sink.old ≤ K.faults sink.new }
{
    let mut line = Vec::new(alloc);
    let Ok(()) = push_last_lines(&mut line, calls, bytes) else {
        send_front(sink, text.as_slice());
        return Err(PutFault::NoMemory);
    };
    send_reply(sink, text, &mut line)?;
    write_all(sink, text.as_slice())
}

/// Puts the whole text of a history, a piece at a time.
fn put_history<K: Sink>(alloc: Global, sink: &mut K, joined: &Joined) -> Result<(), PutFault>
    ensures all { OnOk result (Puts K.bytes_held sink.old (joined_text joined.now) sink.new) }
    ensures prefix { OnErr result (PutsPrefix K.bytes_held sink.old (joined_text joined.now) sink.new) }
    ensures rose { IfErr result (λ fault. fault ≡ PutFault.Failed → Rose (K.faults sink.old) (K.faults sink.new)) }
    ensures later { K.faults sink.old ≤ K.faults sink.new }
{
    let entries = joined.entries.as_slice();
    let mut text = put_entries(alloc, sink, entries)?;
    put_last(alloc, sink, &mut text, entries.len(), joined.state.bytes())
}

/// The same, as a status.
fn write_history<K: Sink>(alloc: Global, sink: &mut K, joined: &Joined) -> Status
    ensures put { result ≡ Status.Done → Puts K.bytes_held sink.old (joined_text joined.now) sink.new }
    ensures prefix { PutsPrefix K.bytes_held sink.old (joined_text joined.now) sink.new }
    ensures rose { result ≡ Status.WriteFault → Rose (K.faults sink.old) (K.faults sink.new) }
    ensures ending { OrFails (result ≡ Status.Done) result }
{
    match put_history(alloc, sink, joined) {
        Ok(()) => Status::Done,
        Err(PutFault::Failed) => Status::WriteFault,
        Err(PutFault::NoMemory) => Status::NoMemory,
    }
}

/// The text of why sessions don't agree with their history.
fn fault_line(alloc: Global, fault: &FinishFault) -> Made<Vec<u8>>
    ensures { IfOk result (λ text. text.items ≡ fault_text fault.now) }
{
    let mut text = Vec::new(alloc);
    push_fault(&mut text, fault)?;
    Ok(text)
}

/// Puts why sessions don't agree with their history. Want of memory shows nothing, and is answered as such.
fn write_fault<K: Sink>(alloc: Global, sink: &mut K, fault: &FinishFault) -> Status
    ensures put { result ≡ Status.Disagree → Puts K.bytes_held sink.old (fault_text fault.now) sink.new }
    ensures two_values { result ≡ Status.Disagree → fault.now ≢ FinishFault.NoMemory }
    ensures prefix { PutsPrefix K.bytes_held sink.old (fault_text fault.now) sink.new }
    ensures rose { result ≡ Status.WriteFault → Rose (K.faults sink.old) (K.faults sink.new) }
    ensures ending { OrFails (result ≡ Status.Disagree) result }
{
    if let FinishFault::NoMemory = fault {
        return Status::NoMemory;
    }
    match fault_line(alloc, fault) {
        Ok(text) => match write_all(sink, text.as_slice()) {
            Ok(()) => Status::Disagree,
            Err(PutFault::Failed) => Status::WriteFault,
            Err(PutFault::NoMemory) => Status::NoMemory,
        },
        Err(_) => Status::NoMemory,
    }
}

/// Lets sessions carry out their scripts, and puts what they come to.
fn share_sessions<R: Threads + Wait + Sync, K: Sink, G: Gate + Sync>(
    rt: &R,
    alloc: Global,
    sink: &mut K,
    sessions: Sessions,
    gate: &G,
) -> Status
    requires some { 0 < length sessions.scripts }
    requires few { length sessions.scripts ≤ 16 }
    requires fit { All ScriptFits sessions.scripts }
    ensures done { result ≡ Status.Done → PutsHistory sessions (K.bytes_held sink.old) (K.bytes_held sink.new) }
    ensures disagree { result ≡ Status.Disagree → PutsFault sessions (K.bytes_held sink.old) (K.bytes_held sink.new) }
    ensures prefix { PutsFrontOf (λ text. IsOfSessions sessions text) (K.bytes_held sink.old) (K.bytes_held sink.new) }
    ensures rose { result ≡ Status.WriteFault → Rose (K.faults sink.old) (K.faults sink.new) }
    ensures ending { OrFails ((result ≡ Status.Done) ⊎ (result ≡ Status.Disagree)) result }
{
    let Sessions {
        kind,
        bytes,
        scripts,
    } = sessions;
    match run_sessions(rt, alloc, kind, bytes, scripts, gate) {
        Ok(joined) => write_history(alloc, sink, &joined),
        Err(fault) => write_fault(alloc, sink, &fault),
    }
}

/// Answers an input: lets its sessions carry out their lines, or tells the first that is wrong. All lines are read
/// before any session begins.
fn answer<R: Threads + Wait + Sync, K: Sink, G: Gate + Sync>(
    rt: &R,
    alloc: Global,
    sink: &mut K,
    input: &[u8],
    gate: &G,
) -> Status
    ensures done { result ≡ Status.Done → SessionsPut PutsHistory input.now K.bytes_held sink.old sink.new }
    ensures bad_line { result ≡ Status.BadLine → BadLinePut (sessions_in input.now) K.bytes_held sink.old sink.new }
    ensures disagree { result ≡ Status.Disagree → SessionsPut PutsFault input.now K.bytes_held sink.old sink.new }
    ensures prefix { PutsFrontOf (λ text. IsDueOfLines false (sessions_in input.now) text) (K.bytes_held sink.old) (K.bytes_held sink.new) }
    ensures rose { result ≡ Status.WriteFault → Rose (K.faults sink.old) (K.faults sink.new) }
    ensures ending { OrFails (EndsOfLines false (sessions_in input.now) result) result }
{
    match read_sessions(alloc, input) {
        Ok(sessions) => share_sessions(rt, alloc, sink, sessions, gate),
        Err(Misread::BadLine(number)) => write_bad_line(alloc, sink, number),
        Err(Misread::NoMemory) => Status::NoMemory,
    }
}

/// Reads the whole input, and answers it.
pub(crate) fn share<R: Threads + Wait + Sync, S: Source, K: Sink, G: Gate + Sync>(
    rt: &R,
    alloc: Global,
    source: &mut S,
    sink: &mut K,
    gate: &G,
) -> Status
    ensures done { result ≡ Status.Done → Ended IsDoneShared S.bytes_left source.old source.new K.bytes_held sink.old sink.new }
    ensures bad_line { result ≡ Status.BadLine → Ended IsBadLineShared S.bytes_left source.old source.new K.bytes_held sink.old sink.new }
    ensures disagree { result ≡ Status.Disagree → Ended IsDisagreed S.bytes_left source.old source.new K.bytes_held sink.old sink.new }
    ensures too_long { result ≡ Status.TooLong → TakesTooMany S.bytes_left source.old source.new }
    ensures takes_front { TakesAtMost result S.bytes_left source.old source.new }
    ensures unread_writes_nothing { (rest : List ℕ) → S.bytes_left source.new ≡ Some rest → 0 < length rest →
        sink.new ≡ sink.old }
    ensures prefix { PutsOneDue IsDueShared S.bytes_left source.old K.bytes_held sink.old sink.new }
    ensures complete { MeetsAnEnding EndsShared result S.bytes_left S.faults source.old source.new K.faults sink.old sink.new }
    ensures read_fault { result ≡ Status.ReadFault → Rose (S.faults source.old) (S.faults source.new) }
    ensures write_fault { result ≡ Status.WriteFault → Rose (K.faults sink.old) (K.faults sink.new) }
    ensures read_fault_writes_nothing { result ≡ Status.ReadFault → sink.new ≡ sink.old }
    ensures too_long_writes_nothing { result ≡ Status.TooLong → sink.new ≡ sink.old }
    ensures usage { result ≢ Status.Usage }
    ensures bad_data { result ≢ Status.BadData }
{
    match read_all(alloc, source) {
        Ok(input) => answer(rt, alloc, sink, input.as_slice(), gate),
        Err(ReadStop::NoMemory) => Status::NoMemory,
        Err(ReadStop::Failed) => Status::ReadFault,
        Err(ReadStop::TooLong) => Status::TooLong,
    }
}
