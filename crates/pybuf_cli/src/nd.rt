//! The form `nd`: bytes in a shape, of which slices pick some.
ghost use Rattle.std.specs.Prelude.{◌≡◌, ◌≢◌, ◌<◌, ℕ, List, Some, IfOk, length};
ghost use Rattle.pybuf_nd_lines.specs.Selections.{bytes_due, selection_text};
ghost use Rattle.pybuf_nd_lines.specs.Texts.{misfit_text};
ghost use Rattle.pybuf_cli.specs.Devices.{Rose, Puts, PutsPrefix};
ghost use Rattle.pybuf_cli.specs.Nd.{text_of_nd, ending_of_nd, nd_text, nd_ending, IsSelected, IsMisfit, SelectionPut, MisfitPut};
ghost use Rattle.pybuf_cli.specs.Program.{Ended, TakesTooMany, TakesAtMost, PutsDue, MeetsEnding, OrFails};

use crate::devices::{PutFault, Sink, Source};
use crate::loops::{ReadStop, read_all, write_all};
use crate::status::Status;
use pybuf_nd_lines::{Selection, push_misfit};
use pybuf_value::Made;
use std::alloc::Global;

/// Puts the bytes that are asked for.
fn write_selection<K: Sink>(
    alloc: Global,
    sink: &mut K,
    selection: &Selection,
    input: &[u8],
) -> Status
    requires { length input.now ≡ bytes_due selection.now }
    ensures put { result ≡ Status.Done → Puts K.bytes_held sink.old (selection_text selection.now input.now) sink.new }
    ensures prefix { PutsPrefix K.bytes_held sink.old (selection_text selection.now input.now) sink.new }
    ensures rose { result ≡ Status.WriteFault → Rose (K.faults sink.old) (K.faults sink.new) }
    ensures ending { OrFails (result ≡ Status.Done) result }
{
    match selection.bytes_of(alloc, input) {
        Ok(bytes) => match write_all(sink, bytes.as_slice()) {
            Ok(()) => Status::Done,
            Err(PutFault::Failed) => Status::WriteFault,
            Err(PutFault::NoMemory) => Status::NoMemory,
        },
        Err(_) => Status::NoMemory,
    }
}

/// The text that tells how many bytes there are, and how many there should be.
fn misfit_line(alloc: Global, count: u64, due: u64) -> Made<Vec<u8>>
    ensures { IfOk result (λ text. text.items ≡ misfit_text count due) }
{
    let mut text = Vec::new(alloc);
    push_misfit(&mut text, count, due)?;
    Ok(text)
}

/// Puts how many bytes there are, and how many there should be.
fn write_misfit<K: Sink>(alloc: Global, sink: &mut K, count: u64, due: u64) -> Status
    ensures put { result ≡ Status.BadData → Puts K.bytes_held sink.old (misfit_text count due) sink.new }
    ensures prefix { PutsPrefix K.bytes_held sink.old (misfit_text count due) sink.new }
    ensures rose { result ≡ Status.WriteFault → Rose (K.faults sink.old) (K.faults sink.new) }
    ensures ending { OrFails (result ≡ Status.BadData) result }
{
    match misfit_line(alloc, count, due) {
        Ok(text) => match write_all(sink, text.as_slice()) {
            Ok(()) => Status::BadData,
            Err(PutFault::Failed) => Status::WriteFault,
            Err(PutFault::NoMemory) => Status::NoMemory,
        },
        Err(_) => Status::NoMemory,
    }
}

/// Answers an input: puts its bytes that are asked for, or how many there are.
fn answer<K: Sink>(alloc: Global, sink: &mut K, selection: &Selection, input: &[u8]) -> Status
    ensures done { result ≡ Status.Done → SelectionPut selection.now input.now K.bytes_held sink.old sink.new }
    ensures bad_data { result ≡ Status.BadData → MisfitPut selection.now input.now K.bytes_held sink.old sink.new }
    ensures prefix { PutsPrefix K.bytes_held sink.old (text_of_nd selection.now input.now) sink.new }
    ensures rose { result ≡ Status.WriteFault → Rose (K.faults sink.old) (K.faults sink.new) }
    ensures ending { OrFails (result ≡ ending_of_nd selection.now input.now) result }
{
    let due = selection.bytes_due();
    if input.len() == due {
        return write_selection(alloc, sink, selection, input);
    }
    write_misfit(alloc, sink, input.len() as u64, due as u64)
}

/// Reads the whole input, and answers it.
pub(crate) fn select<S: Source, K: Sink>(
    alloc: Global,
    source: &mut S,
    sink: &mut K,
    selection: &Selection,
) -> Status
    ensures done { result ≡ Status.Done → Ended (IsSelected selection.now) S.bytes_left source.old source.new K.bytes_held sink.old sink.new }
    ensures bad_data { result ≡ Status.BadData → Ended (IsMisfit selection.now) S.bytes_left source.old source.new K.bytes_held sink.old sink.new }
    ensures too_long { result ≡ Status.TooLong → TakesTooMany S.bytes_left source.old source.new }
    ensures takes_front { TakesAtMost result S.bytes_left source.old source.new }
    ensures unread_writes_nothing { (rest : List ℕ) → S.bytes_left source.new ≡ Some rest → 0 < length rest →
        sink.new ≡ sink.old }
    ensures prefix { PutsDue (nd_text selection.now) S.bytes_left source.old K.bytes_held sink.old sink.new }
    ensures complete { MeetsEnding (nd_ending selection.now) result S.bytes_left S.faults source.old source.new K.faults sink.old sink.new }
    ensures read_fault { result ≡ Status.ReadFault → Rose (S.faults source.old) (S.faults source.new) }
    ensures write_fault { result ≡ Status.WriteFault → Rose (K.faults sink.old) (K.faults sink.new) }
    ensures read_fault_writes_nothing { result ≡ Status.ReadFault → sink.new ≡ sink.old }
    ensures too_long_writes_nothing { result ≡ Status.TooLong → sink.new ≡ sink.old }
    ensures usage { result ≢ Status.Usage }
    ensures bad_line { result ≢ Status.BadLine }
    ensures disagree { result ≢ Status.Disagree }
{
    match read_all(alloc, source) {
        Ok(input) => answer(alloc, sink, selection, input.as_slice()),
        Err(ReadStop::NoMemory) => Status::NoMemory,
        Err(ReadStop::Failed) => Status::ReadFault,
        Err(ReadStop::TooLong) => Status::TooLong,
    }
}
