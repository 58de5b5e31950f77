//! The lines of an input, carried out one after the other on an array, with a line for each reply.
ghost use Rattle.std.specs.Prelude.{◌≡◌, ◌≢◌, ◌<◌, ◌≤◌, ℕ, List, length, Some, OnOk, OnErr, IfErr};
ghost use Rattle.pybuf_array_lines.specs.Inputs.{operations_in};
ghost use Rattle.pybuf_cli.specs.Devices.{Rose, Puts, PutsPrefix};
ghost use Rattle.pybuf_cli.specs.Program.{ending_for, Ended, TakesTooMany, TakesAtMost, PutsDue, MeetsEnding, OrFails, BadLinePut};
ghost use Rattle.pybuf_cli.specs.Arrays.{array_run_text, array_run_ending, IsDoneArray, IsBadLineArray, array_due, ArrayRepliesPut};
ghost use Rattle.pybuf_cli.specs.ArrayRunning.{IsOperation, AreOperations, IsCarriedOut, IsAnswered};
ghost use Rattle.pybuf_cli.specs.declared.devices.PutFault.{PutFault};

use crate::devices::{PutFault, Sink, Source};
use crate::loops::{ReadStop, read_all, write_all};
use crate::putting::{send_front, send_reply, write_bad_line};
use crate::status::Status;
use pybuf_array::{ArrayCode, ArrayOp, PyArray, lengths_stay_while_viewed};
use pybuf_array_lines::{check_operations, operation_of_line, push_array_reply_line};
use pybuf_line::{Misread, Unread, next_line};
use pybuf_value::{Made, NoMemory};
use std::alloc::Global;

/// Carries out an operation, and adds the line of its reply to the text.
fn answer_operation(array: &mut PyArray, operation: &ArrayOp, text: &mut Vec<u8>) -> Made<()>
    ensures { OnOk result (IsCarriedOut array.old operation.now text.old.items array.new text.new.items) }
{
    match array.step(operation) {
        Ok(reply) => push_array_reply_line(text, &reply),
        Err(NoMemory) => Err(NoMemory),
    }
}

/// Carries out the operation of a line, and adds the line of its reply to the text.
fn answer_line<'a>(
    alloc: Global,
    array: &mut PyArray,
    words: &mut Vec<&'a [u8]>,
    line: &'a [u8],
    text: &mut Vec<u8>,
) -> Made<()>
    requires { IsOperation line.now }
    ensures { OnOk result (IsAnswered array.old line.now text.old.items array.new text.new.items) }
{
    match operation_of_line(alloc, words, line) {
        Ok(operation) => answer_operation(array, &operation, text),
        Err(Unread::NoMemory) => Err(NoMemory),
        Err(Unread::NoCommand) => unreachable!(),
    }
}

/// Carries out the lines of an input on a new array, and puts a line for each reply, a piece at a time. No operation is
/// kept and no reply. Where memory runs out in an operation, the replies of those before it are put first.
fn run_lines<K: Sink>(
    alloc: Global,
    code: ArrayCode,
    sink: &mut K,
    input: &[u8],
) -> Result<(), PutFault>
    requires { AreOperations input.now }
    ensures all { OnOk result (Puts K.bytes_held sink.old (array_due code input.now) sink.new) }
    ensures prefix { OnErr result (PutsPrefix K.bytes_held sink.old (array_due code input.now) sink.new) }
    ensures rose { IfErr result (λ fault. fault ≡ PutFault.Failed → Rose (K.faults sink.old) (K.faults sink.new)) }
    ensures later { K.faults sink.old ≤ K.faults sink.new }
{
    let mut array = PyArray::new(alloc, code);
    let mut words = Vec::new(alloc);
    let mut text = Vec::new(alloc);
    // A reply is written into a text of its own, and not behind the replies that wait, since memory may run out while
    // it is written.
    let mut reply = Vec::new(alloc);
    let mut rest = input;
    'running: while let Some((line, after)) = next_line(rest) {
        let Ok(()) = answer_line(alloc, &mut array, &mut words, line, &mut reply) else {
            send_front(sink, text.as_slice());
            return Err(PutFault::NoMemory);
        };
        send_reply(sink, &mut text, &mut reply)?;
        rest = after;
    }
    write_all(sink, text.as_slice())
}

/// Runs the lines of an input, each of which is an operation, and puts their replies.
fn run_operations<K: Sink>(alloc: Global, code: ArrayCode, sink: &mut K, input: &[u8]) -> Status
    requires { AreOperations input.now }
    ensures put { result ≡ Status.Done → Puts K.bytes_held sink.old (array_due code input.now) sink.new }
    ensures prefix { PutsPrefix K.bytes_held sink.old (array_due code input.now) sink.new }
    ensures rose { result ≡ Status.WriteFault → Rose (K.faults sink.old) (K.faults sink.new) }
    ensures ending { OrFails (result ≡ Status.Done) result }
{
    match run_lines(alloc, code, sink, input) {
        Ok(()) => Status::Done,
        Err(PutFault::Failed) => Status::WriteFault,
        Err(PutFault::NoMemory) => Status::NoMemory,
    }
}

/// Answers an input: runs its lines, or tells the first that is no operation. Lines are read twice, so that no list of
/// operations is kept.
fn answer<K: Sink>(alloc: Global, code: ArrayCode, sink: &mut K, input: &[u8]) -> Status
    ensures done { result ≡ Status.Done → ArrayRepliesPut code input.now K.bytes_held sink.old sink.new }
    ensures bad_line { result ≡ Status.BadLine → BadLinePut (operations_in input.now) K.bytes_held sink.old sink.new }
    ensures prefix { PutsPrefix K.bytes_held sink.old (array_due code input.now) sink.new }
    ensures rose { result ≡ Status.WriteFault → Rose (K.faults sink.old) (K.faults sink.new) }
    ensures ending { OrFails (result ≡ ending_for (operations_in input.now)) result }
{
    lengths_stay_while_viewed();
    match check_operations(alloc, input) {
        Ok(()) => run_operations(alloc, code, sink, input),
        Err(Misread::BadLine(number)) => write_bad_line(alloc, sink, number),
        Err(Misread::NoMemory) => Status::NoMemory,
    }
}

/// Reads the whole input, and answers it by an array of a code.
pub(crate) fn run_array<S: Source, K: Sink>(
    alloc: Global,
    code: ArrayCode,
    source: &mut S,
    sink: &mut K,
) -> Status
    ensures done { result ≡ Status.Done → Ended (IsDoneArray code) S.bytes_left source.old source.new K.bytes_held sink.old sink.new }
    ensures bad_line { result ≡ Status.BadLine → Ended IsBadLineArray S.bytes_left source.old source.new K.bytes_held sink.old sink.new }
    ensures too_long { result ≡ Status.TooLong → TakesTooMany S.bytes_left source.old source.new }
    ensures takes_front { TakesAtMost result S.bytes_left source.old source.new }
    ensures unread_writes_nothing { (rest : List ℕ) → S.bytes_left source.new ≡ Some rest → 0 < length rest →
        sink.new ≡ sink.old }
    ensures prefix { PutsDue (array_run_text code) S.bytes_left source.old K.bytes_held sink.old sink.new }
    ensures complete { MeetsEnding array_run_ending result S.bytes_left S.faults source.old source.new K.faults sink.old sink.new }
    ensures read_fault { result ≡ Status.ReadFault → Rose (S.faults source.old) (S.faults source.new) }
    ensures write_fault { result ≡ Status.WriteFault → Rose (K.faults sink.old) (K.faults sink.new) }
    ensures read_fault_writes_nothing { result ≡ Status.ReadFault → sink.new ≡ sink.old }
    ensures too_long_writes_nothing { result ≡ Status.TooLong → sink.new ≡ sink.old }
    ensures usage { result ≢ Status.Usage }
    ensures disagree { result ≢ Status.Disagree }
    ensures bad_data { result ≢ Status.BadData }
{
    match read_all(alloc, source) {
        Ok(input) => answer(alloc, code, sink, input.as_slice()),
        Err(ReadStop::NoMemory) => Status::NoMemory,
        Err(ReadStop::Failed) => Status::ReadFault,
        Err(ReadStop::TooLong) => Status::TooLong,
    }
}
