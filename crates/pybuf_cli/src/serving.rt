//! The top call: from the words and the input to the output and the status.
ghost use Rattle.std.specs.Prelude.{◌≡◌, ◌≢◌, ◌<◌, List, [], ℕ, Some, None, length};
ghost use Rattle.pybuf_cli.specs.Devices.{Rose, Puts, PutsPrefix};
ghost use Rattle.pybuf_line.specs.Scalars.{handle_in};
ghost use Rattle.pybuf_line.specs.Lines.{commands_in};
ghost use Rattle.pybuf_make.specs.Summary.{summary};
ghost use Rattle.pybuf_cli.specs.declared.forms.Form.{Form};
ghost use Rattle.pybuf_cli.specs.Running.{AreSpelled};
ghost use Rattle.pybuf_cli.specs.Program.{form_of, alone, ending_for, run_text, run_ending, IsDone, IsBadLine, due_of, Ended, TakesTooMany, TakesAtMost, PutsDue, MeetsEnding, OrFails, RepliesPut, BadLinePut};
ghost use Rattle.pybuf_cli.specs.Serving.{Serves};
ghost use Rattle.pybuf_cli.specs.Quiet.{IsRefusal, DoneRun, BadLineOfRun, DoneArray, BadLineOfArray, DoneTable, BadDataOfTable, DoneNd, BadDataOfNd, IsFrontDue, EndsOrNoMemory};

use crate::arrays::run_array;
use crate::devices::{PutFault, Sink, Source};
use crate::forms::{Form, form_named, is_shared};
use crate::loops::{ReadStop, read_all, write_all};
use crate::memory::{QuietSink, QuietSource};
use crate::nd::select;
use crate::putting::write_bad_line;
use crate::sharing::share;
use crate::status::Status;
use crate::tables::table;
use crate::writing::run_lines;
use pybuf_line::{Misread, check_lines};
use pybuf_make::make_summary;
use pybuf_share::{Gate, OpenGate};
use pybuf_value::{ByteList, Text};
use pybuf_world::runs_stay_sound;
use std::alloc::Global;
use std::sync::Wait;
use std::thread::Threads;

/// Runs the lines of an input, each of which is a command, and puts their replies.
fn run_commands<K: Sink>(alloc: Global, sink: &mut K, input: &[u8]) -> Status
    requires { AreSpelled input.now }
    ensures put { result ≡ Status.Done → Puts K.bytes_held sink.old (due_of input.now) sink.new }
    ensures prefix { PutsPrefix K.bytes_held sink.old (due_of input.now) sink.new }
    ensures rose { result ≡ Status.WriteFault → Rose (K.faults sink.old) (K.faults sink.new) }
    ensures ending { OrFails (result ≡ Status.Done) result }
{
    match run_lines(alloc, sink, input) {
        Ok(()) => Status::Done,
        Err(PutFault::Failed) => Status::WriteFault,
        Err(PutFault::NoMemory) => Status::NoMemory,
    }
}

/// Answers an input: runs its lines, or tells the first that is no command. Lines are read twice, so
/// that no list of commands is kept: first all are looked over, and then each is read and run.
fn answer<K: Sink>(alloc: Global, sink: &mut K, input: &[u8]) -> Status
    ensures done { result ≡ Status.Done → RepliesPut input.now K.bytes_held sink.old sink.new }
    ensures bad_line { result ≡ Status.BadLine → BadLinePut (commands_in handle_in input.now) K.bytes_held sink.old sink.new }
    ensures prefix { PutsPrefix K.bytes_held sink.old (due_of input.now) sink.new }
    ensures rose { result ≡ Status.WriteFault → Rose (K.faults sink.old) (K.faults sink.new) }
    ensures ending { OrFails (result ≡ ending_for (commands_in handle_in input.now)) result }
{
    runs_stay_sound();
    match check_lines(alloc, input) {
        Ok(()) => run_commands(alloc, sink, input),
        Err(Misread::BadLine(number)) => write_bad_line(alloc, sink, number),
        Err(Misread::NoMemory) => Status::NoMemory,
    }
}

/// Reads the whole input, and answers it.
fn run<S: Source, K: Sink>(alloc: Global, source: &mut S, sink: &mut K) -> Status
    ensures done { result ≡ Status.Done → Ended IsDone S.bytes_left source.old source.new K.bytes_held sink.old sink.new }
    ensures bad_line { result ≡ Status.BadLine → Ended IsBadLine S.bytes_left source.old source.new K.bytes_held sink.old sink.new }
    ensures too_long { result ≡ Status.TooLong → TakesTooMany S.bytes_left source.old source.new }
    ensures takes_front { TakesAtMost result S.bytes_left source.old source.new }
    ensures unread_writes_nothing { (rest : List ℕ) → S.bytes_left source.new ≡ Some rest → 0 < length rest →
        sink.new ≡ sink.old }
    ensures prefix { PutsDue run_text S.bytes_left source.old K.bytes_held sink.old sink.new }
    ensures complete { MeetsEnding run_ending result S.bytes_left S.faults source.old source.new K.faults sink.old sink.new }
    ensures read_fault { result ≡ Status.ReadFault → Rose (S.faults source.old) (S.faults source.new) }
    ensures write_fault { result ≡ Status.WriteFault → Rose (K.faults sink.old) (K.faults sink.new) }
    ensures read_fault_writes_nothing { result ≡ Status.ReadFault → sink.new ≡ sink.old }
    ensures too_long_writes_nothing { result ≡ Status.TooLong → sink.new ≡ sink.old }
    ensures usage { result ≢ Status.Usage }
    ensures disagree { result ≢ Status.Disagree }
    ensures bad_data { result ≢ Status.BadData }
{
    match read_all(alloc, source) {
        Ok(input) => answer(alloc, sink, input.as_slice()),
        Err(ReadStop::NoMemory) => Status::NoMemory,
        Err(ReadStop::Failed) => Status::ReadFault,
        Err(ReadStop::TooLong) => Status::TooLong,
    }
}

/// Runs the script of a number, and puts what is told of its run.
fn make<K: Sink>(alloc: Global, sink: &mut K, number: u16) -> Status
    ensures put { result ≡ Status.Done → Puts K.bytes_held sink.old (summary number) sink.new }
    ensures prefix { PutsPrefix K.bytes_held sink.old (summary number) sink.new }
    ensures rose { result ≡ Status.WriteFault → Rose (K.faults sink.old) (K.faults sink.new) }
    ensures ending { OrFails (result ≡ Status.Done) result }
{
    match make_summary(alloc, number) {
        Ok(text) => match write_all(sink, text.as_slice()) {
            Ok(()) => Status::Done,
            Err(PutFault::Failed) => Status::WriteFault,
            Err(PutFault::NoMemory) => Status::NoMemory,
        },
        Err(_) => Status::NoMemory,
    }
}

/// Does all that the program `pybuf` does, but for the word `share`, which needs more than one thread: here it is refused.
///
/// With no word, or with the one word `run`, it reads the whole input, at most 1,048,576 bytes,
/// looks whether each line is a command, runs them in order in a new world, and puts one line for
/// each reply. What it needs more memory for is given up with `NoMemory` at any point; what was put then
/// is the front of what was due. Where a command needs it, the replies of those before it are put first, as
/// far as the sink takes them.
///
/// With the word `make` and a number from 1 to 4,096 it reads nothing: it makes the script of that
/// number command by command, runs it in a new world, and puts the five lines that tell of its run.
///
/// With the word `array` and the letter of a code it reads the whole input likewise, looks whether each line is an
/// operation, carries them out in order on a new array of that code, and puts one line for each reply.
///
/// With the word `table` and a format it reads the whole input, at most 1,048,576 bytes, and puts a line for each record of
/// it, a tuple of its values; with the number of a field, an operator and a whole number behind the format, a line for each
/// record whose field compares so. Where the input is no whole number of records, it puts how many bytes are left over, and
/// ends with `BadData`.
///
/// With the word `nd`, a shape and as many slices it reads the whole input, at most 1,048,576 bytes, as items of one byte in
/// that shape, row-major, and puts those that the slices pick, and with the word `T` behind these their transposition. Where the
/// input doesn't have as many bytes as the shape, it puts how many there are, and ends with `BadData`.
///
/// Other words are refused with `Usage`. Memory to read the words is taken for those behind `table` and `nd` alone.
///
/// It ends where each call of the source and of the sink does.
///
/// Example: without words, of the input `b"new bytes x6162\nlen h0\n"`, it puts `b"h0\n2\n"` and answers `Status::Done`.
pub fn serve_alone<S: Source, K: Sink>(
    alloc: Global,
    words: &[Text],
    source: &mut S,
    sink: &mut K,
) -> Status
    ensures { Serves words.now (alone (form_of words.now)) result S.bytes_left S.faults K.bytes_held K.faults source.old source.new sink.old sink.new }
{
    let Ok(form) = form_named(alloc, words) else {
        return Status::NoMemory;
    };
    match form {
        None => Status::Usage,
        Some(Form::Share) => Status::Usage,
        Some(Form::Run) => run(alloc, source, sink),
        Some(Form::Make(number)) => make(alloc, sink, number),
        Some(Form::Array(code)) => run_array(alloc, code, source, sink),
        Some(Form::Table(listing)) => table(alloc, source, sink, &listing),
        Some(Form::Nd(selection)) => select(alloc, source, sink, &selection),
    }
}

/// Does what `serve_alone` does with bytes in memory: gives the bytes that it puts, and its status.
/// Nothing can fail but memory.
///
/// Example: without words, of the input `b"new bytes x6162\nlen h0\n"`, it gives `b"h0\n2\n"` and `Status::Done`.
pub fn serve_bytes(alloc: Global, words: &[Text], input: ByteList) -> (ByteList, Status)
    ensures usage { result.1 ≡ Status.Usage → alone (form_of words.now) ≡ None }
    ensures refused { alone (form_of words.now) ≡ None → IsRefusal words.now result.1 }
    ensures refused_writes_nothing { alone (form_of words.now) ≡ None → result.0 ≡ [] }
    ensures done { DoneRun words.now input result.0 result.1 }
    ensures bad_line { BadLineOfRun words.now input result.0 result.1 }
    ensures made { (n : ℕ) → form_of words.now ≡ Some (Form.Make n) → result.1 ≡ Status.Done → result.0 ≡ summary n }
    ensures array_done { DoneArray words.now input result.0 result.1 }
    ensures array_bad_line { BadLineOfArray words.now input result.0 result.1 }
    ensures listed { DoneTable words.now input result.0 result.1 }
    ensures bad_data { BadDataOfTable words.now input result.0 result.1 }
    ensures selected { DoneNd words.now input result.0 result.1 }
    ensures misfit { BadDataOfNd words.now input result.0 result.1 }
    ensures prefix { (f : Form) → alone (form_of words.now) ≡ Some f → IsFrontDue f input result.0 }
    ensures complete { (f : Form) → alone (form_of words.now) ≡ Some f → EndsOrNoMemory f input result.1 }
    ensures no_read_fault { result.1 ≢ Status.ReadFault }
    ensures no_write_fault { result.1 ≢ Status.WriteFault }
    ensures disagree { result.1 ≢ Status.Disagree }
{
    let mut source = QuietSource::new(input);
    let mut sink = QuietSink::new(alloc);
    let status = serve_alone(alloc, words, &mut source, &mut sink);
    (sink.into_bytes(), status)
}

/// Does all that the program `pybuf` does, with a gate that is called before and in each call of a session
/// (`SharedExporter::call_gated`).
///
/// With the one word `share` it reads the whole input, at most 1,048,576 bytes, and looks whether it has a first line
/// `new KIND xHEX` and lines of sessions behind it. Each session carries out its lines, in order, on the one exporter, in a
/// thread of its own, and all wait for the lock. Then it puts a line for each command of the history that they made, with
/// its reply, how many they are, and the bytes in the end. Which order sessions have among each other is open.
///
/// Other words are served as by `serve_alone`. With `share` it ends where each call of the source, the sink and the gate does
/// and each thread gets its turn: no proof says that these do.
///
/// Example: with `share`, of `b"new bytearray x6162\n0 len own\n"`, it puts `0: len own -> 2`, `calls 1` and `bytes b'ab'`.
pub fn serve_gated<R: Threads + Wait + Sync, S: Source, K: Sink, G: Gate + Sync>(
    rt: &R,
    alloc: Global,
    words: &[Text],
    source: &mut S,
    sink: &mut K,
    gate: &G,
) -> Status
    ensures { Serves words.now (form_of words.now) result S.bytes_left S.faults K.bytes_held K.faults source.old source.new sink.old sink.new }
{
    if is_shared(words) {
        return share(rt, alloc, source, sink, gate);
    }
    serve_alone(alloc, words, source, sink)
}

/// Does all that the program `pybuf` does: what `serve_gated` does with a gate that does nothing. Other threads are started
/// for the word `share` alone.
///
/// Example: with `share`, of `b"new bytearray x6162\n0 len own\n"`, it puts `0: len own -> 2`, `calls 1` and `bytes b'ab'`.
pub fn serve<R: Threads + Wait + Sync, S: Source, K: Sink>(
    rt: &R,
    alloc: Global,
    words: &[Text],
    source: &mut S,
    sink: &mut K,
) -> Status
    ensures { Serves words.now (form_of words.now) result S.bytes_left S.faults K.bytes_held K.faults source.old source.new sink.old sink.new }
{
    if is_shared(words) {
        return serve_gated(rt, alloc, words, source, sink, &OpenGate);
    }
    serve_alone(alloc, words, source, sink)
}
