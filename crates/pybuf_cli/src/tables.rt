//! The form `table`: the records of an input, a line each.
ghost use Rattle.std.specs.Prelude.{◌≡◌, ◌≢◌, ◌<◌, ◌≤◌, ℕ, List, Some, IfOk, IfErr, OnOk, OnErr, length};
ghost use Rattle.pybuf_table_lines.specs.Texts.{listing_text, left_over, left_over_text};
ghost use Rattle.pybuf_cli.specs.declared.devices.PutFault.{PutFault};
ghost use Rattle.pybuf_cli.specs.Devices.{Rose, Puts, PutsPrefix};
ghost use Rattle.pybuf_cli.specs.Tables.{text_of_table, ending_of_table, table_text, table_ending, IsListed, IsBadData, ListingPut, LeftOverPut};
ghost use Rattle.pybuf_cli.specs.Program.{Ended, TakesTooMany, TakesAtMost, PutsDue, MeetsEnding, OrFails};

use crate::devices::{PutFault, Sink, Source};
use crate::loops::{ReadStop, read_all, write_all};
use crate::putting::{send_front, send_reply};
use crate::status::Status;
use pybuf_table_lines::{Listing, push_left_over};
use pybuf_value::Made;
use std::alloc::Global;

/// Puts the lines of the records that are listed, a piece at a time: one record is unpacked at a time. Where memory runs out
/// for a line, those before it are put first.
fn put_listing<K: Sink>(
    alloc: Global,
    sink: &mut K,
    listing: &Listing,
    input: &[u8],
) -> Result<(), PutFault>
    requires { left_over listing.now input.now ≡ 0 }
    ensures all { OnOk result (Puts K.bytes_held sink.old (listing_text listing.now input.now) sink.new) }
    ensures prefix { OnErr result (PutsPrefix K.bytes_held sink.old (listing_text listing.now input.now) sink.new) }
    ensures rose { IfErr result (λ fault. fault ≡ PutFault.Failed → Rose (K.faults sink.old) (K.faults sink.new)) }
    ensures later { K.faults sink.old ≤ K.faults sink.new }
{
    let mut text = Vec::new(alloc);
    // A line is written into a text of its own, and not behind the lines that wait, since memory may run out while it
    // is written.
    let mut line = Vec::new(alloc);
    let mut rest = input;
    'tabling: while !rest.is_empty() {
        let Ok(after) = listing.push_first(alloc, rest, &mut line) else {
            send_front(sink, text.as_slice());
            return Err(PutFault::NoMemory);
        };
        send_reply(sink, &mut text, &mut line)?;
        rest = after;
    }
    write_all(sink, text.as_slice())
}

/// The same, as a status.
fn write_listing<K: Sink>(alloc: Global, sink: &mut K, listing: &Listing, input: &[u8]) -> Status
    requires { left_over listing.now input.now ≡ 0 }
    ensures put { result ≡ Status.Done → Puts K.bytes_held sink.old (listing_text listing.now input.now) sink.new }
    ensures prefix { PutsPrefix K.bytes_held sink.old (listing_text listing.now input.now) sink.new }
    ensures rose { result ≡ Status.WriteFault → Rose (K.faults sink.old) (K.faults sink.new) }
    ensures ending { OrFails (result ≡ Status.Done) result }
{
    match put_listing(alloc, sink, listing, input) {
        Ok(()) => Status::Done,
        Err(PutFault::Failed) => Status::WriteFault,
        Err(PutFault::NoMemory) => Status::NoMemory,
    }
}

/// The text that tells how many bytes are left over.
fn left_over_line(alloc: Global, count: u64) -> Made<Vec<u8>>
    ensures { IfOk result (λ text. text.items ≡ left_over_text count) }
{
    let mut text = Vec::new(alloc);
    push_left_over(&mut text, count)?;
    Ok(text)
}

/// Puts how many bytes are left over.
fn write_left_over<K: Sink>(alloc: Global, sink: &mut K, count: u64) -> Status
    ensures put { result ≡ Status.BadData → Puts K.bytes_held sink.old (left_over_text count) sink.new }
    ensures prefix { PutsPrefix K.bytes_held sink.old (left_over_text count) sink.new }
    ensures rose { result ≡ Status.WriteFault → Rose (K.faults sink.old) (K.faults sink.new) }
    ensures ending { OrFails (result ≡ Status.BadData) result }
{
    match left_over_line(alloc, count) {
        Ok(text) => match write_all(sink, text.as_slice()) {
            Ok(()) => Status::BadData,
            Err(PutFault::Failed) => Status::WriteFault,
            Err(PutFault::NoMemory) => Status::NoMemory,
        },
        Err(_) => Status::NoMemory,
    }
}

/// Answers an input: puts the lines of its records, or how many bytes are left over behind them.
fn answer<K: Sink>(alloc: Global, sink: &mut K, listing: &Listing, input: &[u8]) -> Status
    ensures done { result ≡ Status.Done → ListingPut listing.now input.now K.bytes_held sink.old sink.new }
    ensures bad_data { result ≡ Status.BadData → LeftOverPut listing.now input.now K.bytes_held sink.old sink.new }
    ensures prefix { PutsPrefix K.bytes_held sink.old (text_of_table listing.now input.now) sink.new }
    ensures rose { result ≡ Status.WriteFault → Rose (K.faults sink.old) (K.faults sink.new) }
    ensures ending { OrFails (result ≡ ending_of_table listing.now input.now) result }
{
    let count = listing.left_over(input);
    if count == 0 {
        return write_listing(alloc, sink, listing, input);
    }
    write_left_over(alloc, sink, count as u64)
}

/// Reads the whole input, and answers it.
pub(crate) fn table<S: Source, K: Sink>(
    alloc: Global,
    source: &mut S,
    sink: &mut K,
    listing: &Listing,
) -> Status
    ensures done { result ≡ Status.Done → Ended (IsListed listing.now) S.bytes_left source.old source.new K.bytes_held sink.old sink.new }
    ensures bad_data { result ≡ Status.BadData → Ended (IsBadData listing.now) S.bytes_left source.old source.new K.bytes_held sink.old sink.new }
    ensures too_long { result ≡ Status.TooLong → TakesTooMany S.bytes_left source.old source.new }
    ensures takes_front { TakesAtMost result S.bytes_left source.old source.new }
    ensures unread_writes_nothing { (rest : List ℕ) → S.bytes_left source.new ≡ Some rest → 0 < length rest →
        sink.new ≡ sink.old }
    ensures prefix { PutsDue (table_text listing.now) S.bytes_left source.old K.bytes_held sink.old sink.new }
    ensures complete { MeetsEnding (table_ending listing.now) result S.bytes_left S.faults source.old source.new K.faults sink.old sink.new }
    ensures read_fault { result ≡ Status.ReadFault → Rose (S.faults source.old) (S.faults source.new) }
    ensures write_fault { result ≡ Status.WriteFault → Rose (K.faults sink.old) (K.faults sink.new) }
    ensures read_fault_writes_nothing { result ≡ Status.ReadFault → sink.new ≡ sink.old }
    ensures too_long_writes_nothing { result ≡ Status.TooLong → sink.new ≡ sink.old }
    ensures usage { result ≢ Status.Usage }
    ensures bad_line { result ≢ Status.BadLine }
    ensures disagree { result ≢ Status.Disagree }
{
    match read_all(alloc, source) {
        Ok(input) => answer(alloc, sink, listing, input.as_slice()),
        Err(ReadStop::NoMemory) => Status::NoMemory,
        Err(ReadStop::Failed) => Status::ReadFault,
        Err(ReadStop::TooLong) => Status::TooLong,
    }
}
