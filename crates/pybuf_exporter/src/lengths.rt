//! Calls by plain arguments that change the number of bytes: each makes no value, no loan and no reply. They write the
//! bytes where the commands write them, behind the free room.
ghost use Rattle.std.specs.Prelude.{◌≡◌, ◌≤◌, ◌+◌, ◌++◌, [], length, true, false, OnOk, OnErr};
ghost use Rattle.pybuf_value.specs.Halting.{AnsweredAtOnce};
ghost use Rattle.pybuf_command.specs.Kinds.{holds_readonly};
ghost use Rattle.pybuf_slice.specs.Edits.{replaced_range};
ghost use Rattle.pybuf_front.specs.FrontContent.{IsSpare};
ghost use Rattle.pybuf_state.specs.Answers.{exporter_of, IsWhole};
ghost use Rattle.pybuf_state.specs.Resizing.{resizable};
ghost use Rattle.pybuf_exporter.specs.Counting.{PaysAtEnd, LeavesRoom};
ghost use Rattle.pybuf_exporter.specs.Lengths as spec;

use crate::exporter::ExporterState;
use pybuf_state::{Parts, resizing_keeps};
use pybuf_value::{Fault, Halt, Steps};
use std::marker::Brand;
use std::sync::ledger::{Blank, Ledger};

fn append_by<L: Ledger>(parts: &mut Parts, bytes: &[u8], blank: Blank) -> Result<(), Halt>
    requires whole { IsWhole parts.old }
    requires name { blank.name ≡ L.name }
    requires parts { blank.parts ≡ L.parts }
    requires one { blank.parts ≡ 1 }
    ensures answer { spec.TakesIn parts.old (parts.old.bytes.items ++ bytes.now) result parts.new }
    ensures exports { parts.new.exports ≡ parts.old.exports }
{
    let mut moved = Steps::<L>::new(blank);
    append_counted(parts, bytes, &mut moved)
}

/// Adds bytes at the end of an exporter's bytes, with a counter of the bytes that move.
fn append_counted<L: Ledger>(
    parts: &mut Parts,
    bytes: &[u8],
    moved: &mut Steps<L>,
) -> Result<(), Halt>
    requires { IsWhole parts.old }
    ensures answer { spec.TakesIn parts.old (parts.old.bytes.items ++ bytes.now) result parts.new }
    ensures exports { parts.new.exports ≡ parts.old.exports }
    ensures counter { OnOk result (moved.new + parts.new.bytes.room ≤ moved.old + parts.old.bytes.room) }
    ensures spare { OnOk result (IsSpare parts.new.bytes) }
    ensures err_counter { OnErr result (moved.new ≡ moved.old) }
{
    parts.resizable()?;
    parts.append(bytes, moved)?;
    Ok(())
}

fn replace_by<L: Ledger>(
    parts: &mut Parts,
    start: usize,
    end: usize,
    bytes: &[u8],
    blank: Blank,
) -> Result<(), Halt>
    requires whole { IsWhole parts.old }
    requires ordered { start ≤ end }
    requires inside { end ≤ length parts.old.bytes.items }
    requires name { blank.name ≡ L.name }
    requires parts { blank.parts ≡ L.parts }
    requires one { blank.parts ≡ 1 }
    ensures answer { spec.TakesIn parts.old (replaced_range parts.old.bytes.items start end bytes.now) result parts.new }
    ensures exports { parts.new.exports ≡ parts.old.exports }
{
    let mut moved = Steps::<L>::new(blank);
    parts.resizable()?;
    parts.replace_range(start, end, bytes, &mut moved)?;
    Ok(())
}

/// Takes out the bytes from one place up to another, with a counter of the bytes that move.
fn remove_counted<L: Ledger>(
    parts: &mut Parts,
    start: usize,
    end: usize,
    moved: &mut Steps<L>,
) -> Result<(), Fault>
    requires whole { IsWhole parts.old }
    requires ordered { start ≤ end }
    requires inside { end ≤ length parts.old.bytes.items }
    ensures answer { spec.TakesInAtOnce parts.old (replaced_range parts.old.bytes.items start end []) result parts.new }
    ensures exports { parts.new.exports ≡ parts.old.exports }
    ensures front_room { start ≡ 0 → OnOk result (parts.new.bytes.room ≡ parts.old.bytes.room + end) }
    ensures front_counter { start ≡ 0 → moved.new ≡ moved.old }
    ensures err_counter { OnErr result (moved.new ≡ moved.old) }
{
    parts.resizable()?;
    parts.remove_range(start, end, moved);
    Ok(())
}

fn remove_by<L: Ledger>(
    parts: &mut Parts,
    start: usize,
    end: usize,
    blank: Blank,
) -> Result<(), Fault>
    requires whole { IsWhole parts.old }
    requires ordered { start ≤ end }
    requires inside { end ≤ length parts.old.bytes.items }
    requires name { blank.name ≡ L.name }
    requires parts { blank.parts ≡ L.parts }
    requires one { blank.parts ≡ 1 }
    ensures answer { spec.TakesInAtOnce parts.old (replaced_range parts.old.bytes.items start end []) result parts.new }
    ensures exports { parts.new.exports ≡ parts.old.exports }
{
    let mut moved = Steps::<L>::new(blank);
    remove_counted(parts, start, end, &mut moved)
}

/// Hands all bytes over, with a counter of the bytes that move.
fn take_counted<L: Ledger>(parts: &mut Parts, moved: &mut Steps<L>) -> Result<Vec<u8>, Fault>
    requires { IsWhole parts.old }
    ensures answer { spec.TakesAllIn parts.old result parts.new }
    ensures exports { parts.new.exports ≡ parts.old.exports }
    ensures still { parts.old.bytes.room ≡ 0 → moved.new ≡ moved.old }
    ensures few { moved.new ≤ moved.old + length parts.old.bytes.items }
    ensures err_counter { OnErr result (moved.new ≡ moved.old) }
{
    parts.resizable()?;
    Ok(parts.take_bytes(moved))
}

fn take_by<L: Ledger>(parts: &mut Parts, blank: Blank) -> Result<Vec<u8>, Fault>
    requires whole { IsWhole parts.old }
    requires name { blank.name ≡ L.name }
    requires parts { blank.parts ≡ L.parts }
    requires one { blank.parts ≡ 1 }
    ensures answer { spec.TakesAllIn parts.old result parts.new }
    ensures exports { parts.new.exports ≡ parts.old.exports }
{
    let mut moved = Steps::<L>::new(blank);
    take_counted(parts, &mut moved)
}

fn reserve_in(parts: &mut Parts, additional: usize) -> Result<(), Halt>
    requires { IsWhole parts.old }
    ensures answer { spec.ReservesIn parts.old additional result parts.new }
    ensures exports { parts.new.exports ≡ parts.old.exports }
    ensures same { exporter_of parts.new ≡ exporter_of parts.old }
{
    parts.reserve(additional)
}

fn shrink_by<L: Ledger>(parts: &mut Parts, blank: Blank) -> Result<(), Fault>
    requires whole { IsWhole parts.old }
    requires name { blank.name ≡ L.name }
    requires parts { blank.parts ≡ L.parts }
    requires one { blank.parts ≡ 1 }
    ensures answer { spec.ShrinksIn parts.old result parts.new }
    ensures exports { parts.new.exports ≡ parts.old.exports }
    ensures same { exporter_of parts.new ≡ exporter_of parts.old }
{
    let mut moved = Steps::<L>::new(blank);
    parts.resizable()?;
    parts.shrink_to_fit(&mut moved);
    Ok(())
}

impl ExporterState {
    /// Adds bytes at the end. Where as much room lies before the bytes as there are bytes, they are first moved to the
    /// start; else none moves.
    ///
    /// Refused with `BufferError` exactly where a view is unreleased, also for no bytes. Nothing is changed then, nor
    /// where memory runs out.
    /// Example: to the exporter of `bytearray(b"ab")` the bytes `b"cd"` make `b"abcd"`.
    pub fn append_bytes(&mut self, bytes: &[u8]) -> Result<(), Halt>
        requires { holds_readonly self.old.exporter.kind ≡ false }
        ensures { spec.TakesBytes self.old (self.old.exporter.bytes ++ bytes.now) result self.new }
    {
        resizing_keeps();
        append_by::<Brand>(&mut self.parts, bytes, Blank::new(1))
    }

    /// Adds bytes at the end, as `append_bytes` does, with a counter of the bytes that it moves to another place within.
    /// Each byte that is moved uses up a byte of the room before the bytes.
    ///
    /// Refused with `BufferError` exactly where a view is unreleased. Nothing is changed then, nor where memory runs
    /// out, and nothing is counted.
    /// Example: to `b"d"` behind a room of three bytes the byte 101 moves one byte, and leaves no room.
    pub fn append_bytes_counted<L: Ledger>(
        &mut self,
        bytes: &[u8],
        moved: &mut Steps<L>,
    ) -> Result<(), Halt>
        requires { holds_readonly self.old.exporter.kind ≡ false }
        ensures answer { spec.TakesBytes self.old (self.old.exporter.bytes ++ bytes.now) result self.new }
        ensures paid { OnOk result (PaysAtEnd self.old moved.old self.new moved.new) }
        ensures err_counter { OnErr result (moved.new ≡ moved.old) }
    {
        resizing_keeps();
        append_counted(&mut self.parts, bytes, moved)
    }

    /// Puts other bytes in place of those from one place up to another, as many as there are. The bytes behind move
    /// once, where the number of bytes changes; none moves where bytes are put at the front and the room there suffices.
    ///
    /// Refused with `BufferError` exactly where a view is unreleased. Nothing is changed then, nor where memory runs out.
    /// Example: in `b"abcdef"` the bytes `b"XY"` in place of those from 1 up to 4 make `b"aXYef"`.
    pub fn replace_range(&mut self, start: usize, end: usize, bytes: &[u8]) -> Result<(), Halt>
        requires writable { holds_readonly self.old.exporter.kind ≡ false }
        requires ordered { start ≤ end }
        requires inside { end ≤ length self.old.exporter.bytes }
        ensures { spec.TakesBytes self.old (spec.replaced self.old start end bytes.now) result self.new }
    {
        resizing_keeps();
        replace_by::<Brand>(&mut self.parts, start, end, bytes, Blank::new(1))
    }

    /// Takes out the bytes from one place up to another. Those at the front leave room, and none moves; else the bytes
    /// behind move once. Takes no memory.
    ///
    /// Refused with `BufferError` exactly where a view is unreleased. Nothing is changed then.
    /// Example: from `b"abcdef"` those from 1 up to 4 leave `b"aef"`.
    pub fn remove_range(&mut self, start: usize, end: usize) -> Result<(), Fault>
        requires writable { holds_readonly self.old.exporter.kind ≡ false }
        requires ordered { start ≤ end }
        requires inside { end ≤ length self.old.exporter.bytes }
        ensures { spec.TakesBytesAtOnce self.old (spec.replaced self.old start end []) result self.new }
    {
        resizing_keeps();
        remove_by::<Brand>(&mut self.parts, start, end, Blank::new(1))
    }

    /// Takes out the first bytes, as many as `count` says. It has a counter of the bytes that move, and none moves: what
    /// was taken out is left as room before the bytes. Takes no memory.
    ///
    /// Refused with `BufferError` exactly where a view is unreleased. Nothing is changed then.
    /// Example: the first two of `b"abcd"` leave `b"cd"` behind a room of two bytes more.
    pub fn remove_front_counted<L: Ledger>(
        &mut self,
        count: usize,
        moved: &mut Steps<L>,
    ) -> Result<(), Fault>
        requires writable { holds_readonly self.old.exporter.kind ≡ false }
        requires inside { count ≤ length self.old.exporter.bytes }
        ensures answer { spec.TakesBytesAtOnce self.old (spec.replaced self.old 0 count []) result self.new }
        ensures paid { OnOk result (LeavesRoom self.old count moved.old self.new moved.new) }
        ensures counter { moved.new ≡ moved.old }
    {
        resizing_keeps();
        remove_counted(&mut self.parts, 0, count, moved)
    }

    /// Hands all bytes over as a vector, and leaves none and no room. No byte is copied where there is no room before
    /// the bytes; else each moves once, to the start of their block. Takes no memory.
    ///
    /// Refused with `BufferError` exactly where a view is unreleased. Nothing is changed then.
    /// Example: of the exporter of `bytearray(b"abc")` it is the vector of `b"abc"`, and `bytearray(b"")` is left.
    pub fn take_bytes(&mut self) -> Result<Vec<u8>, Fault>
        requires { holds_readonly self.old.exporter.kind ≡ false }
        ensures { spec.TakesAll self.old result self.new }
    {
        resizing_keeps();
        take_by::<Brand>(&mut self.parts, Blank::new(1))
    }

    /// Hands all bytes over, as `take_bytes` does, with a counter of the bytes that it moves to another place within.
    ///
    /// Refused with `BufferError` exactly where a view is unreleased. Nothing is changed then, and nothing is counted.
    /// Example: of `b"cd"` behind a room of two bytes it moves two bytes, and of `b"cd"` without room none.
    pub fn take_bytes_counted<L: Ledger>(&mut self, moved: &mut Steps<L>) -> Result<Vec<u8>, Fault>
        requires { holds_readonly self.old.exporter.kind ≡ false }
        ensures answer { spec.TakesAll self.old result self.new }
        ensures still { self.old.room ≡ 0 → moved.new ≡ moved.old }
        ensures few { moved.new ≤ moved.old + length self.old.exporter.bytes }
        ensures err_counter { OnErr result (moved.new ≡ moved.old) }
    {
        resizing_keeps();
        take_counted(&mut self.parts, moved)
    }

    /// How many bytes there can be in all before adding some takes memory. It is never below the number of bytes, and
    /// at most `isize::MAX`. Takes no memory.
    /// Example: of the exporter of `bytearray(b"abc")` after `reserve(5)` it is 8 or more.
    pub fn capacity(&self) -> usize
        ensures { length self.now.exporter.bytes ≤ result }
    {
        self.parts.capacity()
    }

    /// Takes memory ahead, so that so many bytes more can be added without any. Bytes, views and room stay.
    ///
    /// Refused with `BufferError` exactly where a view is unreleased, since the bytes may get another place in memory,
    /// and then with `OverflowError` where with them there were more than `isize::MAX` bytes. Nothing is changed then,
    /// nor where memory runs out.
    /// Example: `state.reserve(5)` with one unreleased view is `Err(Halt::Refused(Fault::Buffer))`.
    pub fn reserve(&mut self, additional: usize) -> Result<(), Halt>
        ensures { spec.Reserves self.old additional result self.new }
    {
        reserve_in(&mut self.parts, additional)
    }

    /// Gives back the memory that the bytes don't need, as far as the allocator takes it, and the room before them.
    /// The bytes move once where there was room. Takes no memory.
    ///
    /// Refused with `BufferError` exactly where a view is unreleased. Nothing is changed then.
    /// Example: `b"cd"` behind a room of two bytes is `b"cd"` without room then.
    pub fn shrink_to_fit(&mut self) -> Result<(), Fault>
        ensures { spec.Shrinks self.old result self.new }
    {
        shrink_by::<Brand>(&mut self.parts, Blank::new(1))
    }

    /// Whether the number of bytes may change. Takes no memory.
    ///
    /// Refused with `BufferError` exactly where a view is unreleased.
    /// Example: of an exporter without views it is `Ok(())`.
    pub fn check_resizable(&self) -> Result<(), Fault>
        ensures { AnsweredAtOnce result (λ _. true) (resizable self.now.exporter) }
    {
        self.parts.resizable()
    }
}
