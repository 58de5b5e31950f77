//! What is kept of an exporter.
ghost use Rattle.std.specs.Prelude.{◌≡◌, ◌≤◌, ◌<◌, ◌+◌, [], Ok, length, true, false, Err, IfOk, IsOk, OnOk, OnErr};
ghost use Rattle.pybuf_value.specs.Halting.{Answered, AnsweredAtOnce, GivesLent};

use crate::iterators::StoredIterator;
use crate::store::Store;
use crate::stored::StoredView;
use pybuf_command::{ExporterKind, LocalReply, Subject};
use pybuf_memoryview::KeptLayout;
use pybuf_value::{Fault, Halt, Made, Steps};
use std::alloc::Global;
use std::sync::ledger::Ledger;

/// The parts of an exporter. The number of unreleased views is kept beside the views, so that nothing goes through
/// all views ever made.
/// Example: the kind `bytes`, the bytes `b"abc"`, and no views and no iterators are the parts of new `bytes`.
#[derive(Debug, Drop)]
pub struct Parts {
    /// What kind of exporter it is.
    pub kind: ExporterKind,
    /// The bytes.
    pub bytes: Store,
    /// Each view that was made, released ones too, by its number.
    pub views: Vec<StoredView>,
    /// Each iterator that was made, exhausted ones too, by its number.
    pub iterators: Vec<StoredIterator>,
    /// The number of unreleased views.
    pub exports: usize,
    /// The allocator of what is added.
    pub alloc: Global,
}

impl Parts {
    ghost use Rattle.std.specs.Result.{result_map_both};
    ghost use Rattle.pybuf_command.specs.declared.commands.LocalReply.TheVariants as replies;
    ghost use Rattle.pybuf_value.specs.declared.faults.Fault.TheVariants as faults;
    ghost use Rattle.pybuf_value.specs.declared.halt.Halt.TheVariants as halts;
    ghost use Rattle.pybuf_value.specs.Refusing.{unless};
    ghost use Rattle.pybuf_front.specs.FrontContent.{IsSpare, capacity_of};
    ghost use Rattle.pybuf_state.specs.Keeps as keeps;
    ghost use Rattle.pybuf_state.specs.Exporter.{view_at, live_layout, with_view, released_in, exports_of, resized, iterator_at, with_iterator, iterator_put};
    ghost use Rattle.pybuf_state.specs.Answers.{exporter_of, IsWhole, Answers, AnswersIn};
    ghost use Rattle.pybuf_state.specs.Laws.{IsSoundLayout};
    ghost use Rattle.pybuf_state.specs.Resizing.{has_exports, resizable, reservable};

    /// Whether the exporter is a string of bytes, as `bytes` and bytearrays are. Refused with `UnknownName` exactly
    /// where it is a vector. Takes no memory.
    /// Example: of a bytearray it is `Ok(())`.
    pub fn check_string(&self) -> Result<(), Fault>
        ensures { AnsweredAtOnce result (λ _. true) (unless (keeps.is_vector self.now.kind) faults.UnknownName) }
    {
        match self.kind {
            ExporterKind::Vector { readonly: _ } => Err(Fault::UnknownName),
            _ => Ok(()),
        }
    }

    /// The view of a number that was given, released or not.
    ///
    /// Refused with `UnknownName` exactly where none was given.
    /// Example: `parts.view(0)` of an exporter without views is `Err(Fault::UnknownName)`.
    #[inline(always)]
    pub fn view(&self, view: usize) -> Result<&StoredView, Fault>
        ensures { GivesLent (view_at (exporter_of self.now) view) result }
    {
        match self.views.get(view) {
            Some(view) => Ok(view),
            None => Err(Fault::UnknownName),
        }
    }

    /// The layout of the view of a number, which must not be released.
    ///
    /// Refused with `UnknownName` where no such view was given, and with `ValueError` where it was
    /// released.
    /// Example: of a new view of all bytes `b"abc"` it is a layout of items at 0, 1 and 2.
    #[inline(always)]
    pub fn live_layout(&self, view: usize) -> Result<&KeptLayout, Fault>
        requires { IsWhole self.now }
        ensures exact { GivesLent (live_layout (exporter_of self.now) view) result }
        ensures sound { IfOk result (λ l. IsSoundLayout (exporter_of self.now) l.now) }
    {
        let view = self.view(view)?;
        if view.released {
            return Err(Fault::Value);
        }
        Ok(&view.layout)
    }

    /// One more view, which is unreleased and made now. The answer is its number. It is never refused. Where memory
    /// runs out, nothing is changed.
    /// Example: the first view of an exporter has the number 0.
    #[inline(always)]
    pub fn push_view(&mut self, layout: KeptLayout) -> Result<usize, Halt>
        requires { IsWhole self.old }
        ensures answer { Answers (Ok (with_view (exporter_of self.old) layout)) (exporter_of self.old) (result_map_both replies.View (λ halt. halt) result) (exporter_of self.new) }
        ensures counted { self.new.exports ≡ exports_of (exporter_of self.new) }
        ensures bytes { self.new.bytes ≡ self.old.bytes }
    {
        let number = self.views.len();
        self.views.push(StoredView::new(self.bytes.len(), layout))?;
        self.exports += 1;
        Ok(number)
    }

    /// One more view, as by `push_view`, with its number as a reply. It is never refused. Where memory runs out,
    /// nothing is changed.
    /// Example: the first view of an exporter is replied as `LocalReply::View(0)`.
    pub fn add_view(&mut self, layout: KeptLayout) -> Result<LocalReply, Halt>
        requires { IsWhole self.old }
        ensures answer { AnswersIn self.old (λ e. Ok (with_view e layout)) result self.new }
        ensures counted { self.new.exports ≡ exports_of (exporter_of self.new) }
        ensures bytes { self.new.bytes ≡ self.old.bytes }
    {
        let number = self.push_view(layout)?;
        Ok(LocalReply::View(number))
    }

    /// The iterator of a number that was given.
    ///
    /// Refused with `UnknownName` exactly where none was given.
    /// Example: `parts.iterator(0)` of an exporter without iterators is `Err(Fault::UnknownName)`.
    pub fn iterator(&self, iterator: usize) -> Result<StoredIterator, Fault>
        ensures value { result ≡ iterator_at (exporter_of self.now) iterator }
        ensures given { IsOk result → iterator < length self.now.iterators.items }
    {
        if iterator < self.iterators.len() {
            return Ok(self.iterators[iterator]);
        }
        Err(Fault::UnknownName)
    }

    /// One more iterator over a subject, at its first item. The reply is its number. It is never refused. Where
    /// memory runs out, nothing is changed.
    /// Example: the first iterator of an exporter is replied as `LocalReply::Iter(0)`.
    pub fn add_iterator(&mut self, subject: Subject) -> Result<LocalReply, Halt>
        requires { IsWhole self.old }
        ensures answer { AnswersIn self.old (λ e. Ok (with_iterator e subject)) result self.new }
        ensures counted { self.new.exports ≡ exports_of (exporter_of self.new) }
        ensures bytes { self.new.bytes ≡ self.old.bytes }
    {
        let number = self.iterators.len();
        self.iterators.push(StoredIterator::new(subject))?;
        Ok(LocalReply::Iter(number))
    }

    /// Puts an iterator that was given in another state. Takes no memory.
    /// Example: after `parts.put_iterator(0, it.ended())` the iterator 0 is exhausted.
    pub fn put_iterator(&mut self, iterator: usize, put: StoredIterator)
        requires whole { IsWhole self.old }
        requires given { iterator < length self.old.iterators.items }
        ensures same { exporter_of self.new ≡ iterator_put (exporter_of self.old) iterator put }
        ensures counted { self.new.exports ≡ exports_of (exporter_of self.new) }
        ensures bytes { self.new.bytes ≡ self.old.bytes }
    {
        self.iterators[iterator] = put;
    }

    /// Whether the length may change.
    ///
    /// Refused with `BufferError` exactly where a view is unreleased.
    /// Example: of an exporter without views it is `Ok(())`.
    pub fn resizable(&self) -> Result<(), Fault>
        requires { IsWhole self.now }
        ensures { AnsweredAtOnce result (λ _. true) (resizable (exporter_of self.now)) }
    {
        if self.exports > 0 {
            return Err(Fault::Buffer);
        }
        Ok(())
    }

    /// Adds bytes at the end. Where there was as much room before the bytes as there are bytes, they are first
    /// moved to the start; else none moves. Where memory runs out, all is as before.
    /// Example: to `b"ab"` the bytes `b"cd"` make `b"abcd"`.
    pub fn append<L: Ledger>(&mut self, bytes: &[u8], moved: &mut Steps<L>) -> Made<()>
        requires free { has_exports (exporter_of self.old) ≡ false }
        ensures ok { OnOk result (exporter_of self.new ≡ resized (exporter_of self.old) (length self.old.bytes.items) (length self.old.bytes.items) bytes.now) }
        ensures err { OnErr result (exporter_of self.new ≡ exporter_of self.old) }
        ensures exports { self.new.exports ≡ self.old.exports }
        ensures counter { OnOk result (moved.new + self.new.bytes.room ≤ moved.old + self.old.bytes.room) }
        ensures few { OnOk result (moved.new ≤ moved.old + length self.old.bytes.items) }
        ensures spare { OnOk result (IsSpare self.new.bytes) }
        ensures err_room { OnErr result (self.new.bytes.room ≡ self.old.bytes.room) }
        ensures err_counter { OnErr result (moved.new ≡ moved.old) }
    {
        self.bytes.append(bytes, moved)
    }

    /// Puts other bytes in place of those from one place up to another, as many as there are. With `append`
    /// and `replace_bytes` it is the call by which the length of an exporter changes. The bytes behind move
    /// once; none moves where bytes are taken from the front, or are put there and the room suffices. Where memory runs out, all is as before.
    /// Example: in `b"abcdef"` the bytes `b"XY"` in place of those from 1 up to 4 make `b"aXYef"`.
    pub fn replace_range<L: Ledger>(
        &mut self,
        start: usize,
        end: usize,
        bytes: &[u8],
        moved: &mut Steps<L>,
    ) -> Made<()>
        requires free { has_exports (exporter_of self.old) ≡ false }
        requires ordered { start ≤ end }
        requires inside { end ≤ length self.old.bytes.items }
        ensures ok { OnOk result (exporter_of self.new ≡ resized (exporter_of self.old) start end bytes.now) }
        ensures err { OnErr result (exporter_of self.new ≡ exporter_of self.old) }
        ensures exports { self.new.exports ≡ self.old.exports }
        ensures counter { OnOk result (moved.new ≤ moved.old + (length self.old.bytes.items + length self.new.bytes.items)) }
        ensures err_room { OnErr result (self.new.bytes.room ≡ self.old.bytes.room) }
        ensures err_counter { OnErr result (moved.new ≡ moved.old) }
    {
        if start == self.bytes.len() {
            return self.bytes.append(bytes, moved);
        }
        if bytes.is_empty() {
            self.remove_range(start, end, moved);
            return Ok(());
        }
        self.bytes.replace_range(start, end, bytes, moved)
    }

    /// Takes out the bytes from one place up to another, as `replace_range` by no bytes does, but without memory.
    /// Bytes at the front become room, and none moves; else the bytes behind move once.
    /// Example: from `b"abcdef"` those from 1 up to 4 leave `b"aef"`.
    pub fn remove_range<L: Ledger>(&mut self, start: usize, end: usize, moved: &mut Steps<L>)
        requires free { has_exports (exporter_of self.old) ≡ false }
        requires ordered { start ≤ end }
        requires inside { end ≤ length self.old.bytes.items }
        ensures same { exporter_of self.new ≡ resized (exporter_of self.old) start end [] }
        ensures exports { self.new.exports ≡ self.old.exports }
        ensures counter { moved.new ≤ moved.old + length self.old.bytes.items }
        ensures front_room { start ≡ 0 → self.new.bytes.room ≡ self.old.bytes.room + end }
        ensures front_counter { start ≡ 0 → moved.new ≡ moved.old }
    {
        if start == 0 {
            self.bytes.drop_front(end, moved);
        } else {
            self.bytes.remove_range(start, end, moved);
        }
    }

    /// Puts a vector in place of all bytes, as it is, without room. No byte is copied, and no memory is taken.
    /// Example: the vector of `b"xy"` in place of `b"abc"` makes `b"xy"`.
    pub fn replace_bytes(&mut self, bytes: Vec<u8>)
        requires free { has_exports (exporter_of self.old) ≡ false }
        ensures same { exporter_of self.new ≡ record (exporter_of self.old) { bytes = bytes.items } }
        ensures exports { self.new.exports ≡ self.old.exports }
        ensures room { self.new.bytes.room ≡ 0 }
    {
        self.bytes = Store::from_vec(bytes);
    }

    /// Hands all bytes over as a vector, and leaves none and no room. They move once where there is room before them,
    /// and else not. Takes no memory.
    /// Example: of `b"abc"` it gives the vector of `b"abc"`, and leaves `b""`.
    pub fn take_bytes<L: Ledger>(&mut self, moved: &mut Steps<L>) -> Vec<u8>
        requires free { has_exports (exporter_of self.old) ≡ false }
        ensures value { result.items ≡ self.old.bytes.items }
        ensures same { exporter_of self.new ≡ record (exporter_of self.old) { bytes = [] } }
        ensures exports { self.new.exports ≡ self.old.exports }
        ensures room { self.new.bytes.room ≡ 0 }
        ensures still { self.old.bytes.room ≡ 0 → moved.new ≡ moved.old }
        ensures few { moved.new ≤ moved.old + length self.old.bytes.items }
    {
        self.bytes.take_bytes(moved)
    }

    /// How many bytes there can be in all before adding some takes memory, at most `isize::MAX`.
    /// Example: of `b"abc"` after `reserve` of 5 bytes it is 8 or more.
    pub fn capacity(&self) -> usize
        ensures value { result ≡ capacity_of self.now.bytes }
        ensures fits { length self.now.bytes.items ≤ result }
    {
        self.bytes.capacity()
    }

    /// Takes memory ahead, so that so many bytes more can be added without any. No byte moves within.
    ///
    /// Refused with `BufferError` exactly where a view is unreleased, and then with `OverflowError` where with them there
    /// were more than `isize::MAX` bytes. Exporter and room are as before, also where memory runs out.
    /// Example: after `parts.reserve(5)?` of `b"abc"` its `capacity()` is 8 or more.
    pub fn reserve(&mut self, additional: usize) -> Result<(), Halt>
        requires { IsWhole self.old }
        ensures answer { Answered result (λ _. true) (reservable (exporter_of self.old) additional) }
        ensures memory { result ≡ Err halts.NoMemory → IsOk (reservable (exporter_of self.old) additional) }
        ensures same { exporter_of self.new ≡ exporter_of self.old }
        ensures exports { self.new.exports ≡ self.old.exports }
        ensures room { self.new.bytes.room ≡ self.old.bytes.room }
        ensures ok { OnOk result (length self.old.bytes.items + additional ≤ capacity_of self.new.bytes) }
    {
        self.resizable()?;
        if additional > isize::MAX as usize - self.bytes.len() {
            return Err(Halt::Refused(Fault::Overflow));
        }
        self.bytes.reserve(additional)?;
        Ok(())
    }

    /// Gives back the memory that the bytes don't need, and the room before them. The bytes move once where there was
    /// room. Takes no memory.
    /// Example: `b"cd"` behind a room of two bytes is `b"cd"` without room then.
    pub fn shrink_to_fit<L: Ledger>(&mut self, moved: &mut Steps<L>)
        requires free { has_exports (exporter_of self.old) ≡ false }
        ensures same { exporter_of self.new ≡ exporter_of self.old }
        ensures exports { self.new.exports ≡ self.old.exports }
        ensures room { self.new.bytes.room ≡ 0 }
        ensures memory { self.new.bytes.memory ≤ self.old.bytes.memory }
        ensures still { self.old.bytes.room ≡ 0 → moved.new ≡ moved.old }
        ensures few { moved.new ≤ moved.old + length self.old.bytes.items }
    {
        self.bytes.shrink_to_fit(moved);
    }

    /// Releases a view that was given. The second time changes nothing.
    ///
    /// Refused with `UnknownName` exactly where none of this number was given. Nothing is changed then. Takes no
    /// memory.
    /// Example: `parts.release_view(0)` is `Ok(())` after one view was made, also the second time.
    pub fn release_view(&mut self, view: usize) -> Result<(), Fault>
        requires { IsWhole self.old }
        ensures exact { AnsweredAtOnce result (λ _. exporter_of self.new) (released_in (exporter_of self.old) view) }
        ensures err { OnErr result (exporter_of self.new ≡ exporter_of self.old) }
        ensures counted { self.new.exports ≡ exports_of (exporter_of self.new) }
        ensures bytes { self.new.bytes ≡ self.old.bytes }
    {
        if view >= self.views.len() {
            return Err(Fault::UnknownName);
        }
        let stored = &mut self.views[view];
        if !stored.is_released() {
            stored.release();
            self.exports -= 1;
        }
        Ok(())
    }
}
