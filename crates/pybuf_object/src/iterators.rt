//! The iterators of bytes and bytearrays.
ghost use Rattle.std.specs.Prelude.{◌≡◌, [], OnErr};
ghost use Rattle.pybuf_state.specs.Fits.{LoansFit};
ghost use Rattle.pybuf_command.specs.declared.kinds.Subject.TheVariants as subjects;
ghost use Rattle.pybuf_command.specs.declared.commands.Verb.TheVariants as verbs;
ghost use Rattle.pybuf_exporter.specs.Stepping.{StateStepsBy};

use pybuf_buffer::{step_of, step_without_loans};
use pybuf_command::{LoanList, LocalReply, Subject, Verb};
use pybuf_exporter::ExporterState;
use pybuf_value::{Made, Value};
use std::alloc::Global;
use std::marker::Model;

/// Python's iterator over bytes. It names an iterator by its number in one exporter, and keeps nothing else.
/// Example: `PyBytesIterator::of(0)` stands for the first iterator that was made of the bytes of an exporter.
#[derive(Clone, Copy, Debug)]
pub struct PyBytesIterator {
    number: usize,
}

impl Model for PyBytesIterator {
    ghost use Rattle.std.specs.Prelude.{ℕ};

    ghost Value = { ℕ };

    ghost view = { λ iterator. iterator.number };

    ghost inverse = { λ n. record { number = n } };
}

impl PyBytesIterator {
    /// The iterator of this number, counted from 0 in the order in which they were made. Takes no
    /// memory.
    /// Example: `PyBytesIterator::of(0)` is the iterator that the reply `Iter(0)` names.
    pub fn of(iterator: usize) -> PyBytesIterator
        ensures { result ≡ iterator }
    {
        PyBytesIterator { number: iterator }
    }

    /// The number of the iterator that it names. Takes no memory.
    /// Example: `PyBytesIterator::of(3).number()` is 3.
    pub fn number(&self) -> usize
        ensures { result ≡ self.now }
    {
        self.number
    }

    /// The next byte, or `Stop` where there is none, as Python's `next(iterator)` (Library reference, "Iterator
    /// Types"). After one `Stop` it replies `Stop` for ever. Where memory runs out, nothing is changed.
    ///
    /// Refused with `UnknownName` where no iterator of this number was given. One over a view is refused as
    /// `PyMemoryViewIterator::next` is.
    /// Example: over `b"a"` it replies the item 97, and then `Stop`.
    pub fn next(&self, alloc: Global, state: &mut ExporterState) -> Made<LocalReply>
        ensures ok { StateStepsBy (subjects.Iter self.now) verbs.Next [] state.old result state.new }
        ensures err { OnErr result (state.new ≡ state.old) }
        ensures room { state.new.room ≡ state.old.room }
    {
        step_without_loans(alloc, state, Subject::Iter(self.number), Verb::Next)
    }

    /// How many items are still to come, at least 0, as Python's `iterator.__length_hint__()` (Library reference,
    /// "operator.length_hint").
    ///
    /// Refused with `UnknownName` where no iterator over bytes has this number. Nothing of the exporter is changed.
    /// Example: after one `next` over `b"abc"` it replies the item 2.
    pub fn length_hint(&self, alloc: Global, state: &mut ExporterState) -> Made<LocalReply>
        ensures ok { StateStepsBy (subjects.Iter self.now) verbs.LengthHint [] state.old result state.new }
        ensures err { OnErr result (state.new ≡ state.old) }
        ensures room { state.new.room ≡ state.old.room }
    {
        step_without_loans(alloc, state, Subject::Iter(self.number), Verb::LengthHint)
    }

    /// Puts the iterator at an item, the nearest from 0 up to the length, as Python's
    /// `iterator.__setstate__(place)`. An exhausted one stays exhausted, whatever the place is.
    ///
    /// Refused with `UnknownName` where a handle of the place has no loan or it isn't an iterator over
    /// bytes, and with `TypeError` where the place is no number.
    /// Example: over `b"abc"` the place 2 makes the next item 99, and the place -1 makes it 97.
    pub fn setstate(
        &self,
        state: &mut ExporterState,
        place: Value,
        loans: LoanList,
    ) -> Made<LocalReply>
        requires { LoansFit loans }
        ensures ok { StateStepsBy (subjects.Iter self.now) (verbs.SetState place) loans state.old result state.new }
        ensures err { OnErr result (state.new ≡ state.old) }
        ensures room { state.new.room ≡ state.old.room }
    {
        step_of(
            state,
            Subject::Iter(self.number),
            Verb::SetState { state: place },
            loans,
        )
    }
}

/// Python's iterator over a bytearray. It names an iterator by its number in one exporter, and keeps nothing else.
/// Example: `PyByteArrayIterator::of(0)` stands for the first iterator that was made of a bytearray.
#[derive(Clone, Copy, Debug)]
pub struct PyByteArrayIterator {
    number: usize,
}

impl Model for PyByteArrayIterator {
    ghost use Rattle.std.specs.Prelude.{ℕ};

    ghost Value = { ℕ };

    ghost view = { λ iterator. iterator.number };

    ghost inverse = { λ n. record { number = n } };
}

impl PyByteArrayIterator {
    /// The iterator of this number, counted from 0 in the order in which they were made. Takes no
    /// memory.
    /// Example: `PyByteArrayIterator::of(0)` is the iterator that the reply `Iter(0)` names.
    pub fn of(iterator: usize) -> PyByteArrayIterator
        ensures { result ≡ iterator }
    {
        PyByteArrayIterator { number: iterator }
    }

    /// The number of the iterator that it names. Takes no memory.
    /// Example: `PyByteArrayIterator::of(3).number()` is 3.
    pub fn number(&self) -> usize
        ensures { result ≡ self.now }
    {
        self.number
    }

    /// The next byte, or `Stop` where there is none, as Python's `next(iterator)` (Library reference, "Iterator
    /// Types"). After one `Stop` it replies `Stop` for ever. Where memory runs out, nothing is changed.
    ///
    /// Refused with `UnknownName` where no iterator of this number was given. One over a view is refused as
    /// `PyMemoryViewIterator::next` is.
    /// Example: over `bytearray(b"a")` it replies the item 97; once 98 was appended the item 98; and then `Stop`.
    pub fn next(&self, alloc: Global, state: &mut ExporterState) -> Made<LocalReply>
        ensures ok { StateStepsBy (subjects.Iter self.now) verbs.Next [] state.old result state.new }
        ensures err { OnErr result (state.new ≡ state.old) }
        ensures room { state.new.room ≡ state.old.room }
    {
        step_without_loans(alloc, state, Subject::Iter(self.number), Verb::Next)
    }

    /// How many items are still to come, at least 0, as Python's `iterator.__length_hint__()` (Library reference,
    /// "operator.length_hint").
    ///
    /// Refused with `UnknownName` where no iterator over bytes has this number. Nothing of the exporter is changed.
    /// Example: after one `next` over `bytearray(b"abc")` it replies the item 2.
    pub fn length_hint(&self, alloc: Global, state: &mut ExporterState) -> Made<LocalReply>
        ensures ok { StateStepsBy (subjects.Iter self.now) verbs.LengthHint [] state.old result state.new }
        ensures err { OnErr result (state.new ≡ state.old) }
        ensures room { state.new.room ≡ state.old.room }
    {
        step_without_loans(alloc, state, Subject::Iter(self.number), Verb::LengthHint)
    }

    /// Puts the iterator at an item, the nearest from 0 up to the length, as Python's
    /// `iterator.__setstate__(place)`. An exhausted one stays exhausted, whatever the place is.
    ///
    /// Refused with `UnknownName` where a handle of the place has no loan or it isn't an iterator over
    /// bytes, and with `TypeError` where the place is no number.
    /// Example: over `bytearray(b"abc")` the place 2 makes the next item 99, and the place -1 makes it 97.
    pub fn setstate(
        &self,
        state: &mut ExporterState,
        place: Value,
        loans: LoanList,
    ) -> Made<LocalReply>
        requires { LoansFit loans }
        ensures ok { StateStepsBy (subjects.Iter self.now) (verbs.SetState place) loans state.old result state.new }
        ensures err { OnErr result (state.new ≡ state.old) }
        ensures room { state.new.room ≡ state.old.room }
    {
        step_of(
            state,
            Subject::Iter(self.number),
            Verb::SetState { state: place },
            loans,
        )
    }
}
