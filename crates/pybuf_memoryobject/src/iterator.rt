//! The iterator of a memoryview.
ghost use Rattle.std.specs.Prelude.{◌≡◌, [], OnErr};
ghost use Rattle.pybuf_command.specs.declared.kinds.Subject.TheVariants as subjects;
ghost use Rattle.pybuf_command.specs.declared.commands.Verb.TheVariants as verbs;
ghost use Rattle.pybuf_exporter.specs.Stepping.{StateStepsBy};

use pybuf_buffer::step_without_loans;
use pybuf_command::{LocalReply, Subject, Verb};
use pybuf_exporter::ExporterState;
use pybuf_value::Made;
use std::alloc::Global;
use std::marker::Model;

/// Python's iterator over a memoryview. It names an iterator by its number in one exporter, and keeps nothing else.
/// Example: `PyMemoryViewIterator::of(0)` stands for the first iterator that was made of an exporter or of its views.
#[derive(Clone, Copy, Debug)]
pub struct PyMemoryViewIterator {
    number: usize,
}

impl Model for PyMemoryViewIterator {
    ghost use Rattle.std.specs.Prelude.{ℕ};

    ghost Value = { ℕ };

    ghost view = { λ iterator. iterator.number };

    ghost inverse = { λ n. record { number = n } };
}

impl PyMemoryViewIterator {
    /// The iterator of this number, counted from 0 in the order in which they were made. Takes no
    /// memory.
    /// Example: `PyMemoryViewIterator::of(0)` is the iterator that the reply `Iter(0)` names.
    pub fn of(iterator: usize) -> PyMemoryViewIterator
        ensures { result ≡ iterator }
    {
        PyMemoryViewIterator { number: iterator }
    }

    /// The number of the iterator that it names. Takes no memory.
    /// Example: `PyMemoryViewIterator::of(3).number()` is 3.
    pub fn number(&self) -> usize
        ensures { result ≡ self.now }
    {
        self.number
    }

    /// The next item, or `Stop` where there is none, as Python's `next(iterator)` (Library reference, "Iterator
    /// Types"). After one `Stop` it replies `Stop` for ever.
    ///
    /// Refused with `UnknownName` where no iterator of this number was given; unless it is exhausted, with
    /// `ValueError` where its view was released, and with `NotImplementedError` where that hasn't one dimension and
    /// an entry is left. Where it is refused, or memory runs out, it stays where it is.
    /// Example: over a view of `b"a"` it replies the item 97, and then `Stop`.
    pub fn next(&self, alloc: Global, state: &mut ExporterState) -> Made<LocalReply>
        ensures ok { StateStepsBy (subjects.Iter self.now) verbs.Next [] state.old result state.new }
        ensures err { OnErr result (state.new ≡ state.old) }
        ensures room { state.new.room ≡ state.old.room }
    {
        step_without_loans(alloc, state, Subject::Iter(self.number), Verb::Next)
    }
}
