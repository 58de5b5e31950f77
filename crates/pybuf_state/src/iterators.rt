//! An iterator as it is kept.
ghost use Rattle.std.specs.Prelude.{◌≡◌, true, false};

use pybuf_command::Subject;
use std::marker::Model;

/// An iterator over the items of an exporter or of one of its views. A clause sees what it goes over,
/// the number of the item that comes next, and whether it is exhausted.
/// Example: `StoredIterator::new(Subject::Own)` stands for an iterator over the bytes of the exporter, at the first.
#[derive(Clone, Copy, Debug)]
pub struct StoredIterator {
    subject: Subject,
    position: usize,
    exhausted: bool,
}

impl Model for StoredIterator {
    ghost use Rattle.pybuf_state.specs.Exporter.{Iterator};

    ghost Value = { Iterator };

    ghost view = { λ i. record { subject = i.subject; position = i.position; exhausted = i.exhausted } };

    ghost inverse = { λ i. record { subject = i.subject; position = i.position; exhausted = i.exhausted } };
}

impl StoredIterator {
    /// An iterator over a subject, at the first item. Takes no memory.
    /// Example: `StoredIterator::new(Subject::Own).position()` is 0.
    pub fn new(subject: Subject) -> StoredIterator
        ensures { result ≡ record { subject = subject; position = 0; exhausted = false } }
    {
        StoredIterator {
            subject,
            position: 0,
            exhausted: false,
        }
    }

    /// What it goes over.
    /// Example: `StoredIterator::new(Subject::View(2)).subject()` is `Subject::View(2)`.
    pub fn subject(self) -> Subject
        ensures { result ≡ self.subject }
    {
        self.subject
    }

    /// The number of the item that comes next, counted from 0.
    /// Example: after one `next` over `b"abc"` it is 1.
    pub fn position(self) -> usize
        ensures { result ≡ self.position }
    {
        self.position
    }

    /// Whether it is exhausted. Then it gives no further item, whatever is added later.
    /// Example: after `next` replied `stop` it is true.
    pub fn is_exhausted(self) -> bool
        ensures { result ≡ self.exhausted }
    {
        self.exhausted
    }

    /// The same iterator, at the item of a number.
    /// Example: `StoredIterator::new(Subject::Own).at(2).position()` is 2.
    pub fn at(self, position: usize) -> StoredIterator
        ensures { result ≡ record self { position = position } }
    {
        StoredIterator {
            subject: self.subject,
            position,
            exhausted: self.exhausted,
        }
    }

    /// The same iterator, exhausted.
    /// Example: `StoredIterator::new(Subject::Own).ended().is_exhausted()` is true.
    pub fn ended(self) -> StoredIterator
        ensures { result ≡ record self { exhausted = true } }
    {
        StoredIterator {
            subject: self.subject,
            position: self.position,
            exhausted: true,
        }
    }
}
