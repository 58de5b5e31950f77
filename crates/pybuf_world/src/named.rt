//! What a handle names.
ghost use Rattle.std.specs.Prelude.{◌≡◌};
ghost use Rattle.pybuf_world.specs.World as spec;

use pybuf_command::Subject;

/// What a handle of a world names.
/// Example: `Named::View { exporter: 0, view: 1 }` stands for the second view of the first exporter.
#[derive(Clone, Copy, Debug, PartialEq, Eq)]
pub enum Named {
    /// An exporter, by its number.
    /// Example: after `new bytes x61` the handle `h0` names `Named::Exporter(0)`.
    Exporter(usize),
    /// A view of an exporter, by both numbers.
    /// Example: after `view h0` the handle `h1` names `Named::View { exporter: 0, view: 0 }`.
    View { exporter: usize, view: usize },
    /// An iterator of an exporter, by both numbers.
    /// Example: after `iter h0` the handle `h1` names `Named::Iterator { exporter: 0, iterator: 0 }`.
    Iterator { exporter: usize, iterator: usize },
}

/// What a command is asked of: the handle that it says, and what this names.
/// Example: for `len h1` after `view h0` it is the handle 1, the exporter 0 and the subject `Subject::View(0)`.
#[derive(Clone, Copy, Debug, PartialEq, Eq)]
pub struct Target {
    /// The handle that the command says.
    pub handle: u64,
    /// The number of the exporter that is named, or of which a view or an iterator is.
    pub exporter: usize,
    /// Which of its subjects that is.
    pub subject: Subject,
}

impl Named {
    /// The number of the exporter that is named, or of which a view or an iterator is.
    /// Example: `Named::View { exporter: 2, view: 1 }.exporter()` is 2.
    pub fn exporter(self) -> usize
        ensures { result ≡ spec.exporter_of self }
    {
        match self {
            Named::Exporter(exporter) => exporter,
            Named::View { exporter, view: _ } => exporter,
            Named::Iterator {
                exporter,
                iterator: _,
            } => exporter,
        }
    }

    /// Which of the exporter's subjects is named.
    /// Example: `Named::View { exporter: 2, view: 1 }.subject()` is `Subject::View(1)`.
    pub fn subject(self) -> Subject
        ensures { result ≡ spec.subject_of self }
    {
        match self {
            Named::Exporter(_) => Subject::Own,
            Named::View { exporter: _, view } => Subject::View(view),
            Named::Iterator {
                exporter: _,
                iterator,
            } => Subject::Iter(iterator),
        }
    }
}
