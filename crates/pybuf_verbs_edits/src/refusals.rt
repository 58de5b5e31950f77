//! Values that are a view of the exporter itself, or an iterator of it: of neither are bytes taken.
ghost use Rattle.std.specs.Prelude.{IsErr};
ghost use Rattle.pybuf_command.specs.declared.kinds.Subject.TheVariants as subjects;
ghost use Rattle.pybuf_state.specs.Answers.{IsWhole, AnswersIn};
ghost use Rattle.pybuf_verbs_edits.specs.LentBytes as lent_spec;

use pybuf_command::LocalReply;
use pybuf_state::Parts;
use pybuf_value::{Fault, Halt};

/// The bytes of a view of the exporter itself are added, or take the place of all. Nothing is read: such a view is
/// released, or it is one because of which the length stays.
pub(crate) fn refuse_view(parts: &Parts, view: usize) -> Result<LocalReply, Halt>
    requires { IsWhole parts.now }
    ensures extended { AnswersIn parts.now (λ e. lent_spec.extended_of e (subjects.View view)) result parts.now }
    ensures initialized { AnswersIn parts.now (λ e. lent_spec.initialized_of e (subjects.View view)) result parts.now }
    ensures refused { IsErr result }
{
    parts.live_layout(view)?;
    Err(Halt::Refused(Fault::Buffer))
}

/// The same of an iterator, which has no bytes.
pub(crate) fn refuse_iterator(parts: &Parts, iterator: usize) -> Result<LocalReply, Halt>
    ensures extended { AnswersIn parts.now (λ e. lent_spec.extended_of e (subjects.Iter iterator)) result parts.now }
    ensures initialized { AnswersIn parts.now (λ e. lent_spec.initialized_of e (subjects.Iter iterator)) result parts.now }
{
    parts.iterator(iterator)?;
    Err(Halt::Refused(Fault::Kind))
}
