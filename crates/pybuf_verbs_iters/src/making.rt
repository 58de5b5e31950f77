//! `iter`: a new iterator, as Python's `iter(subject)`.
ghost use Rattle.pybuf_state.specs.Exporter.{exports_of};
ghost use Rattle.pybuf_state.specs.Answers.{exporter_of, IsWhole, AnswersIn};
ghost use Rattle.std.specs.Prelude.{◌≡◌};
ghost use Rattle.pybuf_verbs_iters.specs.Iterators as spec;

use pybuf_command::{ExporterKind, LocalReply, Subject};
use pybuf_state::Parts;
use pybuf_value::{Fault, Halt};

/// An iterator over the bytes of an exporter, at the first. The reply is its number.
///
/// A vector has no items of its own, and is refused with `UnknownName`. Where it is refused, or memory runs out,
/// nothing is changed.
/// Example: of an exporter without iterators it replies `Iter(0)`.
pub fn of_own(parts: &mut Parts) -> Result<LocalReply, Halt>
    requires { IsWhole parts.old }
    ensures answer { AnswersIn parts.old spec.iter_of_own result parts.new }
    ensures counted { parts.new.exports ≡ exports_of (exporter_of parts.new) }
    ensures room { parts.new.bytes.room ≡ parts.old.bytes.room }
{
    match parts.kind {
        ExporterKind::Vector { readonly: _ } => Err(Halt::Refused(Fault::UnknownName)),
        _ => parts.add_iterator(Subject::Own),
    }
}

/// An iterator over the items of a view, at the first. The reply is its number.
///
/// Refused with `UnknownName` for a view that was never given, and with `ValueError` for a released one. Where it is
/// refused, or memory runs out, nothing is changed.
/// Example: of the view 0 of an exporter without iterators it replies `Iter(0)`.
pub fn of_view(parts: &mut Parts, view: usize) -> Result<LocalReply, Halt>
    requires { IsWhole parts.old }
    ensures answer { AnswersIn parts.old (λ e. spec.iter_of_view e view) result parts.new }
    ensures counted { parts.new.exports ≡ exports_of (exporter_of parts.new) }
    ensures room { parts.new.bytes.room ≡ parts.old.bytes.room }
{
    parts.live_layout(view)?;
    parts.add_iterator(Subject::View(view))
}
