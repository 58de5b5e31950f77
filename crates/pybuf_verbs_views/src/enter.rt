//! `enter`: the view itself, which must not be released.
ghost use Rattle.pybuf_state.specs.Answers.{IsWhole, ReadsIn};
ghost use Rattle.pybuf_verbs_views.specs.Enter.{enter_of_view};

use pybuf_command::LocalReply;
use pybuf_state::Parts;
use pybuf_value::Halt;

/// The view itself, as Python's `with view` begins. Refused with `UnknownName` for a view that was never given, and
/// with `ValueError` for a released one.
/// Example: of an unreleased view it replies `Itself`.
pub fn of_view(parts: &Parts, view: usize) -> Result<LocalReply, Halt>
    requires { IsWhole parts.now }
    ensures { ReadsIn parts.now (λ e. enter_of_view e view) result }
{
    parts.live_layout(view)?;
    Ok(LocalReply::Itself)
}
