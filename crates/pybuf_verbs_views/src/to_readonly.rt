//! `toreadonly`: a new view of the same items, which may only be read.
ghost use Rattle.std.specs.Prelude.{◌≡◌};
ghost use Rattle.pybuf_state.specs.Exporter.{exports_of};
ghost use Rattle.pybuf_state.specs.Answers.{exporter_of, IsWhole, AnswersIn};
ghost use Rattle.pybuf_verbs_views.specs.ToReadonly.{toreadonly_of_view};

use pybuf_command::LocalReply;
use pybuf_state::Parts;
use pybuf_value::Halt;

/// A view of the items of a view, which may only be read. The reply is its number. Refused with `UnknownName` for a
/// view that was never given, and with `ValueError` for a released one. Nothing is changed then, nor where memory
/// runs out.
/// Example: of the view 0, the only one, it replies `View(1)`.
pub fn of_view(parts: &mut Parts, view: usize) -> Result<LocalReply, Halt>
    requires { IsWhole parts.old }
    ensures answer { AnswersIn parts.old (λ e. toreadonly_of_view e view) result parts.new }
    ensures counted { parts.new.exports ≡ exports_of (exporter_of parts.new) }
    ensures room { parts.new.bytes.room ≡ parts.old.bytes.room }
{
    let layout = parts.live_layout(view)?;
    let layout = layout.to_readonly(parts.alloc)?;
    parts.add_view(layout)
}
