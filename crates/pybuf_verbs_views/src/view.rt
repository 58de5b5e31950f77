//! `view`: a new view of the subject.
ghost use Rattle.std.specs.Prelude.{◌≡◌};
ghost use Rattle.pybuf_state.specs.Exporter.{exports_of};
ghost use Rattle.pybuf_state.specs.Answers.{exporter_of, IsWhole, AnswersIn, as_view};
ghost use Rattle.pybuf_verbs_views.specs.View.{view_of_own, view_of_view};

use pybuf_command::LocalReply;
use pybuf_memoryview::KeptLayout;
use pybuf_state::Parts;
use pybuf_value::{Halt, Twin};

/// A view of all the bytes. The answer is its number. It is never refused. Where memory runs out, nothing is changed.
/// Example: of an exporter without views it is 0.
pub fn add_whole(parts: &mut Parts) -> Result<usize, Halt>
    requires { IsWhole parts.old }
    ensures answer { AnswersIn parts.old view_of_own (as_view result) parts.new }
    ensures counted { parts.new.exports ≡ exports_of (exporter_of parts.new) }
    ensures room { parts.new.bytes.room ≡ parts.old.bytes.room }
{
    let layout = KeptLayout::whole(parts.alloc, parts.bytes.len(), parts.kind.is_readonly())?;
    parts.push_view(layout)
}

/// A view of all the bytes, read-only where they are only read. The reply is its number. It is never refused. Where
/// memory runs out, nothing is changed.
/// Example: of an exporter without views it replies `View(0)`.
pub fn of_own(parts: &mut Parts) -> Result<LocalReply, Halt>
    requires { IsWhole parts.old }
    ensures answer { AnswersIn parts.old view_of_own result parts.new }
    ensures counted { parts.new.exports ≡ exports_of (exporter_of parts.new) }
    ensures room { parts.new.bytes.room ≡ parts.old.bytes.room }
{
    let number = add_whole(parts)?;
    Ok(LocalReply::View(number))
}

/// A view of the items of a view. The reply is its number. Refused with `UnknownName` for a view that was never
/// given, and with `ValueError` for a released one. Nothing is changed then, nor where memory runs out.
/// Example: of the view 0, the only one, it replies `View(1)`.
pub fn of_view(parts: &mut Parts, view: usize) -> Result<LocalReply, Halt>
    requires { IsWhole parts.old }
    ensures answer { AnswersIn parts.old (λ e. view_of_view e view) result parts.new }
    ensures counted { parts.new.exports ≡ exports_of (exporter_of parts.new) }
    ensures room { parts.new.bytes.room ≡ parts.old.bytes.room }
{
    let layout = parts.live_layout(view)?;
    let layout = layout.copy(parts.alloc)?;
    parts.add_view(layout)
}
