//! `release`: the view is released.
ghost use Rattle.std.specs.Prelude.{◌≡◌, OnErr};
ghost use Rattle.pybuf_state.specs.Exporter.{exports_of};
ghost use Rattle.pybuf_state.specs.Answers.{exporter_of, IsWhole, AnswersIn, ChangesTo};
ghost use Rattle.pybuf_state.specs.Exporter.{released_in};
ghost use Rattle.pybuf_verbs_views.specs.Release.{release_of_view};

use pybuf_command::LocalReply;
use pybuf_state::Parts;
use pybuf_value::{Fault, Halt};

/// Releases a view that was given. The second time changes nothing.
///
/// Refused with `UnknownName` exactly where the view was never given. Nothing is changed then.
/// Example: `release(parts, 0)` is `Ok(())` after one view was made, also the second time.
pub fn release(parts: &mut Parts, view: usize) -> Result<(), Fault>
    requires { IsWhole parts.old }
    ensures exact { ChangesTo (released_in (exporter_of parts.old) view) result (exporter_of parts.new) }
    ensures err { OnErr result (exporter_of parts.new ≡ exporter_of parts.old) }
    ensures whole { IsWhole parts.new }
    ensures room { parts.new.bytes.room ≡ parts.old.bytes.room }
{
    pybuf_state::releasing_keeps();
    match parts.release_view(view) {
        Ok(()) => Ok(()),
        Err(fault) => Err(fault),
    }
}

/// Releases a view that was given, and replies that it is done. It is refused as `release` is. Nothing is changed
/// then.
/// Example: of a view of number 0 it replies `Ok`, also the second time.
pub fn of_view(parts: &mut Parts, view: usize) -> Result<LocalReply, Halt>
    requires { IsWhole parts.old }
    ensures answer { AnswersIn parts.old (λ e. release_of_view e view) result parts.new }
    ensures counted { parts.new.exports ≡ exports_of (exporter_of parts.new) }
    ensures room { parts.new.bytes.room ≡ parts.old.bytes.room }
{
    release(parts, view)?;
    Ok(LocalReply::Ok)
}
