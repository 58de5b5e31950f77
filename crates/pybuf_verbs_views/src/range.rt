//! `range`: a new view of the bytes from one place up to another.
ghost use Rattle.std.specs.Prelude.{◌≡◌, ◌+◌, ◌≤◌, IfOk};
ghost use Rattle.pybuf_state.specs.Exporter.{exports_of};
ghost use Rattle.pybuf_state.specs.Answers.{exporter_of, IsWhole, AnswersIn};
ghost use Rattle.pybuf_verbs_views.specs.Range as spec;

use pybuf_command::LocalReply;
use pybuf_memoryview::KeptLayout;
use pybuf_state::Parts;
use pybuf_value::{Fault, Halt, Value, index_of};

/// The first place and how many there are up to the other, where both are among so many.
fn part_between(count: usize, from: i128, to: i128) -> Result<(usize, usize), Fault>
    ensures exact { result ≡ spec.part_between count from to }
    ensures within { IfOk result (λ part. part.0 + part.1 ≤ count) }
{
    if from < 0 {
        return Err(Fault::Index);
    }
    if to < from {
        return Err(Fault::Index);
    }
    if to > count as i128 {
        return Err(Fault::Index);
    }
    Ok((from as usize, (to - from) as usize))
}

/// A view of the bytes from one place up to another. The reply is its number. Refused with `TypeError` where the
/// first place, and then the other, is no number, and with `IndexError` where the first is below 0 or past the other,
/// or the other is past the length. Nothing is changed then, nor where memory runs out.
/// Example: of `b"abcdef"` from 1 up to 4 it replies the number of a view of `b"bcd"`.
pub fn of_own(parts: &mut Parts, from: &Value, to: &Value) -> Result<LocalReply, Halt>
    requires { IsWhole parts.old }
    ensures answer { AnswersIn parts.old (λ e. spec.range_of_own e from.now to.now) result parts.new }
    ensures counted { parts.new.exports ≡ exports_of (exporter_of parts.new) }
    ensures room { parts.new.bytes.room ≡ parts.old.bytes.room }
{
    let first = index_of(from)?;
    let end = index_of(to)?;
    let (start, count) = part_between(parts.bytes.len(), first, end)?;
    let layout = KeptLayout::range(parts.alloc, start, count, parts.kind.is_readonly())?;
    parts.add_view(layout)
}
