//! Which edit a command is.
ghost use Rattle.std.specs.Prelude.{◌≡◌};
ghost use Rattle.pybuf_state.specs.Exporter.{exports_of};
ghost use Rattle.pybuf_state.specs.Answers.{exporter_of, IsWhole, AnswersIn, ReadsIn};
ghost use Rattle.pybuf_verbs_edits.specs.Edits as spec;
ghost use Rattle.pybuf_verbs_edits.specs.Paying.{VerbIsPaid};
ghost use Rattle.pybuf_verbs_edits.specs.Shrinking as shrinking_spec;

use crate::{growing, replacing, shrinking};
use pybuf_command::{LocalReply, Verb};
use pybuf_state::{Names, Parts};
use pybuf_value::{Fault, Halt, Steps, Value};
use std::sync::ledger::Ledger;

/// The edit of a verb on the exporter itself, such as `append`, `set` by a slice or `clear`.
///
/// Refused with `UnknownName` where the verb is no edit, and where the kind of the exporter hasn't it. Else it is
/// refused as the method of `PyByteArray` for the verb is. Nothing is changed then, nor where memory runs out.
/// Example: `Verb::Reverse` of `bytearray(b"abc")` makes `bytearray(b"cba")`.
pub fn edit_of_own<N: Names, L: Ledger>(
    parts: &mut Parts,
    verb: &Verb,
    names: &N,
    moved: &mut Steps<L>,
) -> Result<LocalReply, Halt>
    requires whole { IsWhole parts.old }
    requires fit { N.fit names.now }
    ensures answer { AnswersIn parts.old (λ e. spec.edit_by e verb.now (N.named names.now)) result parts.new }
    ensures counted { parts.new.exports ≡ exports_of (exporter_of parts.new) }
    ensures paid { VerbIsPaid verb.now (N.named names.now) parts.old moved.old result parts.new moved.new }
{
    match verb {
        Verb::Append { value } => growing::append(parts, value, moved),
        Verb::Extend { value } => growing::extend(parts, value, names, moved),
        Verb::Insert { index, value } => growing::insert(parts, index, value, moved),
        Verb::Pop { index } => shrinking::pop(parts, index, moved),
        Verb::Remove { value } => shrinking::remove(parts, value, moved),
        Verb::Clear => shrinking::clear(parts),
        Verb::Reverse => replacing::reverse(parts),
        Verb::Del { key } => shrinking::delete(parts, key, moved),
        Verb::IAdd { value } => growing::iadd(parts, value, names, moved),
        Verb::IMul { count } => growing::imul(parts, count),
        Verb::Init { options } => replacing::init(parts, options, names),
        Verb::Take => shrinking::take(parts, moved),
        Verb::Copy => replacing::copy(parts),
        Verb::Set {
            key: Value::Slice(slice),
            value,
        } => replacing::assign(parts, slice, value, names, moved),
        _ => Err(Halt::Refused(Fault::UnknownName)),
    }
}

/// What `del` of a view replies. It is always refused, with `UnknownName` where the view was never given, with
/// `ValueError` where it was released, and else with `TypeError`.
/// Example: of an unreleased view it is `Err(Halt::Refused(Fault::Kind))`.
pub fn delete_of_view(parts: &Parts, view: usize) -> Result<LocalReply, Halt>
    requires { IsWhole parts.now }
    ensures { ReadsIn parts.now (λ e. shrinking_spec.delete_of_view e view) result }
{
    parts.live_layout(view)?;
    Err(Halt::Refused(Fault::Kind))
}
