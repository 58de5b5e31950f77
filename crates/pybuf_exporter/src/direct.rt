//! Commands that are called very often, each with its values lent by themselves: no verb is made for it, none is
//! looked at for its effect, and none is dropped. Each is the command of its verb, and answers the same.
ghost use Rattle.std.specs.Prelude.{◌≡◌, true, false, IfOk, IfErr, OnOk, OnErr};
ghost use Rattle.pybuf_value.specs.declared.faults.Fault.TheVariants as faults;
ghost use Rattle.pybuf_command.specs.declared.commands.Verb.TheVariants as verbs;
ghost use Rattle.pybuf_command.specs.declared.kinds.Subject.TheVariants as subjects;
ghost use Rattle.pybuf_state.specs.Fits.{LoansFit};
ghost use Rattle.pybuf_state.specs.Exporter.{exports_of};
ghost use Rattle.pybuf_state.specs.Loans.{lents_of_value};
ghost use Rattle.pybuf_state.specs.Answers.{exporter_of, IsWhole, AnswersIn};
ghost use Rattle.pybuf_exporter.specs.Step as spec;
ghost use Rattle.pybuf_exporter.specs.Stepping.{AnswersBy};

use crate::uncounted::pop as pop_of_own;
use pybuf_command::{LoanList, LocalReply};
use pybuf_state::{Names, Parts, is_option_known, is_value_known};
use pybuf_value::{Fault, Halt, Value};
use pybuf_verbs_reads::get;
use pybuf_verbs_views::{cast, release, slice, view};
use pybuf_verbs_writes::{assign, set};

/// `get` of a view: a new view of the items that a slice picks, or the item that any other key names.
fn effect_of_get(parts: &mut Parts, view: usize, key: &Value) -> Result<LocalReply, Halt>
    requires { IsWhole parts.old }
    ensures answer { AnswersIn parts.old (λ e. spec.get_of_view e view key.now) result parts.new }
    ensures counted { parts.new.exports ≡ exports_of (exporter_of parts.new) }
    ensures room { parts.new.bytes.room ≡ parts.old.bytes.room }
{
    match key {
        Value::Slice(slice) => slice::of_view(parts, view, slice),
        _ => get::of_view(parts, view, key),
    }
}

/// `set` of a view: items over those that a slice picks, or the item at an index.
fn effect_of_set<N: Names>(
    parts: &mut Parts,
    view: usize,
    key: &Value,
    value: &Value,
    names: &N,
) -> Result<LocalReply, Halt>
    requires whole { IsWhole parts.old }
    requires fit { N.fit names.now }
    ensures answer { AnswersIn parts.old (λ e. spec.set_through_view e view key.now value.now (lents_of_value e (N.named names.now) value.now)) result parts.new }
    ensures counted { parts.new.exports ≡ exports_of (exporter_of parts.new) }
    ensures room { parts.new.bytes.room ≡ parts.old.bytes.room }
{
    match key {
        Value::Slice(slice) => assign::of_view(parts, view, slice, value, names),
        _ => set::of_view(parts, view, key, value, names),
    }
}

/// A new view of all bytes.
pub fn view_of_own(parts: &mut Parts, _loans: &LoanList) -> Result<LocalReply, Halt>
    requires { IsWhole parts.old }
    ensures answer { AnswersBy subjects.Own verbs.View _loans.now parts.old result parts.new }
    ensures counted { parts.new.exports ≡ exports_of (exporter_of parts.new) }
    ensures room { parts.new.bytes.room ≡ parts.old.bytes.room }
{
    view::of_own(parts)
}

/// A new view of the items of a view.
pub fn view_of_view(parts: &mut Parts, view: usize, _loans: &LoanList) -> Result<LocalReply, Halt>
    requires { IsWhole parts.old }
    ensures answer { AnswersBy (subjects.View view) verbs.View _loans.now parts.old result parts.new }
    ensures counted { parts.new.exports ≡ exports_of (exporter_of parts.new) }
    ensures room { parts.new.bytes.room ≡ parts.old.bytes.room }
{
    view::of_view(parts, view)
}

/// A view is released, as `with view` ends.
pub fn exit_of_view(parts: &mut Parts, view: usize, _loans: &LoanList) -> Result<LocalReply, Halt>
    requires { IsWhole parts.old }
    ensures answer { AnswersBy (subjects.View view) verbs.Exit _loans.now parts.old result parts.new }
    ensures counted { parts.new.exports ≡ exports_of (exporter_of parts.new) }
    ensures room { parts.new.bytes.room ≡ parts.old.bytes.room }
{
    release::of_view(parts, view)
}

/// The byte of an exporter at an index, or the bytes that a slice picks.
pub fn get_of_own(parts: &mut Parts, key: &Value, loans: &LoanList) -> Result<LocalReply, Halt>
    requires { IsWhole parts.old }
    ensures answer { AnswersBy subjects.Own (verbs.Get key.now) loans.now parts.old result parts.new }
    ensures counted { parts.new.exports ≡ exports_of (exporter_of parts.new) }
    ensures room { parts.new.bytes.room ≡ parts.old.bytes.room }
{
    if !is_value_known(parts, loans, key) {
        return Err(Halt::Refused(Fault::UnknownName));
    }
    get::of_own(parts, key)
}

/// The item of a view at a key, or a new view of those that a slice picks.
pub fn get_of_view(
    parts: &mut Parts,
    view: usize,
    key: &Value,
    loans: &LoanList,
) -> Result<LocalReply, Halt>
    requires { IsWhole parts.old }
    ensures answer { AnswersBy (subjects.View view) (verbs.Get key.now) loans.now parts.old result parts.new }
    ensures counted { parts.new.exports ≡ exports_of (exporter_of parts.new) }
    ensures room { parts.new.bytes.room ≡ parts.old.bytes.room }
{
    if !is_value_known(parts, loans, key) {
        return Err(Halt::Refused(Fault::UnknownName));
    }
    effect_of_get(parts, view, key)
}

/// Writes the item of a view at a key, or items over those that a slice picks.
pub fn set_through_view(
    parts: &mut Parts,
    view: usize,
    key: &Value,
    value: &Value,
    loans: &LoanList,
) -> Result<LocalReply, Halt>
    requires whole { IsWhole parts.old }
    requires fit { LoansFit loans.now }
    ensures answer { AnswersBy (subjects.View view) (verbs.Set key.now value.now) loans.now parts.old result parts.new }
    ensures counted { parts.new.exports ≡ exports_of (exporter_of parts.new) }
    ensures room { parts.new.bytes.room ≡ parts.old.bytes.room }
{
    if !is_value_known(parts, loans, key) {
        return Err(Halt::Refused(Fault::UnknownName));
    }
    if !is_value_known(parts, loans, value) {
        return Err(Halt::Refused(Fault::UnknownName));
    }
    effect_of_set(parts, view, key, value, loans)
}

/// A new view of the bytes of a view, with items of another format.
pub fn cast_of_view(
    parts: &mut Parts,
    view: usize,
    format: &Value,
    shape: &Option<Value>,
    loans: &LoanList,
) -> Result<LocalReply, Halt>
    requires { IsWhole parts.old }
    ensures answer { AnswersBy (subjects.View view) (verbs.Cast format.now shape.now) loans.now parts.old result parts.new }
    ensures counted { parts.new.exports ≡ exports_of (exporter_of parts.new) }
    ensures room { parts.new.bytes.room ≡ parts.old.bytes.room }
{
    if !is_value_known(parts, loans, format) {
        return Err(Halt::Refused(Fault::UnknownName));
    }
    if !is_option_known(parts, loans, shape) {
        return Err(Halt::Refused(Fault::UnknownName));
    }
    cast::of_view(parts, view, format, shape)
}

/// Takes the byte at an index out.
pub fn pop(parts: &mut Parts, index: &Option<Value>, loans: &LoanList) -> Result<LocalReply, Halt>
    requires { IsWhole parts.old }
    ensures answer { AnswersBy subjects.Own (verbs.Pop index.now) loans.now parts.old result parts.new }
    ensures counted { parts.new.exports ≡ exports_of (exporter_of parts.new) }
    ensures err_room { OnErr result (parts.new.bytes.room ≡ parts.old.bytes.room) }
{
    if !is_option_known(parts, loans, index) {
        return Err(Halt::Refused(Fault::UnknownName));
    }
    pop_of_own(parts, index)
}
