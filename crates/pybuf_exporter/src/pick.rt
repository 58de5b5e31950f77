//! Which effect a command has.
ghost use Rattle.std.specs.Prelude.{◌≡◌, false};
ghost use Rattle.pybuf_command.specs.declared.kinds.Subject.TheVariants as subjects;
ghost use Rattle.pybuf_command.specs.Handles.{handles_of};
ghost use Rattle.pybuf_state.specs.Exporter.{exports_of};
ghost use Rattle.pybuf_state.specs.Answers.{exporter_of, IsWhole, AnswersIn};
ghost use Rattle.pybuf_verbs_edits.specs.Edits.{is_edit};
ghost use Rattle.pybuf_verbs_edits.specs.Paying.{VerbIsPaid};
ghost use Rattle.pybuf_exporter.specs.Counting.{CommandIsPaid, edits_by};
ghost use Rattle.pybuf_exporter.specs.Step as spec;

use pybuf_command::{LocalReply, Subject, Verb, handles_of, handles_read};
use pybuf_state::{Names, Parts, are_known};
use pybuf_value::{Fault, Halt, Steps, Value};
use pybuf_verbs_compare::{compare, hash, repr};
use pybuf_verbs_edits::{delete_of_view, edit_of_own};
use pybuf_verbs_iters::{making, stepping};
use pybuf_verbs_methods::{Reading, call, contains, hex};
use pybuf_verbs_reads::{get, len, property, to_bytes, to_list};
use pybuf_verbs_views::{cast, contiguous, enter, range, release, slice, to_readonly, view};
use pybuf_verbs_writes::{assign, set};
use std::sync::ledger::Ledger;

/// Whether a verb is an edit.
fn is_edit(verb: &Verb) -> bool
    ensures { result ≡ is_edit verb.now }
{
    match verb {
        Verb::Append { value: _ }
        | Verb::Extend { value: _ }
        | Verb::Insert { index: _, value: _ }
        | Verb::Pop { index: _ }
        | Verb::Remove { value: _ }
        | Verb::Clear
        | Verb::Reverse
        | Verb::Del { key: _ }
        | Verb::IAdd { value: _ }
        | Verb::IMul { count: _ }
        | Verb::Init { options: _ }
        | Verb::Take
        | Verb::Copy
        | Verb::Set {
            key: Value::Slice(_),
            value: _,
        } => true,
        _ => false,
    }
}

/// The effect of a verb on the exporter itself that is no edit, with the handles among its values.
#[tactic(auto, using(crate::proofs::Counting::no_edit))]
fn effect_without_edits<N: Names>(
    parts: &mut Parts,
    verb: &Verb,
    handles: &[u64],
    names: &N,
) -> Result<LocalReply, Halt>
    requires whole { IsWhole parts.old }
    requires given { handles.now ≡ handles_of verb.now }
    requires fit { N.fit names.now }
    requires no_edit { is_edit verb.now ≡ false }
    ensures answer { AnswersIn parts.old (λ e. spec.effect_by e subjects.Own verb.now (N.named names.now)) result parts.new }
    ensures counted { parts.new.exports ≡ exports_of (exporter_of parts.new) }
    ensures room { parts.new.bytes.room ≡ parts.old.bytes.room }
{
    match verb {
        Verb::View => view::of_own(parts),
        Verb::Range { from, to } => range::of_own(parts, from, to),
        Verb::Get { key } => get::of_own(parts, key),
        Verb::Set {
            key: Value::Slice(_),
            value: _,
        } => unreachable!(),
        Verb::Set { key, value } => set::of_own(parts, key, value),
        Verb::ToBytes { order } => to_bytes::of_own(parts, order),
        Verb::Len => len::of_own(parts),
        Verb::Property { name } => property::of_own(parts, *name),
        Verb::Compare { op, other } => compare::of_own(parts, *op, other, names),
        Verb::Hash => hash::of_own(parts),
        Verb::Repr => repr::of_own(parts),
        Verb::Iter => making::of_own(parts),
        Verb::Contains { value } => {
            let read = handles_read(parts.alloc, Subject::Own, verb)?;
            contains::of_own(parts, value, &Reading::new(parts, names, read.as_slice()))
        }
        // a method reads the bytes of what each of its handles names
        Verb::Call { method } => call::of_own(parts, method, &Reading::new(parts, names, handles)),
        _ => Err(Halt::Refused(Fault::UnknownName)),
    }
}

/// The effect of a verb on the exporter itself, with the handles among its values.
#[tactic(auto, using(crate::proofs::Refusing::effect_is_edit, crate::proofs::Counting::no_front, crate::proofs::Counting::no_growth))]
fn effect_on_own<N: Names, L: Ledger>(
    parts: &mut Parts,
    verb: &Verb,
    handles: &[u64],
    names: &N,
    moved: &mut Steps<L>,
) -> Result<LocalReply, Halt>
    requires whole { IsWhole parts.old }
    requires given { handles.now ≡ handles_of verb.now }
    requires fit { N.fit names.now }
    ensures answer { AnswersIn parts.old (λ e. spec.effect_by e subjects.Own verb.now (N.named names.now)) result parts.new }
    ensures counted { parts.new.exports ≡ exports_of (exporter_of parts.new) }
    ensures paid { VerbIsPaid verb.now (N.named names.now) parts.old moved.old result parts.new moved.new }
    ensures kept_room { is_edit verb.now ≡ false → parts.new.bytes.room ≡ parts.old.bytes.room }
    ensures kept_counter { is_edit verb.now ≡ false → moved.new ≡ moved.old }
{
    if is_edit(verb) {
        edit_of_own(parts, verb, names, moved)
    } else {
        effect_without_edits(parts, verb, handles, names)
    }
}

/// The effect of a verb on a view.
fn effect_on_view<N: Names>(
    parts: &mut Parts,
    k: usize,
    verb: &Verb,
    names: &N,
) -> Result<LocalReply, Halt>
    requires whole { IsWhole parts.old }
    requires fit { N.fit names.now }
    ensures answer { AnswersIn parts.old (λ e. spec.effect_by e (subjects.View k) verb.now (N.named names.now)) result parts.new }
    ensures counted { parts.new.exports ≡ exports_of (exporter_of parts.new) }
    ensures room { parts.new.bytes.room ≡ parts.old.bytes.room }
{
    match verb {
        Verb::View => view::of_view(parts, k),
        Verb::Get {
            key: Value::Slice(slice),
        } => slice::of_view(parts, k, slice),
        Verb::Get { key } => get::of_view(parts, k, key),
        Verb::Set {
            key: Value::Slice(slice),
            value,
        } => assign::of_view(parts, k, slice, value, names),
        Verb::Set { key, value } => set::of_view(parts, k, key, value, names),
        Verb::Cast { format, shape } => cast::of_view(parts, k, format, shape),
        Verb::CastF { format, shape } => cast::column_of_view(parts, k, format, shape),
        Verb::ToBytes { order } => to_bytes::of_view(parts, k, order),
        Verb::Release => release::of_view(parts, k),
        Verb::Enter => enter::of_view(parts, k),
        Verb::Exit => release::of_view(parts, k),
        Verb::ToContiguous => contiguous::of_view(parts, k),
        Verb::ToList => to_list::of_view(parts, k),
        Verb::Len => len::of_view(parts, k),
        Verb::Property { name } => property::of_view(parts, k, *name),
        Verb::ToReadonly => to_readonly::of_view(parts, k),
        Verb::Del { key: _ } => delete_of_view(parts, k),
        Verb::Compare { op, other } => compare::of_view(parts, k, *op, other, names),
        Verb::Hash => hash::of_view(parts, k),
        Verb::Repr => repr::of_view(parts, k),
        Verb::Iter => making::of_view(parts, k),
        Verb::Hex { sep, group } => {
            let read = handles_read(parts.alloc, Subject::View(k), verb)?;
            hex::of_view(
                parts,
                k,
                sep,
                group,
                &Reading::new(parts, names, read.as_slice()),
            )
        }
        _ => Err(Halt::Refused(Fault::UnknownName)),
    }
}

/// What a command answers: what the effect of the subject and the verb does. A handle that names nothing is refused
/// with `UnknownName`, before all else.
pub fn answer<N: Names, L: Ledger>(
    parts: &mut Parts,
    subject: Subject,
    verb: &Verb,
    names: &N,
    moved: &mut Steps<L>,
) -> Result<LocalReply, Halt>
    requires whole { IsWhole parts.old }
    requires fit { N.fit names.now }
    ensures answer { AnswersIn parts.old (λ e. spec.answer_by e subject verb.now (N.named names.now)) result parts.new }
    ensures counted { parts.new.exports ≡ exports_of (exporter_of parts.new) }
    ensures paid { CommandIsPaid subject verb.now (N.named names.now) parts.old moved.old result parts.new moved.new }
    ensures kept_room { edits_by subject verb.now ≡ false → parts.new.bytes.room ≡ parts.old.bytes.room }
    ensures kept_counter { edits_by subject verb.now ≡ false → moved.new ≡ moved.old }
{
    let handles = handles_of(parts.alloc, verb)?;
    if !are_known(parts, names, handles.as_slice()) {
        return Err(Halt::Refused(Fault::UnknownName));
    }
    match subject {
        Subject::Own => effect_on_own(parts, verb, handles.as_slice(), names, moved),
        Subject::View(k) => effect_on_view(parts, k, verb, names),
        Subject::Iter(k) => stepping::of_iterator(parts, k, verb),
    }
}
