//! Commands as lines spell them, with their subjects and their handles named by what they are.
ghost use Rattle.std.specs.Prelude.{◌≡◌, ◌∷◌, [], ◌++◌, map, OnOk};
ghost use Rattle.pybuf_line.specs.Spellings.{written_value};
ghost use Rattle.pybuf_line.specs.Commands.{values_of, written_options, written_call, written_arguments};
ghost use Rattle.pybuf_histories.specs.Commands.{command_text};
ghost use Rattle.pybuf_histories.specs.Names.{name_of};
ghost use Rattle.pybuf_histories.specs.Words.{after_blanks};
ghost use Rattle.pybuf_histories.specs.Pushing.{Pushes};

use crate::methods::method_text;
use crate::names::push_subject;
use crate::spellings::push_value;
use crate::words::{operator_text, property_text, verb_text};
use pybuf_command::{ByteInnerNewOptions, LoanList, LocalCommand, MethodCall, Verb};
use pybuf_value::{Made, Value};

/// Adds a word after a blank.
fn push_word(out: &mut Vec<u8>, word: &str) -> Made<()>
    ensures { OnOk result (out.new.items ≡ out.old.items ++ after_blanks (word.now ∷ [])) }
{
    out.push(b' ')?;
    out.extend_from_slice(word.as_bytes())?;
    Ok(())
}

/// Adds a value after a blank.
fn push_one(out: &mut Vec<u8>, loans: &LoanList, value: &Value) -> Made<()>
    ensures { Pushes (after_blanks (map (written_value (name_of loans.now)) (value.now ∷ []))) out.old out.new result }
{
    out.push(b' ')?;
    push_value(out, loans, value)
}

/// Adds two values, each after a blank.
fn push_two(out: &mut Vec<u8>, loans: &LoanList, first: &Value, second: &Value) -> Made<()>
    ensures { Pushes (after_blanks (map (written_value (name_of loans.now)) (first.now ∷ second.now ∷ []))) out.old out.new result }
{
    push_one(out, loans, first)?;
    push_one(out, loans, second)
}

/// Adds values, each after a blank.
fn push_values(out: &mut Vec<u8>, loans: &LoanList, values: &[Value]) -> Made<()>
    ensures { Pushes (after_blanks (map (written_value (name_of loans.now)) values.now)) out.old out.new result }
{
    for value in values {
        push_one(out, loans, value)?;
    }
    Ok(())
}

/// Adds the values that bytes are made of, each of which comes only after the one before.
fn push_options(out: &mut Vec<u8>, loans: &LoanList, options: &ByteInnerNewOptions) -> Made<()>
    ensures { Pushes (after_blanks (written_options (name_of loans.now) options.now)) out.old out.new result }
{
    match (&options.source, &options.encoding, &options.errors) {
        (None, _, _) => Ok(()),
        (Some(source), None, _) => push_one(out, loans, source),
        (Some(source), Some(encoding), None) => push_two(out, loans, source, encoding),
        (Some(source), Some(encoding), Some(errors)) => {
            push_two(out, loans, source, encoding)?;
            push_one(out, loans, errors)
        }
    }
}

/// Adds a call: the name of its method, and its arguments.
fn push_call(out: &mut Vec<u8>, loans: &LoanList, method: &MethodCall) -> Made<()>
    ensures { Pushes (after_blanks (written_call (name_of loans.now) method.now)) out.old out.new result }
{
    push_word(out, method_text(method.name))?;
    push_values(out, loans, method.args.as_slice())
}

/// Adds the values of a verb that has no other arguments, each after a blank.
fn push_verb_values(out: &mut Vec<u8>, loans: &LoanList, verb: &Verb) -> Made<()>
    ensures { Pushes (after_blanks (map (written_value (name_of loans.now)) (values_of verb.now))) out.old out.new result }
{
    match verb {
        Verb::Get { key } => push_one(out, loans, key),
        Verb::Set { key, value } => push_two(out, loans, key, value),
        Verb::Cast {
            format,
            shape: None,
        } => push_one(out, loans, format),
        Verb::Cast {
            format,
            shape: Some(shape),
        } => push_two(out, loans, format, shape),
        Verb::CastF { format, shape } => push_two(out, loans, format, shape),
        Verb::ToBytes { order: Some(order) } => push_one(out, loans, order),
        Verb::Range { from, to } => push_two(out, loans, from, to),
        Verb::SetState { state } => push_one(out, loans, state),
        Verb::Contains { value } => push_one(out, loans, value),
        Verb::Hex {
            sep: Some(sep),
            group: None,
        } => push_one(out, loans, sep),
        Verb::Hex {
            sep: Some(sep),
            group: Some(group),
        } => push_two(out, loans, sep, group),
        Verb::Del { key } => push_one(out, loans, key),
        Verb::Append { value } => push_one(out, loans, value),
        Verb::Extend { value } => push_one(out, loans, value),
        Verb::Insert { index, value } => push_two(out, loans, index, value),
        Verb::Pop { index: Some(index) } => push_one(out, loans, index),
        Verb::Remove { value } => push_one(out, loans, value),
        Verb::IAdd { value } => push_one(out, loans, value),
        Verb::IMul { count } => push_one(out, loans, count),
        _ => Ok(()),
    }
}

/// Adds the words after the subject, each after a blank.
fn push_arguments(out: &mut Vec<u8>, loans: &LoanList, verb: &Verb) -> Made<()>
    ensures { Pushes (after_blanks (written_arguments (name_of loans.now) verb.now)) out.old out.new result }
{
    match verb {
        Verb::Property { name } => push_word(out, property_text(*name)),
        Verb::Compare { op, other } => {
            push_word(out, operator_text(*op))?;
            push_one(out, loans, other)
        }
        Verb::Init { options } => push_options(out, loans, options),
        Verb::Call { method } => push_call(out, loans, method),
        _ => push_verb_values(out, loans, verb),
    }
}

/// Adds a command.
pub fn push_command(out: &mut Vec<u8>, command: &LocalCommand) -> Made<()>
    ensures { OnOk result (out.new.items ≡ out.old.items ++ command_text command.now) }
{
    out.extend_from_slice(verb_text(&command.verb).as_bytes())?;
    out.push(b' ')?;
    push_subject(out, command.subject)?;
    push_arguments(out, &command.loans, &command.verb)
}
