//! What is asked of a handle. A function has a place of its own for each of its locals, and these are
//! filled with zeros when it begins; a command takes some 400 bytes. So there is a function for each
//! number of values that a verb may have, and for each other kind of arguments, which is not put into its
//! caller, and what picks one of them has no command of its own.
ghost use Rattle.std.specs.Prelude.{◌≡◌, ◌∷◌, [], map, None};
ghost use Rattle.pybuf_line.specs.Scalars.{handle_in};
ghost use Rattle.pybuf_line.specs.Commands.{asked, verb_alone, verb_by_values, property_asked, comparison_in, init_in, values_in, call_in, verb_in};
ghost use Rattle.pybuf_line.specs.Reading.{Reads};

use crate::methods::method_named;
use crate::options::options_of;
use crate::spellings::value;
use crate::unread::Unread;
use crate::words::{Word, operator_named, property_named};
use pybuf_command::{Command, MethodCall, Verb, takes};
use pybuf_value::ValueList;
use std::alloc::Global;

/// The answer to words that are no command.
#[inline(never)]
pub fn no_command() -> Result<Command, Unread>
    ensures { Reads result None }
{
    Err(Unread::NoCommand)
}

/// A verb by its word alone.
#[inline(never)]
fn alone(subject: u64, word: Word) -> Result<Command, Unread>
    ensures { Reads result (asked subject (verb_alone word)) }
{
    let verb = match word {
        Word::View => Verb::View,
        Word::ToBytes => Verb::ToBytes { order: None },
        Word::Release => Verb::Release,
        Word::Len => Verb::Len,
        Word::ToReadonly => Verb::ToReadonly,
        Word::Enter => Verb::Enter,
        Word::Exit => Verb::Exit,
        Word::ToContiguous => Verb::ToContiguous,
        Word::ToList => Verb::ToList,
        Word::Hash => Verb::Hash,
        Word::Repr => Verb::Repr,
        Word::Iter => Verb::Iter,
        Word::Next => Verb::Next,
        Word::LengthHint => Verb::LengthHint,
        Word::Hex => Verb::Hex {
            sep: None,
            group: None,
        },
        Word::Pop => Verb::Pop { index: None },
        Word::Clear => Verb::Clear,
        Word::Reverse => Verb::Reverse,
        Word::Take => Verb::Take,
        Word::Copy => Verb::Copy,
        _ => return Err(Unread::NoCommand),
    };
    Ok(Command::Do { subject, verb })
}

/// A verb by its word and its one value.
#[inline(never)]
fn of_one(alloc: Global, subject: u64, word: Word, first: &[u8]) -> Result<Command, Unread>
    ensures { Reads result (asked subject (verb_by_values handle_in word (first.now ∷ []))) }
{
    let first = value(alloc, first)?;
    let verb = match word {
        Word::Get => Verb::Get { key: first },
        Word::Cast => Verb::Cast {
            format: first,
            shape: None,
        },
        Word::ToBytes => Verb::ToBytes { order: Some(first) },
        Word::SetState => Verb::SetState { state: first },
        Word::Contains => Verb::Contains { value: first },
        Word::Hex => Verb::Hex {
            sep: Some(first),
            group: None,
        },
        Word::Del => Verb::Del { key: first },
        Word::Append => Verb::Append { value: first },
        Word::Extend => Verb::Extend { value: first },
        Word::Pop => Verb::Pop { index: Some(first) },
        Word::Remove => Verb::Remove { value: first },
        Word::IAdd => Verb::IAdd { value: first },
        Word::IMul => Verb::IMul { count: first },
        _ => {
            // The value is dropped by a call. If it ended with its scope, the drop would spell out all its variants.
            drop(first);
            return Err(Unread::NoCommand);
        }
    };
    Ok(Command::Do { subject, verb })
}

/// A verb by its word and its two values.
#[inline(never)]
fn of_two(
    alloc: Global,
    subject: u64,
    word: Word,
    first: &[u8],
    second: &[u8],
) -> Result<Command, Unread>
    ensures { Reads result (asked subject (verb_by_values handle_in word (first.now ∷ second.now ∷ []))) }
{
    let first = value(alloc, first)?;
    // What is dropped is handed over to a call, as in `of_one`.
    let second = match value(alloc, second) {
        Ok(second) => second,
        Err(unread) => {
            drop(first);
            return Err(unread);
        }
    };
    let verb = match word {
        Word::Set => Verb::Set {
            key: first,
            value: second,
        },
        Word::Cast => Verb::Cast {
            format: first,
            shape: Some(second),
        },
        Word::CastF => Verb::CastF {
            format: first,
            shape: second,
        },
        Word::Range => Verb::Range {
            from: first,
            to: second,
        },
        Word::Hex => Verb::Hex {
            sep: Some(first),
            group: Some(second),
        },
        Word::Insert => Verb::Insert {
            index: first,
            value: second,
        },
        _ => {
            drop(second);
            drop(first);
            return Err(Unread::NoCommand);
        }
    };
    Ok(Command::Do { subject, verb })
}

/// A property by its name.
#[inline(never)]
fn property_of(subject: u64, arguments: &[&[u8]]) -> Result<Command, Unread>
    ensures { Reads result (asked subject (property_asked (map (λ word. word.now) arguments.now))) }
{
    match arguments {
        [name] => match property_named(name) {
            Some(name) => Ok(Command::Do {
                subject,
                verb: Verb::Property { name },
            }),
            None => Err(Unread::NoCommand),
        },
        _ => Err(Unread::NoCommand),
    }
}

/// A comparison by its operator and the other side.
#[inline(never)]
fn comparison_of(alloc: Global, subject: u64, arguments: &[&[u8]]) -> Result<Command, Unread>
    ensures { Reads result (asked subject (comparison_in handle_in (map (λ word. word.now) arguments.now))) }
{
    match arguments {
        [operator, other] => match operator_named(operator) {
            Some(op) => {
                let other = value(alloc, other)?;
                Ok(Command::Do {
                    subject,
                    verb: Verb::Compare { op, other },
                })
            }
            None => Err(Unread::NoCommand),
        },
        _ => Err(Unread::NoCommand),
    }
}

/// New bytes by their options.
#[inline(never)]
fn init_of(alloc: Global, subject: u64, arguments: &[&[u8]]) -> Result<Command, Unread>
    ensures { Reads result (asked subject (init_in handle_in (map (λ word. word.now) arguments.now))) }
{
    let options = options_of(alloc, arguments)?;
    Ok(Command::Do {
        subject,
        verb: Verb::Init { options },
    })
}

/// The values that words spell, one each.
fn values_of(alloc: Global, words: &[&[u8]]) -> Result<ValueList, Unread>
    ensures { Reads result (values_in handle_in (map (λ word. word.now) words.now)) }
{
    let mut values = Vec::new(alloc);
    for word in words {
        let value = value(alloc, word)?;
        values.push(value)?;
    }
    Ok(ValueList::from_vec(values))
}

/// The call of a method, by its name and its arguments.
#[inline(never)]
fn call_of(alloc: Global, subject: u64, arguments: &[&[u8]]) -> Result<Command, Unread>
    ensures { Reads result (asked subject (call_in handle_in (map (λ word. word.now) arguments.now))) }
{
    let [name, arguments @ ..] = arguments else {
        return Err(Unread::NoCommand);
    };
    let Some(name) = method_named(name) else {
        return Err(Unread::NoCommand);
    };
    let args = values_of(alloc, arguments)?;
    if takes(name, args.as_slice().len()) {
        let method = MethodCall { name, args };
        Ok(Command::Do {
            subject,
            verb: Verb::Call { method },
        })
    } else {
        Err(Unread::NoCommand)
    }
}

/// A verb of values, by its word and the words of these.
fn by_values(
    alloc: Global,
    subject: u64,
    word: Word,
    arguments: &[&[u8]],
) -> Result<Command, Unread>
    ensures { Reads result (asked subject (verb_by_values handle_in word (map (λ word. word.now) arguments.now))) }
{
    match arguments {
        [] => alone(subject, word),
        [first] => of_one(alloc, subject, word, first),
        [first, second] => of_two(alloc, subject, word, first, second),
        _ => no_command(),
    }
}

/// What is asked of a handle, by a word and its arguments.
pub fn verb_of(
    alloc: Global,
    subject: u64,
    word: Word,
    arguments: &[&[u8]],
) -> Result<Command, Unread>
    ensures { Reads result (asked subject (verb_in handle_in word (map (λ word. word.now) arguments.now))) }
{
    match word {
        Word::Property => property_of(subject, arguments),
        Word::Compare => comparison_of(alloc, subject, arguments),
        Word::Init => init_of(alloc, subject, arguments),
        Word::Call => call_of(alloc, subject, arguments),
        _ => by_values(alloc, subject, word, arguments),
    }
}
