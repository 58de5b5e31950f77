//! The commands that lines spell.
ghost use Rattle.std.specs.Prelude.{map};
ghost use Rattle.pybuf_line.specs.Scalars.{handle_in};
ghost use Rattle.pybuf_line.specs.Commands.{new_in, command_in};
ghost use Rattle.pybuf_line.specs.Reading.{Reads};

use crate::options::options_of;
use crate::scalars::handle;
use crate::splitting::fill_words;
use crate::unread::Unread;
use crate::verbs::{no_command, verb_of};
use crate::words::{Word, first_word, kind_named};
use pybuf_command::Command;
use std::alloc::Global;

/// `new`, by the words after it.
#[inline(never)]
fn new_of(alloc: Global, rest: &[&[u8]]) -> Result<Command, Unread>
    ensures { Reads result (new_in handle_in (map (λ word. word.now) rest.now)) }
{
    match rest {
        [kind, arguments @ ..] => match kind_named(kind) {
            Some(kind) => {
                let options = options_of(alloc, arguments)?;
                Ok(Command::New { kind, options })
            }
            None => Err(Unread::NoCommand),
        },
        [] => Err(Unread::NoCommand),
    }
}

/// The one command that a line spells. The list of words is filled for the line, so that the lines of
/// an input share its memory.
///
/// It answers `NoCommand` where the line spells none, and `NoMemory` where memory runs out.
///
/// Example: of `b"len h0"` it gives `Command::Do` of `Verb::Len` with the subject 0.
#[tactic(auto, unfolding(crate::specs::Commands::command_in))]
pub fn command_of_line<'a>(
    alloc: Global,
    words: &mut Vec<&'a [u8]>,
    line: &'a [u8],
) -> Result<Command, Unread>
    ensures { Reads result (command_in handle_in line.now) }
{
    fill_words(words, line)?;
    match words.as_slice() {
        [first, rest @ ..] => match first_word(first) {
            None => no_command(),
            Some(Word::New) => new_of(alloc, rest),
            Some(word) => match rest {
                [subject, arguments @ ..] => match handle(subject) {
                    Some(subject) => verb_of(alloc, subject, word, arguments),
                    None => no_command(),
                },
                [] => no_command(),
            },
        },
        [] => no_command(),
    }
}

/// The one command that a line spells.
///
/// It answers `NoCommand` where the line spells none, and `NoMemory` where memory runs out.
///
/// Example: of `b"len h0"` it gives `Command::Do` of `Verb::Len` with the subject 0, and `b"len"` is no command.
pub fn command(alloc: Global, line: &[u8]) -> Result<Command, Unread>
    ensures { Reads result (command_in handle_in line.now) }
{
    let mut words = Vec::new(alloc);
    command_of_line(alloc, &mut words, line)
}
