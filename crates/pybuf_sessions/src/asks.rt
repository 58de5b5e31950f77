//! What a line asks of a session.
ghost use Rattle.std.specs.Prelude.{◌≡◌, ◌∷◌, ◌++◌, [], Some, MatchOption, OnOk};
ghost use Rattle.std.specs.Str.{byte};
ghost use Rattle.pybuf_value.specs.Spelling.{handle_text};
ghost use Rattle.pybuf_line.specs.Words.{words};
ghost use Rattle.pybuf_line.specs.Scalars.{handle_in};
ghost use Rattle.pybuf_line.specs.Commands.{command_in};
ghost use Rattle.pybuf_line.specs.Reading.{Reads};
ghost use Rattle.pybuf_sessions.specs.Asks.{session_in, local_of, local_command_in, ask_in, IsFront};

use crate::names::{name, number};
use crate::pieces::push_rest;
use bstr::ByteSlice;
use pybuf_command::{Command, LoanList, LocalCommand, Subject};
use pybuf_line::{Unread, command};
use pybuf_value::{Made, push_handle};
use std::alloc::Global;

/// A command that a line asks of a session, with the number of that session.
///
/// Example: the line `0 append own 99` asks session 0 for `Verb::Append` of `Subject::Own`.
#[derive(Debug, Drop)]
pub struct Ask {
    pub session: usize,
    pub command: LocalCommand,
}

/// One more than the greatest number of a session.
const MOST_SESSIONS: usize = 16;

/// The session's number that a text spells.
fn session(text: &[u8]) -> Option<usize>
    ensures { result ≡ session_in text.now }
{
    if text.len() > 2 {
        return None;
    }
    match number(text) {
        Some(number) => {
            if number < MOST_SESSIONS {
                Some(number)
            } else {
                None
            }
        }
        None => None,
    }
}

/// What stands before the first blank, and what after it.
fn around_blank(text: &[u8]) -> Option<(&[u8], &[u8])>
    ensures { MatchOption result (words text.now ≡ text.now ∷ []) (λ halves. words text.now ≡ halves.0.now ∷ words halves.1.now) }
{
    match text.find_byte(b' ') {
        Some(at) => Some((&text[..at], &text[at + 1..])),
        None => None,
    }
}

/// The first word of a text, and what stands behind it: nothing, or further words with a blank before each.
fn front(text: &[u8]) -> (&[u8], &[u8])
    ensures { IsFront text.now result.0.now result.1.now }
{
    match text.find_byte(b' ') {
        Some(at) => (&text[..at], &text[at..]),
        None => (text, &text[text.len()..]),
    }
}

/// The command of a subject that a command of a handle is.
fn local(subject: Subject, loans: LoanList, asked: Command) -> Result<LocalCommand, Unread>
    ensures { Reads result (local_of subject loans (Some asked)) }
{
    match asked {
        Command::Do { subject: _, verb } => Ok(LocalCommand {
            subject,
            verb,
            loans,
        }),
        other => {
            other.let_go();
            Err(Unread::NoCommand)
        }
    }
}

/// Puts a word and a handle for its subject in place of a text.
fn begin(text: &mut Vec<u8>, word: &[u8]) -> Made<()>
    ensures { OnOk result (text.new.items ≡ word.now ++ byte " " ∷ handle_text 0) }
{
    text.clear();
    text.extend_from_slice(word)?;
    text.push(b' ')?;
    push_handle(text, 0)
}

/// A command by its subject, its word and what stands behind the subject. The text with handles in place of names is
/// written into the room that is handed over; what it held goes.
fn local_command(
    alloc: Global,
    text: &mut Vec<u8>,
    subject: Subject,
    word: &[u8],
    rest: &[u8],
) -> Result<LocalCommand, Unread>
    ensures { Reads result (local_command_in subject word.now rest.now) }
{
    let Ok(()) = begin(text, word) else {
        return Err(Unread::NoMemory);
    };
    let mut loans = LoanList::new(alloc);
    push_rest(alloc, text, &mut loans, rest)?;
    let asked = command(alloc, text.as_slice())?;
    local(subject, loans, asked)
}

/// What the one line asks. The room of the text is shared by the lines of an input.
#[tactic(auto, unfolding(crate::specs::Asks::ask_in))]
pub fn ask_of_line(alloc: Global, text: &mut Vec<u8>, line: &[u8]) -> Result<Ask, Unread>
    ensures { Reads result (ask_in line.now) }
{
    let Some((number, line)) = around_blank(line) else {
        return Err(Unread::NoCommand);
    };
    let Some((word, line)) = around_blank(line) else {
        return Err(Unread::NoCommand);
    };
    let (subject, rest) = front(line);
    let Some(session) = session(number) else {
        return Err(Unread::NoCommand);
    };
    let Some(subject) = name(subject) else {
        return Err(Unread::NoCommand);
    };
    let command = local_command(alloc, text, subject, word, rest)?;
    Ok(Ask { session, command })
}
