//! The arguments of a line of a session, with handles in place of its names.
ghost use Rattle.std.specs.Prelude.{◌≡◌, ◌++◌, ◌∷◌, [], ◌&&◌, not, length, OnOk};
ghost use Rattle.pybuf_value.specs.Spelling.{handle_text};
ghost use Rattle.pybuf_sessions.specs.Names.{lent_as};
ghost use Rattle.pybuf_sessions.specs.Pieces as spec;
ghost use Rattle.pybuf_sessions.specs.Putting.{Puts, PutsAll};

use crate::names::{is_handle, lent, name};
use pybuf_command::{LoanList, Subject};
use pybuf_line::Unread;
use pybuf_value::{Made, NoMemory, push_handle};
use std::alloc::Global;

/// Whether a byte stands between words, or between the parts of values.
fn is_mark(b: u8) -> bool
    ensures { result ≡ spec.is_mark b }
{
    match b {
        b' ' | b'(' | b')' | b',' | b':' | b'[' | b']' => true,
        _ => false,
    }
}

/// Whether a piece ends at a byte.
fn ends_piece(b: u8, quoted: bool) -> bool
    ensures { result ≡ (spec.is_mark b && not quoted) }
{
    is_mark(b) && !quoted
}

/// Takes room for one loan where there is none: most commands have no more, and a list that grows has room for four.
fn take_room(alloc: Global, loans: &mut LoanList) -> Made<()>
    ensures { OnOk result (loans.new ≡ loans.old) }
{
    if loans.is_empty() {
        let room = Vec::with_capacity(alloc, 1)?;
        *loans = LoanList::from_vec(room);
    }
    Ok(())
}

/// Adds a handle in place of a name, and what it is lent as.
fn push_named(alloc: Global, text: &mut Vec<u8>, loans: &mut LoanList, named: Subject) -> Made<()>
    ensures text { OnOk result (text.new.items ≡ text.old.items ++ handle_text (length loans.old)) }
    ensures loans { OnOk result (loans.new ≡ loans.old ++ (length loans.old, lent_as named) ∷ []) }
{
    take_room(alloc, loans)?;
    let handle = loans.len() as u64;
    push_handle(text, handle)?;
    loans.push((handle, lent(named)))
}

/// Adds a piece, or a handle in its place. A handle is no name in a session.
fn push_piece(
    alloc: Global,
    text: &mut Vec<u8>,
    loans: &mut LoanList,
    piece: &[u8],
) -> Result<(), Unread>
    ensures { Puts result piece.now text.old.items loans.old text.new.items loans.new }
{
    if is_handle(piece) {
        return Err(Unread::NoCommand);
    }
    match name(piece) {
        Some(named) => match push_named(alloc, text, loans, named) {
            Ok(()) => Ok(()),
            Err(NoMemory) => Err(Unread::NoMemory),
        },
        None => {
            text.extend_from_slice(piece)?;
            Ok(())
        }
    }
}

/// Adds what stands behind the subject of a line, with handles in place of its names, and what these are lent as.
pub fn push_rest(
    alloc: Global,
    text: &mut Vec<u8>,
    loans: &mut LoanList,
    rest: &[u8],
) -> Result<(), Unread>
    ensures { PutsAll result (spec.pieces rest.now) text.old.items loans.old text.new.items loans.new }
{
    let mut start = 0;
    let mut quoted = false;
    for (i, b) in rest.iter().enumerate() {
        if *b == b'\'' {
            quoted = !quoted;
        } else if ends_piece(*b, quoted) {
            push_piece(alloc, text, loans, &rest[start..i])?;
            text.push(*b)?;
            start = i + 1;
        }
    }
    push_piece(alloc, text, loans, &rest[start..])
}
