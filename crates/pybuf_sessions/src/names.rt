//! The names of lines of sessions.
ghost use Rattle.std.specs.Prelude.{◌≡◌, ◌^◌};
ghost use Rattle.std.specs.List.{list_all};
ghost use Rattle.std.specs.Char.{is_ascii_digit};
ghost use Rattle.pybuf_line.specs.Scalars.{is_number, number_below, handle_in};
ghost use Rattle.pybuf_sessions.specs.Names as spec;
ghost use Rattle.pybuf_sessions.specs.Pieces.{is_handle};

use pybuf_command::{Loan, Subject};

/// Whether each byte is a decimal digit.
fn all_digits(text: &[u8]) -> bool
    ensures { result ≡ list_all is_ascii_digit text.now }
{
    text.iter().all(|c| c.is_ascii_digit())
}

/// Whether a text is one or more decimal digits.
fn is_numeral(text: &[u8]) -> bool
    ensures { result ≡ is_number text.now }
{
    if text.is_empty() {
        return false;
    }
    all_digits(text)
}

/// The number that a text spells in decimal digits, where a machine word holds it.
pub fn number(text: &[u8]) -> Option<usize>
    ensures { result ≡ number_below (2 ^ 64) text.now }
{
    if !is_numeral(text) {
        return None;
    }
    match str::from_utf8(text) {
        Ok(text) => match text.parse::<usize>() {
            Ok(number) => Some(number),
            Err(_) => None,
        },
        Err(_) => None,
    }
}

/// The name of a view or of an iterator behind its letter.
fn counted(letter: u8, text: &[u8]) -> Option<usize>
    ensures { result ≡ spec.count_in letter text.now }
{
    match text {
        [first, digits @ ..] => {
            if *first == letter {
                number(digits)
            } else {
                None
            }
        }
        [] => None,
    }
}

/// What a text names.
pub fn name(text: &[u8]) -> Option<Subject>
    ensures { result ≡ spec.name_in text.now }
{
    if text == "own".as_bytes() {
        return Some(Subject::Own);
    }
    if let Some(k) = counted(b'm', text) {
        return Some(Subject::View(k));
    }
    if let Some(k) = counted(b'i', text) {
        return Some(Subject::Iter(k));
    }
    None
}

/// What a value of a name is lent as.
pub fn lent(named: Subject) -> Loan
    ensures { result ≡ spec.lent_as named }
{
    match named {
        Subject::Own => Loan::Own,
        Subject::View(k) => Loan::View(k),
        Subject::Iter(k) => Loan::Iter(k),
    }
}

/// Whether a piece is a handle.
pub fn is_handle(piece: &[u8]) -> bool
    ensures { result ≡ is_handle piece.now }
{
    counted(b'h', piece).is_some()
}
