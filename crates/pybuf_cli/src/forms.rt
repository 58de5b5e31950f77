//! What the words after the program's name ask for.
ghost use Rattle.std.specs.Prelude.{◌≡◌, true, false, Some, IfOk, OnErr};
ghost use Rattle.pybuf_table_lines.specs.Listings.{listing_in};
ghost use Rattle.pybuf_nd_lines.specs.Selections.{selection_in};
ghost use Rattle.pybuf_cli.specs.declared.forms.Form.{Form};
ghost use Rattle.pybuf_cli.specs.Program.{script_number_in, array_code_in, tabled, selecting, form_of, take_memory, AskForData, alone};

use itoa::Buffer;
use pybuf_array::ArrayCode;
use pybuf_line::is_word;
use pybuf_nd_lines::{Selection, selection_of_words};
use pybuf_table_lines::{Listing, listing_of_words};
use pybuf_value::{Made, Text};
use std::alloc::Global;

/// What the program is asked to do.
///
/// Example: the words `make` and `16` ask for `Form::Make(16)`.
#[derive(Debug, Drop)]
pub enum Form {
    /// To run the commands of its input, a line each.
    /// Example: no word asks for it, and the one word `run` does too.
    Run,
    /// To let sessions carry out the lines of its input on one exporter.
    /// Example: the one word `share` asks for it.
    Share,
    /// To run the script of a number, from 1 to 4,096, and to tell of its run.
    /// Example: the words `make` and `16` ask for `Make(16)`.
    Make(u16),
    /// To carry out the operations of its input, a line each, on an array of a code.
    /// Example: the words `array` and `H` ask for `Array(ArrayCode::UShort)`.
    Array(ArrayCode),
    /// To write records of its input, a line each.
    /// Example: the words `table` and `<BH` ask for the records of the format `<BH`.
    Table(Listing),
    /// To write bytes of its input, which has a shape.
    /// Example: the words `nd`, `[2,3]` and `(None:None:-1,1:3:None)` ask for four bytes of six.
    Nd(Selection),
}

/// The greatest number of a script.
const MOST_ROUNDS: u16 = 4096;

/// The number of a script that a word writes in decimal digits, without a sign and without leading
/// zeros.
fn script_number(word: &Text) -> Option<u16>
    ensures { result ≡ script_number_in word.now }
{
    let Ok(number) = word.as_str().parse::<u16>() else {
        return None;
    };
    if number == 0 {
        return None;
    }
    if number > MOST_ROUNDS {
        return None;
    }
    // The number is written and compared with the word, since a sign and leading zeros are read too but never written.
    let mut buffer = Buffer::new();
    if is_word(word.as_slice(), buffer.format(number)) {
        return Some(number);
    }
    None
}

/// The code of an array that a word of one letter stands for.
fn array_code(word: &Text) -> Option<ArrayCode>
    ensures { result ≡ array_code_in word.now }
{
    match word.as_slice() {
        [letter] => ArrayCode::from_byte(*letter),
        _ => None,
    }
}

/// The records that the words behind `table` ask for.
fn table_named(alloc: Global, words: &[Text]) -> Made<Option<Form>>
    ensures { IfOk result (λ form. form ≡ tabled (listing_in words.now)) }
{
    match listing_of_words(alloc, words)? {
        Some(listing) => Ok(Some(Form::Table(listing))),
        None => Ok(None),
    }
}

/// The bytes that the words behind `nd` ask for.
fn nd_named(alloc: Global, words: &[Text]) -> Made<Option<Form>>
    ensures { IfOk result (λ form. form ≡ selecting (selection_in words.now)) }
{
    match selection_of_words(alloc, words)? {
        Some(selection) => Ok(Some(Form::Nd(selection))),
        None => Ok(None),
    }
}

/// What the words ask for: `None` exactly where they are none that the program knows. Memory is taken for the words behind
/// `table` and `nd` alone.
///
/// Example: of `make` and `16` it gives `Some(Form::Make(16))`, and of `make` and `0` it gives `None`.
pub fn form_named(alloc: Global, words: &[Text]) -> Made<Option<Form>>
    ensures form { IfOk result (λ form. form ≡ form_of words.now) }
    ensures memory { OnErr result (take_memory words.now ≡ true) }
    ensures data { OnErr result (AskForData (form_of words.now)) }
{
    match words {
        [] => Ok(Some(Form::Run)),
        [word] => {
            if is_word(word.as_slice(), "run") {
                return Ok(Some(Form::Run));
            }
            if is_word(word.as_slice(), "share") {
                return Ok(Some(Form::Share));
            }
            Ok(None)
        }
        [word, argument] => {
            if is_word(word.as_slice(), "make") {
                return match script_number(argument) {
                    Some(number) => Ok(Some(Form::Make(number))),
                    None => Ok(None),
                };
            }
            if is_word(word.as_slice(), "array") {
                return match array_code(argument) {
                    Some(code) => Ok(Some(Form::Array(code))),
                    None => Ok(None),
                };
            }
            if is_word(word.as_slice(), "table") {
                return table_named(alloc, &words[1..]);
            }
            Ok(None)
        }
        [word, arguments @ ..] => {
            if is_word(word.as_slice(), "table") {
                return table_named(alloc, arguments);
            }
            if is_word(word.as_slice(), "nd") {
                return nd_named(alloc, arguments);
            }
            Ok(None)
        }
    }
}

/// Whether the words ask for sessions, which need more than one thread.
pub(crate) fn is_shared(words: &[Text]) -> bool
    ensures shared { result ≡ true → form_of words.now ≡ Some Form.Share }
    ensures other { result ≡ false → alone (form_of words.now) ≡ form_of words.now }
{
    match words {
        [word] => is_word(word.as_slice(), "share"),
        _ => false,
    }
}
