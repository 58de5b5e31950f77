//! The format of one field of a record.
ghost use Rattle.std.specs.Prelude.{◌≡◌, ◌++◌, ◌<◌, [], ◌∷◌, IfOk, OnOk};
ghost use Rattle.std.specs.Option.{option_to_list};
ghost use Rattle.std.specs.String.{string_bytes};
ghost use Rattle.std.specs.Fmt.{decimal};
ghost use Rattle.pybuf_struct.specs.Table.{letter};
ghost use Rattle.pybuf_table.specs.FieldTexts.{prefix_text, code_text, field_text};

use crate::field_place::FieldPlace;
use itoa::Buffer;
use pybuf_struct::FormatType;
use pybuf_value::{Made, Text};
use std::alloc::Global;

/// The prefix of a format's text, if it has one.
fn prefix_of(text: &[u8]) -> Option<char>
    ensures { option_to_list result ≡ prefix_text text.now }
{
    match text {
        [b'@', ..] => Some('@'),
        [b'=', ..] => Some('='),
        [b'<', ..] => Some('<'),
        [b'>', ..] => Some('>'),
        [b'!', ..] => Some('!'),
        _ => None,
    }
}

/// The character that spells a code.
fn letter_of(code: FormatType) -> char
    ensures value { result ≡ letter code }
    ensures ascii { result < 128 }
{
    match code {
        FormatType::Pad => 'x',
        FormatType::SByte => 'b',
        FormatType::UByte => 'B',
        FormatType::Char => 'c',
        FormatType::Bool => '?',
        FormatType::Short => 'h',
        FormatType::UShort => 'H',
        FormatType::Int => 'i',
        FormatType::UInt => 'I',
        FormatType::Long => 'l',
        FormatType::ULong => 'L',
        FormatType::LongLong => 'q',
        FormatType::ULongLong => 'Q',
        FormatType::SSizeT => 'n',
        FormatType::SizeT => 'N',
        FormatType::WideChar => 'u',
        FormatType::Str => 's',
        FormatType::Pascal => 'p',
    }
}

/// A text with the prefix of a format's text.
fn with_prefix(alloc: Global, text: &[u8]) -> Made<String>
    ensures { IfOk result (λ made. string_bytes made ≡ prefix_text text.now) }
{
    let mut made = String::new(alloc);
    match prefix_of(text) {
        Some(prefix) => {
            made.push(prefix)?;
            Ok(made)
        }
        None => Ok(made),
    }
}

/// Adds the length of a field of `s` or `p`.
fn push_length(text: &mut String, length: usize) -> Made<()>
    ensures { OnOk result (string_bytes text.new ≡ string_bytes text.old ++ decimal length) }
{
    let mut buffer = Buffer::new();
    text.push_str(buffer.format(length))?;
    Ok(())
}

/// Adds the code of a field.
fn push_code(text: &mut String, place: FieldPlace) -> Made<()>
    ensures { OnOk result (string_bytes text.new ≡ string_bytes text.old ++ code_text place.code place.length) }
{
    match place.code {
        FormatType::Str | FormatType::Pascal => {
            push_length(text, place.length)?;
            text.push(letter_of(place.code))?;
            Ok(())
        }
        _ => {
            text.push(letter_of(place.code))?;
            Ok(())
        }
    }
}

/// The format of a field of records whose format has this text.
pub(crate) fn field_text(alloc: Global, text: &[u8], place: FieldPlace) -> Made<Text>
    ensures { IfOk result (λ made. made ≡ field_text text.now place) }
{
    let mut made = with_prefix(alloc, text)?;
    push_code(&mut made, place)?;
    Ok(Text::from_string(made))
}
