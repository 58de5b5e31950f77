//! Which of the words behind the program's name is at fault, and the forms that there are.
use crate::names::{forms, is_first_of, is_one_of, operators};
use crate::nearest::nearest_first;
use crate::texts::{push_near, push_shown_text, push_text};
use pybuf_line::{is_word, word_number};
use pybuf_nd_lines::selection_of_words;
use pybuf_table_lines::listing_of_words;
use pybuf_value::{Made, Text};
use std::alloc::Global;

/// Adds how a form of words is written, with its input where it reads one.
fn push_form(out: &mut Vec<u8>, name: &'static str, written: &'static str) -> Made<()> {
    push_text(out, b"       pybuf ")?;
    push_text(out, written.as_bytes())?;
    if name != "make" {
        push_text(out, b" < input")?;
    }
    push_text(out, b"\n")
}

/// Adds all forms of words, a line each.
fn push_forms(out: &mut Vec<u8>) -> Made<()> {
    push_text(out, b"usage: pybuf [run] < input\n")?;
    for (name, written) in forms() {
        if name != "run" {
            push_form(out, name, written)?;
        }
    }
    Ok(())
}

/// Adds a word and what is wrong with it.
fn push_word(out: &mut Vec<u8>, word: &Text, what: &[u8]) -> Made<()> {
    push_shown_text(out, word.as_slice(), what)
}

/// Adds a name between back quotes, behind what stands before it.
fn push_name(out: &mut Vec<u8>, before: &[u8], name: &'static str) -> Made<()> {
    push_text(out, before)?;
    push_text(out, name.as_bytes())?;
    push_text(out, b"`")
}

/// Adds two names or more between back quotes, with commas and, before the last, with `and`.
fn push_names(out: &mut Vec<u8>, names: &[&'static str]) -> Made<()> {
    let [first, middle @ .., last] = names else {
        return Ok(());
    };
    push_name(out, b"`", first)?;
    for name in middle {
        push_name(out, b", `", name)?;
    }
    push_name(out, b" and `", last)
}

/// Adds that a form takes other words behind it.
fn push_taken(out: &mut Vec<u8>, form: &'static str, taken: &[u8]) -> Made<()> {
    push_text(out, b"`")?;
    push_text(out, form.as_bytes())?;
    push_text(out, b"` takes ")?;
    push_text(out, taken)
}

/// Adds which of the words behind `table` is wrong.
fn push_table_fault(alloc: Global, out: &mut Vec<u8>, words: &[Text]) -> Made<()> {
    match words {
        [format, rest @ ..] => {
            if listing_of_words(alloc, &words[..1])?.is_none() {
                return push_word(
                    out,
                    format,
                    b" is no format of records that have a byte or more",
                );
            }
            match rest {
                [field, operator, _] => {
                    if word_number(field.as_slice()).is_none() {
                        return push_word(
                            out,
                            field,
                            b" is no number of a field, which are counted from 0",
                        );
                    }
                    if is_one_of(operator.as_slice(), &operators()) {
                        return push_text(
                            out,
                            b"the format has no such field, no order is asked of bytes, or the last word is no whole number",
                        );
                    }
                    push_shown_text(out, operator.as_slice(), b" is none of ")?;
                    push_names(out, &operators())
                }
                _ => push_taken(
                    out,
                    "table",
                    b"a format, and then the number of a field, an operator and a whole number, or nothing",
                ),
            }
        }
        [] => push_taken(out, "table", b"a format behind it"),
    }
}

/// Adds which of the words behind `nd` is wrong.
fn push_nd_fault(alloc: Global, out: &mut Vec<u8>, words: &[Text]) -> Made<()> {
    match words {
        [_, _] => push_shape_fault(out, words),
        [_, _, turn] => {
            if selection_of_words(alloc, &words[..2])?.is_some() {
                return push_word(out, turn, b" is not `T`, which transposes");
            }
            push_shape_fault(out, words)
        }
        _ => push_taken(
            out,
            "nd",
            b"a shape and a tuple of slices, and then `T` or nothing",
        ),
    }
}

/// Adds that the first two words behind `nd` are wrong.
fn push_shape_fault(out: &mut Vec<u8>, words: &[Text]) -> Made<()> {
    match words {
        [shape, key, ..] => {
            push_shown_text(out, shape.as_slice(), b" and ")?;
            push_shown_text(
                out,
                key.as_slice(),
                b" are no shape, as `[2,3]`, with a tuple of as many slices, as `(0:1:1,None:None:2)`",
            )
        }
        _ => Ok(()),
    }
}

/// Adds which of the words behind the first is wrong.
fn push_argument_fault(alloc: Global, out: &mut Vec<u8>, form: &Text, words: &[Text]) -> Made<()> {
    if is_word(form.as_slice(), "table") {
        return push_table_fault(alloc, out, words);
    }
    if is_word(form.as_slice(), "nd") {
        return push_nd_fault(alloc, out, words);
    }
    if is_word(form.as_slice(), "make") {
        return match words {
            [number] => push_word(
                out,
                number,
                b" is no number from 1 to 4096 in decimal digits, without leading zeros",
            ),
            _ => push_taken(out, "make", b"one number behind it"),
        };
    }
    if is_word(form.as_slice(), "array") {
        return match words {
            [code] => push_word(
                out,
                code,
                b" is no code of an array, which are b, B, h, H, i, I, l, L, q and Q",
            ),
            _ => push_taken(out, "array", b"one code behind it"),
        };
    }
    push_shown_text(out, form.as_slice(), b" takes no word behind it")
}

/// Adds that the first word is no form, or which of those behind it is wrong.
fn push_form_fault(alloc: Global, out: &mut Vec<u8>, form: &Text, words: &[Text]) -> Made<()> {
    if is_first_of(form.as_slice(), &forms()) {
        return push_argument_fault(alloc, out, form, words);
    }
    push_shown_text(out, form.as_slice(), b" is no form of words")?;
    push_near(out, nearest_first(alloc, form.as_slice(), &forms())?)
}

/// Adds which of the words of the program is wrong, and the forms that there are.
///
/// Example: of the one word `shar` it adds that it is no form of words and that `share` may be meant, and then the forms.
pub fn push_wrong_word(alloc: Global, out: &mut Vec<u8>, words: &[Text]) -> Made<()> {
    match words {
        [form, rest @ ..] => push_form_fault(alloc, out, form, rest)?,
        [] => push_text(out, b"a word is no UTF-8")?,
    }
    push_text(out, b"\n")?;
    push_forms(out)
}
