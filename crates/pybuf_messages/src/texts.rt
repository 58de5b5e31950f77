//! Parts of messages: bytes between quotes, counts, and the name that was meant.
use pybuf_line::push_decimal;
use pybuf_value::{Made, push_quoted};

/// So many bytes of a line or of a word are shown at most.
const SHOWN: usize = 60;

/// Adds the first bytes of a text between quotes, as replies write them, and dots where there are more.
pub(crate) fn push_shown(out: &mut Vec<u8>, text: &[u8]) -> Made<()> {
    push_quoted(out, &text[..text.len().min(SHOWN)])?;
    if text.len() > SHOWN {
        return push_text(out, b"..");
    }
    Ok(())
}

/// Adds a text.
pub(crate) fn push_text(out: &mut Vec<u8>, text: &[u8]) -> Made<()> {
    out.extend_from_slice(text)?;
    Ok(())
}

/// Adds bytes between quotes, and then a text.
pub(crate) fn push_shown_text(out: &mut Vec<u8>, shown: &[u8], text: &[u8]) -> Made<()> {
    push_shown(out, shown)?;
    push_text(out, text)
}

/// Adds a text, and then a number.
pub(crate) fn push_text_number(out: &mut Vec<u8>, text: &[u8], number: usize) -> Made<()> {
    push_text(out, text)?;
    push_decimal(out, number as u64)
}

/// Adds a number with what is counted, whose name gets an `s` where there isn't one of it.
pub(crate) fn push_count(out: &mut Vec<u8>, count: usize, what: &[u8]) -> Made<()> {
    push_decimal(out, count as u64)?;
    out.push(b' ')?;
    push_text(out, what)?;
    if count != 1 {
        return push_text(out, b"s");
    }
    Ok(())
}

/// Adds the name that was meant, where one is near.
pub(crate) fn push_near(out: &mut Vec<u8>, near: Option<&'static str>) -> Made<()> {
    if let Some(name) = near {
        push_text(out, b"; did you mean `")?;
        push_text(out, name.as_bytes())?;
        return push_text(out, b"`?");
    }
    Ok(())
}
