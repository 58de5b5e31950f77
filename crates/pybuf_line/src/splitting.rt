//! Texts cut into lines, and lines into words.
ghost use Rattle.std.specs.Prelude.{◌≡◌, ◌==◌, ◌∷◌, [], ◌&&◌, not, IfOk, OnOk, MatchOption, map};
ghost use Rattle.std.specs.Str.{byte};
ghost use Rattle.pybuf_line.specs.Parts.{parts_outside_quotes};
ghost use Rattle.pybuf_line.specs.Words.{words};
ghost use Rattle.pybuf_line.specs.Lines.{lines};

use bstr::ByteSlice;
use std::alloc::{AllocError, Global};

/// The first line of an input, and what is left behind it. An input that is empty has none.
///
/// Example: of `b"len h0\nview h0\n"` it is `Some((b"len h0", b"view h0\n"))`.
pub fn next_line<'a>(rest: &'a [u8]) -> Option<(&'a [u8], &'a [u8])>
    ensures { MatchOption result (lines rest.now ≡ []) (λ cut. lines rest.now ≡ cut.0.now ∷ lines cut.1.now) }
{
    if rest.is_empty() {
        return None;
    }
    match rest.find_byte(b'\n') {
        Some(at) => Some((&rest[..at], &rest[at + 1..])),
        None => Some((rest, &rest[rest.len()..])),
    }
}

/// Fills a list with the words of a line, which have one blank between them. What the list held before
/// goes.
///
/// It fails only where memory runs out, and then the list may hold a part of the words.
///
/// Example: of `b"get h0 1"` the list is then `b"get"`, `b"h0"`, `b"1"`.
pub fn fill_words<'a>(found: &mut Vec<&'a [u8]>, line: &'a [u8]) -> Result<(), AllocError>
    ensures { OnOk result (map (λ word. word.now) found.new.items ≡ words line.now) }
{
    found.clear();
    let mut start = 0;
    for (i, b) in line.iter().enumerate() {
        if *b == b' ' {
            found.push(&line[start..i])?;
            start = i + 1;
        }
    }
    found.push(&line[start..])?;
    Ok(())
}

/// Whether a part ends at a byte.
fn ends_part(b: u8, quoted: bool) -> bool
    ensures { result ≡ (b == byte "," && not quoted) }
{
    b == b',' && !quoted
}

/// The parts of a text between its commas, but for those between quotes.
pub fn parts_outside(alloc: Global, text: &[u8]) -> Result<Vec<&[u8]>, AllocError>
    ensures { IfOk result (λ parts. map (λ part. part.now) parts.items ≡ parts_outside_quotes text.now) }
{
    let mut parts = Vec::new(alloc);
    let mut start = 0;
    let mut quoted = false;
    for (i, b) in text.iter().enumerate() {
        if *b == b'\'' {
            quoted = !quoted;
        } else if ends_part(*b, quoted) {
            parts.push(&text[start..i])?;
            start = i + 1;
        }
    }
    parts.push(&text[start..])?;
    Ok(parts)
}
