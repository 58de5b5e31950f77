//! The format of a descriptor's items, as it is kept. One of a known letter takes no memory of its own, since most
//! views have such a format and a view is made at each slice.
ghost use Rattle.std.specs.Prelude.{◌≡◌, [], ◌∷◌, codes, IfOk, IfSome};
ghost use Rattle.pybuf_desc.specs.KeptFormats.{code_of};

use crate::format_letter::FormatLetter;
use pybuf_value::{Made, Text, Twin};
use std::alloc::Global;
use std::marker::Model;

/// The format of an item, in the syntax of Python's `struct` module. A clause sees the list of its UTF-8 bytes.
/// Example: `KeptFormat::of(alloc, "<H")?` stands for a little-endian number of two bytes without a sign.
// A letter stands beside an empty text, and not in place of it. So there is one way to drop both.
#[derive(Debug, Drop)]
pub struct KeptFormat {
    letter: Option<FormatLetter>,
    text: Text,
}

impl Model for KeptFormat {
    ghost use Rattle.std.specs.Prelude.{ℕ, List};
    ghost use Rattle.pybuf_desc.specs.KeptFormats.{text_kept};

    ghost Value = { List ℕ };

    ghost view = { λ f. text_kept f.letter f.text };
}

/// The letter of a format of one known letter.
#[inline(always)]
fn single_letter(format: &[u8]) -> Option<FormatLetter>
    ensures { IfSome result (λ letter. code_of letter ∷ [] ≡ format.now) }
{
    match format {
        [code] => FormatLetter::of_code(*code),
        _ => None,
    }
}

impl KeptFormat {
    /// The format `B`, of bytes. Takes no memory.
    /// Example: `KeptFormat::of_bytes(alloc).as_str()` is `"B"`.
    #[inline(always)]
    pub fn of_bytes(alloc: Global) -> KeptFormat
        ensures { result ≡ codes "B" }
    {
        KeptFormat {
            letter: Some(FormatLetter::UnsignedChar),
            text: Text::new(alloc),
        }
    }

    /// The format of this text, which is copied. A known letter takes no memory.
    /// Example: `KeptFormat::of(alloc, "H")?.as_str()` is `"H"`.
    pub fn of(alloc: Global, text: &str) -> Made<KeptFormat>
        ensures { IfOk result (λ format. format ≡ text.now) }
    {
        if let Some(letter) = single_letter(text.as_bytes()) {
            return Ok(KeptFormat {
                letter: Some(letter),
                text: Text::new(alloc),
            });
        }
        let text = String::from_str(alloc, text)?;
        Ok(KeptFormat::from_text(Text::from_string(text)))
    }

    /// The format of this text. Takes no memory.
    /// Example: of the text `<H` its `as_str()` is `"<H"`.
    #[inline(always)]
    pub fn from_text(text: Text) -> KeptFormat
        ensures { result ≡ text }
    {
        KeptFormat { letter: None, text }
    }

    /// The text, lent as a `str`. Takes no memory.
    /// Example: of `KeptFormat::of(alloc, "<H")?` it is `"<H"`.
    pub fn as_str(&self) -> &str
        ensures { result.now ≡ self.now }
    {
        match self.letter {
            Some(letter) => letter.text(),
            None => self.text.as_str(),
        }
    }

    /// The UTF-8 bytes of the text, lent. Takes no memory.
    /// Example: of `KeptFormat::of(alloc, "<H")?` it is `b"<H"`.
    pub fn as_slice(&self) -> &[u8]
        ensures { result.now ≡ self.now }
    {
        match self.letter {
            Some(letter) => letter.text().as_bytes(),
            None => self.text.as_slice(),
        }
    }

    /// A copy of the text.
    /// Example: of `KeptFormat::of(alloc, "<H")?` it is the text `<H`.
    pub fn to_text(&self, alloc: Global) -> Made<Text>
        ensures { IfOk result (λ text. text ≡ self.now) }
    {
        Ok(Text::from_string(String::from_str(alloc, self.as_str())?))
    }
}

impl Twin for KeptFormat {
    #[inline(always)]
    fn copy(&self, alloc: Global) -> Made<KeptFormat> {
        match self.letter {
            Some(letter) => Ok(KeptFormat {
                letter: Some(letter),
                text: Text::new(alloc),
            }),
            None => Ok(KeptFormat::from_text(self.text.copy(alloc)?)),
        }
    }
}
