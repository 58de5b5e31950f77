//! Text, which contracts see as the list of its UTF-8 bytes.
ghost use Rattle.std.specs.Prelude.{◌≡◌, ◌==◌, ◌<◌, ◌^◌, ◌++◌, List, [], ℕ, length, IfOk, OnOk, OnErr, encode_utf8};
ghost use Rattle.std.specs.String.{string_bytes};
ghost use Rattle.std.specs.Str.{IsUtf8, bytes_eq};
ghost use Rattle.std.specs.Cmp.{partial_equiv_from_equiv};
ghost use Rattle.std.specs.Cmp.Lexicographic.{nat_list_eq_equiv};

use pybuf_copy::{Exact, Made, Twin};
use std::alloc::Global;
use std::marker::Model;

/// A text. A clause sees the list of its UTF-8 bytes.
///
/// Example: `Text::from_str(alloc, "é")` gives a text of two bytes.
#[derive(Debug, Drop)]
pub struct Text {
    text: String,
}

impl Model for Text {
    ghost Value = { List ℕ };

    ghost view = { λ t. string_bytes t.text };
}

impl Text {
    /// The empty text. Takes no memory.
    ///
    /// Example: `Text::new(alloc).len()` is 0.
    pub fn new(alloc: Global) -> Text
        ensures { result ≡ [] }
    {
        Text {
            text: String::new(alloc),
        }
    }

    /// A copy of the text.
    ///
    /// Example: `Text::from_str(alloc, "H")` gives the text `H`.
    pub fn from_str(alloc: Global, text: &str) -> Made<Text>
        ensures { IfOk result (λ t. t ≡ text.now) }
    {
        Ok(Text {
            text: String::from_str(alloc, text)?,
        })
    }

    /// The number of bytes, at most `isize::MAX`.
    ///
    /// Example: of the text `é` it is 2.
    pub fn len(&self) -> usize
        ensures value { result ≡ length self.now }
        ensures small { result < 2 ^ 63 }
    {
        self.text.len()
    }

    /// Whether the text is empty.
    ///
    /// Example: of the text `H` it is `false`.
    pub fn is_empty(&self) -> bool
        ensures { result ≡ (length self.now == 0) }
    {
        self.text.len() == 0
    }

    /// The UTF-8 bytes, lent.
    ///
    /// Example: of the text `é` it is `b"\xc3\xa9"`.
    pub fn as_slice(&self) -> &[u8]
        ensures { result.now ≡ self.now }
    {
        self.text.as_bytes()
    }

    /// The text, lent as a `str`.
    ///
    /// Example: of the text `H` it is `"H"`.
    pub fn as_str(&self) -> &str
        ensures { result.now ≡ self.now }
    {
        self.text.as_str()
    }

    /// Adds a character at the end. Where memory runs out, the text is as before.
    ///
    /// Example: with `'é'` the text `H` becomes `Hé`.
    pub fn push(&mut self, c: char) -> Made<()>
        ensures ok { OnOk result (self.new ≡ self.old ++ encode_utf8 c) }
        ensures err { OnErr result (self.new ≡ self.old) }
    {
        self.text.push(c)?;
        Ok(())
    }

    /// The text of a string. Takes no memory.
    ///
    /// Example: of the string `H` it is the text `H`.
    pub fn from_string(text: String) -> Text
        ensures { result ≡ string_bytes text }
    {
        Text { text }
    }

    /// The text of these bytes of UTF-8. Takes no memory, and reads none of the bytes.
    ///
    /// Example: of the vector of 195 and 169 it is the text `é`.
    pub fn from_utf8(bytes: Vec<u8>) -> Text
        requires { IsUtf8 bytes.items }
        ensures { result ≡ bytes.items }
    {
        Text {
            text: unsafe { String::from_utf8_unchecked(bytes) },
        }
    }

    /// The string of the text. Takes no memory.
    ///
    /// Example: of the text `H` it is the string `H`.
    pub fn into_string(self) -> String
        ensures { string_bytes result ≡ self }
    {
        let Text { text } = self;
        text
    }
}

impl PartialEq for Text {
    ghost eq = { bytes_eq };

    ghost laws = { partial_equiv_from_equiv nat_list_eq_equiv };

    fn eq(&self, other: &Text) -> bool {
        self.text.as_bytes() == other.text.as_bytes()
    }
}

impl Twin for Text {
    fn copy(&self, alloc: Global) -> Made<Text> {
        Ok(Text {
            text: String::from_str(alloc, self.text.as_str())?,
        })
    }
}

impl Exact for Text {
    ghost exact = { λ x y e. e };
}
