//! A string of bytes by its letters, its blanks and its lines.
ghost use Rattle.std.specs.Prelude.{◌≡◌, IfOk};
ghost use Rattle.std.specs.Option.{option_copied};
ghost use Rattle.std.specs.Char.{is_ascii_alphabetic, is_ascii_alphanumeric, is_ascii_digit, is_ascii_lowercase, is_ascii_uppercase};
ghost use Rattle.pybuf_value.specs.Texts.{is_ascii};
ghost use Rattle.pybuf_letters.specs.Classes.{all_of, all_in_case, is_blank, is_title};
ghost use Rattle.pybuf_letters.specs.Cases as cases;
ghost use Rattle.pybuf_letters.specs.Strips.{goes, stripped, stripped_left, stripped_right};
ghost use Rattle.pybuf_letters.specs.Lines.{split_lines};

use crate::inner::PyBytesInner;
use pybuf_value::{ByteLists, Made};
use std::alloc::Global;

/// The arguments of `splitlines`: whether each line keeps its end.
///
/// Example: with `keepends` true, `splitlines` of `b"a\nb"` gives `b"a\n"` and `b"b"`.
#[derive(Clone, Copy, Debug)]
pub struct SplitLinesArgs {
    pub keepends: bool,
}

/// The bytes of a string that may not be given.
fn bytes_given(given: Option<&PyBytesInner>) -> Option<&[u8]>
    ensures { option_copied result ≡ option_copied given.entry }
{
    match given {
        Some(given) => Some(given.as_bytes()),
        None => None,
    }
}

impl PyBytesInner {
    /// Whether there are bytes and each is a letter or a digit of ASCII (Python's library reference,
    /// "Bytes and Bytearray Operations", as of each method of this file).
    ///
    /// Example: of `b"a1"` it is `true`, and of `b"a 1"` and `b""` it is `false`.
    pub fn isalnum(&self) -> bool
        ensures { result ≡ all_of is_ascii_alphanumeric self.now }
    {
        pybuf_letters::is_alnum(self.as_bytes())
    }

    /// Whether there are bytes and each is a letter of ASCII.
    ///
    /// Example: of `b"aB"` it is `true`, and of `b"a1"` it is `false`.
    pub fn isalpha(&self) -> bool
        ensures { result ≡ all_of is_ascii_alphabetic self.now }
    {
        pybuf_letters::is_alpha(self.as_bytes())
    }

    /// Whether each byte is below 128; it is true also where there is no byte.
    ///
    /// Example: of `b"a1"` and `b""` it is `true`, and of `b"\x80"` it is `false`.
    pub fn isascii(&self) -> bool
        ensures { result ≡ is_ascii self.now }
    {
        pybuf_value::is_ascii(self.as_bytes())
    }

    /// Whether there are bytes and each is a decimal digit of ASCII.
    ///
    /// Example: of `b"10"` it is `true`, and of `b"1.0"` it is `false`.
    pub fn isdigit(&self) -> bool
        ensures { result ≡ all_of is_ascii_digit self.now }
    {
        pybuf_letters::is_digit(self.as_bytes())
    }

    /// Whether some byte is a letter in lower case and none is one in upper case.
    ///
    /// Example: of `b"a1"` it is `true`, and of `b"aB"` and `b"1"` it is `false`.
    pub fn islower(&self) -> bool
        ensures { result ≡ all_in_case is_ascii_lowercase is_ascii_uppercase self.now }
    {
        pybuf_letters::is_lower(self.as_bytes())
    }

    /// Whether some byte is a letter in upper case and none is one in lower case.
    ///
    /// Example: of `b"A1"` it is `true`, and of `b"aB"` and `b"1"` it is `false`.
    pub fn isupper(&self) -> bool
        ensures { result ≡ all_in_case is_ascii_uppercase is_ascii_lowercase self.now }
    {
        pybuf_letters::is_upper(self.as_bytes())
    }

    /// Whether there are bytes and each is a blank: a space, `\t`, `\n`, `\r`, `\x0b` or `\x0c`.
    ///
    /// Example: of `b" \t"` it is `true`, and of `b""` it is `false`.
    pub fn isspace(&self) -> bool
        ensures { result ≡ all_of is_blank self.now }
    {
        pybuf_letters::is_space(self.as_bytes())
    }

    /// Whether there is a letter, each letter in upper case stands behind no other letter, and each
    /// letter in lower case stands behind a letter.
    ///
    /// Example: of `b"Ab Cd"` it is `true`, and of `b"Ab cd"` and `b"AB"` it is `false`.
    pub fn istitle(&self) -> bool
        ensures { result ≡ is_title self.now }
    {
        pybuf_letters::is_title(self.as_bytes())
    }

    /// The bytes with each letter in lower case.
    ///
    /// Example: of `b"aB1"` it gives `b"ab1"`.
    pub fn lower(&self, alloc: Global) -> Made<Vec<u8>>
        ensures { IfOk result (λ made. made.items ≡ cases.lower self.now) }
    {
        pybuf_letters::lower(alloc, self.as_bytes())
    }

    /// The bytes with each letter in upper case.
    ///
    /// Example: of `b"aB1"` it gives `b"AB1"`.
    pub fn upper(&self, alloc: Global) -> Made<Vec<u8>>
        ensures { IfOk result (λ made. made.items ≡ cases.upper self.now) }
    {
        pybuf_letters::upper(alloc, self.as_bytes())
    }

    /// The bytes with the first byte in upper case and the rest in lower case.
    ///
    /// Example: of `b"aB c"` it gives `b"Ab c"`.
    pub fn capitalize(&self, alloc: Global) -> Made<Vec<u8>>
        ensures { IfOk result (λ made. made.items ≡ cases.capitalize self.now) }
    {
        pybuf_letters::capitalize(alloc, self.as_bytes())
    }

    /// The bytes with each letter in the other case.
    ///
    /// Example: of `b"aB"` it gives `b"Ab"`.
    pub fn swapcase(&self, alloc: Global) -> Made<Vec<u8>>
        ensures { IfOk result (λ made. made.items ≡ cases.swapcase self.now) }
    {
        pybuf_letters::swapcase(alloc, self.as_bytes())
    }

    /// The bytes with each letter that stands behind no other letter in upper case, and with every
    /// other letter in lower case.
    ///
    /// Example: of `b"aB c1d"` it gives `b"Ab C1D"`.
    pub fn title(&self, alloc: Global) -> Made<Vec<u8>>
        ensures { IfOk result (λ made. made.items ≡ cases.title self.now) }
    {
        pybuf_letters::title(alloc, self.as_bytes())
    }

    /// The bytes without those at both ends that are among `chars`, or are blanks where no `chars` are
    /// given.
    ///
    /// Example: of `b" ab "` without `chars` it gives `b"ab"`, and so it does of `b"xaby"` where they are `b"yx"`.
    pub fn strip(&self, alloc: Global, chars: Option<&PyBytesInner>) -> Made<Vec<u8>>
        ensures { IfOk result (λ made. made.items ≡ stripped (goes (option_copied chars.entry)) self.now) }
    {
        let bytes = pybuf_letters::strip(self.as_bytes(), bytes_given(chars));
        Ok(Vec::from_slice(alloc, bytes)?)
    }

    /// The bytes from the first on that isn't among `chars`, or isn't a blank where no `chars` are
    /// given, lent.
    ///
    /// Example: of `b" ab "` without `chars` it is `b"ab "`.
    pub fn lstrip<'a>(&'a self, chars: Option<&PyBytesInner>) -> &'a [u8]
        ensures { result.now ≡ stripped_left (goes (option_copied chars.entry)) self.now }
    {
        pybuf_letters::strip_left(self.as_bytes(), bytes_given(chars))
    }

    /// The bytes up to the last that isn't among `chars`, or isn't a blank where no `chars` are given,
    /// lent.
    ///
    /// Example: of `b" ab "` without `chars` it is `b" ab"`.
    pub fn rstrip<'a>(&'a self, chars: Option<&PyBytesInner>) -> &'a [u8]
        ensures { result.now ≡ stripped_right (goes (option_copied chars.entry)) self.now }
    {
        pybuf_letters::strip_right(self.as_bytes(), bytes_given(chars))
    }

    /// The lines, each of which ends with `\n`, `\r` or `\r\n`; the last line may end without one. The
    /// ends are kept if the options say so. There is no empty line behind the last end.
    ///
    /// Example: of `b"a\n\nb\r\n"` without the ends it gives `b"a"`, `b""` and `b"b"`.
    pub fn splitlines(&self, alloc: Global, options: SplitLinesArgs) -> Made<ByteLists>
        ensures { IfOk result (λ lines. lines ≡ split_lines options.keepends self.now) }
    {
        pybuf_letters::split_lines(alloc, self.as_bytes(), options.keepends)
    }
}
