//! Bytes without those at their ends that a set holds.
ghost use Rattle.std.specs.Prelude.{◌≡◌, ℕ, Some};
ghost use Rattle.std.specs.Option.{option_copied};
ghost use Rattle.bstr.specs.Bytes.{is_in};
ghost use Rattle.pybuf_letters.specs.Classes.{is_blank};
ghost use Rattle.pybuf_letters.specs.Strips as spec;

use bstr::ByteSlice;
use pybuf_lanes::{leading_blanks, trailing_blanks};

/// How many bytes lanes look at in one step.
const LANES: usize = 16;

/// The six blanks.
pub(crate) fn blanks() -> &'static [u8]
    ensures { (b : ℕ) → is_in result.now b ≡ is_blank b }
{
    b" \t\n\x0b\x0c\r"
}

/// The bytes from the first on that isn't among `chars`.
fn from_first_other<'a>(bytes: &'a [u8], chars: &[u8]) -> &'a [u8]
    ensures { result.now ≡ spec.stripped_left (spec.goes (Some chars.now)) bytes.now }
{
    match bytes.find_not_byteset(chars) {
        None => &bytes[bytes.len()..],
        Some(start) => &bytes[start..],
    }
}

/// The bytes up to the last that isn't among `chars`.
fn up_to_last_other<'a>(bytes: &'a [u8], chars: &[u8]) -> &'a [u8]
    ensures { result.now ≡ spec.stripped_right (spec.goes (Some chars.now)) bytes.now }
{
    match bytes.rfind_not_byteset(chars) {
        None => &bytes[..0],
        Some(last) => &bytes[..last + 1],
    }
}

/// The bytes from the first on that isn't a blank, byte by byte: of a few bytes this takes less time than lanes.
fn from_first_unblank(bytes: &[u8]) -> &[u8]
    ensures { result.now ≡ spec.stripped_left is_blank bytes.now }
{
    match bytes.find_not_byteset(blanks()) {
        None => &bytes[bytes.len()..],
        Some(start) => &bytes[start..],
    }
}

/// The bytes up to the last that isn't a blank, byte by byte.
fn up_to_last_unblank(bytes: &[u8]) -> &[u8]
    ensures { result.now ≡ spec.stripped_right is_blank bytes.now }
{
    match bytes.rfind_not_byteset(blanks()) {
        None => &bytes[..0],
        Some(last) => &bytes[..last + 1],
    }
}

/// The bytes from the first on that isn't among `chars`, or that isn't a blank where no `chars` are
/// given, as of Python's `bytes.lstrip` (Library reference, "Bytes and Bytearray Operations"). They are
/// lent.
///
/// Example: `strip_left(b" ab ", None)` is `b"ab "`.
pub fn strip_left<'a>(bytes: &'a [u8], chars: Option<&[u8]>) -> &'a [u8]
    ensures { result.now ≡ spec.stripped_left (spec.goes (option_copied chars.entry)) bytes.now }
{
    match chars {
        None if bytes.len() < LANES => from_first_unblank(bytes),
        None => &bytes[leading_blanks(bytes)..],
        Some(chars) => from_first_other(bytes, chars),
    }
}

/// The bytes up to the last that isn't among `chars`, or that isn't a blank where no `chars` are given,
/// as of Python's `bytes.rstrip`. They are lent.
///
/// Example: `strip_right(b" ab ", None)` is `b" ab"`.
pub fn strip_right<'a>(bytes: &'a [u8], chars: Option<&[u8]>) -> &'a [u8]
    ensures { result.now ≡ spec.stripped_right (spec.goes (option_copied chars.entry)) bytes.now }
{
    match chars {
        None if bytes.len() < LANES => up_to_last_unblank(bytes),
        None => &bytes[..bytes.len() - trailing_blanks(bytes)],
        Some(chars) => up_to_last_other(bytes, chars),
    }
}

/// The bytes without those at both ends that are among `chars`, or that are blanks where no `chars` are
/// given, as of Python's `bytes.strip`. They are lent.
///
/// Example: `strip(b"xaby", Some(b"yx"))` is `b"ab"`.
pub fn strip<'a>(bytes: &'a [u8], chars: Option<&[u8]>) -> &'a [u8]
    ensures { result.now ≡ spec.stripped (spec.goes (option_copied chars.entry)) bytes.now }
{
    strip_right(strip_left(bytes, chars), chars)
}
