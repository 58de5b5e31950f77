//! Classes of bytes.
ghost use Rattle.std.specs.Prelude.{◌≡◌, ℕ, Bool};
ghost use Rattle.std.specs.Char.{is_ascii_alphabetic, is_ascii_alphanumeric, is_ascii_digit, is_ascii_lowercase, is_ascii_uppercase};
ghost use Rattle.pybuf_letters.specs.Classes as spec;

/// Whether a byte is a blank: a space, or one of the five from the tab to the carriage return.
///
/// Example: `is_py_ascii_whitespace(b'\x0b')` is `true`, and `is_py_ascii_whitespace(b'a')` is `false`.
pub fn is_py_ascii_whitespace(b: u8) -> bool
    ensures { result ≡ spec.is_blank b }
{
    b == b' ' || b'\t' <= b && b <= b'\r'
}

/// Whether there are bytes and each is a letter or a digit of ASCII, as of Python's `bytes.isalnum`
/// (Library reference, "Bytes and Bytearray Operations").
///
/// Example: `is_alnum(b"a1")` is `true`, and `is_alnum(b"")` is `false`.
pub fn is_alnum(bytes: &[u8]) -> bool
    ensures { result ≡ spec.all_of is_ascii_alphanumeric bytes.now }
{
    if bytes.is_empty() {
        return false;
    }
    bytes.iter().all(|b| b.is_ascii_alphanumeric())
}

/// Whether there are bytes and each is a letter of ASCII, as of Python's `bytes.isalpha`.
///
/// Example: `is_alpha(b"aB")` is `true`, and `is_alpha(b"a1")` is `false`.
pub fn is_alpha(bytes: &[u8]) -> bool
    ensures { result ≡ spec.all_of is_ascii_alphabetic bytes.now }
{
    if bytes.is_empty() {
        return false;
    }
    bytes.iter().all(|b| b.is_ascii_alphabetic())
}

/// Whether there are bytes and each is a decimal digit of ASCII, as of Python's `bytes.isdigit`.
///
/// Example: `is_digit(b"10")` is `true`, and `is_digit(b"1.0")` is `false`.
pub fn is_digit(bytes: &[u8]) -> bool
    ensures { result ≡ spec.all_of is_ascii_digit bytes.now }
{
    if bytes.is_empty() {
        return false;
    }
    bytes.iter().all(|b| b.is_ascii_digit())
}

/// Whether there are bytes and each is a blank, as of Python's `bytes.isspace`.
///
/// Example: `is_space(b" \t")` is `true`, and `is_space(b"")` is `false`.
pub fn is_space(bytes: &[u8]) -> bool
    ensures { result ≡ spec.all_of spec.is_blank bytes.now }
{
    if bytes.is_empty() {
        return false;
    }
    bytes.iter().all(|b| is_py_ascii_whitespace(*b))
}

/// Whether some byte is in lower case and none in upper case, as of Python's `bytes.islower`.
///
/// Example: `is_lower(b"a1")` is `true`, and `is_lower(b"aB")` is `false`.
pub fn is_lower(bytes: &[u8]) -> bool
    ensures { result ≡ spec.all_in_case is_ascii_lowercase is_ascii_uppercase bytes.now }
{
    let mut found = false;
    for b in bytes {
        if b.is_ascii_uppercase() {
            return false;
        }
        found = found || b.is_ascii_lowercase();
    }
    found
}

/// Whether some byte is in upper case and none in lower case, as of Python's `bytes.isupper`.
///
/// Example: `is_upper(b"A1")` is `true`, and `is_upper(b"1")` is `false`.
pub fn is_upper(bytes: &[u8]) -> bool
    ensures { result ≡ spec.all_in_case is_ascii_uppercase is_ascii_lowercase bytes.now }
{
    let mut found = false;
    for b in bytes {
        if b.is_ascii_lowercase() {
            return false;
        }
        found = found || b.is_ascii_uppercase();
    }
    found
}

/// Whether there is a letter, each letter in upper case stands behind no other letter, and each letter
/// in lower case stands behind a letter, as of Python's `bytes.istitle`.
///
/// Example: `is_title(b"Ab Cd")` is `true`, and `is_title(b"AB")` is `false`.
pub fn is_title(bytes: &[u8]) -> bool
    ensures { result ≡ spec.is_title bytes.now }
{
    let mut found = false;
    let mut after_letter = false;
    for b in bytes {
        if !fits_title(after_letter, *b) {
            return false;
        }
        after_letter = b.is_ascii_alphabetic();
        found = found || after_letter;
    }
    found
}

/// Whether a byte may stand in a title after a letter, or after none.
fn fits_title(after_letter: bool, b: u8) -> bool
    ensures { result ≡ spec.fits_title after_letter b }
{
    if after_letter {
        return !b.is_ascii_uppercase();
    }
    !b.is_ascii_lowercase()
}
