//! Plain bytes: where one stands, and whether all are of ASCII.
ghost use Rattle.std.specs.Prelude.{◌≡◌, ◌==◌};
ghost use Rattle.std.specs.List.{position};
ghost use Rattle.pybuf_value.specs.Texts.{is_ascii};

use bstr::ByteSlice;

/// The place of the first byte of this value. None exactly where there is no such byte.
///
/// Example: `place_of_byte(b"abc", b'c')` is `Some(2)`.
#[tactic(auto, using(crate::proofs::FirstByte::position_of_byte))]
pub fn place_of_byte(bytes: &[u8], byte: u8) -> Option<usize>
    ensures { result ≡ position (λ b. b == byte) bytes.now }
{
    bytes.find_byte(byte)
}

/// Whether each byte is one of ASCII, below 128; it is true also where there is no byte.
///
/// Example: `is_ascii(b"a1")` is `true`, and `is_ascii(b"\x80")` is `false`.
pub fn is_ascii(bytes: &[u8]) -> bool
    ensures { result ≡ is_ascii bytes.now }
{
    bytes.is_ascii()
}
