//! What bytes begin and end with. Nothing here takes memory.
ghost use Rattle.std.specs.Prelude.{◌≡◌};
ghost use Rattle.pybuf_search.specs.Ends as spec;

use bstr::ByteSlice;

/// Whether the bytes begin with a prefix (Library reference, "Bytes and Bytearray Operations",
/// `bytes.startswith`).
///
/// Example: `begins_with(b"abc", b"ab")` is `true`, and so is `begins_with(b"abc", b"")`.
pub fn begins_with(bytes: &[u8], prefix: &[u8]) -> bool
    ensures { result ≡ spec.begins_with bytes.now prefix.now }
{
    bytes.starts_with_str(prefix)
}

/// Whether the bytes end with a suffix (Library reference, "Bytes and Bytearray Operations",
/// `bytes.endswith`).
///
/// Example: `ends_with(b"abc", b"bc")` is `true`, and so is `ends_with(b"abc", b"")`.
pub fn ends_with(bytes: &[u8], suffix: &[u8]) -> bool
    ensures { result ≡ spec.ends_with bytes.now suffix.now }
{
    bytes.ends_with_str(suffix)
}

/// The bytes without a prefix, where they begin with it; it is removed once (Library reference,
/// "Bytes and Bytearray Operations", `bytes.removeprefix`). The rest is lent.
///
/// Example: `without_prefix(b"ababc", b"ab")` is `b"abc"`.
pub fn without_prefix<'a>(bytes: &'a [u8], prefix: &[u8]) -> &'a [u8]
    ensures { result.now ≡ spec.without_prefix bytes.now prefix.now }
{
    if begins_with(bytes, prefix) {
        return &bytes[prefix.len()..];
    }
    bytes
}

/// The bytes without a suffix, where they end with it; it is removed once (Library reference, "Bytes
/// and Bytearray Operations", `bytes.removesuffix`). The rest is lent.
///
/// Example: `without_suffix(b"abcbc", b"bc")` is `b"abc"`.
pub fn without_suffix<'a>(bytes: &'a [u8], suffix: &[u8]) -> &'a [u8]
    ensures { result.now ≡ spec.without_suffix bytes.now suffix.now }
{
    if ends_with(bytes, suffix) {
        return &bytes[..bytes.len() - suffix.len()];
    }
    bytes
}
