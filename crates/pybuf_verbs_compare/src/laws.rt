//! Laws of the definitions that the contracts cite.
ghost use Rattle.pybuf_verbs_compare.specs.Laws.{CompareIsSafe, HashIsSafe, ReprIsSafe, EqualViewsHashAlike};

/// Where `compare` isn't refused, it leaves a sound exporter sound, and its reply is no refusal.
/// Example: `compare < x62` of `bytearray(b"ab")` replies `True`.
pub fn compare_is_safe()
    ensures { CompareIsSafe }
{
    pybuf_state::reading_keeps();
}

/// Where `hash` isn't refused, it leaves a sound exporter sound, and its reply is no refusal.
/// Example: `hash` of `bytes` `b"abc"` replies `b"abc"`.
pub fn hash_is_safe()
    ensures { HashIsSafe }
{
    pybuf_state::reading_keeps();
}

/// Where `repr` isn't refused, it leaves a sound exporter sound, and what it shows is one line.
/// Example: `repr` of the byte 10 alone replies `b'\n'` with a backslash and the letter n.
pub fn repr_is_safe()
    ensures { ReprIsSafe }
{
    pybuf_state::reading_keeps();
}

/// Two unreleased views that are equal reply the same bytes to `hash`, where each has the format `b`,
/// `B` or `c` (Python's glossary: "Hashable objects which compare equal must have the same hash value").
/// Example: a view of `bytes` `b"abc"` and its cast to `b` are equal, and both reply `b"abc"` to `hash`.
pub fn equal_views_hash_alike()
    ensures { EqualViewsHashAlike }
{
    pybuf_state::live_layouts_are_sound();
    pybuf_memoryview::contents_are_whole();
    pybuf_equality::equal_byte_views_hold_the_same_bytes();
}
