//! What holds of these effects, and of what handles name.
ghost use Rattle.pybuf_verbs_methods.specs.Laws.{CallIsSafe, ContainsIsSafe, HexIsSafe, LentsArePaired, NamesAreFound};

use pybuf_state::reading_keeps;

/// Where `call` isn't refused, it leaves a sound exporter sound, and its reply is no refusal and makes no exporter.
/// Example: `call upper` of `bytearray(b"Abc")` replies `b"ABC"`.
pub fn call_is_safe()
    ensures { CallIsSafe }
{
    reading_keeps();
}

/// Where `contains` isn't refused, it leaves a sound exporter sound, and its reply is no refusal and makes no
/// exporter.
/// Example: `contains x6263` of `bytearray(b"Abc")` replies `True`.
pub fn contains_is_safe()
    ensures { ContainsIsSafe }
{
    reading_keeps();
}

/// Where `hex` isn't refused, it leaves a sound exporter sound, and its reply is no refusal and makes no exporter.
/// Example: `hex ':'` of a view of `b"Abc"` replies `'41:62:63'`.
pub fn hex_is_safe()
    ensures { HexIsSafe }
{
    reading_keeps();
}

/// What a handle names is found among the pairs of some handles, each with what it names, exactly where it is one of
/// these handles.
/// Example: among the pairs of `h1` and `h2` what `h2` names is found, and what `h3` names isn't.
pub fn names_are_found()
    ensures { NamesAreFound }
{}

/// The pairs of what is lent for some handles are those of what each names.
/// Example: of `h1` and `h2` they are `h1` with what it names, and `h2` with what it names.
pub fn lents_are_paired()
    ensures { LentsArePaired }
{}
