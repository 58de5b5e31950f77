//! Laws of the definitions that the contracts cite.
ghost use Rattle.pybuf_verbs_edits.specs.Laws.{EditsAreSafe, DeleteOfViewIsSafe, EditsAskBeforeTheyResize, OnlyAddingItselfIsRefusedEarlier};

/// Where an edit isn't refused, it leaves a sound exporter sound, and its reply is no refusal. `copy` leaves the
/// exporter as it is, and replies a copy of it.
/// Example: after `append 100` of `bytearray(b"abc")` without unreleased views the exporter is sound.
pub fn edits_are_safe()
    ensures { EditsAreSafe }
{
    pybuf_state::reading_keeps();
    pybuf_state::writing_keeps();
    pybuf_state::resizing_keeps();
    pybuf_state::emptying_keeps();
    pybuf_slice::as_many_keep_the_length::<u8>();
}

/// Where `del` of a view isn't refused, it leaves a sound exporter sound. (It is always refused.)
/// Example: `del 0` of an unreleased view is refused with `TypeError`.
pub fn delete_of_view_is_safe()
    ensures { DeleteOfViewIsSafe }
{}

/// Where a check of an edit refuses before it asks for another length, that is its answer, whether a view is
/// unreleased or not. Once its earlier checks are passed, an edit that asks for another length is refused with
/// `BufferError` exactly while a view is unreleased.
/// Example: while a view is unreleased, `append 256` is refused with `ValueError`, and `append 1` with `BufferError`.
pub fn edits_ask_before_they_resize()
    ensures { EditsAskBeforeTheyResize }
{}

/// No earlier check gives `BufferError`, except that of `iadd`, where a bytearray is added to itself.
/// Example: `a += a` of a bytearray `a` is refused with `BufferError`, also where it has no view.
pub fn only_adding_itself_is_refused_earlier()
    ensures { OnlyAddingItselfIsRefusedEarlier }
{}
