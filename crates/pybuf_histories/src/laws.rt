//! Laws of the texts of histories.
ghost use Rattle.pybuf_histories.specs.Laws.{RepliesOfEntriesAreSingle, EntriesAreSingle, SharedTextHasItsLines};

/// The reply of each entry of a legal history is one line, whatever its command is.
///
/// Example: the reply to `bytes own` of `b"a\n"` is `b'a\n'`, with a backslash and an `n`.
pub fn replies_of_entries_are_single_lines()
    ensures { RepliesOfEntriesAreSingle }
{
    pybuf_line::replies_are_single_lines();
    pybuf_exporter::shown_texts_are_one_line();
}

/// The text of each entry of a legal history is one line, where its command is one that lines spell.
///
/// Example: the entry of `view own` of session 0 is the one line `0: view own -> v0`.
pub fn entries_are_single_lines()
    ensures { EntriesAreSingle }
{
    pybuf_line::replies_are_single_lines();
    pybuf_exporter::shown_texts_are_one_line();
}

/// The lines of the whole text of such a history are those of its entries, in order, one with their number and one with
/// the bytes that there are in the end.
///
/// Example: that of `view own` alone, of a bytearray of `b"ab"`, has the lines `0: view own -> v0`, `calls 1` and `bytes b'ab'`.
pub fn histories_have_a_line_for_each_entry()
    ensures { SharedTextHasItsLines }
{
    pybuf_line::replies_are_single_lines();
    pybuf_exporter::shown_texts_are_one_line();
}
