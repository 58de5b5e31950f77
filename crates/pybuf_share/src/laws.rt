//! What holds of histories, and of entries that join scripts.
ghost use Rattle.pybuf_share.specs.Laws.{LegalHistoriesAreOfOneThread, LegalPartsAreOfOneThread, PartsMakeOneHistory, JoinedEntriesAreTheScripts, ReceiptsAreTheEntries};

/// A legal history is what one thread gets by stepping a new exporter through the commands of its entries. The replay
/// is the exporter that the thread has at the end, and the replies of the entries are what the thread is replied.
/// Example: the entries `append 65` with `Ok` and `len` with 1 are what one thread gets of a new bytearray without bytes.
pub fn legal_histories_are_of_one_thread()
    ensures { LegalHistoriesAreOfOneThread }
{}

/// A legal part of a history is what one thread gets by stepping an exporter of the state in which the part begins
/// through the commands of its entries: the state that they lead to, and the replies.
/// Example: the part `len` with 1 is what one thread gets of a bytearray to which a byte was added before.
pub fn legal_parts_are_of_one_thread()
    ensures { LegalPartsAreOfOneThread }
{}

/// Suppose that a part of a history is legal, and that a second is legal from the state on to which the first leads.
/// Then both, one after the other, are one legal part, which leads to the state to which the second leads.
/// Example: the parts `append 65` and `len` of a new bytearray make the history of these two commands.
pub fn parts_make_one_history()
    ensures { PartsMakeOneHistory }
{}

/// Entries that join scripts are all commands of the scripts, each once, and none beside: session by session, in their
/// order.
/// Example: of the scripts `a, b` and `c` the entries `a, c, b` join them, and `b, a, c` don't.
pub fn joined_entries_are_the_scripts()
    ensures { JoinedEntriesAreTheScripts }
{}

/// Suppose that all receipts of an exporter's sessions stand in a history at rising numbers, that each came from a
/// call, and that the ledger has counted as many calls for them as there are entries. Then the receipts of each
/// session are, in order, exactly its entries, each once, and no others.
/// Example: of the history `a, c, b` session 0, which asked `a` and `b`, has the receipts 0 and 2.
pub fn receipts_are_the_entries()
    ensures { ReceiptsAreTheEntries }
{}
