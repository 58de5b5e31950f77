//! Laws of the definitions that the contracts cite. Each stands on a function with an empty body.
ghost use Rattle.pybuf_object.specs.Laws.{PushAppends, SlicesExtend, InsertAtInserts, RemoveAtPops, PopLastPops, ClearAllClears, SetSets, GetGets, SlicesGet};

/// The calls of a bytearray with plain arguments that change how many bytes there are do what the commands `append`,
/// `extend`, `insert`, `pop` and `clear` do, and answer what those reply.
/// Example: what `array.push(100)` changes and answers is what the command `append 100` changes and replies.
pub fn plain_edits_are_commands()
    ensures push { PushAppends }
    ensures extend { SlicesExtend }
    ensures insert { InsertAtInserts }
    ensures remove { RemoveAtPops }
    ensures pop { PopLastPops }
    ensures clear { ClearAllClears }
{}

/// The call `set` of a bytearray, with plain arguments, puts a byte in place of another as the command `set` does.
/// Example: what `array.set(0, 65)` changes and answers is what the command `set 0 65` changes and replies.
#[tactic(auto, using(crate::proofs::Written::one_written))]
pub fn plain_writes_are_commands()
    ensures { SetSets }
{}

/// The calls of bytes and bytearrays with plain arguments that read answer what the command `get` replies.
/// Example: `array.get(-1)` of `bytearray(b"abc")` is `Some(99)`, and the command `get -1` replies 99.
pub fn plain_reads_are_commands()
    ensures get { GetGets }
    ensures slice { SlicesGet }
{}
