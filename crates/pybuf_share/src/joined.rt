//! What is put together of an exporter and its sessions at the end, and why it isn't.

use crate::entries::{Entry, EntryList};
use pybuf_command::ExporterKind;
use pybuf_exporter::ExporterState;
use pybuf_value::{ByteList, NoMemory};

/// A whole history: the kind and the bytes that the exporter began with, all entries in their order, and the exporter
/// as it is afterwards.
/// Example: the kind bytearray, the bytes `b""`, one entry `append 65` and an exporter with `b"A"` are a whole history.
#[derive(Drop)]
pub struct Joined {
    /// The bytes that the exporter began with.
    pub opening: ByteList,
    /// The kind that the exporter began with.
    pub kind: ExporterKind,
    /// All entries, in their order.
    pub entries: EntryList,
    /// The exporter as it is after the last entry.
    pub state: ExporterState,
}

/// A part of a history that was handed over: all entries since the part began, in their order, and the exporter as it
/// is afterwards, from which the next part may go on.
/// Example: one entry `append 66` and an exporter with `b"AB"` are a part that began with `b"A"`.
#[derive(Drop)]
pub struct Part {
    /// All entries of the part, in their order.
    pub entries: EntryList,
    /// The exporter as it is after the last entry.
    pub state: ExporterState,
}

/// Why sessions don't agree with a history.
/// Example: `FinishFault::NoMemory` stands for memory that ran out in a thread.
#[derive(Debug, Drop)]
pub enum FinishFault {
    /// The entry `got` of a receipt of number `at` isn't the one that the history has there. That one is `kept`,
    /// which is `None` where the history is too short.
    /// Example: a receipt of number 5 in a history of three entries has `kept: None`.
    Disagree {
        at: u64,
        kept: Option<Entry>,
        got: Entry,
    },
    /// The numbers of two receipts of a session, one after the other, don't rise.
    /// Example: a session whose receipts have the numbers 4 and then 2 is answered so.
    Order {
        session: u64,
        before: u64,
        after: u64,
    },
    /// The kind or the bytes that were given are others than those that are kept.
    /// Example: an exporter that was started with `b"a"` and is joined with `b"b"` is answered so.
    Opening {
        given_kind: ExporterKind,
        given: ByteList,
        kept_kind: ExporterKind,
        kept: ByteList,
    },
    /// Memory ran out.
    /// Example: `run_sessions` answers it where the memory of one thread ran out.
    NoMemory,
}

impl From<NoMemory> for FinishFault {
    ghost use Rattle.std.specs.Prelude.{◌≡◌};
    ghost use Rattle.pybuf_share.specs.declared.joined.FinishFault.TheVariants as fault;

    ghost from_gives = { λ _ f. f ≡ fault.NoMemory };

    fn from(_e: NoMemory) -> FinishFault {
        FinishFault::NoMemory
    }
}
