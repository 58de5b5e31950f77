//! Python's objects that own their bytes, as values: `bytes` and `bytearray`, with a method for each command that
//! they have, their iterators, and the guard of what is resized.
#![tactic(auto)]

mod byte_array;
mod bytes;
mod guard;
mod iterators;
mod laws;
mod plain_byte_array;
mod plain_bytes;
mod slices;
mod traits;

pub use byte_array::PyByteArray;
pub use bytes::PyBytes;
pub use guard::BufferResizeGuard;
pub use iterators::{PyByteArrayIterator, PyBytesIterator};
pub use laws::{plain_edits_are_commands, plain_reads_are_commands, plain_writes_are_commands};
