//! Arguments that are borrowed as bytes for a call: those of a value, to be read, and those of a subject of
//! an exporter, to be written. Nothing is copied but texts.
#![tactic(auto)]

mod bytes;
mod laws;
mod memory;
mod texts;

pub use bytes::{ArgBytesLike, try_bytes_like};
pub use laws::{borrows_change_the_lent_bytes_alone, unknown_arguments_are_refused};
pub use memory::{ArgMemoryBuffer, try_rw_bytes_like};
pub use texts::{ArgAsciiBuffer, ArgStrOrBytesLike};
