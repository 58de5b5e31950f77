//! Bytes that are kept behind free room, as bytearrays keep theirs: they are added, taken from the front, put in
//! the middle and handed over.
#![tactic(auto)]

mod front;
mod laws;

pub use front::FrontBytes;
pub use laws::adding_is_paid_by_room;
