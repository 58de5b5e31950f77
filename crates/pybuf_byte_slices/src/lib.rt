//! Bytes that a slice picks, written and taken out by loops for items that lie apart.
#![tactic(auto)]

mod close;
mod write;

pub use close::close_up;
pub use write::write_slice;
