//! A value on the heap that is held by its address.
#![tactic(auto)]

mod block;

pub use block::Block;
