//! Copies of items that lie apart, in equal steps upwards or downwards, between bytes and onto the end
//! of a vector.
//!
//! Each pair of directions and each of the sizes 1, 2, 4 and 8 has a loop of its own, made of one text
//! by its const parameters, and so a step costs neither a choice nor a copy of a length that is known at
//! run time only. Bytes that go to where they lie one after the other have two loops more, for the steps 1 and 2.
#![tactic(auto)]

mod append;
mod moves;

pub use append::append_items;
pub use moves::{Track, copy_items};
