//! What goes out to a program in C: bytes to a room that it lends, and numbers as a size and a sign.
#![tactic(auto)]

mod rooms;
mod words;

pub use rooms::{Handed, hand_bytes};
pub use words::{signed, word_of};
