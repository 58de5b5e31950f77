//! Bytes by lanes: sixteen or more bytes are worked on at once, in one vector.
//!
//! A step on a vector is a function of its own, whose clause says what becomes of each lane. What is left behind the
//! last whole vector is worked on byte by byte.
#![tactic(auto)]

mod blanks;
mod counting;
mod digits;
mod gathers;
mod pairs;

pub use blanks::{leading_blanks, trailing_blanks};
pub use counting::count_byte;
pub use digits::write_digits;
pub use gathers::{gather_halves, gather_quarters, gather_reversed, gather_thirds};
pub use pairs::read_digits;
