//! Whole numbers of one size that lie one after the other in bytes, as Python's `array` keeps them, and runs of
//! indices into them.
//!
//! Definitions speak of the list of numbers that bytes spell (`numbers_of`). Each call on bytes says what becomes of
//! that list, so nobody above speaks of digits.
#![tactic(auto)]

mod codes;
mod edits;
mod laws;
mod reads;
mod runs;
mod words;
mod writes;

pub use codes::ArrayCode;
pub use edits::{bytes_of, insert_number, push_bytes, push_number, remove_number};
pub use laws::{
    bytes_read_back, numbers_are_in_range, numbers_read_back, swapping_twice_is_nothing,
};
pub use reads::{count_of_numbers, is_whole, number_at, numbers, place_of_number};
pub use runs::IndexRun;
pub use writes::{put_number, swap_numbers};
