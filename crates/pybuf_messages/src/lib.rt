//! What is wrong with words, with the lines of an input or with its length, and what would be right: the messages that the program
//! `pybuf` writes on standard error.
#![tactic(auto)]

mod data;
mod lines;
mod names;
mod nearest;
mod texts;
mod usage;

pub use data::push_wrong_length;
pub use lines::push_wrong_line;
pub use usage::push_wrong_word;
