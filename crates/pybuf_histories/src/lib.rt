//! The texts of histories: their entries as lines, and why sessions don't agree with one.
#![tactic(auto)]

mod commands;
mod entries;
mod faults;
mod laws;
mod methods;
mod names;
mod replies;
mod spellings;
mod words;

pub use entries::{push_entry_line, push_last_lines};
pub use faults::push_fault;
pub use laws::{
    entries_are_single_lines, histories_have_a_line_for_each_entry,
    replies_of_entries_are_single_lines,
};
