//! The lines of sessions of one exporter: the scripts of an input.
#![tactic(auto)]

mod asks;
mod laws;
mod names;
mod opening;
mod pieces;
mod reading;
mod scripts;
mod sessions;

pub use asks::Ask;
pub use laws::{session_lines_read_back, sessions_are_of_lines, sessions_are_runnable};
pub use reading::read_sessions;
pub use sessions::Sessions;
