//! A script that is made command by command and run in a new world, and what is told of its run.
#![tactic(auto)]

mod commands;
mod counting;
mod telling;

pub use counting::make_summary;
