//! The commands that write items.
#![tactic(auto)]

pub mod assign;
mod laid;
mod laws;
pub mod set;

pub use laws::{
    assign_is_safe, assignments_are_by_value, contents_hold_the_items, set_is_safe, writes_are_seen,
};
