//! The commands that only read.
#![tactic(auto)]

pub mod get;
mod laws;
pub mod len;
mod lists;
pub mod property;
pub mod to_bytes;
pub mod to_list;

pub use laws::{
    bytes_is_safe, get_is_safe, len_is_safe, lists_hold_the_items, property_is_safe, tolist_is_safe,
};
