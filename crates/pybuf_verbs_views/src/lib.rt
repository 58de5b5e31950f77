//! The commands that make and end views.
#![tactic(auto)]

pub mod cast;
pub mod contiguous;
pub mod enter;
mod laws;
pub mod range;
pub mod release;
pub mod slice;
pub mod to_readonly;
pub mod view;

pub use laws::{
    cast_is_safe, casts_are_of_bytes, column_cast_is_safe, column_casts_hold_the_bytes,
    contiguous_is_copied, enter_is_safe, range_is_safe, release_is_safe, releasing_twice_is_once,
    slice_is_safe, toreadonly_is_safe, view_is_safe,
};
