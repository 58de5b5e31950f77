//! The commands that read bytes as strings: `call`, `contains`, `hex`. They only read, and the bytes of the
//! handles among their values are read from where they lie.
#![tactic(auto)]

pub mod call;
pub mod contains;
pub mod hex;
mod laws;
mod named_contents;

pub use laws::{call_is_safe, contains_is_safe, hex_is_safe, lents_are_paired, names_are_found};
pub use named_contents::Reading;
