//! The commands that compare: `compare`, `hash`, `repr`. They only read.
//!
//! Bytes and bytearrays are compared by their bytes, and views by their items, from where they lie:
//! nothing is copied to be compared. Python's language reference has this under "Value comparisons", and
//! its library reference under "Binary Sequence Types" (`memoryview.__eq__`, and hashes of memoryviews).
#![tactic(auto)]

pub mod compare;
pub mod hash;
mod laws;
pub mod repr;

pub use laws::{compare_is_safe, equal_views_hash_alike, hash_is_safe, repr_is_safe};
