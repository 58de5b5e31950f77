//! Effects of iterators: one is made, gives its next item, tells how many are left, and is moved to a place.
#![tactic(auto)]

mod laws;
pub mod making;
pub mod stepping;

pub use laws::{iter_is_safe, iterators_are_safe};
