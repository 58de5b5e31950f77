//! Copies of values, and the answer of calls that only want of memory makes fail.
#![tactic(auto)]

mod compound;
mod memory;
mod plain;
mod twin;

pub use memory::{Made, NoMemory};
pub use twin::{Exact, Twin, copy_all};
