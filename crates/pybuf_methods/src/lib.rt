//! The methods of strings of bytes, called by name with values as their arguments.
#![tactic(auto)]

mod affixes;
mod contents;
mod cut;
mod given;
mod join;
mod laws;
mod methods;
mod plain;
mod shaped;
mod sought;

pub use contents::{ByLender, Contents};
pub use laws::wrong_numbers_are_refused;
pub use methods::{apply_method, reply_of};
pub use shaped::hex_of;
pub use sought::contains_in;
