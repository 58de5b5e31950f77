//! What strings of any kind have in common, and bytes as such a string.
#![tactic(auto)]

mod any_str;
mod bytes;

pub use any_str::{AnyStr, AnyStrContainer};
pub use bytes::Bytes;
