//! A format with the values that are to be packed by it or that it unpacked, and the handle by which a program in C holds it.
#![tactic(auto)]

mod address;
mod handle;
mod packer;

pub use handle::FormatHandle;
pub use packer::{Packed, Packer};
