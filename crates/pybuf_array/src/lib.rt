//! Typed arrays, as Python's `array`, for whole numbers.
//!
//! An array is a list of numbers, with views that are lists of indices into it: so its definition says
//! (`specs/Array.antt`), in which there is no byte. The numbers lie in a bytearray, whose views count those that are
//! unreleased.
#![tactic(auto)]

mod array;
mod edits;
mod laws;
mod numbers;
mod operations;
mod running;
mod views;

pub use array::PyArray;
pub use laws::{lengths_stay_while_viewed, slices_of_slices_pick_among_picks};
pub use operations::{ArrayOp, ArrayReply, ArrayReplyList, IntList};
pub use pybuf_numbers::ArrayCode;
