//! The lines of typed arrays: the operations of an input, and the texts of replies.
//!
//! An operation is a word with up to three arguments, which are spelled as the values of other lines are.
#![tactic(auto)]

mod arguments;
mod inputs;
mod laws;
mod operations;
mod replies;
mod words;

pub use inputs::check_operations;
pub use laws::{array_replies_are_single_lines, operations_are_of_lines, operations_read_back};
pub use operations::operation_of_line;
pub use replies::{push_array_reply, push_array_reply_line};
