//! Selections of bytes in a shape as texts: the words that ask for one, and its bytes.
#![tactic(auto)]

mod cutting;
mod keys;
mod selections;
mod shapes;
mod texts;

pub use selections::{Selection, selection_of_words};
pub use texts::push_misfit;
