//! The edits of a bytearray.
#![tactic(auto)]

mod edit_of_verb;
mod growing;
mod laws;
mod refusals;
mod replacing;
mod shrinking;

pub use edit_of_verb::{delete_of_view, edit_of_own};
pub use growing::append;
pub use laws::{
    delete_of_view_is_safe, edits_are_safe, edits_ask_before_they_resize,
    only_adding_itself_is_refused_earlier,
};
pub use shrinking::pop;
