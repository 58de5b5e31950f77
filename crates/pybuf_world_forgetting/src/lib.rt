//! What the exporters of a world may forget: forgetting what released views and exhausted iterators keep changes no reply,
//! now or later.
#![tactic(auto)]

mod laws;

pub use laws::{forgetting_changes_no_world_reply, worlds_that_forget_alike_run_alike};
