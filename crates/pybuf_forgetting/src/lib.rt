//! What an exporter may forget: forgetting what released views and exhausted iterators keep changes no reply, now or
//! later.
#![tactic(auto)]

mod laws;

pub use laws::{
    forgetting_changes_no_reply, forgetting_changes_no_run, forgetting_keeps_all_else,
    forgetting_keeps_sound, forgetting_leaves_nothing, forgetting_twice_is_forgetting_once,
    forgotten_loans_change_no_reply, forgotten_pairs_change_no_bytes,
};
