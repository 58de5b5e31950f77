//! Worlds of exporters and of views of them.
#![tactic(auto)]

mod laws;
mod lending;
mod listing;
mod named;
mod others;
mod tables;
mod world;

pub use laws::{
    copies_are_exporters_of_their_own, handles_stay, loans_of_worlds_fit,
    new_exporters_stand_behind, no_reply_is_a_struct_error, nothing_is_kept_by_accident,
    refusals_change_nothing, released_handles_stay, releases_are_refused_by_name,
    releasing_twice_is_once, runs_keep_items_apart, runs_name_their_views, runs_stay_sound,
    unknown_sources_are_refused, world_equal_views_hash_alike, world_iterators_stay,
    world_lengths_stay, world_readonly_bytes_stay, world_shown_texts_are_one_line,
    world_steps_assign_by_value, world_writes_are_seen, writes_are_seen_where_places_are_shared,
};
pub use named::{Named, Target};
pub use pybuf_command::{Command, Reply, ReplyList};
pub use world::World;
