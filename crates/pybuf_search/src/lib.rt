//! Searching bytes for bytes, cutting them at what is found, and the arguments of both.
#![tactic(auto)]

mod affixes;
mod bounds;
mod ends;
mod joins;
mod laws;
mod parts;
mod places;
mod ranges;
mod separators;

pub use affixes::{StartsEndsWithArgs, bytes_lent, endswith, single_or_tuple_any, startswith};
pub use bounds::{StringRange, adjust_indices, between};
pub use ends::{begins_with, ends_with, without_prefix, without_suffix};
pub use joins::{added, joined, joined_parts, repeated};
pub use laws::{
    empty_stands_everywhere, matches_are_from_left, matches_are_from_right, partition_is_whole,
    prefixes_are_removed, rpartition_is_whole, rsplit_joins_back, split_joins_back,
    suffixes_are_removed,
};
pub use parts::{partition, rpartition, rsplit, split};
pub use places::{first_place, holds_needle, last_place, number_of_matches};
pub use ranges::{first_place_in_range, last_place_in_range, number_in_range, place_in_range};
pub use separators::{AnyStrWrapper, SplitArgs};
