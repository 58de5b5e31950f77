//! Whether two views are equal: as many dimensions, shapes that agree, and equal items, each read by
//! the format of its own side.
#![tactic(auto)]

mod equality;
mod exact;
mod items;
mod laws;
mod number_rows;
mod numbers;
mod pieces;
mod raw;
mod shapes;
mod signs;
mod tracks;
mod view_and_bytes;
mod words;

pub use equality::equal_views;
pub use laws::{
    equal_byte_views_hold_the_same_bytes, fitting_snaps_have_all_items, layouts_have_their_items,
    view_equality_is_equivalence,
};
pub use view_and_bytes::{equal_to_bytes, equal_to_content};
