//! Views in several dimensions: slices in each of them, their axes in any order, and the items at one place of an axis.
#![tactic(auto)]

mod assigning;
mod axes;
mod laws;
mod laying;
mod made;
mod merging;
mod plane;
mod selection;

pub use assigning::assign;
pub use axes::{permute, transpose};
pub use laws::{
    chains_stand, transposing_twice_is_nothing, transpositions_are_column_order,
    views_go_by_indices,
};
pub use merging::merged;
pub use plane::pick;
pub use selection::slice_all;
