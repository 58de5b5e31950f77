//! Python's slice rule: the indices of a slice, the places that numbers name, and slices compared, as texts
//! and hashed.
#![tactic(auto)]

mod compared;
mod iter;
mod keys;
mod laws;
mod saturated;

pub use compared::hash_of_lanes;
pub use iter::SaturatedSliceIter;
pub use keys::{OptionalRangeArgs, SequenceIndex, SequenceIndexOp, SliceIndices, entry_in};
pub use laws::{
    clamping_changes_no_index, each_lane_counts, indices_and_adjust_indices_agree,
    indices_of_a_slice, indices_of_a_span, slices_have_spans,
};
pub use saturated::SaturatedSlice;
