//! Reading and editing a sequence by the indices of Python's slices. What the indices are says `pybuf_index`,
//! whose names this crate exports on.
#![tactic(auto)]

mod edit_ops;
mod edits;
mod laws;
mod repeats;
mod sequence;
pub mod slices;

pub use edit_ops::{SequenceExt, SequenceMutExt, SliceableSequenceMutOp};
pub use edits::close_up;
pub use laws::{
    any_number_takes_the_place, as_many_are_read_back, as_many_keep_the_length,
    reading_and_deleting_part_a_list,
};
pub use pybuf_index::{
    OptionalRangeArgs, SaturatedSlice, SaturatedSliceIter, SequenceIndex, SequenceIndexOp,
    SliceIndices, clamping_changes_no_index, each_lane_counts, entry_in, hash_of_lanes,
    indices_and_adjust_indices_agree, indices_of_a_slice, indices_of_a_span, slices_have_spans,
};
pub use sequence::SliceableSequenceOp;
