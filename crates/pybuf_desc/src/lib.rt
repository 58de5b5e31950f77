//! Descriptors of buffers: shape, strides and a start as a value that stands for a list of places.
#![tactic(auto)]

mod casts;
mod checks;
mod columns;
mod contiguous;
mod descriptor;
mod dims;
mod format_letter;
mod kept_format;
mod laws;
mod line;
mod packed;
mod pairs;
mod positions;
mod segments;
mod sliced;
mod turned;

pub use columns::ColumnSegments;
pub use descriptor::BufferDescriptor;
pub use kept_format::KeptFormat;
pub use laws::{
    casts_are_contiguous, casts_have_their_shape, casts_lie_apart, casts_share_their_bytes,
    casts_stay_inside, chains_of_casts_are_the_last, column_casts_are_f_contiguous,
    column_casts_follow_column_order, column_casts_give_the_bytes_back,
    column_casts_have_their_shape, column_casts_lie_apart, column_casts_stay_inside,
    column_ranges_have_the_content, column_ranges_stay_inside, columns_stay_inside,
    contiguity_is_of_strides, contiguity_is_the_same_anywhere, copies_have_their_bytes,
    described_views_have_their_shape, descriptors_stand_for_one_view, f_contiguity_is_of_strides,
    flat_casts_have_one_dimension, lines_have_their_pieces, lines_lie_inside,
    no_items_are_no_columns, placed_descriptors_stand, positions_are_places,
    ranges_have_the_content, ranges_stay_inside, row_major_layouts_lie_apart,
    shaped_casts_have_their_shape, shaped_casts_share_their_bytes, shaped_casts_stay_inside,
    slices_have_their_shape, slices_lie_apart, slices_stay_inside, slicing_back_twice_is_nothing,
    tails_are_greatest, valid_where_items_lie_inside, whole_layouts_lie_apart,
};
pub use line::SegmentLine;
pub use pairs::ZipSegments;
pub use segments::Segments;
