//! Tables of binary records, as `iter_unpack`, `unpack_from` and `pack_into` of Python's `struct` page read and edit
//! them, and records chosen by one of their fields.
#![tactic(auto)]

mod field_descriptor;
mod field_place;
mod field_text;
mod field_view;
mod laws;
mod lent_values;
mod numbers;
mod offsets;
mod records;
mod row_format;
mod select;

pub use laws::{
    codes_decide_orders, rows_are_records, sets_change_one_field, slices_change_one_field,
};
pub use records::{RecordIter, Records};
pub use select::RowList;
