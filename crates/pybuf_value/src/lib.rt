//! Values, refusals, lists and the conversions of numbers that every crate of `pybuf` stands on.
#![tactic(auto)]

mod answers;
mod contents;
mod conversions;
mod equality;
mod faults;
mod halt;
mod laws;
mod lent;
mod list;
mod no_handles;
mod numbers;
mod order;
mod plain;
mod quotes;
mod shown;
mod snaps;
mod spelling;
mod steps;
mod text;
mod values;

pub use answers::{Answer, Refusable};
pub use contents::{bytes_alone, bytes_from_object, bytes_like, text_in, try_as_bytes};
pub use equality::{identical_or_equal, item_eq, scalar_eq};
pub use faults::{Fault, Outcome, Tried};
pub use halt::{Halt, as_vec, tried};
pub use laws::{
    equal_items_count_alike, equal_scalars_count_alike, equal_values_are_the_same,
    item_equality_is_equivalence, operators_agree, order_of_bytes_is_total, quoted_texts_read_back,
    scalar_equality_is_equivalence, values_are_spelled_in_ascii,
};
pub use lent::{Lent, content_of_snap, run_of_snap};
pub use list::{
    ByteList, ByteLists, CountList, DimList, ItemList, Items, NumberList, ScalarList, SliceList,
    ValueList, push_reserved,
};
pub use no_handles::NoHandles;
pub use numbers::{
    ByteOr, count_in, count_or, fit_count, fit_index, index_of, number_in, saturate,
    value_from_object,
};
pub use order::{compare_bytes, is_order, scalar_cmp};
pub use plain::{is_ascii, place_of_byte};
pub use pybuf_copy::{Exact, Made, NoMemory, Twin, copy_all};
pub use quotes::{escaped, push_escaped, push_quoted, quote};
pub use shown::{Shown, write_bytes, write_list, write_quoted, write_truth, write_tuple};
pub use snaps::{Lender, Snap, SnapKind, SnapList};
pub use spelling::{
    named_repr_text, push_bytes, push_handle, push_number, push_scalar, push_truth, repr_text,
};
pub use steps::Steps;
pub use text::Text;
pub use values::{CompareOp, Item, PySlice, Scalar, Value};
