//! One view over bytes: where its items lie and how they are kept, what they read as and are written
//! as, their bytes, and what the view is lent as; what is lent that fits.
#![tactic(auto)]

mod bytes;
mod content;
mod items;
mod kept;
mod keys;
mod laws;
mod readers;
mod view_snaps;

pub use bytes::{is_byte_format, is_row_of};
pub use content::{column_content_of, content_of, first_place};
pub use items::{
    args_of, byte_for_item, byte_item, format_of, index_in, is_none, is_slice, item_by,
};
pub use kept::KeptLayout;
pub use keys::{names_itself, place_of_key};
pub use laws::{
    byte_items_are_their_byte, contents_are_whole, contiguous_items_are_one_run,
    item_bytes_are_the_content, item_bytes_lie_inside, items_have_their_entries, keys_name_items,
    numbers_look_at_no_loan,
};
pub use readers::{ItemReader, read_by, reader_of};
pub use view_snaps::{reads_bytes, snap_of_copy, snap_of_layout};
