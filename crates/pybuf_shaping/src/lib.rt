//! Bytes in other shapes: as hexadecimal digits, filled up to a width, with tabs as spaces, and mapped by
//! a table.
#![tactic(auto)]

mod arguments;
mod digit_pairs;
mod digits;
mod laws;
mod padding;
mod replacing;
mod tables;
mod tabs;

pub use arguments::{
    ByteInnerPaddingOptions, ByteInnerTranslateOptions, ExpandTabsArgs, center_with, fill_of,
    justify_left_with, justify_right_with, translate_by,
};
pub use digit_pairs::bytes_of_hex;
pub use digits::hex_text;
pub use laws::{
    groups_are_counted, hex_is_read_in_pairs, hex_reads_back, identity_table_changes_nothing,
    padding_keeps_the_bytes, replacing_by_the_same, separators_left_out, tables_map_each_byte_once,
    tabs_are_spaces, tabs_lead_to_stops, wide_or_the_same,
};
pub use padding::{center, justify_left, justify_right, pad, zero_fill};
pub use replacing::{replace, replace_in_place};
pub use tables::{identity_table, make_table, translate};
pub use tabs::{expand_tabs, tab_size};
