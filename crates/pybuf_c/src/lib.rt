//! The calls of a program in C on worlds and on formats, each over a call that is proved.
//!
//! A call answers a status, by the numbers of `include/pybuf.h`. It is 0 where the call is done; 1 where memory ran out; 2 where
//! the handle holds no world, and 9 where it holds no format; and from 16 on where it is refused: 16 `IndexError`, 17
//! `ValueError`, 18 `TypeError`, 19 `BufferError`, 20 `StructError`, 21 `OverflowError`, 22 `NotImplementedError`, and 23 for a
//! handle that was never given, or an object of a kind that has no such call. A refusal changes nothing but the last reply of the
//! world, which is that refusal. Where memory runs out, or the handle holds nothing, nothing is changed, unless the call says so.
#![tactic(auto)]

mod asking;
mod edits;
mod formats;
mod lending;
mod numbers;
mod objects;
mod replies;
mod status;
mod worlds;

pub use edits::{
    pybuf_proved_append, pybuf_proved_clear, pybuf_proved_copy, pybuf_proved_delete,
    pybuf_proved_delete_slice, pybuf_proved_extend, pybuf_proved_extend_by, pybuf_proved_insert,
    pybuf_proved_pop, pybuf_proved_pop_last, pybuf_proved_remove, pybuf_proved_repeat,
    pybuf_proved_reverse, pybuf_proved_take,
};
pub use formats::{
    pybuf_proved_format_clear, pybuf_proved_format_free, pybuf_proved_format_layout,
    pybuf_proved_format_pack, pybuf_proved_format_parse, pybuf_proved_format_put_bytes,
    pybuf_proved_format_put_number, pybuf_proved_format_unpack, pybuf_proved_format_value,
    pybuf_proved_format_value_bytes,
};
pub use lending::{LentToRead, LentToWrite, pybuf_proved_lend, pybuf_proved_lend_to_write};
pub use objects::{
    pybuf_proved_bytes, pybuf_proved_cast, pybuf_proved_cast_to_shape, pybuf_proved_compare,
    pybuf_proved_compare_with, pybuf_proved_contains, pybuf_proved_contains_byte, pybuf_proved_get,
    pybuf_proved_get_at, pybuf_proved_get_number, pybuf_proved_get_slice, pybuf_proved_items,
    pybuf_proved_iterate, pybuf_proved_length, pybuf_proved_new, pybuf_proved_next,
    pybuf_proved_property, pybuf_proved_release, pybuf_proved_set, pybuf_proved_set_at,
    pybuf_proved_set_slice, pybuf_proved_set_slice_of, pybuf_proved_shown,
    pybuf_proved_to_contiguous, pybuf_proved_to_readonly, pybuf_proved_view,
};
pub use replies::{
    pybuf_proved_last_bytes, pybuf_proved_last_kind, pybuf_proved_last_number,
    pybuf_proved_last_objects, pybuf_proved_last_part, pybuf_proved_last_part_count,
};
pub use worlds::{
    pybuf_proved_world_free, pybuf_proved_world_new, pybuf_proved_world_reply,
    pybuf_proved_world_run,
};
