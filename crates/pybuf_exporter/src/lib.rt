//! Exporters of bytes, the views of them, and the iterators over them.
#![tactic(auto)]

mod closing;
mod copying;
mod counted;
mod direct;
mod exporter;
mod laws;
mod lengths;
mod pick;
mod plain;
mod uncounted;

pub use exporter::ExporterState;
pub use laws::{
    adding_itself_is_refused, buffer_error_is_of_edits, column_casts_give_the_bytes_back,
    commands_keep_items_apart, commands_keep_sound, fresh_replies_are_copies, items_are_read,
    iteration_changes_nothing_else, iterators_give_the_bytes, iterators_give_the_items,
    iterators_stay, iterators_stop_or_stay, lengths_stay, names_alike_do_the_same,
    orders_hold_the_same_items, others_leave_iterators, owning_replies_change_nothing,
    queues_move_few_bytes, reading_in_place_changes_nothing, readonly_bytes_stay,
    refused_commands_change_nothing, released_views_dont_count, released_views_stop_no_edit,
    replied_names_are_there, resizing_is_refused_while_exported, shown_texts_are_one_line,
    snaps_hold_the_items, steps_assign_by_value, struct_error_is_never_replied, subjects_stay,
    unknown_handles_are_refused, views_are_replied,
};
pub use pybuf_command::{
    ExporterKind, Loan, LoanList, LocalCommand, LocalReply, PropertyName, Subject, Verb,
    handles_of, handles_read,
};
pub use pybuf_desc::{
    casts_share_their_bytes, contiguity_is_of_strides, shaped_casts_share_their_bytes,
    slicing_back_twice_is_nothing,
};
pub use pybuf_state::copies_are_faithful;
pub use pybuf_verbs_compare::equal_views_hash_alike;
pub use pybuf_verbs_methods::{lents_are_paired, names_are_found};
pub use pybuf_verbs_reads::lists_hold_the_items;
pub use pybuf_verbs_views::casts_are_of_bytes;
pub use pybuf_verbs_writes::{assignments_are_by_value, writes_are_seen};
