//! The parts of an exporter: its bytes, its views and the count of its exports, what holds of them,
//! what of them is lent, and what each change of them keeps; and whether loans fit.
//!
//! The effects of commands work on these parts. Users of the library have them as `ExporterState` of
//! `pybuf_exporter`.
#![tactic(auto)]

mod fresh;
mod iterators;
mod laws;
mod lending;
mod loans;
mod names;
mod parts;
mod runs;
mod snaps;
mod store;
mod stored;
mod subjects;

pub use fresh::exporter_of_copy;
pub use iterators::StoredIterator;
pub use laws::{
    copies_are_faithful, copies_are_spaced, emptying_keeps, live_layouts_are_sound,
    live_layouts_lie_apart, moved_iterators_stay, new_exporters_are_spaced, new_iterators_stay,
    new_views_are_sound, new_views_keep, new_views_stay_apart, part_layouts_are_sound,
    reading_keeps, released_views_stay_apart, releasing_keeps, resizing_keeps,
    same_views_stay_apart, subjects_fit, whole_layouts_are_sound, writing_keeps,
};
pub use loans::FitLoans;
pub use names::{Meaning, Names, Other, are_known, is_option_known, is_value_known};
pub use parts::Parts;
pub use runs::{bytes_in_a_row, given, run_of};
pub use snaps::{lent_to, snap_of_subject};
pub use store::Store;
pub use stored::StoredView;
pub use subjects::{
    content_lent, content_of_meaning, content_of_other, content_of_subject, kind_of_meaning,
    kind_of_other, kind_of_subject, run_of_meaning, run_of_other, run_of_subject,
};
