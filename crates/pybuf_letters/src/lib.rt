//! Classes and cases of bytes, and bytes cut at their ends, at their blanks and into lines.
#![tactic(auto)]

mod blanks;
mod cases;
mod classes;
mod laws;
mod lines;
mod parts;
mod strips;

pub use blanks::{blank_parts_from_last, rsplit_at_blanks, split_at_blanks};
pub use cases::{capitalize, lower, swapcase, title, upper};
pub use classes::{
    is_alnum, is_alpha, is_digit, is_lower, is_py_ascii_whitespace, is_space, is_title, is_upper,
};
pub use laws::{
    cases_alone_are_changed, cases_settle, cuts_lose_blanks_alone, cuts_take_the_nearest_runs,
    cuts_without_bound_are_the_runs, lines_are_the_bytes, lines_end_where_ends_stand,
    runs_come_back, runs_stand_between_blanks, strips_take_named_bytes, strips_take_the_ends_alone,
    titles_change_letters, titles_stay,
};
pub use lines::split_lines;
pub use strips::{strip, strip_left, strip_right};
