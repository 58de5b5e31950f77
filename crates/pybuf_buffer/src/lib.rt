//! Lent buffers: Python's buffer protocol for users of the library. A buffer names a view of an
//! exporter, whose bytes it lends without a copy where they lie together, and appends item by item or
//! row by row where they don't. Beside them stands `step_of`, the one call that the methods of Python's
//! objects make.
#![tactic(auto)]

mod append;
mod buffer;
mod laws;
mod lending;
mod method_step;
mod views;

pub use buffer::PyBuffer;
pub use laws::{range_counts_are_bounded, range_counts_are_bounded_by_rows, ranges_are_counted};
pub use method_step::{step_of, step_without_loans};
pub use pybuf_value::Steps;
pub use views::live_descriptor;
