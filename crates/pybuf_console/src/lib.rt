//! A world with the replies that are kept of what was asked of it, and the handle by which a program in C holds it.
#![tactic(auto)]

mod address;
mod console;
mod handle;
mod inputs;
mod replies;
mod values;

pub use console::Console;
pub use handle::WorldHandle;
pub use replies::{kind_of, number_of, objects_of, part_at, part_count};
pub use values::{
    SliceWords, bytes_value, number_value, object_value, slice_of, source_of, text_value, tuple_of,
};
