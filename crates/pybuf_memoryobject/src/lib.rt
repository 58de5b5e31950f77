//! Python's `memoryview` as a value, with a method for each command that it has, its iterator, and vectors
//! that lend their bytes.
#![tactic(auto)]

mod iterator;
mod laws;
mod memory_view;
mod plain_view;
mod vec_buffer;
mod view_methods;
mod views;

pub use iterator::PyMemoryViewIterator;
pub use laws::{
    plain_assignments_are_commands, plain_items_are_commands, plain_views_are_commands,
};
pub use memory_view::PyMemoryView;
pub use vec_buffer::VecBuffer;
