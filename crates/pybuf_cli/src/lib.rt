//! What the program `pybuf` does, from the bytes that it reads to the bytes that it writes.
#![tactic(auto)]

mod adapters;
mod arrays;
mod devices;
mod failing;
mod forms;
mod laws;
mod loops;
mod memory;
mod nd;
mod putting;
mod serving;
mod sharing;
mod status;
mod tables;
mod writing;

pub use adapters::{ReaderSource, WriterSink};
pub use devices::{Failed, PutFault, Sink, Source};
pub use failing::{ListSink, ListSource};
pub use forms::{Form, form_named};
pub use laws::{runs_reply_single_lines, scripts_are_spelled};
pub use memory::{QuietSink, QuietSource};
pub use serving::{serve, serve_alone, serve_bytes, serve_gated};
pub use status::Status;
