//! Seven users of the library, each with a contract in words of its own; the picture is a crate below.
#![tactic(auto)]

mod elf_file;
mod handover;
mod interpreter;
mod line_buffer;
mod number_array;
mod weather_log;

pub use elf_file::{SectionTable, read_section_table, read_sections, section_records};
pub use example_picture::Picture;
pub use handover::Handover;
pub use interpreter::{Interpreter, Statement};
pub use line_buffer::LineBuffer;
pub use number_array::NumberArray;
pub use weather_log::{Header, Reading, WeatherLog, read_header, read_reading};
