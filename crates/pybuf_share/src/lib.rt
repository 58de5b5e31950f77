//! One exporter that threads share: what lies under its lock, with its history beside it, the sessions that make it,
//! and what these have to show at the end.
#![tactic(auto)]

mod begun;
mod carrying;
mod checks;
mod entries;
mod gate;
mod joined;
mod laws;
mod logged;
mod part_log;
mod parts;
mod resolving;
mod running;
mod session;
mod shared;
mod worker;

pub use begun::Begun;
pub use entries::{
    Entry, EntryList, LocalCommandList, Receipt, ReceiptList, ScriptList, SharedCommand,
};
pub use gate::{Gate, OpenGate};
pub use joined::{FinishFault, Joined, Part};
pub use laws::{
    joined_entries_are_the_scripts, legal_histories_are_of_one_thread,
    legal_parts_are_of_one_thread, parts_make_one_history, receipts_are_the_entries,
};
pub use logged::Logged;
pub use parts::PartExporter;
pub use running::run_sessions;
pub use session::Session;
pub use shared::SharedExporter;
