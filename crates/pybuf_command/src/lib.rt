//! The words that are spoken to an exporter and to a world of exporters: kinds and subjects, commands
//! and replies, what the handles of a command are lent as, the names of methods of strings of bytes, and what
//! new bytes are made of.
#![tactic(auto)]

mod arity;
mod commands;
mod handles;
mod kinds;
mod laws;
mod loans;
mod methods;
mod options;
mod replies;
mod shown;
mod verb_copies;
mod worlds;

pub use arity::takes;
pub use commands::{LocalCommand, LocalReply, PropertyName, Verb};
pub use handles::{handle_alone, handles_of, handles_of_options, handles_read, loan_of};
pub use kinds::{ExporterKind, Subject};
pub use laws::{equal_commands_are_the_same, equal_replies_are_the_same};
pub use loans::{Loan, LoanList};
pub use methods::{MethodCall, MethodName};
pub use options::ByteInnerNewOptions;
pub use worlds::{Command, Reply, ReplyList};
