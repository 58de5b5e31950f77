//! Views that borrow their exporter, and are released where they end.
#![tactic(auto)]

mod contents;
mod group;
mod laws;
mod numbered;
mod owner;
mod scoped;
mod stop;
mod view;

pub use group::{Member, ViewGroup};
pub use laws::{groups_leave_no_export, scopes_leave_no_export};
pub use owner::Owner;
pub use scoped::Scoped;
pub use stop::{Cause, Stop};
pub use view::View;
