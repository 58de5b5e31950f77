//! One exporter that threads share under a lock, with no history: what holds of it is an invariant that its user names.
#![tactic(auto)]

mod guarded;
mod invariant;
mod laws;
mod locked;
mod unchanged;
mod viewed;

pub use guarded::Guarded;
pub use invariant::{Anything, Invariant};
pub use laws::{commands_keep_views, viewed_exporters_keep_their_length};
pub use locked::LockedExporter;
pub use unchanged::{Opening, Unchanged, there_and_back};
pub use viewed::ViewMadeAt;
