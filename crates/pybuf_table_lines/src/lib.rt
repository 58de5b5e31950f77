//! Tables of records as texts: the words that ask for one, and a line for each of its records.
#![tactic(auto)]

mod laws;
mod listings;
mod queries;
mod texts;

pub use laws::rows_are_single_lines;
pub use listings::{Listing, listing_of_words};
pub use queries::Query;
pub use texts::push_left_over;
