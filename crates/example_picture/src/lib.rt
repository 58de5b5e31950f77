//! A picture whose parts are views that share its bytes.
#![tactic(auto)]

mod canvas;
mod parts;

pub use canvas::Picture;
