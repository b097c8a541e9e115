//! The places of the comments of a file.
#![tactic(auto)]

mod files;
mod frames;
mod labels;
mod lists;
mod notes;
mod statements;
mod steps;

pub use notes::place_notes;
