//! A program after the moves of a report, in whatever order they were chosen (docs/REWRITING.md). The moves are made
//! in place, as far as each is lawful. Functions are found by their names.
#![tactic(auto)]

mod all_moves;
mod lines;
mod making;
mod one_move;
mod places;
mod reading;
mod replaying;

pub use replaying::replay;
