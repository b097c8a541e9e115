//! The rewriting of a whole program, and of a text.
#![tactic(auto)]

mod counts;
mod program;
mod text;

pub use counts::{Counts, count, slot_counts};
pub use program::{flatten_program, restructure_program};
pub use text::{Written, restructure_text};
