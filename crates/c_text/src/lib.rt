//! From a text to its program, with the jumps and labels of its flat forms counted.
#![tactic(auto)]

mod counting;
mod text;

pub use text::read;
