//! Names that are not used yet.
#![tactic(auto)]

mod file_names;
mod names;
mod used;

pub use file_names::FileNames;
pub use names::{fresh, numbered};
pub use used::UsedNames;
