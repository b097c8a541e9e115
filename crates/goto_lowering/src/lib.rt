//! Programs in which each function is one flat list of gotos, with labels numbered in text order, and with
//! names for the variables and labels that it makes.
#![tactic(auto)]

mod bodies;
mod functions;
mod labels;
mod listing;
mod program;
mod renumbering;
mod whole;

pub use bodies::{LoweredBody, lower_body};
pub use listing::constructs;
pub use program::lower;
pub use whole::name_lowered;
