//! The items of a flat list of gotos, made of the items of a body, which are moved and not copied.
#![tactic(auto)]

mod cases;
mod jumps;
mod loops;
mod pieces;
mod plans;
mod simple;
mod values;
mod walk;
mod written;

pub use plans::Plan;
pub use walk::{Lowered, lower_list};
