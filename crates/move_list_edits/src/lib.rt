//! Edits of a list in place: items are moved, never copied, and a refusal of memory leaves the list
//! as it was.
#![tactic(auto)]

mod edits;
mod guards;

pub use edits::{cut, drop_at, insert_at, set_at};
pub use guards::{and_off, guard_between, or_on};
