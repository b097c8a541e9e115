//! The simplifications of a body, each made in place: Z1 to Z4, and Z5, by which a guard goes that nothing
//! reads.
#![tactic(auto)]

mod apply;
mod drops;
mod edits;
mod joining;
mod wrappers;

pub use apply::edit_at;
pub use drops::drop_guard;
