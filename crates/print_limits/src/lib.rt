//! Whether the printed text of a program is within the limits of nesting, and of the counted tokens of a full
//! expression (docs/SUBSET.md).
#![tactic(auto)]

mod counted;
mod expressions;
mod items;
mod levels;
mod tops;

pub use tops::is_within_limits;
