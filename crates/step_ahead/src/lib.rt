//! Several steps of a run made together: those of an expression without calls, and of the statement that it stands in.
#![tactic(auto)]

mod asking;
mod beginning;
mod computing;
mod finding;
mod going;
mod loops;
mod marks;
mod pushing;
mod statements;
mod storing;

pub use computing::{DEPTH, computed};
pub use going::advance;
pub use marks::Computed;
pub use storing::evaluated;
