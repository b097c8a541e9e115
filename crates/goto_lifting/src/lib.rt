//! Rule L: a jump is lifted before an earlier item that holds its label.
#![tactic(auto)]

mod lifting;

pub use lifting::lift;
