//! Rule J: a jump whose label stands in the same list is joined with it.
#![tactic(auto)]

mod siblings;

pub use siblings::join;
