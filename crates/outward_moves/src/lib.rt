//! Rule O: a jump goes out of the construct in whose list it stands.
#![tactic(auto)]

mod leaving;
mod outward;
mod sections;

pub use outward::move_out;
