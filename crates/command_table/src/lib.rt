//! The table of the commands: which work on texts the words of a command ask for, and on what. It is proved for any
//! works, so that a wrong table is tried where a check is cheap.
#![tactic(auto)]

mod table;
mod works;

pub use table::carry_out;
pub use works::Works;
