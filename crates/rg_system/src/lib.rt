//! The system's files and streams as ports. A file is replaced as a whole, with its permissions (docs/COMMANDS.md). These
//! ports tell no contents.
#![tactic(auto)]

mod replacing;
mod shelf;
mod streams;

pub use shelf::FileShelf;
pub use streams::{ErrPort, InPort, OutPort};

#[cfg(test)]
mod port_tests;
