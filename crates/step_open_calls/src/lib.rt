//! Whether a program calls a function that has no body.
#![tactic(auto)]

mod bodies;
mod expressions;

pub use bodies::has_open_call;
