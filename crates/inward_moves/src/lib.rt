//! Rule I: a jump goes into a later item that holds its label.
#![tactic(auto)]

mod entering;
mod finding;
mod inward;
mod numbers;

pub use inward::move_in;
