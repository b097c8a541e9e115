//! The plain form of a program: guards of labels are variables, tests and selectors are expressions, and the
//! sections of switches have their ends (docs/REWRITING.md).
#![tactic(auto)]

mod expressions;
mod functions;
mod items;
mod left;
mod sections;
mod slots;
mod staying;
mod tops;

pub use tops::plain;
