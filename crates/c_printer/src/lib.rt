//! The printed text of a program.
#![tactic(auto)]

mod declarations;
mod expressions;
mod gap;
mod items;
mod pieces;
mod shape;
mod spelling;
mod statements;
mod tops;
mod whole;

pub use whole::{print, print_to};
