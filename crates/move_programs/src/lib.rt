//! The derivation of a program in place, from the flat forms of its functions to bodies without jumps, as
//! simple as they get.
#![tactic(auto)]

mod all_tops;
mod converting;
mod counting;
mod one_function;

pub use all_tops::move_program;
pub use converting::convert_function;
pub use counting::join_count;
pub use one_function::move_function;
