//! The names that a flat form makes: of variables, and of labels.
#![tactic(auto)]

mod constructs;
mod giving;
mod labels;
mod numbers;
mod variables;
mod whole;

pub use labels::{made_name, own_name};
pub use variables::name_slots;
pub use whole::{FlatNames, ProgramNames, name_flat};
