//! Guards of labels: the conversion of gotos, and the names of the variables for guards.
#![tactic(auto)]

mod conversion;
mod names;

pub use conversion::convert;
pub use names::{guard_names, guard_names_beside};
