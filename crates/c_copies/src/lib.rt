//! Copies of parts of a tree, and the names that stand in it.
#![tactic(auto)]

mod expressions;
mod gathered;
mod items;
mod listed_names;
mod name_set;
mod program_names;
mod rising_names;
mod slots;

pub use expressions::{copy_expression, copy_expressions, copy_option};
pub use items::{copy_item, copy_items, make_do, make_for, make_if, make_switch, make_while};
pub use listed_names::{add_names, add_slots};
pub use name_set::NameSet;
pub use program_names::{file_names, names};
pub use rising_names::RisingNames;
pub use slots::{copy_slot, copy_slots};
