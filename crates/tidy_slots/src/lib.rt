//! The slots that a list names: whether it names one, how often it names each, and their new numbers once some
//! are gone, in place.
#![tactic(auto)]

mod count_expressions;
mod count_items;
mod count_law;
mod mention_expressions;
mod mention_items;
mod numbers;
mod renumber_expressions;
mod renumber_items;

pub use count_items::count_list;
pub use count_law::count_laws;
pub use mention_expressions::names;
pub use mention_items::{
    item_names, items_name, list_names, part_names, selector_names, test_names,
};
pub use numbers::{Numbers, new_number, new_numbers, remove_gone};
pub use renumber_expressions::{renumber_expression, renumbered_option, renumbered_values};
pub use renumber_items::{renumber_list, renumbered_test};
