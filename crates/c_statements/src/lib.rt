//! Statements: the items that they are, and their violations.
#![tactic(auto)]

mod anchors;
mod arrays;
mod cases;
mod depth;
mod entries;
mod extents;
mod initialisers;
mod label_list;
mod label_numbers;
mod labels;
mod locals;
mod longest;
mod measures;
mod nodes;
mod notes;
mod slots;

pub use anchors::Anchor;
pub use arrays::{count_values, extent_of, is_bad_shape, read_length};
pub use cases::report_cases;
pub use depth::{body_depth, list_depth};
pub use entries::Entry;
pub use extents::{Extent, Kinded, Length};
pub use initialisers::{initial, or_placeholder, value};
pub use label_list::{FunctionLabels, function_labels};
pub use label_numbers::LabelNumbers;
pub use labels::{body_labels, list_labels};
pub use locals::{add_declaration, is_array, kind_in, kinded};
pub use longest::{body_longest, list_longest};
pub use measures::Measures;
pub use nodes::{greater, is_token};
pub use notes::Notes;
pub use slots::{cells_of, declare};
