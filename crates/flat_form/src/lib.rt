//! The flat form of a function, and of its body alone: labels are numbered in text order, gotos and labels are counted.
#![tactic(auto)]

mod bodies;
mod clearing;
mod counting;
mod exits;
mod flat_bodies_labels;
mod flat_counts_labels;
mod forms;
mod gotos;
mod labels;
mod made;
mod most;
mod places;
mod renumbering;
mod strays;
mod sums;

pub use bodies::{FlatBody, flat_body};
pub use counting::{flat_counts, gotos_in};
pub use flat_bodies_labels::labels_in;
pub use forms::flatten_function;
pub use most::most_counts;
pub use places::places_of;
