use c_tree::{Expression, Item};
use c_types::List;

/// What is read of a section of a switch, or what stands in front of the first.
#[derive(Drop)]
pub struct Reading {
    /// Whether it is a section.
    pub begun: bool,
    /// The constants of its case labels.
    pub cases: List<Expression>,
    /// Whether it has the label `default`.
    pub default: bool,
    pub list: List<Item>,
}
