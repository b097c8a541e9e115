//! The resolved tree of a C file, its paths, the sections of its switches, and the view of an item as a tree for proofs.
#![tactic(auto)]

mod paths;
mod sections;
mod tree;

ghost use Rattle.c_tree.specs.Views.{ViewLaws};

pub use paths::{child, find_list, fits, list_at, replace_at};
pub use sections::labels_passed;
pub use tree::{
    BinaryOp, Branch, EnumItem, Expression, Function, GlobalVariable, Home, Item, Node, Path,
    Place, Program, Section, Selector, Slot, Step, Test, Top, UnaryOp,
};

/// What a walk over items needs of their trees.
pub fn view_laws()
    ensures { ViewLaws }
{}
