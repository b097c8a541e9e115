//! Which simplifications apply to a body without jumps, which of them is next, and that they keep its
//! behaviour.
//!
//! The definitions stand in specs/Choice and specs/Application.
#![tactic(auto)]

mod choice;
mod find;
mod marks;
mod repeats;
mod resume;
mod shapes;

ghost use Rattle.guard_simplify.specs.Laws.{ChoiceLaws};

pub use choice::{Choice, Repeat};
pub use find::{first_choice, item_at, neighbours, own_of_kind};
pub use marks::barred_labels;
pub use repeats::repeat_of;
pub use resume::choice_from;

/// Simplifications keep a body well made, a steady program steady, and its behaviour.
pub fn choice_laws()
    ensures { ChoiceLaws }
{}
