//! The items of a flat form, written beside the body that they come from.
#![tactic(auto)]

mod cases;
mod exits;
mod pieces;
mod places;
mod plans;
mod values;
mod walk;

pub use pieces::{
    add, add_break, add_continue, add_end, add_goto, add_initialised, add_label, add_mark,
};
pub use places::{CasePlaces, no_places, place_of, places_of};
pub use plans::{Aim, Here, Places, Plan, Scope, entered, label_of};
pub use values::{assignment, case_test, jump};
pub use walk::{add_section, write_body};
