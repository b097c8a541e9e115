//! Where Leaps and Lands stand in a body, and how one stands to the other.
#![tactic(auto)]

mod choice;
mod first;
mod marks;
mod places;
mod search;

pub use choice::rule_at;
pub use first::{first_leap, first_leap_from, first_place};
pub use marks::{first_land, has_land, holds, is_land, label_at, land_after};
pub use places::{Rule, level, offset, outermost, path_into, path_under, relation};
pub use search::place_of;
