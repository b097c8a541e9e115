//! What the flat form asks of a body: which labels are named, which switches are scattered, what is
//! jumpy, and how lists end.
#![tactic(auto)]

mod arrivals;
mod cases;
mod endings;
mod exits;
mod jumps;
mod named;
mod selectors;

pub use arrivals::{has_arrival, is_scattered, switch_has_default};
pub use cases::{case_number, case_numbers};
pub use endings::{Ending, ends_by, is_gone, keeps_break, leaves};
pub use exits::{has_break, has_continue, sections_have_continue};
pub use jumps::{has_jumps, holds_jump, is_flagged, sections_hold_jump};
pub use named::named_labels;
pub use selectors::{selector_source, switch_kind};
