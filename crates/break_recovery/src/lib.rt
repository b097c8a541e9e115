//! Guards turned back into `break` and `continue`, one change after another, and the law of which change comes
//! next.
#![tactic(auto)]

mod boxes;
mod fronts;
mod functions;
mod held;
mod here;
mod places;
mod program;
mod quiet;
mod rest;
mod search;
mod search_law;
mod steady;
mod walk;

pub use program::tidy;
pub use search_law::search_laws;
