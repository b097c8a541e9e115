//! The changes at one loop by which a guard is turned back into `break` or `continue`: the slot of the one that
//! is to be taken, told by reading, the sets and checks of that slot at tails, and the list that the change makes.
#![tactic(auto)]

mod allowing;
mod counts;
mod exit_law;
mod exits;
mod forms;
mod levels;
mod making;
mod reading;
mod remaining;
mod tails;
mod ways;

ghost use Rattle.tidy_loops.specs.LoopLaws.{LoopLaws};

pub use allowing::{break_slot, continue_slot};
pub use counts::{count_of, guard_counts};
pub use exit_law::exit_laws;
pub use forms::{is_it, off_slot, place_slot};
pub use levels::deeper;
pub use making::{broken, continued};
pub use reading::is_declaration;
pub use remaining::names_otherwise;

/// At a loop at most one change by `break` and one by `continue` apply: those of the slots that are read.
#[tactic(auto, using(crate::proofs::AtLoop::loop_laws_hold))]
pub fn loop_laws()
    ensures { LoopLaws }
{}
