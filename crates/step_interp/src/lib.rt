//! Runs a program with jumps step by step, on an input and towards an output: how calls begin and end, what
//! the functions of the library do, and the run as it stands at one time.
#![tactic(auto)]

mod calling;
mod entry;
mod files;
mod formats;
mod functions;
mod known;
mod lookup;
mod machine;
mod runs;
mod skipping;
mod slots;
mod spare;
mod starts;
mod steps;

pub use calling::invoke;
pub use entry::{Entry, is_entry};
pub use formats::printed;
pub use functions::{Functions, Routine, functions_of, routine_of};
pub use lookup::{cells_of, definition, global_cells};
pub use machine::{MOST_CELLS, Machine, Next};
pub use runs::{RunAnswer, run};
pub use slots::rooms_at_start;
