//! The variables of a program that is run step by step: those of the file and the slots of each call.
#![tactic(auto)]

mod room;
mod rooms;
mod seen;
mod store;
mod value;

pub use room::{Cells, Room};
pub use rooms::{FIRST, Rooms};
pub use seen::Seen;
pub use store::Store;
pub use value::{Owner, Value};
