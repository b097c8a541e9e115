//! The report of the moves: written, and read back. Its text is defined in report_moves/specs/Report.
#![tactic(auto)]

mod line;
mod read;
mod write;

pub use read::{ReportStop, read_report};
pub use report_moves::{Move, MoveKind};
pub use write::{report_to, write_report};
