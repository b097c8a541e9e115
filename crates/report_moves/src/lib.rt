//! The moves of a derivation, as the report names them, and the text of the report.
//!
//! The definition of the text stands in specs/Report.
#![tactic(auto)]

mod moves;
mod naming;

ghost use Rattle.report_moves.specs.Laws.{ReportLaws};

pub use moves::{Move, MoveKind};
pub use naming::{has_name, named_move};

/// No two lists of moves have one text, and a text is either a report or has one first bad line.
pub fn report_laws()
    ensures { ReportLaws }
{}
