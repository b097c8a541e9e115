use c_tree::Path;
use report_moves::MoveKind;

/// What is kept of a move of a Leap: its kind, its label, and where the Leap stands before it.
#[derive(Drop, PartialEq, Eq)]
pub struct Kept {
    pub kind: MoveKind,
    /// The number of the label.
    pub label: u32,
    /// Where the Leap stands before the move.
    pub path: Path,
}
