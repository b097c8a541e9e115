use c_tree::Path;
use c_types::Name;

/// The rule or the simplification of a move (docs/REWRITING.md); the report names it by these letters and numbers.
#[derive(Clone, Copy, Debug, PartialEq, Eq)]
pub enum MoveKind {
    /// Rule O.
    Out,
    /// Rule L.
    Lift,
    /// Rule I.
    Inward,
    /// Rule J.
    Join,
    /// A made `if` with empty lists goes.
    Z1,
    /// A wrapper goes from a test or a selector, where one around it has its kind and label.
    Z2,
    /// Two neighbours that are `if`s on one guard, and ask that it is off, become one.
    Z3,
    /// A made `if` whose list is one made `if` becomes one with it.
    Z4,
    /// A guard that no test and no selector reads goes.
    Z5,
}

/// One move of a derivation.
#[derive(Drop, PartialEq, Eq)]
pub struct Move {
    /// The name of the function.
    pub function: Name,
    pub kind: MoveKind,
    /// The name of the label, or `None` for Z1 and Z4.
    pub label: Option<Name>,
    /// Where the Leap stands before the move, or the place of the simplification.
    pub path: Path,
}
