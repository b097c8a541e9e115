//! The sets and checks of a slot in a list at a tail: how many there are, and how each set becomes a jump and each
//! check gives way to its list.

ghost use Rattle.tidy_loops.specs.ExitLaws.{ExitLaws};

/// What goes with a change.
#[tactic(auto, using(crate::proofs::Gone::exit_laws_hold))]
pub fn exit_laws()
    ensures { ExitLaws }
{}
