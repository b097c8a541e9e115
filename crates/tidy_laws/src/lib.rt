//! The changes that turn a guard of a program without jumps into `break` or `continue`, and that take away variables
//! that are 0 wherever they are tested: as definitions, that they come to an end, and that each keeps the behaviour.
//!
//! The definitions stand in specs/. Each function here runs no code: its contract is a law of them.
#![tactic(auto)]

ghost use Rattle.tidy_laws.specs.TidyExitLaws.{LeavingLaws};
ghost use Rattle.tidy_laws.specs.TidyChangesLaws.{ChangeLaws};
ghost use Rattle.tidy_laws.specs.TidyZeroLaws.{SettledLaws};
ghost use Rattle.tidy_laws.specs.TidyBehaviourLaws.{TidyLaws};
ghost use Rattle.tidy_laws.specs.TidyNumberingLaws.{NumberLaws};

/// A jump that leaves a turn after a set keeps the runs of a program.
#[tactic(auto, using(crate::proofs::TidyExitPrograms::leaving_law))]
pub fn leaving_laws()
    ensures { LeavingLaws }
{}

/// Each change takes a variable away, so that after as many as there are variables none applies.
#[tactic(auto, using(crate::proofs::Reach::change_law))]
pub fn change_laws()
    ensures { ChangeLaws }
{}

/// A program without such variables runs as the program with them.
#[tactic(auto, using(crate::proofs::SettledRuns::settled_law))]
pub fn settled_laws()
    ensures { SettledLaws }
{}

/// Each change keeps the behaviour and takes a variable away.
#[tactic(auto, using(crate::proofs::TheLaws::tidy_law))]
pub fn tidy_laws()
    ensures { TidyLaws }
{}

/// To number the slots again after each that goes is to do so once.
#[tactic(auto, using(crate::proofs::TidyNumberingNumbers::number_laws_hold))]
pub fn number_laws()
    ensures { NumberLaws }
{}
