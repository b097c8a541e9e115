//! The structural meaning of programs without jumps, and that it agrees with the meaning by steps.
//!
//! The definitions stand in specs/. The function here runs no code: its contract is a law of them.
#![tactic(auto)]

ghost use Rattle.struct_meaning.specs.Runs.{MeaningsAgree};

/// On programs without jumps both meanings agree.
#[tactic(auto, using(crate::proofs::Programs::meanings_agree_law))]
pub fn meanings_agree()
    ensures { MeaningsAgree }
{}
