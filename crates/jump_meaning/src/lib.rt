//! The meaning of programs with jumps, and the laws of runs.
//!
//! The definitions stand in specs/. Each function here runs no code: its contract is a law of them.
#![tactic(auto)]

ghost use Rattle.jump_meaning.specs.Laws.{MemoryLaws, RunLaws, SamenessLaws, SearchLaws, SteadyLaws};

/// What is stored is read again, and nothing else changes.
pub fn memory_laws()
    ensures { MemoryLaws }
{}

/// A search for a label comes to where it stands.
pub fn search_laws()
    ensures { SearchLaws }
{}

/// Runs add up, a run that is over stays as it is, and what is shown stays shown.
pub fn run_laws()
    ensures { RunLaws }
{}

/// Same behaviour is an equivalence, of runs and of programs.
pub fn sameness_laws()
    ensures { SamenessLaws }
{}

/// A program without guards is steady.
pub fn steady_laws()
    ensures { SteadyLaws }
{}
