//! The core of a body, the goto program that lies under it, and why what keeps the core keeps behaviour.
//!
//! The definitions stand in specs/. The function here runs no code: its contract is the law.
#![tactic(auto)]

ghost use Rattle.core_laws.specs.Laws.{CoreLaws};

/// A steady program behaves as each program with the same core does, and that is steady too.
pub fn core_laws()
    ensures { CoreLaws }
{}
