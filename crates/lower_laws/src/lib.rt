//! Functions as flat lists of gotos, with the names that lowering gives: as a definition on plain trees, and that they
//! behave as before.
//!
//! The definitions stand in specs/. Each function here runs no code: its contract is a law of them.
#![tactic(auto)]

ghost use Rattle.lower_laws.specs.Laws.{LoweredLaws};

/// Where functions become flat lists of gotos, a program behaves as before.
pub fn lowered_laws()
    ensures { LoweredLaws }
{}
