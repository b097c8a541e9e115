//! What `resolve` answers is a resolved program.
//!
//! The definition of resolving stands in c_scopes, the predicate in c_resolved_defs. The functions here run no code: their
//! contracts are the laws.
#![tactic(auto)]

ghost use Rattle.c_resolving_laws.specs.Laws.{ResolvingLaws};

/// The program that resolving answers has the kinds, values, declarations and order of a resolved program.
pub fn resolving_laws()
    ensures { ResolvingLaws }
{}
