//! What a resolved program is known to be.
//!
//! The predicate stands in c_resolved_defs. The functions here run no code: their contracts are the laws.
#![tactic(auto)]

ghost use Rattle.c_resolved_laws.specs.Laws.{ResolvedLaws};

/// A resolved program is in range, steady, printable, of kinds that agree, and plain where it has no jumps.
pub fn resolved_laws()
    ensures { ResolvedLaws }
{}
