//! What a resolved program is lowered to is one program, resolved, within the limits of a text, and what its text reads
//! as.
//!
//! The definitions stand in specs/. The functions here run no code: their contracts are the laws.
#![tactic(auto)]

ghost use Rattle.lower_result_laws.specs.LoweredBehavesLaws.{LoweredProgramLaws};
ghost use Rattle.lower_result_laws.specs.LoweredResolvedLaws.{LoweredResolvedLaws};
ghost use Rattle.lower_result_laws.specs.LoweredRereadLaws.{LoweredReadingLaws};

/// A resolved program and what it is lowered to behave the same.
pub fn lowered_program_laws()
    ensures { LoweredProgramLaws }
{}

/// Where initialisers and selectors leave room for two tokens, what a resolved program is lowered to is resolved but for
/// the measures of its flat forms, and resolved where none of its functions is too tangled.
pub fn lowered_resolved_laws()
    ensures { LoweredResolvedLaws }
{}

/// Where initialisers and selectors leave room for two tokens, the text of what a resolved program is lowered to has no
/// fault but functions that are too tangled, and reads back where there is none.
pub fn lowered_reading_laws()
    ensures { LoweredReadingLaws }
{}
