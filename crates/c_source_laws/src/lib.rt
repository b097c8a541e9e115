//! The syntax of a text, its derivation and the source trees that it writes: what derives the one derives the others, and
//! they are within the limits of a file and have all that the laws of resolving ask of them.
//!
//! The functions here run no code: their contracts are the laws.
#![tactic(auto)]

ghost use Rattle.c_source_laws.specs.DerivedLaws.{DerivedLaws};
ghost use Rattle.c_source_laws.specs.LimitLaws.{LimitLaws};
ghost use Rattle.c_source_laws.specs.SourceLaws.{SourceLaws};

/// The source of a derived text has what resolving asks of it (ISO/IEC 9899:2011, 6.5 to 6.9).
pub fn derived_laws()
    ensures { DerivedLaws }
{}

/// A derived text is read whole, with its limits (ISO/IEC 9899:2011, 5.2.4.1), its directives and its comments.
pub fn limit_laws()
    ensures { LimitLaws }
{}

/// The typed derivation of a text is that of its syntax (ISO/IEC 9899:2011, 6.5 to 6.9).
#[tactic(auto, using(crate::proofs::TheSourceLaws::source_laws))]
pub fn source_laws()
    ensures { SourceLaws }
{}
