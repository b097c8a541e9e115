//! The plain form keeps behaviour: guards become variables, and sections get their ends.
//!
//! The definitions stand in specs/. The functions here run no code: their contracts are the laws.
#![tactic(auto)]

ghost use Rattle.plain_laws.specs.Laws.{PlainLaws};

/// A program that is ready behaves as its plain form does.
pub fn plain_laws()
    ensures { PlainLaws }
{}
