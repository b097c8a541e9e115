//! The next change of a body, told item by item, and that it is the same where slots have other numbers.
//!
//! The definitions stand in specs/. The functions here run no code: their contracts are the laws.

ghost use Rattle.break_recovery.specs.Laws.{SearchLaws};

/// The next change of a body, told item by item.
#[tactic(auto, using(crate::proofs::BodyLaws::search_laws_hold))]
pub fn search_laws()
    ensures { SearchLaws }
{}
