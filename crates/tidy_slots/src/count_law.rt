//! How often a list names each slot.

ghost use Rattle.tidy_slots.specs.Laws.{CountLaws};

/// What the count says, and how it adds up.
#[tactic(auto, using(crate::proofs::CountLemmas::count_laws_hold))]
pub fn count_laws()
    ensures { CountLaws }
{}
