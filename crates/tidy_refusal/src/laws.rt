//! What is known of a text without jumps.

ghost use Rattle.tidy_refusal.specs.Laws.{TextJumpLaws};

/// No function of a text without jumps has any, and no such text is refused.
#[tactic(auto, using(crate::proofs::Jumpless::text_jump_laws))]
pub fn text_jump_laws()
    ensures { TextJumpLaws }
{}
