//! The first jump of a text, for which it is refused where none may be. A file without one has no jumps as a program.
#![tactic(auto)]

mod file_jumps;
mod laws;
mod text_jumps;

ghost use Rattle.tidy_refusal.specs.JumplessLaws.{JumplessSources};

pub use file_jumps::first_jump;
pub use laws::text_jump_laws;
pub use text_jumps::text_jump;

/// No function has jumps whose file has neither a goto nor a case or default label that begins no section.
#[tactic(auto, using(crate::proofs::Files::jumpless_sources))]
pub fn jumpless_sources()
    ensures { JumplessSources }
{}
