ghost use Rattle.std.specs.Prelude.{◌≡◌, ◌+◌, true, All, IfOk};
ghost use Rattle.c_tree.specs.Jumps.{is_jump_free_program};
ghost use Rattle.jump_meaning.specs.Code.{code_of};
ghost use Rattle.jump_meaning.specs.Laws.{IsTopUnflat};
ghost use Rattle.c_resolved_laws.specs.Counts.{IsResolved};
ghost use Rattle.tidy_laws.specs.TidyBehaviourLaws.{BehaveAlike};
ghost use Rattle.tidy_laws.specs.Ends.{IsTidied, variables};

use crate::functions::change_tops;
use c_tree::Program;
use c_types::{List, Memory};
use plain_form::plain;
use std::alloc::Global;

/// Turns guards of a program without jumps back into `break` and `continue`, where a guard serves one loop: the first
/// change that applies in the first function that has one, one after another until none applies; then the sections of
/// switches get their ends. Answers that program and the number of changes. Let the program be a resolved one. Then from
/// every entry, on every input and all answers, both end, trap or run on alike, and each change has taken one variable
/// away. Want of memory is the only failure, and numbers that no `u64` counts and levels that no `u32` numbers count as
/// that. The program is given up then.
pub fn tidy(alloc: Global, program: Program) -> Result<(Program, u64), Memory>
    requires { All IsTopUnflat program.tops }
    ensures tidied { IfOk result (λ r. IsTidied program r.1 r.0) }
    ensures behaves { IfOk result (λ r. IsResolved program → is_jump_free_program program ≡ true → BehaveAlike (code_of program) (code_of r.0)) }
    ensures counted { IfOk result (λ r. IsResolved program → is_jump_free_program program ≡ true → r.1 + variables r.0.tops ≡ variables program.tops) }
{
    let mut program = program;
    let changes = change_tops(alloc, &mut program.tops)?;
    let made = plain(alloc, &List::new(alloc), program)?;
    Ok((made, changes))
}
