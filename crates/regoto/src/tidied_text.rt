ghost use Rattle.std.specs.Prelude.{◌≡◌, IfOk, IfErr, Err};
ghost use Rattle.tidy_refusal.specs.TextJumps.{IsRefusedForJumps, IsWithoutJumps};
ghost use Rattle.regoto.specs.Tidied.{IsTextTidied, IsOnlyText};

use break_recovery::tidy;
use c_printer::print;
use c_text::read;
use c_types::{Bytes, ReadStop, Refusal};
use move_driver::restructure_program;
use std::alloc::Global;
use tidy_refusal::text_jump;

/// A tidied text.
#[derive(Drop)]
pub struct Tidied {
    pub text: Bytes,
    /// How many guards are `break` or `continue` again.
    pub changes: u64,
}

/// Tidies a text: reads its program, drops its labels, turns guards back into `break` and `continue` where a guard serves
/// one loop, and prints what comes of it. A text is refused exactly if it is outside of the subset, at its first fault
/// (docs/SUBSET.md), or else if it has a jump, with reason 60 at its first one. Want of memory is the only other failure.
pub fn tidy_text(alloc: Global, text: &[u8]) -> Result<Tidied, ReadStop>
    ensures tidied { IfOk result (IsTextTidied text.now) }
    ensures only { IfOk result (IsOnlyText text.now) }
    ensures refused { (refusal : Refusal) → result ≡ Err (ReadStop.Refused refusal) → IsRefusedForJumps text.now refusal }
    ensures complete { IsWithoutJumps text.now → IfErr result (λ stop. stop ≡ ReadStop.Memory) }
{
    let program = read(alloc, text)?;
    if let Some(refusal) = text_jump(alloc, text)? {
        return Err(ReadStop::Refused(refusal));
    }
    let (plain, _) = restructure_program(alloc, program)?;
    let (result, changes) = tidy(alloc, plain)?;
    let text = print(alloc, &result)?;
    Ok(Tidied { text, changes })
}
