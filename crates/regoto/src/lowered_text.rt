ghost use Rattle.std.specs.Prelude.{◌≡◌, IfOk, IfErr, Err};
ghost use Rattle.c_text.specs.Reading.{IsInSubset, IsRefusedFor};
ghost use Rattle.regoto.specs.Lowered.{IsTextLowered, IsOnlyText};

use c_printer::print;
use c_text::read;
use c_types::{Bytes, ReadStop, Refusal};
use goto_lowering::lower;
use std::alloc::Global;

/// A text that is lowered.
#[derive(Drop)]
pub struct Lowered {
    pub text: Bytes,
    /// How many gotos its program has.
    pub gotos: u64,
}

/// Lowers a text: reads its program, makes the body of each function one flat list of gotos, and prints what comes
/// of it. A text is refused exactly if it is outside of the subset, at its first fault (docs/SUBSET.md). Want of
/// memory is the only other failure.
pub fn lower_text(alloc: Global, text: &[u8]) -> Result<Lowered, ReadStop>
    ensures lowered { IfOk result (IsTextLowered text.now) }
    ensures only { IfOk result (IsOnlyText text.now) }
    ensures refused { (refusal : Refusal) → result ≡ Err (ReadStop.Refused refusal) → IsRefusedFor text.now refusal }
    ensures complete { IsInSubset text.now → IfErr result (λ stop. stop ≡ ReadStop.Memory) }
{
    let program = read(alloc, text)?;
    let (program, gotos) = lower(alloc, program)?;
    let text = print(alloc, &program)?;
    Ok(Lowered { text, gotos })
}
