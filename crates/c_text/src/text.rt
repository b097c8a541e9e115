ghost use Rattle.std.specs.Prelude.{◌≡◌, IfOk, IfErr, Err};
ghost use Rattle.c_types.specs.Stop.{Gives};
ghost use Rattle.c_resolved_laws.specs.Counts.{IsResolved};
ghost use Rattle.c_scopes.specs.Resolving.{resolved};
ghost use Rattle.c_text.specs.Reading.{counts_of, reading, IsProgramOf, IsInSubset, IsRefusedFor};

use crate::counting::FlatForms;
use c_tree::Program;
use c_types::{ReadStop, Refusal};
use std::alloc::Global;

/// The program of a text (docs/SUBSET.md): its tokens and comments are read, then the syntax that the tokens derive, then
/// names, kinds and statements are resolved. A text outside of the subset is refused at its first fault: with reason 2 to
/// 6 at the first byte that begins no token; else with reason 10 or 11 at the first token that fits nowhere or is over a
/// limit; else with reason 20 to 40 or 43 at the violation of the least place, and there the least reason. Want of memory
/// is the only other failure. The program is a resolved one, the condition of every call that takes programs.
#[tactic(auto, using(crate::proofs::Readings::refused_at, crate::proofs::Readings::never_refused, crate::proofs::Readings::refused_back, crate::proofs::Readings::program_read, crate::proofs::Resolved::resolved_of))]
pub fn read(alloc: Global, text: &[u8]) -> Result<Program, ReadStop>
    ensures value { Gives (λ p. p) result (reading text.now) }
    ensures resolved { IfOk result IsResolved }
    ensures program { IfOk result (IsProgramOf text.now) }
    ensures program_back { (p : Program) → IsProgramOf text.now p → IfOk result (λ it. it ≡ p) }
    ensures refused { (refusal : Refusal) → result ≡ Err (ReadStop.Refused refusal) → IsRefusedFor text.now refusal }
    ensures fault_back { (refusal : Refusal) → IsRefusedFor text.now refusal → reading text.now ≡ Err refusal }
    ensures complete { IsInSubset text.now → IfErr result (λ stop. stop ≡ ReadStop.Memory) }
{
    c_scopes::read(alloc, &FlatForms { alloc }, text)
}
