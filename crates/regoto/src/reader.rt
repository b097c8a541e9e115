ghost use Rattle.std.specs.Prelude.{◌≡◌};

use crate::ready::ProgramReader;
use c_tree::Program;
use c_types::ReadStop;
use std::alloc::Global;

/// Reads texts of C (docs/SUBSET.md).
pub struct TextReader;

impl ProgramReader for TextReader {
    ghost use Rattle.c_text.specs.Reading.{IsProgramOf, IsRefusedFor};
    ghost use Rattle.c_text.proofs.Readings.{faultless, program_back};
    ghost use Rattle.std.proofs.Common.{refl, sym, ◌∙◌};
    ghost use Rattle.std.proofs.lemmas.Result.{IfOk-at_ok};

    ghost gives = { IsProgramOf };

    ghost refuses = { λ text refusal. IsRefusedFor text refusal };

    #[tactic(auto, using(crate::proofs::RunMains::enters_of))]
    fn read(&self, alloc: Global, text: &[u8]) -> Result<Program, ReadStop> {
        c_text::read(alloc, text)
    }

    ghost one = { λ text p q a b. IfOk-at_ok (λ z. p ≡ z) (sym (program_back text p a) ∙ program_back text q b) refl };

    ghost apart = { λ text p refusal a b. faultless text refusal b (p, a) };
}
