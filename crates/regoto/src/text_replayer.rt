ghost use Rattle.std.specs.Prelude.{◌≡◌};

use crate::replayer::Replayer;
use c_printer::print;
use c_tree::Program;
use c_types::{List, ReadStop};
use cmd_files::Translation;
use cmd_words::Summary;
use move_driver::Counts;
use std::alloc::Global;

/// Reads texts of C (docs/SUBSET.md), and makes the moves of reports in their programs (docs/REWRITING.md).
pub struct TextReplayer;

impl Replayer for TextReplayer {
    ghost use Rattle.c_resolved_laws.specs.Counts.{IsResolved};
    ghost use Rattle.c_text.specs.Reading.{IsProgramOf, IsRefusedFor};
    ghost use Rattle.c_text.proofs.Readings.{faultless, program_back};
    ghost use Rattle.move_replay.specs.Replay.{IsReplay, IsRefusal};
    ghost use Rattle.move_replay.proofs.Once.{not_both};
    ghost use Rattle.regoto.specs.Reports.{IsAccepted, IsReplayedTo};
    ghost use Rattle.std.proofs.Common.{refl, sym, ◌∙◌};
    ghost use Rattle.std.proofs.lemmas.Result.{IfOk-at_ok};

    ghost reads = { IsProgramOf };

    ghost refuses = { λ text refusal. IsRefusedFor text refusal };

    ghost ready = { IsResolved };

    ghost gives = { IsReplayedTo };

    ghost accepts = { IsAccepted };

    ghost rejects = { λ program report refusal. IsRefusal program report refusal };

    fn read(&self, alloc: Global, text: &[u8]) -> Result<Program, ReadStop> {
        c_text::read(alloc, text)
    }

    fn replay(
        &self,
        alloc: Global,
        program: Program,
        report: &[u8],
    ) -> Result<Translation, ReadStop> {
        let (made, counts) = move_replay::replay(alloc, program, report)?;
        let text = print(alloc, &made)?;
        let Counts { moves, guards, .. } = counts;
        Ok(Translation {
            text,
            // the report was given
            report: List::new(alloc),
            summary: Summary::Replayed { moves, guards },
        })
    }

    ghost one = { λ text p q a b. IfOk-at_ok (λ z. p ≡ z) (sym (program_back text p a) ∙ program_back text q b) refl };

    ghost apart = { λ text p refusal a b. faultless text refusal b (p, a) };

    ghost report_apart = { λ p report refusal resolved a b. not_both p resolved report a.0 a.1 refusal a.2 b };
}
