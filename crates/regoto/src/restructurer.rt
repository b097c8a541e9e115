ghost use Rattle.std.specs.Prelude.{◌≡◌};

use c_types::ReadStop;
use cmd_files::{Translation, Translator};
use cmd_words::Summary;
use move_driver::{Counts, Written, restructure_text};
use std::alloc::Global;

/// Restructures texts.
pub struct Restructurer;

impl Translator for Restructurer {
    ghost use Rattle.c_text.specs.Reading.{IsInSubset, IsRefusedFor};
    ghost use Rattle.c_text.proofs.Readings.{faultless};
    ghost use Rattle.regoto.specs.Restructure.{IsRestructuredTo};

    ghost gives = { IsRestructuredTo };

    ghost accepts = { IsInSubset };

    ghost refuses = { λ text refusal. IsRefusedFor text refusal };

    #[tactic(auto, using(crate::proofs::Rewritten::report_law))]
    fn translate(&self, alloc: Global, text: &[u8]) -> Result<Translation, ReadStop> {
        let Written {
            text,
            report,
            counts,
        } = restructure_text(alloc, text)?;
        let Counts {
            jumps,
            moves,
            guards,
        } = counts;
        Ok(Translation {
            text,
            report,
            summary: Summary::Restructured {
                jumps,
                moves,
                guards,
            },
        })
    }

    ghost apart = { λ text refusal inside refused. faultless text refusal refused inside };
}
