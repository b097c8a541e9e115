ghost use Rattle.std.specs.Prelude.{◌≡◌};

use crate::tidied_text::{Tidied, tidy_text};
use c_types::{List, ReadStop};
use cmd_files::{Translation, Translator};
use cmd_words::Summary;
use std::alloc::Global;

/// Tidies texts.
pub struct TextTidier;

impl Translator for TextTidier {
    ghost use Rattle.tidy_refusal.specs.TextJumps.{IsRefusedForJumps, IsWithoutJumps};
    ghost use Rattle.tidy_refusal.proofs.Jumpless.{apart};
    ghost use Rattle.regoto.specs.TidiedTexts.{IsTidiedTo};

    ghost gives = { IsTidiedTo };

    ghost accepts = { IsWithoutJumps };

    ghost refuses = { λ text refusal. IsRefusedForJumps text refusal };

    fn translate(&self, alloc: Global, text: &[u8]) -> Result<Translation, ReadStop> {
        match tidy_text(alloc, text) {
            Ok(Tidied { text, changes }) => Ok(Translation {
                text,
                // no report is made
                report: List::new(alloc),
                summary: Summary::Tidied { changes },
            }),
            Err(stop) => Err(stop),
        }
    }

    ghost apart = { λ text refusal without refused. apart text refusal without refused };
}
