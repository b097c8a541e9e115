ghost use Rattle.std.specs.Prelude.{◌≡◌};

use crate::lowered_text::{Lowered, lower_text};
use c_types::{List, ReadStop};
use cmd_files::{Translation, Translator};
use cmd_words::Summary;
use std::alloc::Global;

/// Lowers texts.
pub struct TextLowerer;

impl Translator for TextLowerer {
    ghost use Rattle.c_text.specs.Reading.{IsInSubset, IsRefusedFor};
    ghost use Rattle.c_text.proofs.Readings.{faultless};
    ghost use Rattle.regoto.specs.LoweredTexts.{IsLoweredTo};

    ghost gives = { IsLoweredTo };

    ghost accepts = { IsInSubset };

    ghost refuses = { λ text refusal. IsRefusedFor text refusal };

    fn translate(&self, alloc: Global, text: &[u8]) -> Result<Translation, ReadStop> {
        let Lowered { text, gotos } = lower_text(alloc, text)?;
        Ok(Translation {
            text,
            // no report is made
            report: List::new(alloc),
            summary: Summary::Lowered { gotos },
        })
    }

    ghost apart = { λ text refusal inside refused. faultless text refusal refused inside };
}
