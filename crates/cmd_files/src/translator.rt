ghost use Rattle.std.specs.Prelude.{◌≡◌, ◌≤◌, ℕ, List, length, IfOk, IfErr, OnOk, Err};
ghost use Rattle.cmd_words.specs.Lines.{Tells};
ghost use Rattle.cmd_files.specs.Translated.{Becomes, Untranslated, part_of};
ghost use Rattle.rg_ports.specs.Reads.{NotFewer};

use crate::taken::take_text;
use c_types::{Bytes, ReadStop, Refusal};
use cmd_words::{Status, Summary, tell, tell_refusal};
use rg_ports::{Shelf, Sink};
use std::alloc::Global;

/// The most bytes of a text that is translated.
pub const MOST_BYTES: usize = 1048576;

/// What becomes of a text.
#[derive(Drop)]
pub struct Translation {
    pub text: Bytes,
    /// What was done, one line for each step.
    pub report: Bytes,
    pub summary: Summary,
}

/// The text of a translation, or the report.
#[derive(Clone, Copy, Debug, PartialEq, Eq)]
pub enum Part {
    Text,
    Report,
}

impl Translation {
    pub fn part(&self, part: Part) -> &[u8]
        ensures { result.now ≡ part_of part self.now }
    {
        match part {
            Part::Text => self.text.as_slice(),
            Part::Report => self.report.as_slice(),
        }
    }
}

/// Makes one text of another.
pub trait Translator {
    ghost use Rattle.c_types.specs.declared.refusal.Refusal.{Refusal};
    ghost use Rattle.cmd_files.specs.declared.translator.Translation.{Translation};

    /// What becomes of a text.
    ghost gives: { List ℕ → Translation → Type 0 };

    /// The texts of which something becomes, if memory allows.
    ghost accepts: { List ℕ → Type 0 };

    /// Why a text is refused.
    ghost refuses: { List ℕ → Refusal → Type 0 };

    fn translate(&self, alloc: Global, text: &[u8]) -> Result<Translation, ReadStop>
        ensures gives { IfOk result (gives text.now) }
        ensures refuses { (refusal : Refusal) → result ≡ Err (ReadStop.Refused refusal) → refuses text.now refusal };

    /// No text is both accepted and refused.
    ghost apart: { (text : List ℕ) (refusal : Refusal) → accepts text → refuses text refusal → ⊥ };
}

/// The translation of a file. Where there is none, how the command ends, which is told.
pub fn translated<T: Translator, H: Shelf, E: Sink>(
    alloc: Global,
    translator: &T,
    from: &str,
    shelf: &mut H,
    err: &mut E,
) -> Result<Translation, Status>
    ensures given { IfOk result (λ translation. Becomes T.gives from.now (H.held shelf.old) translation) }
    ensures silent { OnOk result (err.new ≡ err.old) }
    ensures untranslated { IfErr result (Untranslated (λ line. Tells (E.written err.old) (E.written err.new) (E.faults err.old) (E.faults err.new) line)
        T.refuses from.now (H.held shelf.old) (H.reads shelf.old) (H.reads shelf.new)) }
    ensures kept { H.held shelf.new ≡ H.held shelf.old }
    ensures grows { NotFewer (H.reads shelf.old) (H.reads shelf.new) }
    ensures writes { H.write_faults shelf.new ≡ H.write_faults shelf.old }
    ensures wants { H.wants shelf.new ≡ H.wants shelf.old }
{
    let text = take_text(alloc, from, MOST_BYTES, shelf, err)?;
    match translator.translate(alloc, text.as_slice()) {
        Ok(translation) => Ok(translation),
        Err(ReadStop::Refused(refusal)) => {
            tell_refusal(err, from, &refusal);
            Err(Status::Refused(refusal))
        }
        Err(ReadStop::Memory) => {
            tell(err, "regoto: out of memory\n");
            Err(Status::Memory)
        }
    }
}
