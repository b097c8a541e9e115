//! At which place, and for which reason, texts are refused.

use crate::refusal_texts::TEXTS;
use c_text::read;
use c_types::{Memory, ReadStop};
use std::alloc::Global;

/// The reason, line, column and offset of a refusal.
pub type Place = (u32, u64, u64, u64);

/// Whether a text is refused there.
pub fn is_at(stop: ReadStop, place: Place) -> bool {
    match stop {
        ReadStop::Refused(it) => (it.reason, it.line, it.column, it.at) == place,
        ReadStop::Memory => false,
    }
}

/// `LINE:COLUMN: REASON` of a text that is refused, and `taken` of every other.
fn verdict(alloc: Global, text: &str) -> Result<String, Memory> {
    match read(alloc, text.as_bytes()) {
        Ok(program) => {
            drop(program);
            Ok(String::from_str(alloc, "taken")?)
        }
        Err(ReadStop::Refused(refusal)) => {
            let (line, column, reason) = (refusal.line, refusal.column, refusal.reason);
            Ok(format!(in alloc; "{line}:{column}: {reason}")?)
        }
        Err(ReadStop::Memory) => Err(Memory),
    }
}

fn is_found(alloc: Global, text: &str, want: &str) -> Result<bool, Memory> {
    let found = verdict(alloc, text)?;
    let same = found.as_str() == want;
    drop(found);
    Ok(same)
}

/// Whether a text is refused, or taken, as the line says that it stands in.
fn is_met(alloc: Global, line: &str) -> bool {
    match line.split_once(" | ") {
        Some((want, text)) => is_found(alloc, text, want) == Ok(true),
        // the list begins behind the first end of line
        None => line.is_empty(),
    }
}

#[test]
fn refuses_at_the_first_fault(rt: HostRuntime) {
    for line in TEXTS.lines() {
        assert!(rt; is_met(rt.alloc(), line), "{line}");
    }
}
