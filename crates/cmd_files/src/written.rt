ghost use Rattle.std.specs.Prelude.{◌≡◌, option_map, OnOk, Err};
ghost use Rattle.rg_ports.specs.Count.{Rose};
ghost use Rattle.cmd_words.specs.Lines.{Tells};
ghost use Rattle.cmd_files.specs.Translated.{Completes};
ghost use Rattle.cmd_files.specs.Written.{Writes, Puts, Stops, Lingers, Wanted, written};

use crate::translator::{Translation, Translator, translated};
use cmd_words::{Status, tell, tell_summary};
use rg_ports::{Shelf, Sink, WriteError};
use std::alloc::Global;

/// Where a command writes: the text, and the report if one is asked for.
#[derive(Clone, Copy, Debug, PartialEq, Eq)]
pub struct Targets<'a> {
    pub text: &'a str,
    pub report: Option<&'a str>,
}

/// Reads one file, and writes what becomes of its text to another, which may be the same, and the report to a third
/// if one is asked for.
pub fn write<T: Translator, H: Shelf, E: Sink>(
    alloc: Global,
    translator: &T,
    from: &str,
    to: &Targets,
    shelf: &mut H,
    err: &mut E,
) -> Status
    ensures writes { Writes (λ line. Tells (E.written err.old) (E.written err.new) (E.faults err.old) (E.faults err.new) line)
        T.gives T.refuses from.now to.now.text.now (option_map (λ name. name.now) to.now.report) (H.held shelf.old) (H.held shelf.new)
        (H.reads shelf.old) (H.reads shelf.new) (H.write_faults shelf.old) (H.write_faults shelf.new) result }
    ensures completes { Completes T.accepts from.now (H.held shelf.old) (H.reads shelf.old) (H.reads shelf.new)
        (H.write_faults shelf.old) (H.write_faults shelf.new) result }
    ensures wanted { result ≡ Status.Memory → Wanted (H.held shelf.old) (H.held shelf.new) (H.wants shelf.old) (H.wants shelf.new) }
{
    match translated(alloc, translator, from, shelf, err) {
        Ok(translation) => write_translation(to, &translation, shelf, err),
        Err(status) => status,
    }
}

/// Writes a translation, and tells what was done.
pub fn write_translation<H: Shelf, E: Sink>(
    to: &Targets,
    translation: &Translation,
    shelf: &mut H,
    err: &mut E,
) -> Status
    ensures puts { Puts (λ line. Tells (E.written err.old) (E.written err.new) (E.faults err.old) (E.faults err.new) line)
        to.now.text.now (option_map (λ name. name.now) to.now.report) (H.held shelf.old) (H.held shelf.new)
        (H.write_faults shelf.old) (H.write_faults shelf.new) translation.now result }
    ensures want { result ≡ Status.Memory → Rose (H.wants shelf.old) (H.wants shelf.new) }
    ensures reads { H.reads shelf.new ≡ H.reads shelf.old }
{
    match put_files(to, translation, shelf) {
        Ok(()) => {
            tell_summary(err, &translation.summary);
            Status::Done
        }
        Err(WriteError::Failed) => {
            tell(err, "regoto: write failed\n");
            Status::WriteFault
        }
        Err(WriteError::Memory) => {
            tell(err, "regoto: out of memory\n");
            Status::Memory
        }
    }
}

/// Writes the text, and behind it the report if one is asked for.
fn put_files<H: Shelf>(
    to: &Targets,
    translation: &Translation,
    shelf: &mut H,
) -> Result<(), WriteError>
    ensures ok { OnOk result (H.held shelf.new ≡ written to.now.text.now (option_map (λ name. name.now) to.now.report) translation.now (H.held shelf.old)) }
    ensures stops { result ≡ Err WriteError.Failed → Stops to.now.text.now (option_map (λ name. name.now) to.now.report) translation.now (H.held shelf.old) (H.held shelf.new) }
    ensures failed { result ≡ Err WriteError.Failed → Rose (H.write_faults shelf.old) (H.write_faults shelf.new) }
    ensures lingers { result ≡ Err WriteError.Memory → Lingers to.now.text.now (option_map (λ name. name.now) to.now.report) translation.now (H.held shelf.old) (H.held shelf.new) }
    ensures want { result ≡ Err WriteError.Memory → Rose (H.wants shelf.old) (H.wants shelf.new) }
    ensures reads { H.reads shelf.new ≡ H.reads shelf.old }
{
    match to.report {
        None => shelf.write(to.text, translation.text.as_slice()),
        Some(report) => {
            shelf.write(to.text, translation.text.as_slice())?;
            shelf.write(report, translation.report.as_slice())
        }
    }
}
