ghost use Rattle.std.specs.Prelude.{◌≡◌, None};
ghost use Rattle.cmd_words.specs.Lines.{Tells};
ghost use Rattle.cmd_files.specs.Translated.{Completes as CompletesWhere};
ghost use Rattle.cmd_files.specs.Written.{Writes};

use crate::restructurer::Restructurer;
use crate::{TextLowerer, TextReader, TextReplayer, TextTidier, demo, replay_file, run_file};
use cmd_files::{Part, Targets, Translator, show, write};
use cmd_words::Status;
use command_table::Works;
use rg_ports::{Shelf, Sink, Source};
use std::alloc::Global;

/// Reads one file, and writes what becomes of its text to another, which may be the same; no report is written.
fn write_text<T: Translator, H: Shelf, E: Sink>(
    alloc: Global,
    translator: &T,
    from: &str,
    text: &str,
    shelf: &mut H,
    err: &mut E,
) -> Status
    ensures writes { Writes (λ line. Tells (E.written err.old) (E.written err.new) (E.faults err.old) (E.faults err.new) line)
        T.gives T.refuses from.now text.now None (H.held shelf.old) (H.held shelf.new)
        (H.reads shelf.old) (H.reads shelf.new) (H.write_faults shelf.old) (H.write_faults shelf.new) result }
    ensures completes { CompletesWhere T.accepts from.now (H.held shelf.old) (H.reads shelf.old) (H.reads shelf.new)
        (H.write_faults shelf.old) (H.write_faults shelf.new) result }
{
    let to = Targets { text, report: None };
    write(alloc, translator, from, &to, shelf, err)
}

/// The works on texts of C.
pub struct TextWorks;

impl Works for TextWorks {
    ghost use Rattle.regoto.specs.Works.{text_effects};

    ghost effects = { text_effects };

    fn restructure<H: Shelf, E: Sink>(
        &self,
        alloc: Global,
        from: &str,
        to: &Targets,
        shelf: &mut H,
        err: &mut E,
    ) -> Status {
        write(alloc, &Restructurer, from, to, shelf, err)
    }

    fn show<H: Shelf, O: Sink, E: Sink>(
        &self,
        alloc: Global,
        from: &str,
        part: Part,
        shelf: &mut H,
        out: &mut O,
        err: &mut E,
    ) -> Status {
        show(alloc, &Restructurer, from, part, shelf, out, err)
    }

    fn run<H: Shelf, I: Source, O: Sink, E: Sink>(
        &self,
        alloc: Global,
        from: &str,
        steps: u64,
        shelf: &mut H,
        input: &mut I,
        out: &mut O,
        err: &mut E,
    ) -> Status {
        run_file(alloc, &TextReader, from, steps, shelf, input, out, err)
    }

    fn replay<H: Shelf, E: Sink>(
        &self,
        alloc: Global,
        from: &str,
        report: &str,
        to: &str,
        shelf: &mut H,
        err: &mut E,
    ) -> Status {
        replay_file(alloc, &TextReplayer, from, report, to, shelf, err)
    }

    fn tidy<H: Shelf, E: Sink>(
        &self,
        alloc: Global,
        from: &str,
        to: &str,
        shelf: &mut H,
        err: &mut E,
    ) -> Status {
        write_text(alloc, &TextTidier, from, to, shelf, err)
    }

    fn lower<H: Shelf, E: Sink>(
        &self,
        alloc: Global,
        from: &str,
        to: &str,
        shelf: &mut H,
        err: &mut E,
    ) -> Status {
        write_text(alloc, &TextLowerer, from, to, shelf, err)
    }

    fn demonstrate<O: Sink, E: Sink>(
        &self,
        alloc: Global,
        count: u32,
        out: &mut O,
        err: &mut E,
    ) -> Status {
        demo(alloc, count, out, err)
    }
}
