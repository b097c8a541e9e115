ghost use Rattle.std.specs.Prelude.{◌≡◌, ◌≢◌, option_map};
ghost use Rattle.cmd_words.specs.Lines.{Tells};
ghost use Rattle.cmd_files.specs.Written.{Wanted};

use cmd_files::{Part, Targets};
use cmd_words::Status;
use rg_ports::{Shelf, Sink, Source};
use std::alloc::Global;

/// The works on texts that commands ask for. They hand on what they read and write to the ports, and tell how they end.
pub trait Works {
    ghost use Rattle.command_table.specs.Effects.{Effects};

    /// What each work does.
    ghost effects: { Effects };

    /// Restructures one file, and writes another, and the report to a third if one is asked for.
    fn restructure<H: Shelf, E: Sink>(
        &self,
        alloc: Global,
        from: &str,
        to: &Targets,
        shelf: &mut H,
        err: &mut E,
    ) -> Status
        ensures does { effects.restructures (λ line. Tells (E.written err.old) (E.written err.new) (E.faults err.old) (E.faults err.new) line)
            from.now to.now.text.now (option_map (λ name. name.now) to.now.report) (H.held shelf.old) (H.held shelf.new)
            (H.reads shelf.old) (H.reads shelf.new) (H.write_faults shelf.old) (H.write_faults shelf.new) result }
        ensures completes { effects.completes from.now (H.held shelf.old) (H.reads shelf.old) (H.reads shelf.new)
            (H.write_faults shelf.old) (H.write_faults shelf.new) result }
        ensures wanted { result ≡ Status.Memory → Wanted (H.held shelf.old) (H.held shelf.new) (H.wants shelf.old) (H.wants shelf.new) }
        ensures usage { result ≢ Status.Usage };

    /// Restructures one file, and writes the text or the report to `out`.
    fn show<H: Shelf, O: Sink, E: Sink>(
        &self,
        alloc: Global,
        from: &str,
        part: Part,
        shelf: &mut H,
        out: &mut O,
        err: &mut E,
    ) -> Status
        ensures does { effects.shows from.now part (H.held shelf.old) (H.reads shelf.old) (H.reads shelf.new)
            (out.new ≡ out.old) (O.written out.old) (O.written out.new) (O.faults out.old) (O.faults out.new)
            (E.written err.old) (E.written err.new) (E.faults err.old) (E.faults err.new) result }
        ensures completes { effects.completes from.now (H.held shelf.old) (H.reads shelf.old) (H.reads shelf.new)
            (O.faults out.old) (O.faults out.new) result }
        ensures kept { H.held shelf.new ≡ H.held shelf.old }
        ensures writes { H.write_faults shelf.new ≡ H.write_faults shelf.old }
        ensures usage { result ≢ Status.Usage };

    /// Runs the program of one file for at most so many steps.
    fn run<H: Shelf, I: Source, O: Sink, E: Sink>(
        &self,
        alloc: Global,
        from: &str,
        steps: u64,
        shelf: &mut H,
        input: &mut I,
        out: &mut O,
        err: &mut E,
    ) -> Status
        ensures does { effects.runs (λ line. Tells (E.written err.old) (E.written err.new) (E.faults err.old) (E.faults err.new) line)
            from.now steps (H.held shelf.old) (H.reads shelf.old) (H.reads shelf.new)
            ((input.new ≡ input.old) × (out.new ≡ out.old)) (I.rest input.old) (I.rest input.new) (I.faults input.old) (I.faults input.new)
            (O.written out.old) (O.written out.new) (O.faults out.old) (O.faults out.new) result }
        ensures completes { effects.completes_run from.now steps (H.held shelf.old) (H.reads shelf.old) (H.reads shelf.new)
            (I.rest input.old) (I.faults input.old) (I.faults input.new) (O.faults out.old) (O.faults out.new) result }
        ensures kept { H.held shelf.new ≡ H.held shelf.old }
        ensures writes { H.write_faults shelf.new ≡ H.write_faults shelf.old }
        ensures usage { result ≢ Status.Usage };

    /// Makes the moves of the report of one file in the program of another, and writes what becomes of it to a third.
    fn replay<H: Shelf, E: Sink>(
        &self,
        alloc: Global,
        from: &str,
        report: &str,
        to: &str,
        shelf: &mut H,
        err: &mut E,
    ) -> Status
        ensures does { effects.replays (λ line. Tells (E.written err.old) (E.written err.new) (E.faults err.old) (E.faults err.new) line)
            from.now report.now to.now (H.held shelf.old) (H.held shelf.new)
            (H.reads shelf.old) (H.reads shelf.new) (H.write_faults shelf.old) (H.write_faults shelf.new) result }
        ensures completes { effects.completes_replay from.now report.now (H.held shelf.old) (H.reads shelf.old) (H.reads shelf.new)
            (H.write_faults shelf.old) (H.write_faults shelf.new) result }
        ensures usage { result ≢ Status.Usage };

    /// Tidies one file, and writes another.
    fn tidy<H: Shelf, E: Sink>(
        &self,
        alloc: Global,
        from: &str,
        to: &str,
        shelf: &mut H,
        err: &mut E,
    ) -> Status
        ensures does { effects.tidies (λ line. Tells (E.written err.old) (E.written err.new) (E.faults err.old) (E.faults err.new) line)
            from.now to.now (H.held shelf.old) (H.held shelf.new)
            (H.reads shelf.old) (H.reads shelf.new) (H.write_faults shelf.old) (H.write_faults shelf.new) result }
        ensures completes { effects.completes_tidy from.now (H.held shelf.old) (H.reads shelf.old) (H.reads shelf.new)
            (H.write_faults shelf.old) (H.write_faults shelf.new) result }
        ensures usage { result ≢ Status.Usage };

    /// Lowers one file, and writes another.
    fn lower<H: Shelf, E: Sink>(
        &self,
        alloc: Global,
        from: &str,
        to: &str,
        shelf: &mut H,
        err: &mut E,
    ) -> Status
        ensures does { effects.lowers (λ line. Tells (E.written err.old) (E.written err.new) (E.faults err.old) (E.faults err.new) line)
            from.now to.now (H.held shelf.old) (H.held shelf.new)
            (H.reads shelf.old) (H.reads shelf.new) (H.write_faults shelf.old) (H.write_faults shelf.new) result }
        ensures completes { effects.completes_lower from.now (H.held shelf.old) (H.reads shelf.old) (H.reads shelf.new)
            (H.write_faults shelf.old) (H.write_faults shelf.new) result }
        ensures usage { result ≢ Status.Usage };

    /// Shows the tool on a text of so many functions.
    fn demonstrate<O: Sink, E: Sink>(
        &self,
        alloc: Global,
        count: u32,
        out: &mut O,
        err: &mut E,
    ) -> Status
        ensures does { effects.demonstrates count (out.new ≡ out.old) (O.written out.old) (O.written out.new) (O.faults out.old) (O.faults out.new)
            (E.written err.old) (E.written err.new) (E.faults err.old) (E.faults err.new) result }
        ensures completes { effects.completes_demo count (O.faults out.old) (O.faults out.new) result }
        ensures usage { result ≢ Status.Usage };
}
