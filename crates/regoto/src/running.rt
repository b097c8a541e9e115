ghost use Rattle.std.specs.Prelude.{◌≡◌};
ghost use Rattle.cmd_words.specs.Lines.{Tells};
ghost use Rattle.regoto.specs.Ran.{Runs, CompletesRun};

use crate::answer::run_ready;
use crate::ready::{ProgramReader, prepared};
use cmd_words::Status;
use rg_ports::{Shelf, Sink, Source};
use std::alloc::Global;

/// Reads one file, and runs `main` of its program for at most so many steps.
pub fn run_file<R: ProgramReader, H: Shelf, I: Source, O: Sink, E: Sink>(
    alloc: Global,
    reader: &R,
    from: &str,
    steps: u64,
    shelf: &mut H,
    input: &mut I,
    out: &mut O,
    err: &mut E,
) -> Status
    ensures runs { Runs (λ line. Tells (E.written err.old) (E.written err.new) (E.faults err.old) (E.faults err.new) line)
        R.gives R.refuses from.now steps (H.held shelf.old) (H.reads shelf.old) (H.reads shelf.new)
        ((input.new ≡ input.old) × (out.new ≡ out.old)) (I.rest input.old) (I.rest input.new) (I.faults input.old) (I.faults input.new)
        (O.written out.old) (O.written out.new) (O.faults out.old) (O.faults out.new) result }
    ensures completes { CompletesRun R.gives from.now steps (H.held shelf.old) (H.reads shelf.old) (H.reads shelf.new)
        (I.rest input.old) (I.faults input.old) (I.faults input.new) (O.faults out.old) (O.faults out.new) result }
    ensures kept { H.held shelf.new ≡ H.held shelf.old }
    ensures writes { H.write_faults shelf.new ≡ H.write_faults shelf.old }
{
    match prepared(alloc, reader, from, shelf, err) {
        Ok(ready) => run_ready(alloc, &ready, steps, input, out, err),
        Err(status) => status,
    }
}
