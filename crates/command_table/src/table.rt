ghost use Rattle.std.specs.Prelude.{◌≡◌, ◌≢◌, ◌↔◌, ℕ, List, None, Some, map, string_bytes};
ghost use Rattle.cmd_words.specs.Command.{Run, command_of, seen};
ghost use Rattle.command_table.specs.Table.{Answers, Does};

use crate::works::Works;
use cmd_files::{Part, Targets};
use cmd_words::{Job, Status, command, tell, write_help};
use rg_ports::{Shelf, Sink, Source};
use std::alloc::Global;

/// Carries out the command that the words ask for, by these works and through these ports.
pub fn carry_out<W: Works, H: Shelf, I: Source, O: Sink, E: Sink>(
    alloc: Global,
    works: &W,
    words: &[String],
    shelf: &mut H,
    input: &mut I,
    out: &mut O,
    err: &mut E,
) -> Status
    ensures usage { (result ≡ Status.Usage) ↔ (command_of (map string_bytes words.now) ≡ None) }
    ensures answers { Answers W.effects (command_of (map string_bytes words.now))
        (record { shelf = shelf.new ≡ shelf.old; input = input.new ≡ input.old; out = out.new ≡ out.old })
        (record {
          held = H.held shelf.old;
          reads = H.reads shelf.old;
          writes = H.write_faults shelf.old;
          wants = H.wants shelf.old;
          rest = I.rest input.old;
          inputs = I.faults input.old;
          out = O.written out.old;
          faults = O.faults out.old;
          err = E.written err.old;
          told = E.faults err.old;
        })
        (record {
          held = H.held shelf.new;
          reads = H.reads shelf.new;
          writes = H.write_faults shelf.new;
          wants = H.wants shelf.new;
          rest = I.rest input.new;
          inputs = I.faults input.new;
          out = O.written out.new;
          faults = O.faults out.new;
          err = E.written err.new;
          told = E.faults err.new;
        })
        result }
    ensures input { ((from : List ℕ) (steps : ℕ) → ¬ (command_of (map string_bytes words.now) ≡ Some (Run from steps))) → input.new ≡ input.old }
{
    match command(words) {
        None => {
            tell(err, "regoto: unknown use, try help\n");
            Status::Usage
        }
        Some(job) => work(alloc, works, job, shelf, input, out, err),
    }
}

/// The work that each job is.
fn work<W: Works, H: Shelf, I: Source, O: Sink, E: Sink>(
    alloc: Global,
    works: &W,
    job: Job,
    shelf: &mut H,
    input: &mut I,
    out: &mut O,
    err: &mut E,
) -> Status
    ensures usage { result ≢ Status.Usage }
    ensures does { Does W.effects (seen job.entry)
        (record { shelf = shelf.new ≡ shelf.old; input = input.new ≡ input.old; out = out.new ≡ out.old })
        (record {
          held = H.held shelf.old;
          reads = H.reads shelf.old;
          writes = H.write_faults shelf.old;
          wants = H.wants shelf.old;
          rest = I.rest input.old;
          inputs = I.faults input.old;
          out = O.written out.old;
          faults = O.faults out.old;
          err = E.written err.old;
          told = E.faults err.old;
        })
        (record {
          held = H.held shelf.new;
          reads = H.reads shelf.new;
          writes = H.write_faults shelf.new;
          wants = H.wants shelf.new;
          rest = I.rest input.new;
          inputs = I.faults input.new;
          out = O.written out.new;
          faults = O.faults out.new;
          err = E.written err.new;
          told = E.faults err.new;
        })
        result }
    ensures input { ((from : List ℕ) (steps : ℕ) → ¬ (seen job.entry ≡ Run from steps)) → input.new ≡ input.old }
{
    match job {
        Job::Restructure(from, text, report) => {
            works.restructure(alloc, from, &Targets { text, report }, shelf, err)
        }
        Job::Run(from, steps) => works.run(alloc, from, steps, shelf, input, out, err),
        Job::Demo(count) => works.demonstrate(alloc, count, out, err),
        Job::Help => write_help(out, err),
        Job::Show(from) => works.show(alloc, from, Part::Text, shelf, out, err),
        Job::Moves(from) => works.show(alloc, from, Part::Report, shelf, out, err),
        Job::Replay(from, report, to) => works.replay(alloc, from, report, to, shelf, err),
        Job::Tidy(from, to) => works.tidy(alloc, from, to, shelf, err),
        Job::Lower(from, to) => works.lower(alloc, from, to, shelf, err),
    }
}
