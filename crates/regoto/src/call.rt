ghost use Rattle.std.specs.Prelude.{◌≡◌, ◌↔◌, ℕ, List, Option, map, string_bytes, Some, None};
ghost use Rattle.cmd_words.specs.Lines.{Tells, usage_line};
ghost use Rattle.cmd_words.specs.Command.{Restructure, Run, Demo, Help, Show, Moves, Replay, Tidy, Lower, command_of};
ghost use Rattle.cmd_words.specs.Help.{Helps};
ghost use Rattle.cmd_files.specs.Written.{Wanted};
ghost use Rattle.regoto.specs.Demos.{ShowsDemo, CompletesDemo};
ghost use Rattle.regoto.specs.RunTexts.{RunsText, CompletesText};
ghost use Rattle.regoto.specs.ReplayedTexts.{ReplaysText, CompletesText as CompletesReplay};
ghost use Rattle.regoto.specs.TidiedTexts.{TidiesText, CompletesText as CompletesTidy};
ghost use Rattle.regoto.specs.LoweredTexts.{LowersText, CompletesText as CompletesLower};
ghost use Rattle.regoto.specs.Restructure.{Restructures, ShowsRestructured, Completes};

use crate::works::TextWorks;
use cmd_files::Part;
use cmd_words::Status;
use command_table::carry_out;
use rg_ports::{Shelf, Sink, Source};
use std::alloc::Global;

/// Carries out the command that the words after the program's name are, through these ports.
/// docs/COMMANDS.md lists the words, the statuses and the lines on `err`.
pub fn regoto<H: Shelf, I: Source, O: Sink, E: Sink>(
    alloc: Global,
    words: &[String],
    shelf: &mut H,
    input: &mut I,
    out: &mut O,
    err: &mut E,
) -> Status
    // Words that fit no form, and only they, give Usage. No port but `err` is touched for that.
    ensures usage { (result ≡ Status.Usage) ↔ (command_of (map string_bytes words.now) ≡ None) }
    ensures unknown { command_of (map string_bytes words.now) ≡ None → (shelf.new ≡ shelf.old) × (out.new ≡ out.old)
        × Tells (E.written err.old) (E.written err.new) (E.faults err.old) (E.faults err.new) usage_line }

    ensures restructure { (from to : List ℕ) (report : Option (List ℕ)) → command_of (map string_bytes words.now) ≡ Some (Restructure from to report)
        → (out.new ≡ out.old) × Restructures (λ line. Tells (E.written err.old) (E.written err.new) (E.faults err.old) (E.faults err.new) line)
        from to report (H.held shelf.old) (H.held shelf.new) (H.reads shelf.old) (H.reads shelf.new)
        (H.write_faults shelf.old) (H.write_faults shelf.new) result }

    ensures complete { (from to : List ℕ) (report : Option (List ℕ)) → command_of (map string_bytes words.now) ≡ Some (Restructure from to report)
        → Completes from (H.held shelf.old) (H.reads shelf.old) (H.reads shelf.new)
        (H.write_faults shelf.old) (H.write_faults shelf.new) result }

    // Where a file has changed, it was the write of the report that was refused memory.
    ensures wanted { (from to : List ℕ) (report : Option (List ℕ)) → command_of (map string_bytes words.now) ≡ Some (Restructure from to report)
        → result ≡ Status.Memory → Wanted (H.held shelf.old) (H.held shelf.new) (H.wants shelf.old) (H.wants shelf.new) }

    ensures help { command_of (map string_bytes words.now) ≡ Some Help → (shelf.new ≡ shelf.old)
        × Helps (O.written out.old) (O.written out.new) (O.faults out.old) (O.faults out.new)
        (E.written err.old) (E.written err.new) (E.faults err.old) (E.faults err.new) result }

    ensures show { (from : List ℕ) → command_of (map string_bytes words.now) ≡ Some (Show from)
        → (H.held shelf.new ≡ H.held shelf.old) × (H.write_faults shelf.new ≡ H.write_faults shelf.old)
        × ShowsRestructured from Part.Text (H.held shelf.old) (H.reads shelf.old) (H.reads shelf.new)
        (out.new ≡ out.old) (O.written out.old) (O.written out.new) (O.faults out.old) (O.faults out.new)
        (E.written err.old) (E.written err.new) (E.faults err.old) (E.faults err.new) result }

    ensures moves { (from : List ℕ) → command_of (map string_bytes words.now) ≡ Some (Moves from)
        → (H.held shelf.new ≡ H.held shelf.old) × (H.write_faults shelf.new ≡ H.write_faults shelf.old)
        × ShowsRestructured from Part.Report (H.held shelf.old) (H.reads shelf.old) (H.reads shelf.new)
        (out.new ≡ out.old) (O.written out.old) (O.written out.new) (O.faults out.old) (O.faults out.new)
        (E.written err.old) (E.written err.new) (E.faults err.old) (E.faults err.new) result }

    ensures complete_show { (from : List ℕ) → command_of (map string_bytes words.now) ≡ Some (Show from)
        → Completes from (H.held shelf.old) (H.reads shelf.old) (H.reads shelf.new) (O.faults out.old) (O.faults out.new) result }

    ensures complete_moves { (from : List ℕ) → command_of (map string_bytes words.now) ≡ Some (Moves from)
        → Completes from (H.held shelf.old) (H.reads shelf.old) (H.reads shelf.new) (O.faults out.old) (O.faults out.new) result }

    ensures run { (from : List ℕ) (steps : ℕ) → command_of (map string_bytes words.now) ≡ Some (Run from steps)
        → (H.held shelf.new ≡ H.held shelf.old) × (H.write_faults shelf.new ≡ H.write_faults shelf.old)
        × RunsText (λ line. Tells (E.written err.old) (E.written err.new) (E.faults err.old) (E.faults err.new) line) from steps
        (H.held shelf.old) (H.reads shelf.old) (H.reads shelf.new)
        ((input.new ≡ input.old) × (out.new ≡ out.old)) (I.rest input.old) (I.rest input.new) (I.faults input.old) (I.faults input.new)
        (O.written out.old) (O.written out.new) (O.faults out.old) (O.faults out.new) result }

    ensures complete_run { (from : List ℕ) (steps : ℕ) → command_of (map string_bytes words.now) ≡ Some (Run from steps)
        → CompletesText from steps (H.held shelf.old) (H.reads shelf.old) (H.reads shelf.new)
        (I.rest input.old) (I.faults input.old) (I.faults input.new) (O.faults out.old) (O.faults out.new) result }

    ensures replay { (from report to : List ℕ) → command_of (map string_bytes words.now) ≡ Some (Replay from report to)
        → (out.new ≡ out.old) × ReplaysText (λ line. Tells (E.written err.old) (E.written err.new) (E.faults err.old) (E.faults err.new) line)
        from report to (H.held shelf.old) (H.held shelf.new) (H.reads shelf.old) (H.reads shelf.new)
        (H.write_faults shelf.old) (H.write_faults shelf.new) result }

    ensures complete_replay { (from report to : List ℕ) → command_of (map string_bytes words.now) ≡ Some (Replay from report to)
        → CompletesReplay from report (H.held shelf.old) (H.reads shelf.old) (H.reads shelf.new)
        (H.write_faults shelf.old) (H.write_faults shelf.new) result }

    ensures tidy { (from to : List ℕ) → command_of (map string_bytes words.now) ≡ Some (Tidy from to)
        → (out.new ≡ out.old) × TidiesText (λ line. Tells (E.written err.old) (E.written err.new) (E.faults err.old) (E.faults err.new) line)
        from to (H.held shelf.old) (H.held shelf.new) (H.reads shelf.old) (H.reads shelf.new)
        (H.write_faults shelf.old) (H.write_faults shelf.new) result }

    ensures complete_tidy { (from to : List ℕ) → command_of (map string_bytes words.now) ≡ Some (Tidy from to)
        → CompletesTidy from (H.held shelf.old) (H.reads shelf.old) (H.reads shelf.new)
        (H.write_faults shelf.old) (H.write_faults shelf.new) result }

    ensures lower { (from to : List ℕ) → command_of (map string_bytes words.now) ≡ Some (Lower from to)
        → (out.new ≡ out.old) × LowersText (λ line. Tells (E.written err.old) (E.written err.new) (E.faults err.old) (E.faults err.new) line)
        from to (H.held shelf.old) (H.held shelf.new) (H.reads shelf.old) (H.reads shelf.new)
        (H.write_faults shelf.old) (H.write_faults shelf.new) result }

    ensures complete_lower { (from to : List ℕ) → command_of (map string_bytes words.now) ≡ Some (Lower from to)
        → CompletesLower from (H.held shelf.old) (H.reads shelf.old) (H.reads shelf.new)
        (H.write_faults shelf.old) (H.write_faults shelf.new) result }

    ensures demo { (count : ℕ) → command_of (map string_bytes words.now) ≡ Some (Demo count)
        → (shelf.new ≡ shelf.old) × ShowsDemo count (out.new ≡ out.old) (O.written out.old) (O.written out.new) (O.faults out.old) (O.faults out.new)
        (E.written err.old) (E.written err.new) (E.faults err.old) (E.faults err.new) result }

    ensures complete_demo { (count : ℕ) → command_of (map string_bytes words.now) ≡ Some (Demo count)
        → CompletesDemo count (O.faults out.old) (O.faults out.new) result }

    // Every other command leaves the input untouched.
    ensures input { ((from : List ℕ) (steps : ℕ) → ¬ (command_of (map string_bytes words.now) ≡ Some (Run from steps))) → input.new ≡ input.old }
{
    carry_out(alloc, &TextWorks, words, shelf, input, out, err)
}
