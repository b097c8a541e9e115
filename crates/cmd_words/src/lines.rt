ghost use Rattle.std.specs.Prelude.{◌≡◌, ◌++◌, codes, decimal};
ghost use Rattle.std.specs.List.{flat_map};
ghost use Rattle.cmd_words.specs.Lines.{Writes, Tells, reason_text as the_reason_text, summary_line, counts_line, replayed_line, tidied_line, lowered_line, place_and_reason, refusal_line, absent_line};

use c_types::Refusal;
use itoa::Buffer;
use rg_ports::{Failed, Sink, write_all};

/// What a command did that wrote a file.
#[derive(Clone, Copy, Debug, PartialEq, Eq)]
pub enum Summary {
    /// It eliminated so many jumps by so many moves, and declared so many guards.
    Restructured { jumps: u64, moves: u64, guards: u64 },
    /// It made so many moves of a report, and declared so many guards.
    Replayed { moves: u64, guards: u64 },
    /// It made so many changes, each of which took a variable away.
    Tidied { changes: u64 },
    /// It wrote so many gotos.
    Lowered { gotos: u64 },
}

/// Writes the text, and answers whether all of it was taken.
fn put<E: Sink>(err: &mut E, text: &str) -> bool
    ensures { Writes result (E.written err.old) (E.written err.new) (E.faults err.old) (E.faults err.new) text.now }
{
    match write_all(err, text.as_bytes()) {
        Ok(()) => true,
        Err(Failed) => false,
    }
}

fn put_line_end<E: Sink>(err: &mut E, text: &str) -> bool
    ensures { Writes result (E.written err.old) (E.written err.new) (E.faults err.old) (E.faults err.new) (text.now ++ codes "\n") }
{
    put(err, text) && put(err, "\n")
}

/// Writes the pieces one after another, as far as they are taken.
pub fn write_pieces<E: Sink>(err: &mut E, pieces: &[&str]) -> bool
    ensures { Writes result (E.written err.old) (E.written err.new) (E.faults err.old) (E.faults err.new) (flat_map (λ piece. piece.now) pieces.now) }
{
    for piece in pieces {
        if !put(err, piece) {
            return false;
        }
    }
    true
}

/// Writes a line that is known beforehand. A fault changes no status, so it is not answered.
pub fn tell<E: Sink>(err: &mut E, line: &str)
    ensures { Tells (E.written err.old) (E.written err.new) (E.faults err.old) (E.faults err.new) line.now }
{
    let _whole = put(err, line);
}

fn write_counts<E: Sink>(err: &mut E, jumps: u64, moves: u64, guards: u64) -> bool
    ensures { Writes result (E.written err.old) (E.written err.new) (E.faults err.old) (E.faults err.new) (counts_line jumps moves guards) }
{
    let mut jumps_text = Buffer::new();
    let mut moves_text = Buffer::new();
    let mut guards_text = Buffer::new();
    let pieces = [
        "regoto: ",
        jumps_text.format(jumps),
        " jumps, ",
        moves_text.format(moves),
        " moves, ",
        guards_text.format(guards),
        " guards\n",
    ];
    write_pieces(err, &pieces)
}

fn write_replayed<E: Sink>(err: &mut E, moves: u64, guards: u64) -> bool
    ensures { Writes result (E.written err.old) (E.written err.new) (E.faults err.old) (E.faults err.new) (replayed_line moves guards) }
{
    let mut moves_text = Buffer::new();
    let mut guards_text = Buffer::new();
    let pieces = [
        "regoto: ",
        moves_text.format(moves),
        " moves, ",
        guards_text.format(guards),
        " guards\n",
    ];
    write_pieces(err, &pieces)
}

fn write_count<E: Sink>(err: &mut E, count: u64, counted: &str) -> bool
    ensures { Writes result (E.written err.old) (E.written err.new) (E.faults err.old) (E.faults err.new) (codes "regoto: " ++ decimal count ++ counted.now) }
{
    let mut text = Buffer::new();
    let pieces = ["regoto: ", text.format(count), counted];
    write_pieces(err, &pieces)
}

/// Tells what a command did.
pub fn tell_summary<E: Sink>(err: &mut E, summary: &Summary)
    ensures { Tells (E.written err.old) (E.written err.new) (E.faults err.old) (E.faults err.new) (summary_line summary.now) }
{
    let _whole = match summary {
        Summary::Restructured {
            jumps,
            moves,
            guards,
        } => write_counts(err, *jumps, *moves, *guards),
        Summary::Replayed { moves, guards } => write_replayed(err, *moves, *guards),
        Summary::Tidied { changes } => write_count(err, *changes, " changes\n"),
        Summary::Lowered { gotos } => write_count(err, *gotos, " gotos\n"),
    };
}

fn reason_text(reason: u32) -> &'static str
    ensures { result.now ≡ the_reason_text reason }
{
    match reason {
        1 => "text too long",
        2 => "byte begins no token",
        3 => "comment without end",
        4 => "bad character constant or string",
        5 => "bad integer constant",
        6 => "unsupported directive",
        10 => "unexpected token",
        11 => "nested too deeply",
        20 => "not declared",
        21 => "declared twice",
        22 => "wrong kind of name",
        23 => "wrong number of arguments",
        24 => "void value used",
        25 => "return does not fit",
        26 => "const assigned",
        27 => "break outside",
        28 => "continue outside",
        29 => "case outside of a switch",
        30 => "equal cases",
        31 => "second default",
        32 => "label twice",
        33 => "unknown label",
        34 => "constant expression needed",
        35 => "bad array or initialisers",
        36 => "main has another form",
        37 => "declarations disagree",
        38 => "array handed to an external function",
        39 => "function too tangled",
        40 => "bad printf",
        41 => "no main",
        42 => "call of a function without body",
        43 => "parameter without a name",
        50 => "bad report line",
        51 => "move does not fit",
        52 => "a jump is left",
        53 => "result nested too deeply",
        60 => "jump present",
        _ => "",
    }
}

fn write_reason<E: Sink>(err: &mut E, refusal: &Refusal) -> bool
    ensures { Writes result (E.written err.old) (E.written err.new) (E.faults err.old) (E.faults err.new) (place_and_reason refusal.now) }
{
    let mut line = Buffer::new();
    let mut column = Buffer::new();
    let mut reason = Buffer::new();
    let pieces = [
        ":",
        line.format(refusal.line),
        ":",
        column.format(refusal.column),
        ": error ",
        reason.format(refusal.reason),
        ": ",
        reason_text(refusal.reason),
        "\n",
    ];
    write_pieces(err, &pieces)
}

/// Writes the name of a file, and a refusal behind it.
fn write_refusal<E: Sink>(err: &mut E, file: &str, refusal: &Refusal) -> bool
    ensures { Writes result (E.written err.old) (E.written err.new) (E.faults err.old) (E.faults err.new) (refusal_line file.now refusal.now) }
{
    put(err, file) && write_reason(err, refusal)
}

/// Tells why the file is refused, and where.
pub fn tell_refusal<E: Sink>(err: &mut E, file: &str, refusal: &Refusal)
    ensures { Tells (E.written err.old) (E.written err.new) (E.faults err.old) (E.faults err.new) (refusal_line file.now refusal.now) }
{
    let _whole = write_refusal(err, file, refusal);
}

fn write_absent<E: Sink>(err: &mut E, file: &str) -> bool
    ensures { Writes result (E.written err.old) (E.written err.new) (E.faults err.old) (E.faults err.new) (absent_line file.now) }
{
    put(err, "regoto: no file ") && put_line_end(err, file)
}

/// Tells that no file has the name.
pub fn tell_absent<E: Sink>(err: &mut E, file: &str)
    ensures { Tells (E.written err.old) (E.written err.new) (E.faults err.old) (E.faults err.new) (absent_line file.now) }
{
    let _whole = write_absent(err, file);
}
