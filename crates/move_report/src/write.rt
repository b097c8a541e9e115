ghost use Rattle.std.specs.Prelude.{◌≡◌, ◌≤◌, ◌∷◌, ◌++◌, [], true, false, OnOk, OnErr, IfOk};
ghost use Rattle.std.specs.Fmt.{decimal};
ghost use Rattle.rg_ports.specs.Count.{Rose};
ghost use Rattle.rg_ports.specs.Written.{more, FrontWritten};
ghost use Rattle.rg_ports.specs.Writing.{Puts};
ghost use Rattle.report_moves.specs.Report.{kind_text as the_kind_text, label_text as the_label_text, branch_text, steps_text, path_text, move_text, moves_text, report_text, IsNumber, IsBranch, AreSteps, IsPath};
ghost use Rattle.move_report.specs.Numbers.{HaveNumbers};

use arrayvec::ArrayVec;
use c_tree::{Branch, Path, Step};
use c_types::{Bytes, List, MOST, Memory, Name};
use itoa::Buffer;
use report_moves::{Move, MoveKind};
use rg_ports::{Failed, Growing, Output, Sink, Writer};
use std::alloc::Global;

fn put_number<W: Output>(out: &mut W, number: u32)
    ensures puts { Puts (W.progress out.old) (W.progress out.new) (λ rest. decimal number ++ rest) }
    ensures fits { IsNumber number }
{
    let mut buffer = Buffer::new();
    out.put(buffer.format(number).as_bytes());
}

fn put_branch<W: Output>(out: &mut W, branch: Branch)
    ensures puts { Puts (W.progress out.old) (W.progress out.new) (λ rest. branch_text branch ++ rest) }
    ensures fits { IsBranch branch }
{
    match branch {
        Branch::Body => out.put(b"b"),
        Branch::Then => out.put(b"t"),
        Branch::Else => out.put(b"e"),
        Branch::Section(number) => {
            out.put(b"s");
            put_number(out, number);
        }
    }
}

fn put_step<W: Output>(out: &mut W, step: &Step)
    ensures puts { Puts (W.progress out.old) (W.progress out.new) (λ rest. steps_text (step.now ∷ []) rest) }
    ensures fits { AreSteps (step.now ∷ []) }
{
    put_number(out, step.item);
    out.put(b".");
    put_branch(out, step.branch);
    out.put(b".");
}

fn put_path<W: Output>(out: &mut W, path: &Path)
    ensures puts { Puts (W.progress out.old) (W.progress out.new) (path_text path.now) }
    ensures fits { IsPath path.now }
{
    put_steps(out, path.steps.as_slice());
    put_number(out, path.item);
}

fn put_steps<W: Output>(out: &mut W, steps: &[Step])
    ensures puts { Puts (W.progress out.old) (W.progress out.new) (steps_text steps.now) }
    ensures fits { AreSteps steps.now }
{
    for step in steps {
        put_step(out, step);
    }
}

fn kind_text(kind: MoveKind) -> &'static str
    ensures { result.now ≡ the_kind_text kind }
{
    match kind {
        MoveKind::Out => "out",
        MoveKind::Lift => "lift",
        MoveKind::Inward => "in",
        MoveKind::Join => "join",
        MoveKind::Z1 => "z1",
        MoveKind::Z2 => "z2",
        MoveKind::Z3 => "z3",
        MoveKind::Z4 => "z4",
        MoveKind::Z5 => "z5",
    }
}

fn put_label<W: Output>(out: &mut W, label: &Option<Name>)
    ensures { Puts (W.progress out.old) (W.progress out.new) (λ rest. the_label_text label.now ++ rest) }
{
    match label {
        Some(name) => out.put(name.as_str().as_bytes()),
        None => out.put(b"-"),
    }
}

fn put_move<W: Output>(out: &mut W, a_move: &Move)
    ensures puts { Puts (W.progress out.old) (W.progress out.new) (move_text a_move.now) }
    ensures fits { IsPath a_move.now.path }
{
    out.put(a_move.function.as_str().as_bytes());
    out.put(b" ");
    out.put(kind_text(a_move.kind).as_bytes());
    out.put(b" ");
    put_label(out, &a_move.label);
    out.put(b" ");
    put_path(out, &a_move.path);
    out.put(b"\n");
}

fn put_moves<W: Output>(out: &mut W, moves: &[Move])
    ensures puts { Puts (W.progress out.old) (W.progress out.new) (moves_text moves.now) }
    ensures fits { HaveNumbers moves.now }
{
    for a_move in moves {
        put_move(out, a_move);
    }
}

/// Writes the report of the moves: a line for each, with its function, kind, label and path. After
/// `Failed` a front of it, but not all, was written, and the count of faults rose. It takes no memory,
/// and hands the sink no more than 4,096 bytes at once. The numbers of the paths fit 32 bits, as their types say.
pub fn report_to<O: Sink>(moves: &List<Move>, out: &mut O) -> Result<(), Failed>
    ensures ok { OnOk result (O.written out.new ≡ more (O.written out.old) (report_text moves.now)) }
    ensures err { OnErr result (FrontWritten (O.written out.old) (O.written out.new) (report_text moves.now)) }
    ensures failed { OnErr result (Rose (O.faults out.old) (O.faults out.new)) }
    ensures grows { O.faults out.old ≤ O.faults out.new }
    ensures fits { HaveNumbers moves.now }
{
    let mut writer = Writer {
        sink: out,
        held: ArrayVec::new(),
        failed: false,
    };
    write_moves(&mut writer, moves.as_slice());
    if writer.failed { Err(Failed) } else { Ok(()) }
}

/// Writes all the lines through a writer that holds nothing back yet.
fn write_moves<O: Sink>(writer: &mut Writer<'_, O>, moves: &[Move])
    requires held { writer.old.held.items ≡ [] }
    requires going { writer.old.failed ≡ false }
    ensures same_reference { writer.new.sink.ghost_name ≡ writer.old.sink.ghost_name }
    ensures ok { writer.new.failed ≡ false → O.written writer.new.sink.now ≡ more (O.written writer.old.sink.now) (report_text moves.now) }
    ensures err { writer.new.failed ≡ true → FrontWritten (O.written writer.old.sink.now) (O.written writer.new.sink.now) (report_text moves.now) }
    ensures rose { writer.new.failed ≡ true → Rose (O.faults writer.old.sink.now) (O.faults writer.new.sink.now) }
    ensures grows { O.faults writer.old.sink.now ≤ O.faults writer.new.sink.now }
    ensures fits { HaveNumbers moves.now }
{
    put_moves(writer, moves);
    writer.flush();
}

/// The report of the moves, as `report_to` writes it.
pub fn write_report(alloc: Global, moves: &List<Move>) -> Result<Bytes, Memory>
    ensures value { IfOk result (λ bytes. bytes ≡ report_text moves.now) }
    ensures fits { HaveNumbers moves.now }
{
    let mut out = Growing {
        bytes: Vec::new(alloc),
        refused: 0,
    };
    if report_to(moves, &mut out).is_err() {
        return Err(Memory);
    }
    let Growing { bytes, refused: _ } = out;
    if bytes.len() > MOST {
        return Err(Memory);
    }
    Ok(List::from_vec(bytes))
}
