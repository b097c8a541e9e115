ghost use Rattle.std.specs.Prelude.{◌≡◌};
ghost use Rattle.cmd_words.specs.Lines.{Writes, Tells, ended_line, numbered_line, trap_line, spent_line};

use crate::lines::write_pieces;
use c_types::Trap;
use itoa::Buffer;
use rg_ports::Sink;

fn write_ended<E: Sink>(err: &mut E, value: i128) -> bool
    ensures { Writes result (E.written err.old) (E.written err.new) (E.faults err.old) (E.faults err.new) (ended_line value) }
{
    let mut text = Buffer::new();
    let pieces = ["regoto: ended with ", text.format(value), "\n"];
    write_pieces(err, &pieces)
}

/// Tells the value with which a program ended.
pub fn tell_ended<E: Sink>(err: &mut E, value: i128)
    ensures { Tells (E.written err.old) (E.written err.new) (E.faults err.old) (E.faults err.new) (ended_line value) }
{
    let _whole = write_ended(err, value);
}

fn write_trap<E: Sink>(err: &mut E, number: u32, text: &str) -> bool
    ensures { Writes result (E.written err.old) (E.written err.new) (E.faults err.old) (E.faults err.new) (numbered_line number text.now) }
{
    let mut digits = Buffer::new();
    let pieces = ["regoto: trap ", digits.format(number), ": ", text, "\n"];
    write_pieces(err, &pieces)
}

/// Tells which trap a program reached.
pub fn tell_trap<E: Sink>(err: &mut E, trap: Trap)
    ensures { Tells (E.written err.old) (E.written err.new) (E.faults err.old) (E.faults err.new) (trap_line trap) }
{
    let _whole = write_trap(err, trap.number(), trap.text());
}

fn write_spent<E: Sink>(err: &mut E, steps: u64) -> bool
    ensures { Writes result (E.written err.old) (E.written err.new) (E.faults err.old) (E.faults err.new) (spent_line steps) }
{
    let mut text = Buffer::new();
    let pieces = ["regoto: stopped after ", text.format(steps), " steps\n"];
    write_pieces(err, &pieces)
}

/// Tells after how many steps a program was stopped.
pub fn tell_spent<E: Sink>(err: &mut E, steps: u64)
    ensures { Tells (E.written err.old) (E.written err.new) (E.faults err.old) (E.faults err.new) (spent_line steps) }
{
    let _whole = write_spent(err, steps);
}
