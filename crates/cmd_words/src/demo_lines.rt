ghost use Rattle.std.specs.Prelude.{◌≡◌};
ghost use Rattle.cmd_words.specs.Demo.{demo_line};
ghost use Rattle.cmd_words.specs.Lines.{Writes};

use crate::lines::write_pieces;
use itoa::Buffer;
use rg_ports::Sink;

/// What is told of a text of so many functions that was restructured and run.
#[derive(Clone, Copy, Debug, PartialEq, Eq)]
pub struct Demonstration {
    pub functions: u32,
    pub jumps: u64,
    pub moves: u64,
    pub guards: u64,
    /// The bytes of the output.
    pub bytes: u64,
    /// The value with which the program ended.
    pub value: i128,
}

/// Writes the line on a demonstration, and answers whether all of it was taken. It takes no memory.
pub fn write_demo<O: Sink>(out: &mut O, shown: Demonstration) -> bool
    ensures { Writes result (O.written out.old) (O.written out.new) (O.faults out.old) (O.faults out.new) (demo_line shown) }
{
    let mut functions = Buffer::new();
    let mut jumps = Buffer::new();
    let mut moves = Buffer::new();
    let mut guards = Buffer::new();
    let mut bytes = Buffer::new();
    let mut value = Buffer::new();
    let pieces = [
        "demo ",
        functions.format(shown.functions),
        ": ",
        jumps.format(shown.jumps),
        " jumps, ",
        moves.format(shown.moves),
        " moves, ",
        guards.format(shown.guards),
        " guards, ",
        bytes.format(shown.bytes),
        " bytes of output, ended with ",
        value.format(shown.value),
        "\n",
    ];
    write_pieces(out, &pieces)
}
