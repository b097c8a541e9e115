ghost use Rattle.std.specs.Prelude.{◌≡◌, ◌≤◌, [], true, false, OnOk, OnErr, IfOk};
ghost use Rattle.rg_ports.specs.Count.{Rose};
ghost use Rattle.rg_ports.specs.Written.{more, FrontWritten};
ghost use Rattle.c_tree.specs.Text.{text_of};

use crate::tops::put_program;
use arrayvec::ArrayVec;
use c_tree::Program;
use c_types::{Bytes, List, MOST, Memory};
use rg_ports::{Failed, Growing, Sink, Writer};
use std::alloc::Global;

/// Writes the printed text of a program (docs/COMMANDS.md). After `Failed` a front of it, but not
/// all, was written, and the count of faults rose. It takes no memory, and hands the sink no more
/// than 4,096 bytes at once.
///
/// A tree need not be one that a text gives. What the rewriting puts into a body has no lines, a made
/// test or selector is empty brackets, and a name whose number is that of no slot or label is empty.
/// A `Local` of no slot prints a line with a lone `;`. In the first part of a `for` it prints nothing:
/// as a further declarator not even its comma. An item there that is neither an expression nor a
/// `Local` prints nothing, and neither does an expression that isn't the first.
pub fn print_to<O: Sink>(program: &Program, out: &mut O) -> Result<(), Failed>
    ensures ok { OnOk result (O.written out.new ≡ more (O.written out.old) (text_of program.now)) }
    ensures err { OnErr result (FrontWritten (O.written out.old) (O.written out.new) (text_of program.now)) }
    ensures failed { OnErr result (Rose (O.faults out.old) (O.faults out.new)) }
    ensures grows { O.faults out.old ≤ O.faults out.new }
{
    let mut writer = Writer {
        sink: out,
        held: ArrayVec::new(),
        failed: false,
    };
    write_program(&mut writer, program);
    if writer.failed { Err(Failed) } else { Ok(()) }
}

/// Writes the whole text of a program through a writer that holds nothing back yet.
fn write_program<O: Sink>(writer: &mut Writer<'_, O>, program: &Program)
    requires held { writer.old.held.items ≡ [] }
    requires going { writer.old.failed ≡ false }
    ensures same_reference { writer.new.sink.ghost_name ≡ writer.old.sink.ghost_name }
    ensures ok { writer.new.failed ≡ false → O.written writer.new.sink.now ≡ more (O.written writer.old.sink.now) (text_of program.now) }
    ensures err { writer.new.failed ≡ true → FrontWritten (O.written writer.old.sink.now) (O.written writer.new.sink.now) (text_of program.now) }
    ensures rose { writer.new.failed ≡ true → Rose (O.faults writer.old.sink.now) (O.faults writer.new.sink.now) }
    ensures grows { O.faults writer.old.sink.now ≤ O.faults writer.new.sink.now }
{
    put_program(writer, program);
    writer.flush();
}

/// The printed text of a program, as `print_to` writes it.
pub fn print(alloc: Global, program: &Program) -> Result<Bytes, Memory>
    ensures { IfOk result (λ bytes. bytes ≡ text_of program.now) }
{
    let mut out = Growing {
        bytes: Vec::new(alloc),
        refused: 0,
    };
    if print_to(program, &mut out).is_err() {
        return Err(Memory);
    }
    let Growing { bytes, refused: _ } = out;
    if bytes.len() > MOST {
        return Err(Memory);
    }
    Ok(List::from_vec(bytes))
}
