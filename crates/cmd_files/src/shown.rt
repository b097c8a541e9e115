ghost use Rattle.std.specs.Prelude.{◌≡◌};
ghost use Rattle.cmd_files.specs.Translated.{Completes};
ghost use Rattle.cmd_files.specs.Shown.{Shows, Hands};

use crate::pieces::write_in_pieces;
use crate::translator::{Part, Translator, translated};
use cmd_words::{Status, tell};
use rg_ports::{Shelf, Sink};
use std::alloc::Global;

/// Reads one file, and writes what becomes of its text, or the report, to `out`.
pub fn show<T: Translator, H: Shelf, O: Sink, E: Sink>(
    alloc: Global,
    translator: &T,
    from: &str,
    part: Part,
    shelf: &mut H,
    out: &mut O,
    err: &mut E,
) -> Status
    ensures shows { Shows T.gives T.refuses from.now part (H.held shelf.old) (H.reads shelf.old) (H.reads shelf.new)
        (out.new ≡ out.old) (O.written out.old) (O.written out.new) (O.faults out.old) (O.faults out.new)
        (E.written err.old) (E.written err.new) (E.faults err.old) (E.faults err.new) result }
    ensures completes { Completes T.accepts from.now (H.held shelf.old) (H.reads shelf.old) (H.reads shelf.new)
        (O.faults out.old) (O.faults out.new) result }
    ensures kept { H.held shelf.new ≡ H.held shelf.old }
    ensures writes { H.write_faults shelf.new ≡ H.write_faults shelf.old }
{
    match translated(alloc, translator, from, shelf, err) {
        Ok(translation) => hand_out(translation.part(part), out, err),
        Err(status) => status,
    }
}

/// Writes the bytes to `out`.
fn hand_out<O: Sink, E: Sink>(bytes: &[u8], out: &mut O, err: &mut E) -> Status
    ensures { Hands bytes.now (O.written out.old) (O.written out.new) (O.faults out.old) (O.faults out.new)
        (E.written err.old) (E.written err.new) (E.faults err.old) (E.faults err.new) result }
{
    match write_in_pieces(out, bytes) {
        Ok(()) => Status::Done,
        Err(_) => {
            tell(err, "regoto: write failed\n");
            Status::WriteFault
        }
    }
}
