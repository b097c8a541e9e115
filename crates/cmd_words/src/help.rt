ghost use Rattle.cmd_words.specs.Help.{Helps, help_text};
ghost use Rattle.std.specs.Prelude.{◌≡◌};

use crate::lines::tell;
use crate::status::Status;
use rg_ports::{Sink, write_all};

const HELP: &str =
    "regoto restructure IN OUT [--report R]\nregoto run FILE [--steps N]\nregoto demo N\nregoto help\nregoto show IN\nregoto moves IN\nregoto replay IN REPORT OUT\nregoto tidy IN OUT\nregoto lower IN OUT\n";

/// Writes the list of commands. It takes no memory.
pub fn write_help<O: Sink, E: Sink>(out: &mut O, err: &mut E) -> Status
    ensures { Helps (O.written out.old) (O.written out.new) (O.faults out.old) (O.faults out.new)
        (E.written err.old) (E.written err.new) (E.faults err.old) (E.faults err.new) result }
{
    match write_all(out, HELP.as_bytes()) {
        Ok(()) => Status::Done,
        Err(_) => {
            tell(err, "regoto: write failed\n");
            Status::WriteFault
        }
    }
}
