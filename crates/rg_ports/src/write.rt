ghost use Rattle.std.specs.Prelude.{◌≡◌, ℕ, ◌<◌, ◌≤◌, length, take, OnOk, OnErr};
ghost use Rattle.rg_ports.specs.Count.{Rose};
ghost use Rattle.rg_ports.specs.Written.{more, FrontWritten};

use crate::port::{Failed, Sink};

/// Writes all the bytes. After `Failed` a front of them, but not all, was written, and the count of
/// faults rose; so no bytes at all never fail. It takes no memory.
pub fn write_all<O: Sink>(out: &mut O, bytes: &[u8]) -> Result<(), Failed>
    ensures ok { OnOk result (O.written out.new ≡ more (O.written out.old) bytes.now) }
    ensures err { OnErr result (FrontWritten (O.written out.old) (O.written out.new) bytes.now) }
    ensures failed { OnErr result (Rose (O.faults out.old) (O.faults out.new)) }
    ensures grows { O.faults out.old ≤ O.faults out.new }
{
    let mut at: usize = 0;
    while at < bytes.len() {
        at += out.write(&bytes[at..])?;
    }
    Ok(())
}
