ghost use Rattle.std.specs.Prelude.{◌≡◌, ℕ, ◌≤◌, length, OnOk, OnErr};
ghost use Rattle.rg_ports.specs.Count.{Rose};
ghost use Rattle.rg_ports.specs.Written.{Written, IsCount, more, FrontWritten};

use rg_ports::{Failed, Sink, write_all};

/// The most bytes of a piece.
pub const MOST_IN_PIECE: usize = 4096;

/// A sink that takes short pieces alone.
trait PieceSink {
    ghost piece_written: { Self → Written };

    ghost piece_faults: { Self → ℕ };

    /// Writes a piece of at most 4,096 bytes.
    fn write_piece(&mut self, piece: &[u8]) -> Result<(), Failed>
        requires { length piece.now ≤ 4096 }
        ensures ok { OnOk result (piece_written self.new ≡ more (piece_written self.old) piece.now) }
        ensures err { OnErr result (FrontWritten (piece_written self.old) (piece_written self.new) piece.now) }
        ensures failed { OnErr result (Rose (piece_faults self.old) (piece_faults self.new)) }
        ensures grows { piece_faults self.old ≤ piece_faults self.new };

    ghost piece_counts: { (s : Self) → IsCount (piece_written s) };
}

impl<O: Sink> PieceSink for O {
    ghost piece_written = { λ s. O.written s };

    ghost piece_faults = { λ s. O.faults s };

    fn write_piece(&mut self, piece: &[u8]) -> Result<(), Failed> {
        write_all(self, piece)
    }

    ghost piece_counts = { λ s. O.counts s };
}

/// Writes the bytes piece by piece.
fn write_pieces<O: PieceSink>(out: &mut O, bytes: &[u8]) -> Result<(), Failed>
    ensures ok { OnOk result (O.piece_written out.new ≡ more (O.piece_written out.old) bytes.now) }
    ensures err { OnErr result (FrontWritten (O.piece_written out.old) (O.piece_written out.new) bytes.now) }
    ensures failed { OnErr result (Rose (O.piece_faults out.old) (O.piece_faults out.new)) }
    ensures grows { O.piece_faults out.old ≤ O.piece_faults out.new }
{
    let mut at: usize = 0;
    while at < bytes.len() {
        let count = MOST_IN_PIECE.min(bytes.len() - at);
        out.write_piece(&bytes[at..at + count])?;
        at += count;
    }
    Ok(())
}

/// Writes all the bytes, in pieces of at most 4,096 bytes. After `Failed` a front of them, but not all, was written, and
/// the count of faults rose. It takes no memory.
pub fn write_in_pieces<O: Sink>(out: &mut O, bytes: &[u8]) -> Result<(), Failed>
    ensures ok { OnOk result (O.written out.new ≡ more (O.written out.old) bytes.now) }
    ensures err { OnErr result (FrontWritten (O.written out.old) (O.written out.new) bytes.now) }
    ensures failed { OnErr result (Rose (O.faults out.old) (O.faults out.new)) }
    ensures grows { O.faults out.old ≤ O.faults out.new }
{
    write_pieces(out, bytes)
}
