ghost use Rattle.std.specs.Prelude.{◌≡◌, ◌≢◌, ℕ, ◌<◌, ◌≤◌, List, [], Option, None, Some, length, take, option_map, IfOk, OnOk, OnErr, IfSome, IsSomeAnd};
ghost use Rattle.std.specs.FinMap as map;
ghost use Rattle.rg_ports.specs.Count.{Rose};
ghost use Rattle.rg_ports.specs.declared.reads.ReadCounts.{ReadCounts};
ghost use Rattle.rg_ports.specs.Reads.{NotFewer, IsOneRead};
ghost use Rattle.rg_ports.specs.Written.{Written, IsCount, more};
ghost use Rattle.rg_ports.specs.Files.{Files, Takes, HoldsPrefix};

use c_types::Bytes;
use std::alloc::Global;

/// A read or a write that failed.
#[derive(Clone, Copy, Debug, PartialEq, Eq)]
pub struct Failed;

/// Why a shelf handed no bytes over.
#[derive(Clone, Copy, Debug, PartialEq, Eq)]
pub enum ReadError {
    /// No file has the name.
    Absent,
    /// The file has more bytes than were asked for at most.
    TooLong,
    /// The device failed.
    Failed,
    /// Memory was refused.
    Memory,
}

/// Why a shelf took no bytes.
#[derive(Clone, Copy, Debug, PartialEq, Eq)]
pub enum WriteError {
    /// The device failed.
    Failed,
    /// Memory was refused.
    Memory,
}

/// Bytes that come in.
pub trait Source {
    /// The bytes left, where the source tells them.
    ghost rest: { Self → Option (List ℕ) };

    /// How many reads have failed. The count stands still at 18,446,744,073,709,551,615.
    ghost faults: { Self → ℕ };

    /// Reads the next bytes to the front of `buf`, and answers how many. It answers 0 for a buffer
    /// that isn't empty only at the end.
    fn read(&mut self, buf: &mut [u8]) -> Result<usize, Failed>
        ensures within { IfOk result (λ n. n ≤ length buf.old) }
        ensures ok { IfOk result (λ n. Takes (rest self.old) (rest self.new) (take n buf.new)) }
        ensures end { IfOk result (λ n. n ≡ 0
            → 0 < length buf.old → IfSome (rest self.old) (λ left. left ≡ [])) }
        ensures err { OnErr result (rest self.new ≡ rest self.old) }
        ensures failed { OnErr result (Rose (faults self.old) (faults self.new)) }
        ensures grows { faults self.old ≤ faults self.new };
}

/// Bytes that go out.
pub trait Sink {
    /// The bytes written, or their number alone, where the sink tells them.
    ghost written: { Self → Written };

    /// How many writes have failed. The count stands still at 18,446,744,073,709,551,615.
    ghost faults: { Self → ℕ };

    /// Writes the front of `piece`, and answers how many bytes: none only of an empty piece.
    fn write(&mut self, piece: &[u8]) -> Result<usize, Failed>
        ensures within { IfOk result (λ n. n ≤ length piece.now) }
        ensures some { IfOk result (λ n. n ≡ 0 → piece.now ≡ []) }
        ensures ok { IfOk result (λ n. written self.new
            ≡ more (written self.old) (take n piece.now)) }
        ensures err { OnErr result (written self.new ≡ written self.old) }
        ensures failed { OnErr result (Rose (faults self.old) (faults self.new)) }
        ensures grows { faults self.old ≤ faults self.new };

    /// A number of bytes that is told is one of 64 bits.
    ghost counts: { (s : Self) → IsCount (written s) };
}

/// Files by name.
pub trait Shelf {
    /// The files, where the shelf tells them.
    ghost held: { Self → Option Files };

    /// How many reads were made, how many failed, and how many found no file of their name.
    ghost reads: { Self → ReadCounts };

    /// How many writes have failed. The count stands still at 18,446,744,073,709,551,615.
    ghost write_faults: { Self → ℕ };

    /// How many writes were refused memory. The count stands still at 18,446,744,073,709,551,615.
    ghost wants: { Self → ℕ };

    /// The bytes of a file, if they are at most `most`. A read changes no file.
    fn read(&mut self, alloc: Global, name: &str, most: usize) -> Result<Bytes, ReadError>
        ensures ok { IfOk result (λ bytes.
            IfSome (held self.old) (λ files. map.get files name.now ≡ Some bytes)) }
        ensures most { IfOk result (λ bytes. length bytes ≤ most) }
        ensures absent { result ≡ Err ReadError.Absent
            → IfSome (held self.old) (λ files. map.get files name.now ≡ None) }
        ensures too_long { result ≡ Err ReadError.TooLong
            → IfSome (held self.old) (λ files.
            IsSomeAnd (map.get files name.now) (λ bytes. most < length bytes)) }
        ensures absence { result ≡ Err ReadError.Absent
            → Rose (reads self.old).absences (reads self.new).absences }
        ensures failed { result ≡ Err ReadError.Failed
            → Rose (reads self.old).faults (reads self.new).faults }
        ensures kept { held self.new ≡ held self.old }
        ensures once { IsOneRead (reads self.old) (reads self.new) }
        ensures grows { NotFewer (reads self.old) (reads self.new) }
        ensures other { write_faults self.new ≡ write_faults self.old }
        ensures no_write { wants self.new ≡ wants self.old };

    /// Puts the bytes in place of the file's, or makes the file. After `Failed` the file is as before
    /// or holds a prefix of the bytes. No other file changes.
    fn write(&mut self, name: &str, bytes: &[u8]) -> Result<(), WriteError>
        ensures ok { OnOk result (held self.new
            ≡ option_map (λ files. map.insert files name.now bytes.now) (held self.old)) }
        ensures prefix { result ≡ Err WriteError.Failed
            → HoldsPrefix (held self.old) (held self.new) name.now bytes.now }
        ensures failed { result ≡ Err WriteError.Failed
            → Rose (write_faults self.old) (write_faults self.new) }
        ensures memory { result ≡ Err WriteError.Memory → held self.new ≡ held self.old }
        ensures want { result ≡ Err WriteError.Memory → Rose (wants self.old) (wants self.new) }
        ensures no_want { result ≢ Err WriteError.Memory → wants self.new ≡ wants self.old }
        ensures grows { write_faults self.old ≤ write_faults self.new }
        ensures other { reads self.new ≡ reads self.old };
}
