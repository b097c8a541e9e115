ghost use Rattle.std.specs.Prelude.{◌≡◌, ◌≢◌, ◌+◌, ◌<◌, ◌≤◌, ◌↔◌, None, Some, Err, min, length, IfOk, OnOk, IsSomeAnd};
ghost use Rattle.std.specs.Option.{option_copied};
ghost use Rattle.std.specs.Result.{result_err};
ghost use Rattle.std.specs.FinMap as map;
ghost use Rattle.rg_ports.specs.Calls.{Fails, no_calls, after_call};
ghost use Rattle.rg_ports.specs.Count.{following};
ghost use Rattle.rg_ports.specs.Reads.{no_reads, after_read as the_after_read, NotFewer};

use crate::calls::{CallCounter, next_count};
use crate::files::{copied_bytes, held_bytes, put_bytes};
use crate::port::{ReadError, Shelf, WriteError};
use crate::reads::{NO_READS, ReadCounts, after_read};
use c_types::{Bytes, List, Memory, Name};
use std::alloc::Global;
use std::marker::Model;

/// A shelf of files in memory, some of whose calls fail.
#[derive(Debug, Drop)]
pub struct MemShelf {
    alloc: Global,
    files: List<(Name, Bytes)>,
    calls: CallCounter,
    reads: ReadCounts,
    write_faults: u64,
    wants: u64,
}

impl Model for MemShelf {
    ghost use Rattle.std.specs.FinMap.{from_entries};
    ghost use Rattle.rg_ports.specs.MemoryPorts.{MemoryShelf, shelf_code};

    ghost Value = { MemoryShelf };

    ghost coded = { shelf_code };

    ghost view = { λ s. record {
      files = from_entries s.files;
      calls = s.calls;
      reads = s.reads;
      write_faults = s.write_faults;
      wants = s.wants;
    } };
}

impl MemShelf {
    /// A shelf of these files, whose calls of these numbers fail. Reads and writes are numbered
    /// together, from 0. Of two files with one name it holds the first.
    pub fn new(
        alloc: Global,
        start: List<(Name, Bytes)>,
        failing: List<u64>,
    ) -> Result<Self, Memory>
        ensures { IfOk result (λ shelf. shelf
            ≡ record { files = map.from_entries start; calls = no_calls failing; reads = no_reads; write_faults = 0; wants = 0 }) }
    {
        Ok(MemShelf {
            alloc,
            files: start,
            calls: CallCounter::new(failing),
            reads: NO_READS,
            write_faults: 0,
            wants: 0,
        })
    }

    /// The bytes of the file, or `None` exactly where no file has the name. It takes no memory.
    pub fn held(&self, name: &str) -> Option<&[u8]>
        ensures { option_copied result ≡ map.get self.now.files name.now }
    {
        held_bytes(self.files.as_slice(), name)
    }

    /// The number of failed reads and writes, up to 18,446,744,073,709,551,615. It takes no memory.
    pub fn faults(&self) -> u64
        ensures { result ≡ min (self.now.reads.faults + self.now.write_faults) 18446744073709551615 }
    {
        self.reads.faults.saturating_add(self.write_faults)
    }

    /// What the next call answers that reads this file.
    fn answer(&mut self, alloc: Global, name: &str, most: usize) -> Result<Bytes, ReadError>
        ensures failed { (result ≡ Err ReadError.Failed) ↔ Fails self.old.calls }
        ensures absent { (result ≡ Err ReadError.Absent)
            ↔ ((¬ Fails self.old.calls) × (map.get self.old.files name.now ≡ None)) }
        ensures too_long { (result ≡ Err ReadError.TooLong)
            ↔ ((¬ Fails self.old.calls)
            × IsSomeAnd (map.get self.old.files name.now) (λ bytes. most < length bytes)) }
        ensures ok { IfOk result (λ bytes. map.get self.old.files name.now ≡ Some bytes) }
        ensures most { IfOk result (λ bytes. length bytes ≤ most) }
        ensures after { self.new ≡ record self.old { calls = after_call self.old.calls } }
    {
        if self.calls.fails() {
            return Err(ReadError::Failed);
        }
        copied_bytes(alloc, self.files.as_slice(), name, most)
    }
}

/// The error of a read.
fn error_of(answer: &Result<Bytes, ReadError>) -> Option<ReadError>
    ensures { result ≡ result_err answer.now }
{
    match answer {
        Ok(_) => None,
        Err(error) => Some(*error),
    }
}

impl Shelf for MemShelf {
    ghost held = { λ s. Some s.files };

    ghost reads = { λ s. s.reads };

    ghost write_faults = { λ s. s.write_faults };

    ghost wants = { λ s. s.wants };

    /// Copies the bytes of the file. It fails exactly where the call's number is among those that
    /// fail.
    fn read(&mut self, alloc: Global, name: &str, most: usize) -> Result<Bytes, ReadError>
        ensures failed { (result ≡ Err ReadError.Failed) ↔ Fails self.old.calls }
        ensures absent { (result ≡ Err ReadError.Absent)
            ↔ ((¬ Fails self.old.calls) × (map.get self.old.files name.now ≡ None)) }
        ensures too_long { (result ≡ Err ReadError.TooLong)
            ↔ ((¬ Fails self.old.calls)
            × IsSomeAnd (map.get self.old.files name.now) (λ bytes. most < length bytes)) }
        ensures ok { IfOk result (λ bytes. map.get self.old.files name.now ≡ Some bytes) }
        ensures most { IfOk result (λ bytes. length bytes ≤ most) }
        ensures after { self.new
            ≡ record self.old { calls = after_call self.old.calls; reads = the_after_read self.old.reads (result_err result) } }
        ensures grows { NotFewer self.old.reads self.new.reads }
    {
        let answer = self.answer(alloc, name, most);
        self.reads = after_read(self.reads, error_of(&answer));
        answer
    }

    /// Puts a copy of the bytes in place of the file's, or makes the file. It fails exactly where
    /// the call's number is among those that fail. After any error each file is as before.
    fn write(&mut self, name: &str, bytes: &[u8]) -> Result<(), WriteError>
        ensures failed { (result ≡ Err WriteError.Failed) ↔ Fails self.old.calls }
        ensures ok { OnOk result (self.new ≡ record self.old {
          files = map.insert self.old.files name.now bytes.now;
          calls = after_call self.old.calls;
        }) }
        ensures fault { result ≡ Err WriteError.Failed
            → self.new
            ≡ record self.old { calls = after_call self.old.calls; write_faults = following self.old.write_faults } }
        ensures memory { result ≡ Err WriteError.Memory
            → self.new
            ≡ record self.old { calls = after_call self.old.calls; wants = following self.old.wants } }
        ensures no_want { result ≢ Err WriteError.Memory → self.new.wants ≡ self.old.wants }
        ensures grows { self.old.write_faults ≤ self.new.write_faults }
    {
        if self.calls.fails() {
            self.write_faults = next_count(self.write_faults);
            return Err(WriteError::Failed);
        }
        match put_bytes(self.alloc, &mut self.files, name, bytes) {
            Ok(()) => Ok(()),
            Err(_) => {
                self.wants = next_count(self.wants);
                Err(WriteError::Memory)
            }
        }
    }
}
