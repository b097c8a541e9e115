ghost use Rattle.std.specs.Prelude.{◌≡◌, ◌+◌, ◌≤◌, List, ℕ, Option, None, vec_len, length, IfOk, OnOk, OnErr, IfSome, IsSomeAnd, option_map, Err};
ghost use Rattle.std.specs.Result.{result_err};
ghost use Rattle.std.specs.FinMap as map;
ghost use Rattle.rg_ports.specs.Count.{Rose};
ghost use Rattle.rg_ports.specs.Files.{HoldsPrefix};

use crate::replacing::put_file;
use c_types::{Bytes, List};
use rg_ports::{NO_READS, ReadCounts, ReadError, Shelf, WriteError, after_read};
use std::alloc::Global;
use std::fs;
use std::io::{ErrorKind, Read};
use std::rt::Files;

/// The files of the system. It tells none of their contents.
#[derive(Drop)]
pub struct FileShelf<'a, R: Files + AllocGlobal> {
    runtime: &'a R,
    reads: ReadCounts,
    writes: u64,
    wants: u64,
}

impl<'a, R: Files + AllocGlobal> FileShelf<'a, R> {
    /// The files that the runtime reaches. No call was made yet.
    pub fn new(runtime: &'a R) -> Self {
        FileShelf {
            runtime,
            reads: NO_READS,
            writes: 0,
            wants: 0,
        }
    }
}

impl<'a, R: Files + AllocGlobal> Shelf for FileShelf<'a, R> {
    ghost held = { λ _. None };

    ghost reads = { λ shelf. shelf.reads };

    ghost write_faults = { λ shelf. shelf.writes };

    ghost wants = { λ shelf. shelf.wants };

    fn read(&mut self, alloc: Global, name: &str, most: usize) -> Result<Bytes, ReadError> {
        let answer = read_file(self.runtime, alloc, name, most);
        self.reads = after_read(self.reads, error_of(&answer));
        answer
    }

    fn write(&mut self, name: &str, bytes: &[u8]) -> Result<(), WriteError> {
        let answer = put_file(self.runtime, name, bytes);
        match answer {
            Ok(()) => {}
            Err(WriteError::Failed) => self.writes = self.writes.saturating_add(1),
            Err(WriteError::Memory) => self.wants = self.wants.saturating_add(1),
        }
        answer
    }
}

/// The error of a read.
fn error_of(answer: &Result<Bytes, ReadError>) -> Option<ReadError>
    ensures { result ≡ result_err answer.now }
{
    match answer {
        Ok(_) => None,
        Err(error) => Some(*error),
    }
}

/// The bytes of a file, unless they are more than `most`.
fn read_file<R: Files>(
    runtime: &R,
    alloc: Global,
    name: &str,
    most: usize,
) -> Result<Bytes, ReadError>
    ensures most { IfOk result (λ bytes. length bytes ≤ most) }
{
    match fs::open(runtime, name) {
        Ok(mut file) => read_all(alloc, &mut file, most),
        Err(error) => {
            if error.kind() == ErrorKind::NotFound {
                Err(ReadError::Absent)
            } else {
                Err(ReadError::Failed)
            }
        }
    }
}

/// Reads to the end, unless more than `most` bytes come.
fn read_all<F: Read>(alloc: Global, file: &mut F, most: usize) -> Result<Bytes, ReadError>
    ensures most { IfOk result (λ bytes. length bytes ≤ most) }
{
    let mut bytes = Vec::new(alloc);
    let mut piece = [0u8; 4096];
    for _ in 0..u64::MAX {
        let count = match file.read(&mut piece) {
            Ok(count) => count,
            Err(_) => return Err(ReadError::Failed),
        };
        if count == 0 {
            break;
        }
        if bytes.extend_from_slice(&piece[..count]).is_err() {
            return Err(ReadError::Memory);
        }
        if bytes.len() > most {
            return Err(ReadError::TooLong);
        }
    }
    if bytes.len() > c_types::MOST {
        return Err(ReadError::Memory);
    }
    Ok(List::from_vec(bytes))
}
