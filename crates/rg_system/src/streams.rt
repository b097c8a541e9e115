ghost use Rattle.std.specs.Prelude.{◌≡◌, ◌+◌, ◌≤◌, ◌-◌, List, ℕ, Option, None, length};
ghost use Rattle.rg_ports.specs.Written.{Untold};

use rg_ports::{Failed, Sink, Source};
use std::io::Read;
use std::str;

/// The standard input. It doesn't tell what comes.
#[derive(Drop)]
pub struct InPort<'a, R: Input> {
    runtime: &'a R,
    faults: u64,
}

impl<'a, R: Input> InPort<'a, R> {
    /// The input of the runtime. No read has failed yet.
    pub fn new(runtime: &'a R) -> Self {
        InPort { runtime, faults: 0 }
    }
}

impl<'a, R: Input> Source for InPort<'a, R> {
    ghost rest = { λ _. None };

    ghost faults = { λ port. port.faults };

    fn read(&mut self, buf: &mut [u8]) -> Result<usize, Failed> {
        match self.runtime.reader().read(buf) {
            Ok(count) => Ok(count),
            Err(_) => {
                self.faults = self.faults.saturating_add(1);
                Err(Failed)
            }
        }
    }
}

/// The standard output. It doesn't tell what was written.
#[derive(Drop)]
pub struct OutPort<'a, R: Print> {
    runtime: &'a R,
    faults: u64,
}

impl<'a, R: Print> OutPort<'a, R> {
    /// The output of the runtime. No write has failed yet.
    pub fn new(runtime: &'a R) -> Self {
        OutPort { runtime, faults: 0 }
    }
}

impl<'a, R: Print> Sink for OutPort<'a, R> {
    ghost written = { λ _. Untold };

    ghost faults = { λ port. port.faults };

    fn write(&mut self, piece: &[u8]) -> Result<usize, Failed> {
        match self.runtime.write_some(piece) {
            Ok(count) => {
                if count > 0 || piece.is_empty() {
                    return Ok(count);
                }
            }
            Err(_) => {}
        }
        self.faults = self.faults.saturating_add(1);
        Err(Failed)
    }

    ghost counts = { λ _. tt };
}

/// The standard error. It takes text alone, and doesn't tell what was written.
#[derive(Drop)]
pub struct ErrPort<'a, R: Eprint> {
    runtime: &'a R,
    faults: u64,
}

impl<'a, R: Eprint> ErrPort<'a, R> {
    /// The error output of the runtime. No write has failed yet.
    pub fn new(runtime: &'a R) -> Self {
        ErrPort { runtime, faults: 0 }
    }
}

impl<'a, R: Eprint> Sink for ErrPort<'a, R> {
    ghost written = { λ _. Untold };

    ghost faults = { λ port. port.faults };

    fn write(&mut self, piece: &[u8]) -> Result<usize, Failed> {
        if let Ok(text) = str::from_utf8(piece) {
            if self.runtime.eprint(text).is_ok() {
                return Ok(piece.len());
            }
        }
        self.faults = self.faults.saturating_add(1);
        Err(Failed)
    }

    ghost counts = { λ _. tt };
}
