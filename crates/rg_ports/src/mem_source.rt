ghost use Rattle.std.specs.Prelude.{Some, ◌≡◌, ◌++◌, ◌↔◌, ◌≤◌, take, drop, min, length, IfOk, OnErr, IsErr};
ghost use Rattle.rg_ports.specs.Calls.{Fails, no_calls, after_call};
ghost use Rattle.rg_ports.specs.Count.{following};

use crate::calls::{CallCounter, next_count};
use crate::port::{Failed, Source};
use c_types::{Bytes, List, Memory};
use std::alloc::Global;
use std::marker::Model;

/// A source over bytes in memory, some of whose calls fail.
#[derive(Debug, Drop)]
pub struct MemSource {
    bytes: Bytes,
    at: usize,
    calls: CallCounter,
    faults: u64,
}

impl Model for MemSource {
    ghost use Rattle.std.specs.Prelude.{drop, length, ◌≤◌};
    ghost use Rattle.rg_ports.specs.MemoryPorts.{MemorySource, source_code};

    ghost Value = { MemorySource };

    ghost coded = { source_code };

    ghost view = { λ s. record { rest = drop s.at s.bytes; calls = s.calls; faults = s.faults } };

    ghost invariant = { λ s. s.at ≤ length s.bytes };
}

impl MemSource {
    /// A source of these bytes, whose calls of these numbers fail. Calls are numbered from 0.
    pub fn new(alloc: Global, start: Bytes, failing: List<u64>) -> Result<Self, Memory>
        ensures { IfOk result (λ source. source
            ≡ record { rest = start; calls = no_calls failing; faults = 0 }) }
    {
        Ok(MemSource {
            bytes: start,
            at: 0,
            calls: CallCounter::new(failing),
            faults: 0,
        })
    }

    /// The bytes left. It takes no memory.
    pub fn rest(&self) -> &[u8]
        ensures { result.now ≡ self.now.rest }
    {
        &self.bytes.as_slice()[self.at..]
    }

    /// The number of failed reads, up to 18,446,744,073,709,551,615. It takes no memory.
    pub fn faults(&self) -> u64
        ensures { result ≡ self.now.faults }
    {
        self.faults
    }
}

impl Source for MemSource {
    ghost rest = { λ s. Some s.rest };

    ghost faults = { λ s. s.faults };

    /// Moves as many bytes as `buf` takes and the source has. It fails exactly where the call's
    /// number is among those that fail, and takes no memory.
    fn read(&mut self, buf: &mut [u8]) -> Result<usize, Failed>
        ensures fails { IsErr result ↔ Fails self.old.calls }
        ensures count { IfOk result (λ n. n ≡ min (length buf.old) (length self.old.rest)) }
        ensures bytes { IfOk result (λ n. buf.new ≡ take n self.old.rest ++ drop n buf.old) }
        ensures ok { IfOk result (λ n. self.new
            ≡ record self.old { rest = drop n self.old.rest; calls = after_call self.old.calls }) }
        ensures err { OnErr result (self.new
            ≡ record self.old { calls = after_call self.old.calls; faults = following self.old.faults }) }
        ensures kept { OnErr result (buf.new ≡ buf.old) }
        ensures grows { self.old.faults ≤ self.new.faults }
    {
        if self.calls.fails() {
            self.faults = next_count(self.faults);
            return Err(Failed);
        }
        let count = copy_front(buf, &self.bytes.as_slice()[self.at..]);
        self.at += count;
        Ok(count)
    }
}

/// Copies as many bytes as both have, and answers how many.
fn copy_front(to: &mut [u8], from: &[u8]) -> usize
    ensures count { result ≡ min (length to.old) (length from.now) }
    ensures bytes { to.new ≡ take result from.now ++ drop result to.old }
{
    let count = to.len().min(from.len());
    to[..count].copy_from_slice(&from[..count]);
    count
}
