ghost use Rattle.std.specs.Prelude.{◌≡◌, ◌+◌, ◌-◌, ◌<◌, ◌≤◌, ◌⊎◌, ◌++◌, ◌↔◌, max, length, IfOk, OnOk, OnErr, IsErr};
ghost use Rattle.rg_ports.specs.Calls.{Fails, no_calls, after_call};
ghost use Rattle.rg_ports.specs.Count.{following};
ghost use Rattle.rg_ports.specs.Written.{Told};

use crate::calls::{CallCounter, next_count};
use crate::port::{Failed, Sink};
use c_types::{Bytes, List, Memory};
use std::alloc::Global;
use std::marker::Model;

/// A sink into memory, which takes bytes as long as room was made for them, and some of whose calls
/// fail.
#[derive(Debug, Drop)]
pub struct MemSink {
    bytes: Vec<u8>,
    room: usize,
    calls: CallCounter,
    faults: u64,
}

impl Model for MemSink {
    ghost use Rattle.std.specs.Prelude.{vec_len, vec_capacity, ◌+◌, ◌≤◌};
    ghost use Rattle.rg_ports.specs.MemoryPorts.{MemorySink, sink_code};

    ghost Value = { MemorySink };

    ghost coded = { sink_code };

    ghost view = { λ s. record {
      written = s.bytes.items;
      room = s.room;
      calls = s.calls;
      faults = s.faults;
    } };

    ghost invariant = { λ s. vec_len s.bytes + s.room ≤ vec_capacity s.bytes };
}

impl MemSink {
    /// A sink to which these bytes were written, with no room for more, whose calls of these
    /// numbers fail. Calls are numbered from 0.
    pub fn new(alloc: Global, start: Bytes, failing: List<u64>) -> Result<Self, Memory>
        ensures { IfOk result (λ sink. sink
            ≡ record { written = start; room = 0; calls = no_calls failing; faults = 0 }) }
    {
        let mut bytes = start.into_vec();
        bytes.reserve(0)?;
        Ok(MemSink {
            bytes,
            room: 0,
            calls: CallCounter::new(failing),
            faults: 0,
        })
    }

    /// Makes room for `more` further bytes, if there is less. It is no call that is numbered.
    pub fn reserve(&mut self, more: usize) -> Result<(), Memory>
        ensures ok { OnOk result (self.new ≡ record self.old { room = max self.old.room more }) }
        ensures err { OnErr result (self.new ≡ self.old) }
    {
        self.bytes.reserve(more)?;
        self.room = self.room.max(more);
        Ok(())
    }

    /// The bytes written. It takes no memory.
    pub fn bytes(&self) -> &[u8]
        ensures { result.now ≡ self.now.written }
    {
        self.bytes.as_slice()
    }

    /// The number of failed writes, up to 18,446,744,073,709,551,615. It takes no memory.
    pub fn faults(&self) -> u64
        ensures { result ≡ self.now.faults }
    {
        self.faults
    }
}

impl Sink for MemSink {
    ghost written = { λ s. Told s.written };

    ghost faults = { λ s. s.faults };

    /// Writes the whole piece. It fails exactly where the call's number is among those that fail,
    /// or the piece is longer than the room, and then it takes nothing. It takes no memory.
    fn write(&mut self, piece: &[u8]) -> Result<usize, Failed>
        ensures fails { IsErr result
            ↔ (Fails self.old.calls ⊎ (self.old.room < length piece.now)) }
        ensures count { IfOk result (λ n. n ≡ length piece.now) }
        ensures ok { OnOk result (self.new ≡ record self.old {
          written = self.old.written ++ piece.now;
          room = self.old.room - length piece.now;
          calls = after_call self.old.calls;
        }) }
        ensures err { OnErr result (self.new
            ≡ record self.old { calls = after_call self.old.calls; faults = following self.old.faults }) }
        ensures grows { self.old.faults ≤ self.new.faults }
    {
        if self.calls.fails() || piece.len() > self.room {
            self.faults = next_count(self.faults);
            return Err(Failed);
        }
        match self.bytes.extend_from_slice(piece) {
            Ok(()) => {
                self.room -= piece.len();
                Ok(piece.len())
            }
            Err(_) => unreachable!(),
        }
    }

    ghost counts = { λ _. tt };
}
