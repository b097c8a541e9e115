ghost use Rattle.std.specs.Prelude.{◌≡◌, ◌∷◌, []};
ghost use Rattle.rg_ports.specs.Writing.{Progress, progress_of, Gives};

use crate::{Failed, Sink, write_all};
use arrayvec::ArrayVec;

/// Where a text goes, and what has become of it.
pub trait Output {
    ghost progress: { Self → Progress };

    fn put(&mut self, bytes: &[u8])
        ensures { Gives (progress self.old) (progress self.new) bytes.now };
}

/// A sink behind a buffer. After a write that failed, no more bytes are handed to it.
#[derive(Drop)]
pub struct Writer<'a, O> {
    pub sink: &'a mut O,
    pub held: ArrayVec<u8, 4096>,
    pub failed: bool,
}

impl<'a, O: Sink> Writer<'a, O> {
    /// Hands the held bytes to the sink.
    pub fn flush(&mut self)
        ensures gives { Gives
            (progress_of self.old.sink.ghost_name (O.written self.old.sink.now) (O.faults self.old.sink.now) self.old.held.items self.old.failed)
            (progress_of self.new.sink.ghost_name (O.written self.new.sink.now) (O.faults self.new.sink.now) self.new.held.items self.new.failed)
            [] }
        ensures emptied { self.new.held.items ≡ [] }
    {
        if self.failed {
            self.held.clear();
            return;
        }
        match write_all(self.sink, self.held.as_slice()) {
            Ok(()) => self.held.clear(),
            Err(Failed) => {
                self.failed = true;
                self.held.clear();
            }
        }
    }

    fn push(&mut self, byte: u8)
        ensures { Gives
            (progress_of self.old.sink.ghost_name (O.written self.old.sink.now) (O.faults self.old.sink.now) self.old.held.items self.old.failed)
            (progress_of self.new.sink.ghost_name (O.written self.new.sink.now) (O.faults self.new.sink.now) self.new.held.items self.new.failed)
            (byte ∷ []) }
    {
        if self.held.is_full() {
            self.flush();
        }
        self.held.push(byte);
    }
}

impl<'a, O: Sink> Output for Writer<'a, O> {
    ghost progress = { λ w. progress_of w.sink.ghost_name (O.written w.sink.now) (O.faults w.sink.now) w.held.items w.failed };

    fn put(&mut self, bytes: &[u8]) {
        if self.held.try_extend_from_slice(bytes).is_err() {
            for byte in bytes {
                self.push(*byte);
            }
        }
    }
}
