ghost use Rattle.std.specs.Prelude.{◌≡◌, ◌+◌, ◌≤◌, min, length, Ok};
ghost use Rattle.rg_ports.specs.Written.{Counted};

use crate::port::{Failed, Sink};

/// A sink that counts the bytes and keeps none of them. It never fails.
#[derive(Debug, Drop)]
pub struct CountSink {
    count: u64,
    ghost fits: { count ≤ 18446744073709551615 },
}

impl CountSink {
    ghost use Rattle.rg_ports.specs.CountSink.{count_of};

    /// A sink to which nothing was written.
    pub fn new() -> Self
        ensures { count_of result ≡ 0 }
    {
        CountSink { count: 0 }
    }

    /// The number of bytes written, up to 18,446,744,073,709,551,615. It takes no memory.
    pub fn written(&self) -> u64
        ensures { result ≡ count_of self.now }
    {
        self.count
    }
}

impl Sink for CountSink {
    ghost use Rattle.rg_ports.specs.CountSink.{count_of};

    ghost written = { λ s. Counted (count_of s) };

    ghost faults = { λ _. 0 };

    /// Takes the whole piece.
    fn write(&mut self, piece: &[u8]) -> Result<usize, Failed>
        ensures whole { result ≡ Ok (length piece.now) }
        ensures counted { count_of self.new
            ≡ min (count_of self.old + length piece.now) 18446744073709551615 }
    {
        self.count = self.count.saturating_add(piece.len() as u64);
        Ok(piece.len())
    }

    ghost counts = { λ s. s.fits };
}
