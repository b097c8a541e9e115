ghost use Rattle.std.specs.Prelude.{◌≡◌, ◌↔◌, IsTrue};
ghost use Rattle.rg_ports.specs.Calls.{Fails, no_calls, after_call};
ghost use Rattle.rg_ports.specs.Count.{following};

use c_types::List;
use std::marker::Model;

/// The calls of a memory port, which are numbered from 0.
#[derive(Debug, Drop)]
pub struct CallCounter {
    failing: List<u64>,
    next: u64,
}

impl Model for CallCounter {
    ghost use Rattle.rg_ports.specs.Calls.{Calls, calls_code};

    ghost Value = { Calls };

    ghost coded = { calls_code };

    ghost view = { λ c. record { failing = c.failing; next = c.next } };
}

impl CallCounter {
    /// No call was made yet. The calls with these numbers fail.
    pub fn new(failing: List<u64>) -> CallCounter
        ensures { result ≡ no_calls failing }
    {
        CallCounter { failing, next: 0 }
    }

    /// Makes the next call, and answers whether it fails.
    pub fn fails(&mut self) -> bool
        ensures answer { IsTrue result ↔ Fails self.old }
        ensures after { self.new ≡ after_call self.old }
    {
        let number = self.next;
        self.next = next_count(number);
        self.failing.as_slice().contains(&number)
    }
}

/// One more, or the last value once more.
pub fn next_count(count: u64) -> u64
    ensures { result ≡ following count }
{
    count.saturating_add(1)
}
