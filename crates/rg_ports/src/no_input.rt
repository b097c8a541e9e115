ghost use Rattle.std.specs.Prelude.{◌≡◌, [], Some, Ok};

use crate::port::{Failed, Source};

/// A source with nothing in it, which never fails.
#[derive(Clone, Copy, Debug, PartialEq, Eq)]
pub struct NoInput;

impl NoInput {
    /// The source with nothing in it.
    pub fn new() -> Self {
        NoInput
    }
}

impl Source for NoInput {
    ghost rest = { λ _. Some [] };

    ghost faults = { λ _. 0 };

    /// Answers that nothing is left.
    fn read(&mut self, buf: &mut [u8]) -> Result<usize, Failed>
        ensures end { result ≡ Ok 0 }
        ensures kept { buf.new ≡ buf.old }
    {
        Ok(0)
    }
}
