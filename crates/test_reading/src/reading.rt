use c_printer::print;
use c_scopes::{FlatCounter, read};
use c_tree::Item;
use c_types::{Bytes, List, Memory, ReadStop};
use std::alloc::Global;

/// Counts no jumps, so that no function is too tangled.
pub struct NoJumps;

impl FlatCounter for NoJumps {
    ghost use Rattle.std.specs.Prelude.{None};

    ghost flat = { λ s items. None };

    fn most(&self, _body: &List<Item>) -> Result<Option<(u64, u64)>, Memory> {
        Ok(None)
    }

    fn count(&self, _body: &List<Item>) -> Result<Option<(u64, u64)>, Memory> {
        Ok(None)
    }
}

/// Whether a text is refused for a reason at an offset.
pub fn is_refused(alloc: Global, text: &[u8], reason: u32, at: u64) -> bool {
    match read(alloc, &NoJumps, text) {
        Err(ReadStop::Refused(refusal)) => refusal.reason == reason && refusal.at == at,
        Err(ReadStop::Memory) => false,
        Ok(program) => {
            drop(program);
            false
        }
    }
}

fn are_bytes(bytes: Result<Bytes, Memory>, printed: &[u8]) -> bool {
    match bytes {
        Ok(bytes) => {
            let same = bytes.as_slice() == printed;
            drop(bytes);
            same
        }
        Err(_) => false,
    }
}

/// Whether a text reads as a program that is printed so.
pub fn is_printed(alloc: Global, text: &[u8], printed: &[u8]) -> bool {
    match read(alloc, &NoJumps, text) {
        Ok(program) => {
            let bytes = print(alloc, &program);
            drop(program);
            are_bytes(bytes, printed)
        }
        Err(_) => false,
    }
}
