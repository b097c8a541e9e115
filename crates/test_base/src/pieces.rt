//! Texts that are written in pieces.

use c_types::{Bytes, List, Memory};
use cmd_files::write_in_pieces;
use rg_ports::MemSink;
use std::alloc::Global;

/// Of a text of 10,000 bytes: the number of the call that fails, and how many bytes are taken before. The text has
/// three pieces.
static PIECES: [(u64, usize); 4] = [(0, 0), (1, 4096), (2, 8192), (3, 10000)];

fn sink(alloc: Global, failing: u64) -> Result<MemSink, Memory> {
    let calls = List::from_slice(alloc, &[failing])?;
    MemSink::new(alloc, Bytes::new(alloc), calls)
}

fn takes(out: &mut MemSink, taken: usize) -> Result<bool, Memory> {
    out.reserve(10000)?;
    let is_written = write_in_pieces(out, &[b'x'; 10000]).is_ok();
    Ok(is_written == (taken == 10000) && out.bytes().len() == taken)
}

fn is_taken(alloc: Global, failing: u64, taken: usize) -> Result<bool, Memory> {
    let mut out = sink(alloc, failing)?;
    let met = takes(&mut out, taken);
    drop(out);
    met
}

#[test]
fn a_piece_has_at_most_4096_bytes(rt: HostRuntime) {
    for (failing, taken) in &PIECES {
        assert!(rt;
            is_taken(rt.alloc(), *failing, *taken) == Ok(true),
            "{failing}"
        );
    }
}
