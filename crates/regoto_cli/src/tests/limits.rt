//! Texts just inside and just outside a limit, and texts that are large.

use crate::tests::ports::{Outcome, restructuring, run};
use c_types::Memory;
use regoto::{MOST_BYTES, Status};
use rg_ports::MemShelf;
use std::alloc::Global;
use std::str;

/// A text that is written: how many bytes it has, and how often it holds a part.
struct Made {
    length: usize,
    part: &'static str,
    times: usize,
}

/// A piece of a text.
pub enum Piece {
    /// A text, so many times.
    Times(&'static str, u32),
    /// So many jumps, each to a label of its own right behind it.
    Jumps(u32),
}

/// A text of one line, put together of pieces; and the reason and the offset of its refusal if it is refused, the line on
/// the standard error, and what is written, if anything is.
struct Edge {
    pieces: &'static [Piece],
    refused: Option<(u32, u64)>,
    line: &'static str,
    made: Option<Made>,
}

static EDGES: [Edge; 13] = [
    Edge {
        pieces: &[
            Piece::Times("int main(void) { ", 1),
            Piece::Times("if (1) {", 399),
            Piece::Times("}", 400),
        ],
        refused: None,
        line: "regoto: 0 jumps, 0 moves, 0 guards\n",
        made: Some(Made {
            length: 66728,
            part: "if (1) {\n",
            times: 399,
        }),
    },
    Edge {
        pieces: &[
            Piece::Times("int main(void) { ", 1),
            Piece::Times("if (1) {", 400),
            Piece::Times("}", 401),
        ],
        refused: Some((11, 3216)),
        line: "a.c:1:3217: error 11: nested too deeply\n",
        made: None,
    },
    Edge {
        pieces: &[
            Piece::Times("int main(void) { ", 1),
            Piece::Jumps(66),
            Piece::Times("return 1 + 1 + 1 + 1 + 1; }", 1),
        ],
        refused: None,
        line: "regoto: 66 jumps, 132 moves, 0 guards\n",
        made: Some(Made {
            length: 49,
            part: "    return 1 + 1 + 1 + 1 + 1;\n",
            times: 1,
        }),
    },
    Edge {
        pieces: &[
            Piece::Times("int main(void) { ", 1),
            Piece::Jumps(66),
            Piece::Times("return 1 + 1 + 1 + 1 + 1 + 1; }", 1),
        ],
        refused: Some((39, 4)),
        line: "a.c:1:5: error 39: function too tangled\n",
        made: None,
    },
    Edge {
        pieces: &[
            Piece::Times("int main(void) { goto ", 1),
            Piece::Times("L", 63),
            Piece::Times("; ", 1),
            Piece::Times("L", 63),
            Piece::Times(": ; }", 1),
        ],
        refused: None,
        line: "regoto: 1 jumps, 2 moves, 0 guards\n",
        made: Some(Made {
            length: 19,
            part: "int main(void) {\n}\n",
            times: 1,
        }),
    },
    Edge {
        pieces: &[
            Piece::Times("int main(void) { goto ", 1),
            Piece::Times("L", 64),
            Piece::Times("; ", 1),
            Piece::Times("L", 64),
            Piece::Times(": ; }", 1),
        ],
        refused: Some((39, 4)),
        line: "a.c:1:5: error 39: function too tangled\n",
        made: None,
    },
    // one level deeper than the same without `if`
    Edge {
        pieces: &[
            Piece::Times("int main(void) { ", 1),
            Piece::Times("if (1) goto L; ", 133),
            Piece::Times("L: ; }", 1),
        ],
        refused: Some((39, 4)),
        line: "a.c:1:5: error 39: function too tangled\n",
        made: None,
    },
    // the guard would be tested once for each jump, were it not simplified
    Edge {
        pieces: &[
            Piece::Times("int main(void) { while (1", 1),
            Piece::Times(" + 1", 300),
            Piece::Times(") { ", 1),
            Piece::Times("if (1) goto e; ", 40),
            Piece::Times("} e: ; return 0; }", 1),
        ],
        refused: None,
        line: "regoto: 40 jumps, 899 moves, 1 guards\n",
        made: Some(Made {
            length: 10033,
            part: "!goto_e &&",
            times: 1,
        }),
    },
    // many moves beside a large statement, which is not copied
    Edge {
        pieces: &[
            Piece::Times("int main(void) { int x = 0; ", 1),
            Piece::Times("goto L; ", 132),
            Piece::Times("L: if (x) { ", 1),
            Piece::Times("x=x+1;", 150000),
            Piece::Times(" } }", 1),
        ],
        refused: None,
        line: "regoto: 132 jumps, 8778 moves, 1 guards\n",
        made: Some(Made {
            length: 2883147,
            part: "        x = x + 1;\n",
            times: 150000,
        }),
    },
    Edge {
        pieces: &[Piece::Times("int x = ", 1), Piece::Times("(", 400)],
        refused: Some((10, 408)),
        line: "a.c:1:409: error 10: unexpected token\n",
        made: None,
    },
    Edge {
        pieces: &[Piece::Times("int x = ", 1), Piece::Times("(", 401)],
        refused: Some((11, 408)),
        line: "a.c:1:409: error 11: nested too deeply\n",
        made: None,
    },
    Edge {
        pieces: &[Piece::Times("int x = ", 1), Piece::Times("(", 65536)],
        refused: Some((11, 408)),
        line: "a.c:1:409: error 11: nested too deeply\n",
        made: None,
    },
    Edge {
        pieces: &[Piece::Times(" ", MOST_BYTES as u32 + 1)],
        refused: Some((1, 0)),
        line: "a.c:1:1: error 1: text too long\n",
        made: None,
    },
];

/// Depth 1 and 133 jumps are 400.
static TANGLED: Edge = Edge {
    pieces: &[
        Piece::Times("int main(void) { ", 1),
        Piece::Times("goto L; ", 133),
        Piece::Times("L: ; }", 1),
    ],
    refused: None,
    line: "regoto: 133 jumps, 8911 moves, 1 guards\n",
    made: Some(Made {
        length: 33375,
        part: "goto_L = 1;",
        times: 133,
    }),
};

fn push_often(text: &mut String, piece: &str, times: u32) -> Result<(), Memory> {
    for _ in 0..times {
        text.push_str(piece)?;
    }
    Ok(())
}

fn push_jumps(text: &mut String, count: u32) -> Result<(), Memory> {
    for number in 1..=count {
        write!(text, "goto L{number}; L{number}: ; ")?;
    }
    Ok(())
}

/// The text of these pieces.
pub fn text_of(alloc: Global, pieces: &[Piece]) -> Result<String, Memory> {
    let mut text = String::new(alloc);
    for piece in pieces {
        match piece {
            Piece::Times(piece, times) => push_often(&mut text, piece, *times)?,
            Piece::Jumps(count) => push_jumps(&mut text, *count)?,
        }
    }
    Ok(text)
}

fn outcome_of(alloc: Global, edge: &Edge) -> Result<Outcome, Memory> {
    let text = text_of(alloc, edge.pieces)?;
    let ran = run(alloc, &restructuring(text.as_str()));
    drop(text);
    ran
}

fn is_made(made: &Made, written: &[u8]) -> bool {
    match str::from_utf8(written) {
        Ok(text) => text.len() == made.length && text.matches(made.part).count() == made.times,
        Err(_) => false,
    }
}

/// Whether this was written, or nothing where nothing is to be.
fn holds(shelf: &MemShelf, made: &Option<Made>) -> bool {
    match (made, shelf.held("b.c")) {
        (Some(made), Some(written)) => is_made(made, written),
        (None, None) => true,
        _ => false,
    }
}

/// Whether the command ended so: with a refusal in the first line for this reason at this offset, or else done.
fn is_ended(status: Status, refused: Option<(u32, u64)>) -> bool {
    match (status, refused) {
        (Status::Refused(it), Some((reason, at))) => {
            it.reason == reason && it.line == 1 && it.column == at.saturating_add(1) && it.at == at
        }
        (Status::Done, None) => true,
        _ => false,
    }
}

fn is_met(edge: &Edge, ran: &Outcome) -> bool {
    ran.err.bytes() == edge.line.as_bytes()
        && is_ended(ran.status, edge.refused)
        && holds(&ran.shelf, &edge.made)
}

fn is_at_edge(alloc: Global, edge: &Edge) -> bool {
    match outcome_of(alloc, edge) {
        Ok(ran) => {
            let met = is_met(edge, &ran);
            drop(ran);
            met
        }
        Err(_) => false,
    }
}

#[test]
fn knows_the_limits(rt: HostRuntime) {
    for edge in &EDGES {
        assert!(rt; is_at_edge(rt.alloc(), edge), "{}", edge.line);
    }
}

#[test]
fn counts_many_moves(rt: HostRuntime) {
    assert!(rt; is_at_edge(rt.alloc(), &TANGLED));
}
