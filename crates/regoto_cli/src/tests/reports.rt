//! Reports that are written, and texts that are read as reports.
ghost use Rattle.rg_ports.specs.Written.{Untold};

use c_tree::{Path, Step};
use c_types::{List, Memory, Name};
use move_report::{ReportStop, read_report, report_to, write_report};
use report_moves::{Move, MoveKind};
use rg_ports::{Failed, Sink};
use std::alloc::Global;
use std::test::Fail;

/// A text, and its first bad line where it is no report.
struct Reading {
    text: &'static str,
    bad_line: Option<u64>,
}

static READINGS: [Reading; 11] = [
    Reading {
        text: "",
        bad_line: None,
    },
    Reading {
        text: "main join done 3\nmain out loop 3.t.3\nmain join loop 4\n",
        bad_line: None,
    },
    Reading {
        text: "f out two 0.s0.1\nf lift two 1\nf in two 0.b.0\nf in two 0.b.0.s2.0\nf z4 - 0.b.2\n",
        bad_line: None,
    },
    Reading {
        text: "main out loop 3.t\n",
        bad_line: Some(1),
    },
    Reading {
        text: "main jump loop 3\n",
        bad_line: Some(1),
    },
    Reading {
        text: "main join done 3\nmain join loop 4",
        bad_line: Some(2),
    },
    Reading {
        text: "main z1 loop 4\n",
        bad_line: Some(1),
    },
    Reading {
        text: "main z2 - 4\n",
        bad_line: Some(1),
    },
    Reading {
        text: "main join done 03\n",
        bad_line: Some(1),
    },
    Reading {
        text: "main join done 4294967296\n",
        bad_line: Some(1),
    },
    Reading {
        text: "main join while 3\n",
        bad_line: Some(1),
    },
];

#[test]
fn reports_are_read_and_written(rt: HostRuntime) -> Result<(), Fail> {
    for reading in &READINGS {
        let text = reading.text.as_bytes();
        match read_report(rt.alloc(), text) {
            Ok(moves) => {
                assert!(rt; reading.bad_line.is_none());
                let written = write_report(rt.alloc(), &moves)?;
                assert_eq!(rt; written.as_slice(), text);
            }
            Err(ReportStop::BadLine(line)) => assert!(rt; reading.bad_line == Some(line)),
            Err(ReportStop::Memory) => assert!(rt; false),
        }
    }
    Ok(())
}

/// Keeps the length of the longest piece and of all.
#[derive(Drop)]
struct Lengths {
    longest: usize,
    total: usize,
}

impl Sink for Lengths {
    ghost written = { λ s. Untold };

    ghost faults = { λ s. 0 };

    ghost counts = { λ s. tt };

    fn write(&mut self, piece: &[u8]) -> Result<usize, Failed> {
        self.longest = self.longest.max(piece.len());
        self.total = self.total.saturating_add(piece.len());
        Ok(piece.len())
    }
}

/// So many moves.
fn moves(alloc: Global, count: u32) -> Result<List<Move>, Memory> {
    let mut moves = List::new(alloc);
    for item in 0..count {
        let steps: List<Step> = List::new(alloc);
        moves.push(Move {
            function: Name::from_string(String::from_str(alloc, "f")?),
            kind: MoveKind::Z4,
            label: None,
            path: Path { steps, item },
        })?;
    }
    Ok(moves)
}

#[test]
fn long_reports_go_in_short_pieces(rt: HostRuntime) -> Result<(), Fail> {
    let moves = moves(rt.alloc(), 1000)?;
    let text = write_report(rt.alloc(), &moves)?;
    let mut out = Lengths {
        longest: 0,
        total: 0,
    };
    assert!(rt; report_to(&moves, &mut out).is_ok());
    assert_eq!(rt; out.longest, 4096);
    assert_eq!(rt; out.total, text.len());
    Ok(())
}
