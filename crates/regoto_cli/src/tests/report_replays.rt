//! Texts and reports through `move_replay::replay`.

use crate::tests::replayed_texts::{REPLAYED, SEVERAL_FUNCTIONS};
use c_printer::print;
use c_text::read;
use c_types::{Bytes, ReadStop};
use move_driver::{Counts, restructure_text};
use move_replay::replay;
use std::alloc::Global;
use std::test::Fail;
use test_texts::TWO_RESOURCES;

#[derive(Drop)]
struct Answer {
    text: Bytes,
    counts: Counts,
}

fn replayed(alloc: Global, source: &str, report: &[u8]) -> Result<Answer, ReadStop> {
    let program = read(alloc, source.as_bytes())?;
    let (program, counts) = replay(alloc, program, report)?;
    let text = print(alloc, &program);
    drop(program);
    Ok(Answer {
        text: text?,
        counts,
    })
}

/// Whether the report gives this text and these counts.
fn gives(
    alloc: Global,
    source: &str,
    report: &[u8],
    text: &[u8],
    counts: Counts,
) -> Result<bool, ReadStop> {
    let answer = replayed(alloc, source, report)?;
    let met = answer.text.as_slice() == text && answer.counts == counts;
    drop(answer);
    Ok(met)
}

#[test]
fn in_another_order(rt: HostRuntime) -> Result<(), Fail> {
    let report = "copy join close_a 6\ncopy join out 3\n";
    let counts = Counts {
        jumps: 2,
        moves: 2,
        guards: 2,
    };
    let met = gives(
        rt.alloc(),
        TWO_RESOURCES.source,
        report.as_bytes(),
        TWO_RESOURCES.text.as_bytes(),
        counts,
    );
    assert!(rt; matches!(met, Ok(true)));
    Ok(())
}

/// A report of the text with two resources, and the reason, line, column and offset with which it is refused.
struct Refused {
    report: &'static str,
    at: (u32, u64, u64, u64),
}

static REFUSED: [Refused; 7] = [
    Refused {
        report: "copy join close_a 3\n",
        at: (51, 1, 1, 0),
    },
    Refused {
        report: "",
        at: (52, 1, 1, 0),
    },
    Refused {
        report: "copy join close_a 6\n",
        at: (52, 2, 1, 20),
    },
    Refused {
        report: "copy join close_a 6\ncopy lift out 3\n",
        at: (51, 2, 1, 20),
    },
    Refused {
        report: "copy join close_a 6\nmain out loop 3.t\n",
        at: (50, 2, 1, 20),
    },
    Refused {
        report: "main out loop 3.t\n",
        at: (50, 1, 1, 0),
    },
    Refused {
        report: "copy join close_a 6\ncopy join out 3",
        at: (50, 2, 1, 20),
    },
];

/// The reason, line, column and offset with which a report is refused; zeros where it isn't.
fn refusal(alloc: Global, report: &str) -> (u32, u64, u64, u64) {
    match replayed(alloc, TWO_RESOURCES.source, report.as_bytes()) {
        Ok(answer) => {
            drop(answer);
            (0, 0, 0, 0)
        }
        Err(ReadStop::Refused(r)) => (r.reason, r.line, r.column, r.at),
        Err(ReadStop::Memory) => (0, 0, 0, 0),
    }
}

#[test]
fn refuses(rt: HostRuntime) -> Result<(), Fail> {
    for case in &REFUSED {
        assert!(rt;
            refusal(rt.alloc(), case.report) == case.at,
            "{}",
            case.report
        );
    }
    Ok(())
}

/// Whether the report of a text is accepted, and gives what it is restructured to.
fn gives_the_same(alloc: Global, source: &str) -> Result<bool, ReadStop> {
    let written = restructure_text(alloc, source.as_bytes())?;
    let met = gives(
        alloc,
        source,
        written.report.as_slice(),
        written.text.as_slice(),
        written.counts,
    );
    drop(written);
    met
}

#[test]
fn gives_what_was_restructured(rt: HostRuntime) -> Result<(), Fail> {
    for case in &REPLAYED {
        let met = gives_the_same(rt.alloc(), case.source);
        assert!(rt; matches!(met, Ok(true)), "{}", case.source);
    }
    let met = gives_the_same(rt.alloc(), SEVERAL_FUNCTIONS);
    assert!(rt; matches!(met, Ok(true)));
    Ok(())
}
