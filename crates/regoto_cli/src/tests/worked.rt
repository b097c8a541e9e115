//! Whole texts through the commands: the text that is written, the report, and the line on the standard error.

use crate::tests::example_texts::EXAMPLES;
use crate::tests::more_example_texts::MORE_EXAMPLES;
use crate::tests::plain_texts::PLAIN_FORMS;
use crate::tests::ports::{CASE, Case, leaves};
use std::alloc::Global;
use test_texts::{WORKED, Worked};

/// What is made of a text.
#[derive(Clone, Copy)]
enum Making {
    Text,
    Report,
    Both,
    Replayed,
    Tidied,
}

static MAKINGS: [Making; 5] = [
    Making::Text,
    Making::Report,
    Making::Both,
    Making::Replayed,
    Making::Tidied,
];

/// What is told of a replay behind `regoto: `: the line of a text that was restructured, without the count of its jumps.
fn told_of_replay(line: &'static str) -> &'static str {
    match line.split_once(" jumps, ") {
        Some((_jumps, rest)) => rest,
        None => "",
    }
}

/// `tidy` of what a text is restructured to. Where it doesn't change that every guard stays.
fn tidying(case: &Worked) -> Case<'static> {
    let (line, text) = case.tidied.unwrap_or(("regoto: 0 changes", case.text));
    Case {
        words: &["tidy", "a.c", "b.c"],
        source: case.text,
        text: Some(text),
        line,
        ..CASE
    }
}

fn case_of(making: Making, case: &Worked) -> Case<'static> {
    let on = Case {
        source: case.source,
        ..CASE
    };
    match making {
        Making::Text => Case {
            words: &["show", "a.c"],
            out: case.text,
            ..on
        },
        Making::Report => Case {
            words: &["moves", "a.c"],
            out: case.report,
            ..on
        },
        Making::Both => Case {
            words: &["restructure", "a.c", "b.c", "--report", "r.txt"],
            text: Some(case.text),
            moves: Some(case.report),
            line: case.line,
            ..on
        },
        Making::Replayed => Case {
            words: &["replay", "a.c", "r.txt", "b.c"],
            report: case.report,
            text: Some(case.text),
            front: "regoto: ",
            line: told_of_replay(case.line),
            ..on
        },
        Making::Tidied => tidying(case),
    }
}

/// Whether all that commands make of a text is what it is to be.
fn is_made(alloc: Global, case: &Worked) -> bool {
    for making in MAKINGS {
        if !leaves(alloc, &case_of(making, case)) {
            return false;
        }
    }
    true
}

/// The first of these texts of which something else is made.
fn unmet(alloc: Global, cases: &'static [Worked]) -> Option<&'static str> {
    for case in cases {
        if !is_made(alloc, case) {
            return Some(case.source);
        }
    }
    None
}

#[test]
fn restructures_shows_replays_and_tidies(rt: HostRuntime) {
    assert_eq!(rt; unmet(rt.alloc(), &WORKED), None);
    assert_eq!(rt; unmet(rt.alloc(), &EXAMPLES), None);
    assert_eq!(rt; unmet(rt.alloc(), &MORE_EXAMPLES), None);
    assert_eq!(rt; unmet(rt.alloc(), &PLAIN_FORMS), None);
}
