//! Devices that fail: each call that a command makes of its ports fails in turn.

use crate::tests::ports::{Failing, Outcome, SOUND, run_with};
use c_types::Memory;
use std::alloc::Global;
use test_texts::{LOOP_BY_HAND, ONE_LABEL_TWO_JUMPS, SECTION_TO_SECTION, Worked};

/// The worked texts with which each command is tried.
static TEXTS: [Worked; 3] = [LOOP_BY_HAND, ONE_LABEL_TWO_JUMPS, SECTION_TO_SECTION];

const INPUT: &str = "abq";

/// A command, and the exit status that the failure of each call of the shelf gives.
struct Command {
    words: &'static [&'static str],
    /// Whether it takes what was restructured.
    is_behind: bool,
    shelf: &'static [u8],
}

static COMMANDS: [Command; 10] = [
    Command {
        words: &["restructure", "a.c", "b.c"],
        is_behind: false,
        shelf: &[4, 5],
    },
    Command {
        words: &["restructure", "a.c", "b.c", "--report", "r.txt"],
        is_behind: false,
        shelf: &[4, 5, 5],
    },
    Command {
        words: &["replay", "a.c", "m.txt", "b.c"],
        is_behind: false,
        shelf: &[4, 4, 5],
    },
    Command {
        words: &["show", "a.c"],
        is_behind: false,
        shelf: &[4],
    },
    Command {
        words: &["moves", "a.c"],
        is_behind: false,
        shelf: &[4],
    },
    Command {
        words: &["run", "a.c"],
        is_behind: false,
        shelf: &[4],
    },
    Command {
        words: &["tidy", "a.c", "b.c"],
        is_behind: true,
        shelf: &[4, 5],
    },
    Command {
        words: &["lower", "a.c", "b.c"],
        is_behind: false,
        shelf: &[4, 5],
    },
    Command {
        words: &["demo", "2"],
        is_behind: false,
        shelf: &[],
    },
    Command {
        words: &["help"],
        is_behind: false,
        shelf: &[],
    },
];

/// The numbers of the calls, each alone. No command makes as many of one port.
static CALLS: [[u64; 1]; 16] = [
    [0],
    [1],
    [2],
    [3],
    [4],
    [5],
    [6],
    [7],
    [8],
    [9],
    [10],
    [11],
    [12],
    [13],
    [14],
    [15],
];

/// A command on a worked text.
#[derive(Clone, Copy)]
struct Try<'a> {
    command: &'a Command,
    case: &'a Worked,
}

fn source_of<'a>(it: &Try<'a>) -> &'a str {
    if it.command.is_behind {
        it.case.text
    } else {
        it.case.source
    }
}

fn ran(alloc: Global, it: &Try, failing: &Failing) -> Result<Outcome, Memory> {
    let files = [
        ("a.c", source_of(it)),
        ("r.txt", "kept"),
        ("m.txt", it.case.report),
    ];
    run_with(alloc, it.command.words, &files, INPUT, failing)
}

/// Whether the files that a command doesn't write are as they were.
fn keeps(it: &Try, found: &Outcome) -> bool {
    found.shelf.held("a.c") == Some(source_of(it).as_bytes())
        && found.shelf.held("m.txt") == Some(it.case.report.as_bytes())
}

/// Whether every file is as it was.
fn keeps_all(it: &Try, found: &Outcome) -> bool {
    keeps(it, found)
        && found.shelf.held("b.c").is_none()
        && found.shelf.held("r.txt") == Some(b"kept".as_slice())
}

/// Whether the two runs left the same, but for the standard error.
fn is_alike(it: &Try, found: &Outcome, sound: &Outcome) -> bool {
    found.status == sound.status
        && keeps(it, found)
        && found.shelf.held("b.c") == sound.shelf.held("b.c")
        && found.shelf.held("r.txt") == sound.shelf.held("r.txt")
        && found.out.bytes() == sound.out.bytes()
        && found.input.rest() == sound.input.rest()
}

fn is_same(it: &Try, found: &Outcome, sound: &Outcome) -> bool {
    is_alike(it, found, sound) && found.err.bytes() == sound.err.bytes()
}

/// Whether a fault of a device was told, with the status that belongs to it.
fn tells_fault(found: &Outcome, code: u8) -> bool {
    let line = if code == 4 {
        "regoto: read failed\n"
    } else {
        "regoto: write failed\n"
    };
    found.status.code() == code && found.err.bytes() == line.as_bytes()
}

/// Whether this is a front of the bytes, but not all of them.
fn is_front(front: &[u8], whole: &[u8]) -> bool {
    front.len() < whole.len() && whole.starts_with(front)
}

/// Whether the files are as they are to be after a call of the shelf has failed: those as before that weren't written yet.
fn are_in_turn(it: &Try, found: &Outcome, sound: &Outcome, at: usize) -> bool {
    if at == 2 && it.command.shelf.get(1) == Some(&5) {
        keeps(it, found)
            && found.shelf.held("b.c").is_some()
            && found.shelf.held("b.c") == sound.shelf.held("b.c")
            && found.shelf.held("r.txt") == Some(b"kept".as_slice())
    } else {
        keeps_all(it, found)
    }
}

/// The port of which a call fails.
#[derive(Clone, Copy)]
enum Port {
    Shelf,
    Input,
    Out,
    Err,
}

static PORTS: [Port; 4] = [Port::Shelf, Port::Input, Port::Out, Port::Err];

/// This call of the port fails.
fn failing_at(port: Port, call: &'static [u64]) -> Failing {
    match port {
        Port::Shelf => Failing {
            shelf: call,
            ..SOUND
        },
        Port::Input => Failing {
            input: call,
            ..SOUND
        },
        Port::Out => Failing { out: call, ..SOUND },
        Port::Err => Failing { err: call, ..SOUND },
    }
}

fn faults_of(port: Port, found: &Outcome) -> u64 {
    match port {
        Port::Shelf => found.shelf.faults(),
        Port::Input => found.input.faults(),
        Port::Out => found.out.faults(),
        Port::Err => found.err.faults(),
    }
}

/// Whether the command may end before this call of the port. Of the shelf alone it is known how often it is called.
fn may_end(it: &Try, call: Call) -> bool {
    match call.port {
        Port::Shelf => call.at == it.command.shelf.len(),
        _ => true,
    }
}

fn shelf_fails(it: &Try, at: usize, found: &Outcome, sound: &Outcome) -> bool {
    match it.command.shelf.get(at) {
        None => false,
        Some(code) => {
            tells_fault(found, *code)
                && found.shelf.faults() == 1
                && found.out.bytes().is_empty()
                && found.input.rest() == INPUT.as_bytes()
                && are_in_turn(it, found, sound, at)
        }
    }
}

/// Whether nothing was written before the first call. Each of the texts reads, if it does, before it writes.
fn is_empty_at_first(at: usize, found: &Outcome) -> bool {
    at > 0 || found.out.bytes().is_empty()
}

fn input_fails(it: &Try, at: usize, found: &Outcome, sound: &Outcome) -> bool {
    tells_fault(found, 4)
        && keeps_all(it, found)
        && is_empty_at_first(at, found)
        && sound.out.bytes().starts_with(found.out.bytes())
}

/// Whether a write that fails ends the command with a longer front written than the one before, and the first with
/// nothing.
fn output_fails(it: &Try, call: Call, found: &Outcome, sound: &Outcome) -> bool {
    tells_fault(found, 5)
        && keeps_all(it, found)
        && is_empty_at_first(call.at, found)
        && found.out.bytes().len() >= call.least
        && is_front(found.out.bytes(), sound.out.bytes())
}

/// Whether a fault of the standard error changes nothing but what is told.
fn error_output_fails(it: &Try, found: &Outcome, sound: &Outcome) -> bool {
    is_alike(it, found, sound) && is_front(found.err.bytes(), sound.err.bytes())
}

/// A call of a port: its number, also alone in a list, and the least number of bytes that are written before it, if it is
/// one of the output.
#[derive(Clone, Copy)]
struct Call {
    port: Port,
    at: usize,
    number: &'static [u64],
    least: usize,
}

/// Whether the call fails as it is to.
fn is_failed(it: &Try, call: Call, found: &Outcome, sound: &Outcome) -> bool {
    match call.port {
        Port::Shelf => shelf_fails(it, call.at, found, sound),
        Port::Input => input_fails(it, call.at, found, sound),
        Port::Out => output_fails(it, call, found, sound),
        Port::Err => error_output_fails(it, found, sound),
    }
}

/// What a call that was to fail shows.
#[derive(Clone, Copy)]
enum Found {
    /// It failed as it is to, with so many bytes written before.
    Failed(usize),
    /// The command makes no such call, and does all that it is to.
    NotMade,
    Wrong,
}

/// Whether the command made no such call, and did all that it is to.
fn is_not_made(it: &Try, call: Call, found: &Outcome, sound: &Outcome) -> bool {
    may_end(it, call) && is_same(it, found, sound)
}

fn found_of(it: &Try, call: Call, found: &Outcome, sound: &Outcome) -> Found {
    if faults_of(call.port, found) == 0 {
        if is_not_made(it, call, found, sound) {
            return Found::NotMade;
        }
        return Found::Wrong;
    }
    if is_failed(it, call, found, sound) {
        return Found::Failed(found.out.bytes().len());
    }
    Found::Wrong
}

fn tried(alloc: Global, it: &Try, call: Call, sound: &Outcome) -> Found {
    match ran(alloc, it, &failing_at(call.port, call.number)) {
        Ok(found) => {
            let what = found_of(it, call, &found, sound);
            drop(found);
            what
        }
        Err(_) => Found::Wrong,
    }
}

/// Whether every call of the port fails as it is to, one after another.
fn port_fails_in_turn(alloc: Global, it: &Try, port: Port, sound: &Outcome) -> bool {
    let mut least = 0;
    for (at, number) in CALLS.iter().enumerate() {
        let call = Call {
            port,
            at,
            number,
            least,
        };
        match tried(alloc, it, call, sound) {
            Found::Failed(written) => least = written.saturating_add(1),
            Found::NotMade => return true,
            Found::Wrong => return false,
        }
    }
    false
}

fn ports_fail_in_turn(alloc: Global, it: &Try, sound: &Outcome) -> bool {
    for port in PORTS {
        if !port_fails_in_turn(alloc, it, port, sound) {
            return false;
        }
    }
    true
}

/// Whether every call of every port fails as it is to.
fn fail_in_turn(alloc: Global, it: &Try) -> bool {
    match ran(alloc, it, &SOUND) {
        Ok(sound) => {
            let met = ports_fail_in_turn(alloc, it, &sound);
            drop(sound);
            met
        }
        Err(_) => false,
    }
}

#[test]
fn fail_in_turn_on_worked_texts(rt: HostRuntime) {
    for case in &TEXTS {
        for command in &COMMANDS {
            assert!(rt;
                fail_in_turn(rt.alloc(), &Try { command, case }),
                "{}",
                case.source
            );
        }
    }
}
