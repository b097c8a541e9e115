//! Commands over ports in memory, and what they are to leave there.

use c_types::{Bytes, List, Memory, Name};
use regoto::{Status, regoto};
use rg_ports::{MemShelf, MemSink, MemSource};
use std::alloc::Global;

/// What a command left.
#[derive(Drop)]
pub struct Outcome {
    pub status: Status,
    pub shelf: MemShelf,
    pub input: MemSource,
    pub out: MemSink,
    pub err: MemSink,
}

/// The calls of the ports that fail.
#[derive(Clone, Copy)]
pub struct Failing {
    pub shelf: &'static [u64],
    pub input: &'static [u64],
    pub out: &'static [u64],
    pub err: &'static [u64],
}

/// No call fails.
pub const SOUND: Failing = Failing {
    shelf: &[],
    input: &[],
    out: &[],
    err: &[],
};

/// A command, what it finds, and what it is to leave.
#[derive(Clone, Copy)]
pub struct Case<'a> {
    pub words: &'a [&'a str],
    /// The texts of `a.c` and `r.txt`, the input, and the calls that fail.
    pub source: &'a str,
    pub report: &'a str,
    pub input: &'a str,
    pub failing: Failing,
    /// The exit status.
    pub code: u8,
    /// The texts that are put into `a.c`, `b.c` and `r.txt`. Else the first and the last stay, and there is no `b.c`.
    pub put: Option<&'a str>,
    pub text: Option<&'a str>,
    pub moves: Option<&'a str>,
    /// The output, and what is left of the input, where that is looked at.
    pub out: &'a str,
    pub rest: Option<&'a str>,
    /// The front of the line on the standard error and the rest of it. Where that is empty, nothing is told.
    pub front: &'a str,
    pub line: &'a str,
}

/// A command that does its job, and writes and tells nothing.
pub const CASE: Case<'static> = Case {
    words: &[],
    source: "",
    report: "kept",
    input: "",
    failing: SOUND,
    code: 0,
    put: None,
    text: None,
    moves: None,
    out: "",
    rest: None,
    front: "",
    line: "",
};

/// `restructure a.c b.c` of a text.
pub fn restructuring<'a>(source: &'a str) -> Case<'a> {
    Case {
        words: &["restructure", "a.c", "b.c"],
        source,
        ..CASE
    }
}

fn file(alloc: Global, name: &str, text: &str) -> Result<(Name, Bytes), Memory> {
    let name = Name::from_string(String::from_str(alloc, name)?);
    Ok((name, Bytes::from_slice(alloc, text.as_bytes())?))
}

fn shelf(alloc: Global, texts: &[(&str, &str)], failing: &[u64]) -> Result<MemShelf, Memory> {
    let calls = List::from_slice(alloc, failing)?;
    let mut files = List::new(alloc);
    for (name, text) in texts {
        files.push(file(alloc, name, text)?)?;
    }
    MemShelf::new(alloc, files, calls)
}

fn source(alloc: Global, input: &str, failing: &[u64]) -> Result<MemSource, Memory> {
    let calls = List::from_slice(alloc, failing)?;
    let start = Bytes::from_slice(alloc, input.as_bytes())?;
    MemSource::new(alloc, start, calls)
}

fn sink(alloc: Global, failing: &[u64]) -> Result<MemSink, Memory> {
    let calls = List::from_slice(alloc, failing)?;
    let mut sink = MemSink::new(alloc, Bytes::new(alloc), calls)?;
    match sink.reserve(65536) {
        Ok(()) => Ok(sink),
        Err(e) => {
            drop(sink);
            Err(e)
        }
    }
}

fn with_sinks(
    alloc: Global,
    shelf: MemShelf,
    input: MemSource,
    failing: &Failing,
) -> Result<Outcome, Memory> {
    match sink(alloc, failing.out) {
        Ok(out) => match sink(alloc, failing.err) {
            Ok(err) => Ok(Outcome {
                status: Status::Memory,
                shelf,
                input,
                out,
                err,
            }),
            Err(e) => {
                drop(out);
                drop(input);
                drop(shelf);
                Err(e)
            }
        },
        Err(e) => {
            drop(input);
            drop(shelf);
            Err(e)
        }
    }
}

/// The ports before a command runs.
fn start(
    alloc: Global,
    texts: &[(&str, &str)],
    input: &str,
    failing: &Failing,
) -> Result<Outcome, Memory> {
    let shelf = shelf(alloc, texts, failing.shelf)?;
    match source(alloc, input, failing.input) {
        Ok(input) => with_sinks(alloc, shelf, input, failing),
        Err(e) => {
            drop(shelf);
            Err(e)
        }
    }
}

fn carry_out(alloc: Global, words: &[String], ports: &mut Outcome) {
    ports.status = regoto(
        alloc,
        words,
        &mut ports.shelf,
        &mut ports.input,
        &mut ports.out,
        &mut ports.err,
    );
}

fn strings(alloc: Global, words: &[&str]) -> Result<List<String>, Memory> {
    let mut made = List::new(alloc);
    for word in words {
        made.push(String::from_str(alloc, word)?)?;
    }
    Ok(made)
}

/// Runs a command on a shelf with these files.
pub fn run_with(
    alloc: Global,
    words: &[&str],
    texts: &[(&str, &str)],
    input: &str,
    failing: &Failing,
) -> Result<Outcome, Memory> {
    let words = strings(alloc, words)?;
    match start(alloc, texts, input, failing) {
        Ok(mut ports) => {
            carry_out(alloc, words.as_slice(), &mut ports);
            drop(words);
            Ok(ports)
        }
        Err(e) => {
            drop(words);
            Err(e)
        }
    }
}

/// Runs a command on what it finds.
pub fn run(alloc: Global, case: &Case) -> Result<Outcome, Memory> {
    let texts = [("a.c", case.source), ("r.txt", case.report)];
    run_with(alloc, case.words, &texts, case.input, &case.failing)
}

/// Whether the shelf holds this text under the name, or nothing.
fn holds(shelf: &MemShelf, name: &str, text: Option<&str>) -> bool {
    match text {
        Some(text) => shelf.held(name) == Some(text.as_bytes()),
        None => shelf.held(name).is_none(),
    }
}

/// Whether this line was told, or nothing where it is empty.
fn is_told(told: &[u8], front: &str, line: &str) -> bool {
    if line.is_empty() {
        return told.is_empty();
    }
    match told.strip_prefix(front.as_bytes()) {
        Some(rest) => rest.strip_suffix(b"\n".as_slice()) == Some(line.as_bytes()),
        None => false,
    }
}

/// Whether this is left of the input, where that is looked at.
fn is_rest(left: &[u8], rest: Option<&str>) -> bool {
    match rest {
        Some(rest) => left == rest.as_bytes(),
        None => true,
    }
}

fn is_left(ran: &Outcome, case: &Case) -> bool {
    ran.status.code() == case.code
        && holds(&ran.shelf, "a.c", Some(case.put.unwrap_or(case.source)))
        && holds(&ran.shelf, "b.c", case.text)
        && holds(&ran.shelf, "r.txt", Some(case.moves.unwrap_or(case.report)))
        && ran.out.bytes() == case.out.as_bytes()
        && is_rest(ran.input.rest(), case.rest)
        && is_told(ran.err.bytes(), case.front, case.line)
}

/// Whether a command leaves what it is to.
pub fn leaves(alloc: Global, case: &Case) -> bool {
    match run(alloc, case) {
        Ok(ran) => {
            let met = is_left(&ran, case);
            drop(ran);
            met
        }
        Err(_) => false,
    }
}
