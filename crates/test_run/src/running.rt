use c_scopes::{FlatCounter, read};
use c_tree::{Item, Program};
use c_types::{Bytes, List, Memory, Name};
use rg_ports::{MemSink, MemSource};
use std::alloc::Global;
use step_interp::{Entry, RunAnswer, is_entry, run};

/// Counts no jumps, so that no function is too tangled.
struct NoJumps;

impl FlatCounter for NoJumps {
    ghost use Rattle.std.specs.Prelude.{None};

    ghost flat = { λ s items. None };

    fn most(&self, _body: &List<Item>) -> Result<Option<(u64, u64)>, Memory> {
        Ok(None)
    }

    fn count(&self, _body: &List<Item>) -> Result<Option<(u64, u64)>, Memory> {
        Ok(None)
    }
}

/// A run of a text from an entry on an input, how it is to stand, with its output, and what is to be left
/// of the input. The reads and the writes of these numbers, from 0, fail.
#[derive(Clone, Copy)]
pub struct Case<'a> {
    pub entry: &'a str,
    pub arguments: &'a [i128],
    pub text: &'a [u8],
    pub input: &'a [u8],
    pub budget: u64,
    pub answer: RunAnswer,
    pub output: &'a [u8],
    pub left: &'a [u8],
    pub failing_reads: &'a [u64],
    pub failing_writes: &'a [u64],
}

/// The entry of a name with these arguments.
fn entry_of(alloc: Global, name: &str, arguments: &[i128]) -> Option<Entry> {
    let function = Name::from_string(String::from_str(alloc, name).ok()?);
    let arguments = List::from_slice(alloc, arguments).ok()?;
    Some(Entry {
        function,
        arguments,
    })
}

/// Runs a program; `None` where it has no such entry.
fn run_entry(
    alloc: Global,
    program: &Program,
    entry: &Entry,
    budget: u64,
    ports: &mut Ports,
) -> Option<RunAnswer> {
    if !is_entry(program, entry) {
        return None;
    }
    Some(run(
        alloc,
        program,
        entry,
        budget,
        &mut ports.source,
        &mut ports.sink,
    ))
}

/// Runs the text of a case; `None` where that is no program with the entry, or memory is refused.
fn run_case(alloc: Global, case: &Case<'_>, ports: &mut Ports) -> Option<RunAnswer> {
    let entry = entry_of(alloc, case.entry, case.arguments)?;
    let program = read(alloc, &NoJumps, case.text).ok()?;
    let answer = run_entry(alloc, &program, &entry, case.budget, ports);
    drop(program);
    answer
}

/// The input of a run, and its output.
#[derive(Drop)]
struct Ports {
    source: MemSource,
    sink: MemSink,
}

fn source_of(alloc: Global, case: &Case<'_>) -> Result<MemSource, Memory> {
    let start = Bytes::from_slice(alloc, case.input)?;
    let failing = List::from_slice(alloc, case.failing_reads)?;
    MemSource::new(alloc, start, failing)
}

fn sink_of(alloc: Global, case: &Case<'_>) -> Result<MemSink, Memory> {
    let failing = List::from_slice(alloc, case.failing_writes)?;
    let mut sink = MemSink::new(alloc, List::new(alloc), failing)?;
    match sink.reserve(1000) {
        Ok(()) => Ok(sink),
        Err(e) => {
            drop(sink);
            Err(e)
        }
    }
}

fn ports_of(alloc: Global, case: &Case<'_>) -> Result<Ports, Memory> {
    let source = source_of(alloc, case)?;
    match sink_of(alloc, case) {
        Ok(sink) => Ok(Ports { source, sink }),
        Err(e) => {
            drop(source);
            Err(e)
        }
    }
}

fn is_met(case: &Case<'_>, answer: Option<RunAnswer>, ports: &Ports) -> bool {
    answer == Some(case.answer)
        && ports.sink.bytes() == case.output
        && ports.source.rest() == case.left
}

/// Whether the run of a case comes to its answer, its output and what it leaves.
fn holds(alloc: Global, case: &Case<'_>) -> bool {
    match ports_of(alloc, case) {
        Ok(ports) => {
            let mut ports = ports;
            let answer = run_case(alloc, case, &mut ports);
            let met = is_met(case, answer, &ports);
            drop(ports);
            met
        }
        Err(_) => false,
    }
}

/// The place of the first case that doesn't hold, or their number.
pub fn first_wrong(alloc: Global, cases: &[Case<'_>]) -> usize {
    for (at, case) in cases.iter().enumerate() {
        if !holds(alloc, case) {
            return at;
        }
    }
    cases.len()
}
