//! Ports in memory, call by call.

use c_types::{Bytes, List, Memory, Name};
use rg_ports::*;
use std::alloc::Global;

fn bytes(alloc: Global, text: &str) -> Result<Bytes, Memory> {
    Bytes::from_slice(alloc, text.as_bytes())
}

fn are_same(found: &[u8], wanted: &[u8]) -> bool {
    found == wanted
}

/// A read into two bytes: its answer, and the two bytes, the faults and the bytes left behind it.
struct Reading {
    answer: Result<usize, Failed>,
    moved: &'static [u8],
    faults: u64,
    rest: &'static [u8],
}

static READINGS: [Reading; 4] = [
    Reading {
        answer: Ok(2),
        moved: b"ab",
        faults: 0,
        rest: b"c",
    },
    Reading {
        answer: Err(Failed),
        moved: b"ab",
        faults: 1,
        rest: b"c",
    },
    Reading {
        answer: Ok(1),
        moved: b"cb",
        faults: 1,
        rest: b"",
    },
    Reading {
        answer: Ok(0),
        moved: b"cb",
        faults: 1,
        rest: b"",
    },
];

fn reads_so(source: &mut MemSource, buf: &mut [u8], it: &Reading) -> bool {
    let answer = source.read(buf);
    answer == it.answer
        && source.faults() == it.faults
        && are_same(buf, it.moved)
        && are_same(source.rest(), it.rest)
}

fn reads_all(source: &mut MemSource) -> bool {
    let mut buf = [b'-'; 2];
    for it in &READINGS {
        if !reads_so(source, &mut buf, it) {
            return false;
        }
    }
    true
}

fn moves_what_fits(alloc: Global) -> Result<bool, Memory> {
    let calls = List::from_slice(alloc, &[1])?;
    let start = bytes(alloc, "abc")?;
    let mut source = MemSource::new(alloc, start, calls)?;
    let met = reads_all(&mut source);
    drop(source);
    Ok(met)
}

#[test]
fn source_moves_what_fits(rt: HostRuntime) {
    assert!(rt; moves_what_fits(rt.alloc()) == Ok(true));
}

/// A call of a sink, and its answer.
enum SinkCall {
    Reserve(usize),
    Write(&'static [u8], Result<usize, Failed>),
}

static SINK_CALLS: [SinkCall; 8] = [
    SinkCall::Write(b"a", Err(Failed)),
    SinkCall::Reserve(3),
    SinkCall::Reserve(1),
    SinkCall::Write(b"ab", Ok(2)),
    SinkCall::Write(b"c", Err(Failed)),
    SinkCall::Write(b"cd", Err(Failed)),
    SinkCall::Write(b"c", Ok(1)),
    SinkCall::Write(b"", Ok(0)),
];

fn sink_answers(sink: &mut MemSink, call: &SinkCall) -> bool {
    match call {
        SinkCall::Reserve(more) => sink.reserve(*more).is_ok(),
        SinkCall::Write(piece, answer) => sink.write(piece) == *answer,
    }
}

fn sink_answers_all(sink: &mut MemSink) -> bool {
    for call in &SINK_CALLS {
        if !sink_answers(sink, call) {
            return false;
        }
    }
    sink.bytes() == b"xabc".as_slice() && sink.faults() == 3
}

fn sink_of(alloc: Global, start: &str) -> Result<MemSink, Memory> {
    let calls = List::from_slice(alloc, &[2])?;
    let start = bytes(alloc, start)?;
    MemSink::new(alloc, start, calls)
}

fn takes_what_it_has_room_for(alloc: Global) -> Result<bool, Memory> {
    let mut sink = sink_of(alloc, "x")?;
    let met = sink_answers_all(&mut sink);
    drop(sink);
    Ok(met)
}

#[test]
fn sink_takes_what_it_has_room_for(rt: HostRuntime) {
    assert!(rt; takes_what_it_has_room_for(rt.alloc()) == Ok(true));
}

/// A call of a shelf, and its answer. At most 3 bytes are read.
enum ShelfCall {
    Read(&'static str, Result<&'static [u8], ReadError>),
    Write(&'static str, &'static [u8], Result<(), WriteError>),
    Held(&'static str, Option<&'static [u8]>),
    Faults(u64),
}

static SHELF_CALLS: [ShelfCall; 13] = [
    ShelfCall::Read("a.c", Ok(b"old")),
    ShelfCall::Read("a.c", Err(ReadError::Failed)),
    ShelfCall::Write("a.c", b"new", Err(WriteError::Failed)),
    ShelfCall::Faults(2),
    ShelfCall::Held("a.c", Some(b"old")),
    ShelfCall::Write("b.c", b"more", Ok(())),
    ShelfCall::Write("a.c", b"new", Ok(())),
    ShelfCall::Held("a.c", Some(b"new")),
    ShelfCall::Held("b.c", Some(b"more")),
    ShelfCall::Held("c.c", None),
    ShelfCall::Read("c.c", Err(ReadError::Absent)),
    ShelfCall::Read("b.c", Err(ReadError::TooLong)),
    ShelfCall::Faults(2),
];

fn is_held(held: Option<&[u8]>, wanted: Option<&[u8]>) -> bool {
    match (held, wanted) {
        (Some(held), Some(wanted)) => are_same(held, wanted),
        (None, None) => true,
        _ => false,
    }
}

fn is_read(found: Result<Bytes, ReadError>, wanted: Result<&[u8], ReadError>) -> bool {
    match found {
        Ok(found) => {
            let same = is_held(Some(found.as_slice()), wanted.ok());
            drop(found);
            same
        }
        Err(e) => wanted.err() == Some(e),
    }
}

fn shelf_answers(alloc: Global, shelf: &mut MemShelf, call: &ShelfCall) -> bool {
    match call {
        ShelfCall::Read(name, answer) => is_read(shelf.read(alloc, name, 3), *answer),
        ShelfCall::Write(name, bytes, answer) => shelf.write(name, bytes) == *answer,
        ShelfCall::Held(name, held) => is_held(shelf.held(name), *held),
        ShelfCall::Faults(faults) => shelf.faults() == *faults,
    }
}

fn shelf_answers_all(alloc: Global, shelf: &mut MemShelf) -> bool {
    for call in &SHELF_CALLS {
        if !shelf_answers(alloc, shelf, call) {
            return false;
        }
    }
    true
}

fn file(alloc: Global, name: &str, text: &str) -> Result<(Name, Bytes), Memory> {
    let name = Name::from_string(String::from_str(alloc, name)?);
    Ok((name, bytes(alloc, text)?))
}

fn shelf(alloc: Global) -> Result<MemShelf, Memory> {
    let calls = List::from_slice(alloc, &[1, 2])?;
    let mut files = List::new(alloc);
    files.push(file(alloc, "a.c", "old")?)?;
    MemShelf::new(alloc, files, calls)
}

fn numbers_reads_and_writes(alloc: Global) -> Result<bool, Memory> {
    let mut shelf = shelf(alloc)?;
    let met = shelf_answers_all(alloc, &mut shelf);
    drop(shelf);
    Ok(met)
}

#[test]
fn shelf_numbers_reads_and_writes_together(rt: HostRuntime) {
    assert!(rt; numbers_reads_and_writes(rt.alloc()) == Ok(true));
}

fn never_fail() -> bool {
    let mut buf = [b'-'];
    let mut sink = CountSink::new();
    NoInput::new().read(&mut buf) == Ok(0)
        && write_all(&mut sink, b"abc") == Ok(())
        && sink.written() == 3
}

#[test]
fn some_ports_never_fail(rt: HostRuntime) {
    assert!(rt; never_fail());
}

/// Hands one byte of a piece on.
#[derive(Drop)]
struct Dripping {
    sink: MemSink,
}

impl Sink for Dripping {
    ghost use Rattle.std.specs.Prelude.{Some};
    ghost use Rattle.rg_ports.specs.Written.{Told};

    ghost written = { λ s. Told s.sink.written };

    ghost faults = { λ s. s.sink.faults };

    fn write(&mut self, piece: &[u8]) -> Result<usize, Failed> {
        self.sink.write(&piece[..piece.len().min(1)])
    }

    ghost counts = { λ _. tt };
}

/// Texts that are written, the answers, and what is written in all.
static DRIPS: [(&[u8], Result<(), Failed>, &[u8]); 2] = [
    (b"abc", Err(Failed), b"ab"),
    (b"cde", Ok(()), b"abcde"),
];

fn drips(out: &mut Dripping) -> bool {
    for (text, answer, written) in &DRIPS {
        if write_all(out, text) != *answer || !are_same(out.sink.bytes(), written) {
            return false;
        }
    }
    out.sink.faults() == 1
}

fn stops_at_a_fault(alloc: Global) -> Result<bool, Memory> {
    let mut sink = sink_of(alloc, "")?;
    sink.reserve(9)?;
    let mut out = Dripping { sink };
    let met = drips(&mut out);
    drop(out);
    Ok(met)
}

#[test]
fn write_all_stops_at_a_fault(rt: HostRuntime) {
    assert!(rt; stops_at_a_fault(rt.alloc()) == Ok(true));
}
