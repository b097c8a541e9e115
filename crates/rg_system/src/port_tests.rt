//! The streams over systems that a test makes, which know what comes and what is written.

use crate::streams::{ErrPort, InPort, OutPort};
use rg_ports::{Sink, Source};
use std::alloc::{Allocator, Global};
use std::cell::RefCell;
use std::fmt::Display;
use std::io::{self, BufRead, ErrorKind, Lines};

/// A system on whose input these bytes come.
#[derive(Drop)]
struct Given<'a> {
    bytes: &'a [u8],
}

impl<'a> Input for Given<'a> {
    type Reader = &'a [u8];

    fn read_line<A: Allocator + Clone>(&self, buf: &mut String<A>) -> io::Result<usize> {
        self.reader().read_line(buf)
    }

    fn lines<A: Allocator>(&self, alloc: A) -> Lines<&'a [u8], A> {
        self.reader().lines(alloc)
    }

    fn reader(&self) -> &'a [u8] {
        self.bytes
    }
}

/// A system that keeps what is written, and takes at most two bytes at a time.
#[derive(Drop)]
struct Kept {
    alloc: Global,
    bytes: RefCell<Vec<u8>>,
}

fn system(alloc: Global) -> Kept {
    Kept {
        alloc,
        bytes: RefCell::new(Vec::new(alloc)),
    }
}

impl Kept {
    fn keep(&self, bytes: &[u8]) -> io::Result<()> {
        match self.bytes.try_borrow_mut() {
            Ok(mut all) => Ok(all.extend_from_slice(bytes)?),
            Err(_) => Err(ErrorKind::Other.into()),
        }
    }

    fn holds(&self, bytes: &[u8]) -> bool {
        match self.bytes.try_borrow() {
            Ok(all) => all.as_slice() == bytes,
            Err(_) => false,
        }
    }

    fn keep_text<D: Display + Drop>(&self, value: D) -> io::Result<()> {
        let mut text = String::new(self.alloc);
        write!(text, "{value}")?;
        self.keep(text.as_bytes())
    }
}

impl Print for Kept {
    fn print<D: Display + Drop>(&self, value: D) -> io::Result<()> {
        self.keep_text(value)
    }

    fn println<D: Display + Drop>(&self, value: D) -> io::Result<()> {
        self.keep_text(value)?;
        self.keep(b"\n")
    }

    fn write_all(&self, bytes: &[u8]) -> io::Result<()> {
        self.keep(bytes)
    }

    fn write_some(&self, bytes: &[u8]) -> io::Result<usize> {
        let some = bytes.get(..2).unwrap_or(bytes);
        self.keep(some)?;
        Ok(some.len())
    }
}

impl Eprint for Kept {
    fn eprint<D: Display + Drop>(&self, value: D) -> io::Result<()> {
        self.keep_text(value)
    }

    fn eprintln<D: Display + Drop>(&self, value: D) -> io::Result<()> {
        self.keep_text(value)?;
        self.keep(b"\n")
    }
}

#[test]
fn reads_what_comes(rt: HostRuntime) {
    let given = Given { bytes: b"abc" };
    let mut port = InPort::new(&given);
    let mut buf = [0; 2];
    assert!(rt; port.read(&mut buf) == Ok(2));
    assert_eq!(rt; buf, [97, 98]);
    let nothing = Given { bytes: b"" };
    let mut port = InPort::new(&nothing);
    assert!(rt; port.read(&mut buf) == Ok(0));
}

#[test]
fn writes_what_is_given(rt: HostRuntime) {
    let kept = system(rt.alloc());
    let mut port = OutPort::new(&kept);
    assert!(rt; port.write(b"abc") == Ok(2));
    assert!(rt; port.write(b"c") == Ok(1));
    assert!(rt; kept.holds(b"abc"));
}

#[test]
fn tells_text(rt: HostRuntime) {
    let kept = system(rt.alloc());
    let mut port = ErrPort::new(&kept);
    assert!(rt; port.write(b"regoto: done\n") == Ok(13));
    assert!(rt; port.write(b"\xff").is_err());
    assert!(rt; kept.holds(b"regoto: done\n"));
}
