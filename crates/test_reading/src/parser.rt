//! Places of refusals, which an independent model of the parser gave too, and shapes of syntax, worked out
//! by hand from the grammar.
use crate::refusals::{Place, is_at};
use c_grammar::Production::{Assignment, File, Initialiser, Plain, Target, Unary};
use c_grammar::{Production, SyntaxNode};
use c_lexer::tokens;
use c_parser::parse;
use c_types::ReadStop;
use std::alloc::Global;

fn syntax(alloc: Global, text: &[u8]) -> Result<SyntaxNode, ReadStop> {
    let tokens = tokens(alloc, text)?;
    parse(alloc, text, &tokens)
}

/// What a node says: its outermost and its innermost rule, its first token, and how many parts it has.
type Said = (Production, Production, u32, usize);

/// What the node says to which these parts lead.
fn node_at(file: &SyntaxNode, path: &[usize]) -> Option<Said> {
    let mut node = file;
    for at in path {
        node = node.opened().parts.get(*at)?;
    }
    let node = node.opened();
    Some((node.top, node.base, node.first, node.parts.len()))
}

/// What the node says to which these parts of a text's syntax lead.
fn said_at(alloc: Global, text: &[u8], path: &[usize]) -> Result<Option<Said>, ReadStop> {
    let file = syntax(alloc, text)?;
    let said = node_at(&file, path);
    drop(file);
    Ok(said)
}

fn stops(alloc: Global, text: &[u8], place: Place) -> bool {
    match syntax(alloc, text) {
        Ok(file) => {
            drop(file);
            false
        }
        Err(stop) => is_at(stop, place),
    }
}

/// Texts, and their first faults.
static FAULTS: [(&[u8], Place); 7] = [
    (b"int f(int a, int b) { a + b = 1; }", (10, 1, 29, 28)),
    (b"float x;", (10, 1, 1, 0)),
    (b"int main(void) { L: goto L;", (10, 1, 28, 27)),
    (b"int f(int a,);", (10, 1, 13, 12)),
    (b"int x =\n((a)[1]);", (10, 2, 5, 12)),
    (b"int f(void) { ++(1); }", (10, 1, 18, 17)),
    (b"int f(void) { f(\"a\" 1); }", (10, 1, 21, 20)),
];

#[test]
fn refuses_at_the_first_fault(rt: HostRuntime) {
    for (number, (text, place)) in FAULTS.iter().enumerate() {
        assert!(rt; stops(rt.alloc(), text, *place), "{number}");
    }
}

const LOOP: &[u8] =
    b"int main(void) { int i = 0; loop: if (i >= 3) goto done; putchar('a' + i); i++; goto loop; done: return 0; }";

/// Whether the front of so many bytes of the loop is refused where it is cut off.
fn is_cut(alloc: Global, length: usize) -> bool {
    let (reason, at) = match length {
        1 | 2 => (10, 0),
        10..=12 => (10, 9),
        53 => (10, 51),
        66 | 67 => (4, 65),
        _ => (10, length as u64),
    };
    let front = LOOP.get(..length).unwrap_or(b"");
    stops(alloc, front, (reason, 1, at.saturating_add(1), at))
}

#[test]
fn refuses_a_text_that_is_cut_off(rt: HostRuntime) {
    for length in 1..108 {
        assert!(rt; is_cut(rt.alloc(), length), "{length}");
    }
}

/// A text: bytes, others that many times, and the bytes behind them.
struct Repeated {
    before: &'static [u8],
    bytes: &'static [u8],
    times: u32,
    after: &'static [u8],
}

fn push_repeated(text: &mut Vec<u8>, it: &Repeated) -> Result<(), ReadStop> {
    text.extend_from_slice(it.before)?;
    for _ in 0..it.times {
        text.extend_from_slice(it.bytes)?;
    }
    text.extend_from_slice(it.after)?;
    Ok(())
}

/// Texts at the limits, and where they are refused.
static LIMITS: [(Repeated, Option<Place>); 4] = [
    (
        Repeated {
            before: b"int x = ",
            bytes: b"(",
            times: 400,
            after: b"",
        },
        Some((10, 1, 409, 408)),
    ),
    (
        Repeated {
            before: b"int x = ",
            bytes: b"(",
            times: 401,
            after: b"",
        },
        Some((11, 1, 409, 408)),
    ),
    (
        Repeated {
            before: b"int main(void) { ",
            bytes: b"if (1) ",
            times: 399,
            after: b"; }",
        },
        None,
    ),
    (
        Repeated {
            before: b"int main(void) { ",
            bytes: b"if (1) {",
            times: 400,
            after: b"",
        },
        Some((11, 1, 3217, 3216)),
    ),
];

fn is_taken(alloc: Global, text: &[u8]) -> bool {
    match syntax(alloc, text) {
        Ok(file) => {
            drop(file);
            true
        }
        Err(_) => false,
    }
}

fn is_at_limit(alloc: Global, it: &Repeated, place: &Option<Place>) -> Result<bool, ReadStop> {
    let mut text = Vec::new(alloc);
    push_repeated(&mut text, it)?;
    let met = match place {
        Some(place) => stops(alloc, text.as_slice(), *place),
        None => is_taken(alloc, text.as_slice()),
    };
    drop(text);
    Ok(met)
}

#[test]
fn knows_the_limits(rt: HostRuntime) {
    for (it, place) in &LIMITS {
        assert!(rt;
            is_at_limit(rt.alloc(), it, place) == Ok(true),
            "{}",
            it.times
        );
    }
}

const NESTED: &[u8] = b"int f(void) { if (1) if (2) ; else ; }";

/// Texts, the parts that lead to a node of their syntax, and what that says.
static NODES: [(&[u8], &[usize], Said); 6] = [
    (b"", &[], (File, File, 0, 0)),
    // The nearest `if` has the `else`.
    (NESTED, &[0, 5, 1, 0], (Plain, Plain, 6, 5)),
    (NESTED, &[0, 5, 1, 0, 4, 0], (Plain, Plain, 10, 7)),
    // A type in brackets is a cast.
    (
        b"int y = (int)(x);",
        &[0, 0, 1, 2, 0],
        (Assignment, Unary, 3, 4),
    ),
    // A target in brackets is one.
    (
        b"int f(void) { ((a)) = 1; }",
        &[0, 5, 1, 0, 0, 0, 1],
        (Target, Target, 7, 3),
    ),
    // A list may end with a comma.
    (
        b"int x[] = {1, 2,};",
        &[0, 0, 1, 4],
        (Initialiser, Initialiser, 5, 6),
    ),
];

#[test]
fn gives_the_syntax(rt: HostRuntime) {
    for (number, (text, path, said)) in NODES.iter().enumerate() {
        assert!(rt;
            said_at(rt.alloc(), text, path) == Ok(Some(*said)),
            "{number}"
        );
    }
}
