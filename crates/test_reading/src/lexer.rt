//! Tokens, comments and places that an independent model of the lexer gave; names with `//` or `/*` as gcc
//! and clang read them.

use crate::refusals::{Place, is_at};
use c_lexer::TokenKind::*;
use c_lexer::*;
use c_types::{IntKind, ReadStop};
use std::alloc::Global;

/// A token or a comment, by where it begins and ends.
type Stretch = (u64, u64);

/// Texts, and their tokens.
static TOKENS: [(&[u8], &[(TokenKind, Stretch)]); 7] = [
    (
        b"int x1 = 0x10;",
        &[
            (Keyword, (0, 3)),
            (Name, (4, 6)),
            (Mark, (7, 8)),
            (Number, (9, 13)),
            (Mark, (13, 14)),
        ],
    ),
    (
        b"int a; /* x */ // y",
        &[(Keyword, (0, 3)), (Name, (4, 5)), (Mark, (5, 6))],
    ),
    (
        b"a+++b",
        &[
            (Name, (0, 1)),
            (Mark, (1, 3)),
            (Mark, (3, 4)),
            (Name, (4, 5)),
        ],
    ),
    (b"......", &[(Mark, (0, 3)), (Mark, (3, 6))]),
    (b"..", &[(Mark, (0, 1)), (Mark, (1, 2))]),
    (
        b"'\\377' \"\\1234\\x41\"",
        &[(Char, (0, 6)), (Text, (7, 18))],
    ),
    (
        b"#include <a.h>\r\r\n /* a **/ // b\r\n",
        &[(Directive, (0, 14))],
    ),
];

/// Texts, and their comments.
static COMMENTS: [(&[u8], &[Stretch]); 5] = [
    (b"int a; /* x */ // y", &[(7, 14), (15, 19)]),
    (
        b"#include <a.h>\r\r\n /* a **/ // b\r\n",
        &[(18, 26), (27, 31)],
    ),
    (b"/*\\\n * art\n\\*/", &[(0, 14)]),
    (b"// a \\ b", &[(0, 8)]),
    (
        b"/* main */ int main(void) { goto end; /* skipped */ putchar('x'); // last\nend: return 0; }",
        &[(0, 10), (38, 51), (66, 73)],
    ),
];

fn are_tokens(found: &[Token], wanted: &[(TokenKind, Stretch)]) -> bool {
    if found.len() != wanted.len() {
        return false;
    }
    for (token, (kind, (start, end))) in found.iter().zip(wanted) {
        if token.kind != *kind || token.start != *start || token.end != *end {
            return false;
        }
    }
    true
}

fn are_comments(found: &[Span], wanted: &[Stretch]) -> bool {
    if found.len() != wanted.len() {
        return false;
    }
    for (comment, (start, end)) in found.iter().zip(wanted) {
        if comment.start != *start || comment.end != *end {
            return false;
        }
    }
    true
}

/// Whether a text has these tokens, also where its comments are asked for too.
fn has_tokens(
    alloc: Global,
    text: &[u8],
    wanted: &[(TokenKind, Stretch)],
) -> Result<bool, ReadStop> {
    let found = tokens(alloc, text)?;
    let is_met = are_tokens(found.as_slice(), wanted);
    drop(found);
    let scanned = scan(alloc, text)?;
    let is_met_too = are_tokens(scanned.tokens.as_slice(), wanted);
    drop(scanned);
    Ok(is_met && is_met_too)
}

#[test]
fn reads_tokens(rt: HostRuntime) {
    for (number, (text, wanted)) in TOKENS.iter().enumerate() {
        assert!(rt;
            has_tokens(rt.alloc(), text, wanted) == Ok(true),
            "{number}"
        );
    }
}

/// Whether a text has these comments, also where its tokens are asked for too.
fn has_comments(alloc: Global, text: &[u8], wanted: &[Stretch]) -> Result<bool, ReadStop> {
    let found = comments(alloc, text)?;
    let is_met = are_comments(found.as_slice(), wanted);
    drop(found);
    let scanned = scan(alloc, text)?;
    let is_met_too = are_comments(scanned.comments.as_slice(), wanted);
    drop(scanned);
    Ok(is_met && is_met_too)
}

#[test]
fn reads_comments(rt: HostRuntime) {
    for (number, (text, wanted)) in COMMENTS.iter().enumerate() {
        assert!(rt;
            has_comments(rt.alloc(), text, wanted) == Ok(true),
            "{number}"
        );
    }
}

/// Where the first token ends, or the first comment of a text without tokens; 0 where it has neither.
fn first_end(scanned: &Scanned) -> u64 {
    if let Some(token) = scanned.tokens.get(0) {
        return token.end;
    }
    match scanned.comments.get(0) {
        Some(comment) => comment.end,
        None => 0,
    }
}

/// What a carriage return, a `/*` and a `//` on a line of their own don't refuse, and where the first token ends, or the
/// first comment.
static LINES: [(&[u8], u64); 8] = [
    (b"// x\r\r\n", 4),
    (b"// x\r", 4),
    (b"#include <a.h> // /*\n", 20),
    (b"#include <a.h> /* x */\n", 22),
    (b"#include /* // */ \"a.h\"\r\n", 23),
    (b"#include <a.h> /* a//b */ // /*", 31),
    (b"#include <x//y.h> // /*", 23),
    (b"#include <a/*b> /* x */", 23),
];

fn ends_first(alloc: Global, text: &[u8]) -> Result<u64, ReadStop> {
    let found = scan(alloc, text)?;
    let end = first_end(&found);
    drop(found);
    Ok(end)
}

#[test]
fn reads_lines_as_compilers_do(rt: HostRuntime) {
    for (number, (text, end)) in LINES.iter().enumerate() {
        assert!(rt; ends_first(rt.alloc(), text) == Ok(*end), "{number}");
    }
}

/// Texts, and their first faults.
static FAULTS: [(&[u8], Place); 22] = [
    (b"x #\n", (2, 1, 3, 2)),
    (b"\n\n  @ 08", (2, 3, 3, 4)),
    (b"int x; /*", (3, 1, 8, 7)),
    (b"a\n ''", (4, 2, 2, 3)),
    (b"\"\\x100\"", (4, 1, 1, 0)),
    (b"0xE+1", (5, 1, 1, 0)),
    (b"9223372036854775808", (5, 1, 1, 0)),
    (b" \t#define", (6, 1, 3, 2)),
    (b"// a \\\nint x;", (2, 1, 6, 5)),
    (b"// a \\", (2, 1, 6, 5)),
    (b"#include <a>\\ \t", (2, 1, 13, 12)),
    (b"int a; // b\\\t\r\nc", (2, 1, 12, 11)),
    (b"#include <a> \\\n", (2, 1, 14, 13)),
    (b"/* a *\\\n/ x */", (3, 1, 1, 0)),
    (b"// x \r goto L;", (2, 1, 6, 5)),
    (b"#include <a.h>\rint x;\n", (2, 1, 15, 14)),
    (b"/* a *\\\r/ goto L; */", (3, 1, 1, 0)),
    (b"\n#include <a.h> /* x\n*/", (6, 2, 1, 1)),
    (b"#include <a/*b>\n", (6, 1, 1, 0)),
    (b"#include \"//\" /* x\n*/", (6, 1, 1, 0)),
    (b"#include <a.h> \"//\" /*", (6, 1, 1, 0)),
    (b"#include <a/*b> /*/ x\n", (6, 1, 1, 0)),
];

fn tokens_stop(alloc: Global, text: &[u8], place: Place) -> bool {
    match tokens(alloc, text) {
        Ok(found) => {
            drop(found);
            false
        }
        Err(stop) => is_at(stop, place),
    }
}

fn comments_stop(alloc: Global, text: &[u8], place: Place) -> bool {
    match comments(alloc, text) {
        Ok(found) => {
            drop(found);
            false
        }
        Err(stop) => is_at(stop, place),
    }
}

#[test]
fn refuses_at_the_first_fault(rt: HostRuntime) {
    for (number, (text, place)) in FAULTS.iter().enumerate() {
        assert!(rt; tokens_stop(rt.alloc(), text, *place), "{number}");
        assert!(rt; comments_stop(rt.alloc(), text, *place), "{number}");
    }
}

fn are_names_known() -> bool {
    is_name(b"_x1") && !is_name(b"while") && !is_name(b"1x") && !is_name(b"")
}

fn are_constants_known() -> bool {
    let most = Integer {
        kind: IntKind::ULong,
        value: 18446744073709551615,
    };
    integer_constant(b"0xffffffffffffffff") == Some(most)
        && integer_constant(b"18446744073709551616u").is_none()
}

#[test]
fn knows_names_and_constants(rt: HostRuntime) {
    assert!(rt; are_names_known());
    assert!(rt; are_constants_known());
}
