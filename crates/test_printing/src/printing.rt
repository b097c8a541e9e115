//! What programs print as.

use c_printer::print;
use c_text::read;
use c_tree::Program;
use c_types::Memory;
use std::alloc::Global;
use test_texts::WORKED;

/// The program of a text.
pub fn program_of(alloc: Global, text: &str) -> Result<Program, Memory> {
    match read(alloc, text.as_bytes()) {
        Ok(program) => Ok(program),
        Err(_) => Err(Memory),
    }
}

/// Whether a program prints as this text.
pub fn prints_as(alloc: Global, program: &Program, text: &str) -> Result<bool, Memory> {
    let printed = print(alloc, program)?;
    let same = printed.as_slice() == text.as_bytes();
    drop(printed);
    Ok(same)
}

/// Whether the program of a text prints as this text.
fn reads_and_prints_as(alloc: Global, source: &str, text: &str) -> Result<bool, Memory> {
    let program = program_of(alloc, source)?;
    let met = prints_as(alloc, &program, text);
    drop(program);
    met
}

/// What texts are restructured to is printed, so it prints as it is.
#[test]
fn prints_the_worked_texts(rt: HostRuntime) {
    for case in &WORKED {
        let text = case.text;
        assert!(rt;
            reads_and_prints_as(rt.alloc(), text, text) == Ok(true),
            "{text}"
        );
    }
}

/// Texts, and how their programs print.
static PRINTED: [(&str, &str); 2] = [
    // suffixes and brackets
    (
        "long l = 2147483648; unsigned u = 4294967295U; int f(int a, int b) { return ((a - (b - 1)) * (- (-a))); }",
        "long l = 2147483648L;
unsigned u = 4294967295U;
int f(int a, int b) {
    return (a - (b - 1)) * - -a;
}
",
    ),
    // null statements in sections
    (
        "int f(int a) { switch (a) { case '\\0': ; int b = a; return b; case 2: return a; /* none */ } }",
        "int f(int a) {
    switch (a) {
    case '\\000':
        ;
        int b = a;
        return b;
    case 2:
        return a;
        /* none */
        ;
    }
}
",
    ),
];

#[test]
fn prints(rt: HostRuntime) {
    for (source, text) in &PRINTED {
        assert!(rt;
            reads_and_prints_as(rt.alloc(), source, text) == Ok(true),
            "{text}"
        );
    }
}
