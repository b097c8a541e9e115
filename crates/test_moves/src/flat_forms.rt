//! The flat form of a text's function: how many gotos and labels it has, its names, and as it prints.

use crate::bodies::program_of;
use c_copies::{file_names, names};
use c_printer::print;
use c_tree::{Function, Program, Top};
use c_types::{Bytes, List, Memory, Name};
use flat_form::flat_counts;
use flat_function::flatten;
use std::alloc::Global;
use std::str;

/// A text, and what is told of the flat form of its function.
static CASES: [(&str, &str); 2] = [
    (
        "int main(void) { int i; for (i = 0; i < 4; i++) { again: if (i == 0) continue; if (i == 3) break; putchar('0' + i); if (getchar() == 'r') goto again; } return i; }",
        "3 gotos, 3 labels
flat again continue_1 break_1
i
int main(void) {
    i = 0;
    while (i < 4) {
        again: ;
        if (i == 0) {
            goto continue_1;
        }
        if (i == 3) {
            goto break_1;
        }
        putchar('0' + i);
        if (getchar() == 'r') {
            goto again;
        }
        continue_1: ;
        i++;
    }
    break_1: ;
    return i;
}
",
    ),
    // names in the order of the steps
    (
        "int main(void) { int n; while (n) { if (n) continue; again: if (n) break; goto again; } switch (n) { case 0: do { case 1: ; } while (n); break; } }",
        "7 gotos, 6 labels
flat again continue_1 break_1 case_2_1 case_2_2 break_2
n switch_2
int main(void) {
    while (n) {
        if (n) {
            goto continue_1;
        }
        again: ;
        if (n) {
            goto break_1;
        }
        goto again;
        continue_1: ;
    }
    break_1: ;
    switch_2 = n;
    if (switch_2 == 0) {
        goto case_2_1;
    }
    if (switch_2 == 1) {
        goto case_2_2;
    }
    goto break_2;
    case_2_1: ;
    do {
        case_2_2: ;
    } while (n);
    goto break_2;
    break_2: ;
}
",
    ),
];

fn tell_counts(alloc: Global, function: &Function, out: &mut String) -> Result<(), Memory> {
    let Some(body) = &function.body else {
        return Err(Memory);
    };
    match flat_counts(alloc, body)? {
        Some((gotos, labels)) => {
            out.push_str(&format!(in alloc; "{gotos} gotos, {labels} labels\n")?)?;
            Ok(())
        }
        None => Err(Memory),
    }
}

/// Writes the names of the labels, and those of the variables.
fn tell_names(function: &Function, out: &mut String) -> Result<(), Memory> {
    out.push_str(if function.flat { "flat" } else { "as it was" })?;
    for label in function.labels.as_slice() {
        out.push_str(" ")?;
        out.push_str(label.as_str())?;
    }
    let mut before = "\n";
    for slot in function.slots.as_slice() {
        out.push_str(before)?;
        out.push_str(slot.name.as_str())?;
        before = " ";
    }
    out.push_str("\n")?;
    Ok(())
}

/// Flattens the function that stands first.
fn tell_first(
    alloc: Global,
    all: &List<Name>,
    file: &List<Name>,
    program: &mut Program,
    out: &mut String,
) -> Result<(), Memory> {
    if program.tops.is_empty() {
        return Err(Memory);
    }
    match program.tops.at_mut(0) {
        Top::Function(function) => {
            tell_counts(alloc, function, out)?;
            flatten(alloc, all, file, function)?;
            tell_names(function, out)
        }
        _ => Err(Memory),
    }
}

fn push_bytes(out: &mut String, bytes: &Bytes) -> Result<(), Memory> {
    out.push_str(str::from_utf8(bytes.as_slice()).unwrap_or("no text"))?;
    Ok(())
}

fn tell_program(alloc: Global, program: &mut Program, out: &mut String) -> Result<(), Memory> {
    let all = names(alloc, program)?;
    let file = file_names(alloc, program)?;
    tell_first(alloc, &all, &file, program, out)?;
    push_bytes(out, &print(alloc, program)?)
}

fn tell(alloc: Global, text: &str, out: &mut String) -> Result<(), Memory> {
    let mut program = program_of(alloc, text)?;
    let told = tell_program(alloc, &mut program, out);
    drop(program);
    told
}

fn is_told(alloc: Global, text: &str, want: &str) -> bool {
    let mut out = String::new(alloc);
    let told = tell(alloc, text, &mut out).is_ok() && out.as_str() == want;
    drop(out);
    told
}

#[test]
fn texts_have_flat_forms(rt: HostRuntime) {
    for (text, want) in &CASES {
        assert!(rt; is_told(rt.alloc(), text, want), "{text}");
    }
}
