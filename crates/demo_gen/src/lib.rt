//! A large text of the subset, made by a rule, on which the tool shows what it does.
#![tactic(auto)]

ghost use Rattle.std.specs.Prelude.{◌≡◌, ◌++◌, IfOk, OnOk};
ghost use Rattle.std.specs.Fmt.{decimal};
ghost use Rattle.demo_gen.specs.DemoText.{function_text, functions, call_text, calls, demo_text};

use c_types::{Bytes, List, MOST, Memory};
use itoa::Buffer;
use std::alloc::Global;

fn add(out: &mut Vec<u8>, text: &str) -> Result<(), Memory>
    ensures { OnOk result (out.new.items ≡ out.old.items ++ text.now) }
{
    out.extend_from_slice(text.as_bytes())?;
    Ok(())
}

fn add_number(out: &mut Vec<u8>, number: u32) -> Result<(), Memory>
    ensures { OnOk result (out.new.items ≡ out.old.items ++ decimal number) }
{
    let mut buffer = Buffer::new();
    add(out, buffer.format(number))
}

fn add_function(out: &mut Vec<u8>, k: u32) -> Result<(), Memory>
    ensures { OnOk result (out.new.items ≡ out.old.items ++ function_text k) }
{
    add(out, "unsigned f")?;
    add_number(out, k)?;
    add(out, "(unsigned n) {\n    unsigned s = ")?;
    add_number(out, k % 97 + 1)?;
    add(
        out,
        ";\n    unsigned i = 0;\nagain:\n    if (i >= n) goto done;\n    if (s % 2 == 0) goto even;\n    while (s < 50) {\n        s = s * 3 + 1;\neven:\n        s = s / 2 + 7;\n    }\n    s = s + i;\n    i = i + 1;\n    goto again;\ndone:\n    return s;\n}\n",
    )
}

#[tactic(auto, using(crate::proofs::Texts::one_function))]
fn add_functions(out: &mut Vec<u8>, n: u32) -> Result<(), Memory>
    ensures { OnOk result (out.new.items ≡ out.old.items ++ functions n) }
{
    for k in 0..n {
        add_function(out, k)?;
    }
    Ok(())
}

fn add_call(out: &mut Vec<u8>, k: u32) -> Result<(), Memory>
    ensures { OnOk result (out.new.items ≡ out.old.items ++ call_text k) }
{
    add(out, "    t = t + f")?;
    add_number(out, k)?;
    add(out, "(3);\n")?;
    Ok(())
}

#[tactic(auto, using(crate::proofs::Texts::one_call))]
fn add_calls(out: &mut Vec<u8>, n: u32) -> Result<(), Memory>
    ensures { OnOk result (out.new.items ≡ out.old.items ++ calls n) }
{
    for k in 0..n {
        add_call(out, k)?;
    }
    Ok(())
}

/// The demo text of n functions, about 300 bytes each. Want of memory is the only failure.
pub fn make(alloc: Global, n: u32) -> Result<Bytes, Memory>
    ensures { IfOk result (λ text. text ≡ demo_text n) }
{
    let mut out = Vec::new(alloc);
    add_functions(&mut out, n)?;
    add(&mut out, "int main(void) {\n    unsigned t = 0;\n")?;
    add_calls(&mut out, n)?;
    add(&mut out, "    printf(\"%u\\n\", t);\n    return 0;\n}\n")?;
    if out.len() > MOST {
        return Err(Memory);
    }
    Ok(List::from_vec(out))
}
