ghost use Rattle.std.specs.Prelude.{◌≡◌, ◌%◌, ◌<◌, ◌≤◌, ◌^◌, [], get_or, eqb, length, IfOk, OnOk};
ghost use Rattle.c_copies.specs.Names.{with_name};
ghost use Rattle.c_fresh_names.specs.Fresh.{numbered as the_numbered, fresh as the_fresh};
ghost use Rattle.flat_names.specs.Gathered.{all_used};
ghost use Rattle.lower_laws.specs.Lowering.{label_names as the_label_names};
ghost use Rattle.goto_lowering.specs.Steps.{chosen, next_then, used_then};

use c_fresh_names::UsedNames;
use c_types::{List, Memory, Name};
use flat_names::{made_name, own_name};
use std::alloc::Global;

/// Whether a label with this code is one of the source.
fn is_own(code: u32) -> bool
    ensures { result ≡ eqb (code % 7) 0 }
{
    code % 7 == 0
}

/// The name of a label: its own, or the next that is made.
fn label_name(
    alloc: Global,
    labels: &[Name],
    used: &mut UsedNames,
    code: u32,
    next: u64,
) -> Result<Name, Memory>
    ensures name { IfOk result (λ it. it ≡ chosen labels.now (all_used used.old) next code) }
    ensures used { OnOk result (all_used used.new ≡ used_then (all_used used.old) next code) }
    ensures file { used.new.file ≡ used.old.file }
{
    if is_own(code) {
        own_name(alloc, labels, code / 7)
    } else {
        made_name(alloc, "low", next, used)
    }
}

/// The number of the next name that is made behind such a label.
fn next_of(code: u32, next: u64) -> u64
    requires { next < 2 ^ 63 }
    ensures { result ≡ next_then next code }
{
    if is_own(code) { next } else { next + 1 }
}

/// The names of labels with these codes, in their order, of a function that has these labels. Want of
/// memory is the only failure.
pub fn label_names(
    alloc: Global,
    labels: &[Name],
    used: &mut UsedNames,
    codes: &[u32],
) -> Result<List<Name>, Memory>
    requires { length codes.now ≤ 4294967295 }
    ensures value { IfOk result (λ it. it ≡ the_label_names labels.now (all_used used.old) 1 codes.now) }
    ensures file { used.new.file ≡ used.old.file }
{
    let mut out = List::new(alloc);
    let mut next = 1;
    for i in 0..codes.len() {
        let name = label_name(alloc, labels, used, codes[i], next)?;
        out.push(name)?;
        next = next_of(codes[i], next);
    }
    Ok(out)
}
