ghost use Rattle.std.specs.Prelude.{◌≡◌, true, map, IfOk};
ghost use Rattle.c_tree.specs.Jumps.{is_jump_free_program, is_plain_program};
ghost use Rattle.c_tree.specs.InRange.{IsProgramInRange};
ghost use Rattle.jump_meaning.specs.Runs.{BehaveTheSame};
ghost use Rattle.guard_vars.specs.GuardNames.{guard_names, guard_names_beside};
ghost use Rattle.plain_laws.specs.Laws.{IsProgramReady, BehavesAsStructured};
ghost use Rattle.plain_laws.specs.Plain.{plain_top as the_plain_top};
ghost use Rattle.plain_form.specs.Few.{AreFewInTops};
ghost use Rattle.plain_form.specs.Plain.{plain as the_plain};

use crate::functions::plain_function;
use c_fresh_names::UsedNames;
use c_tree::{Program, Top};
use c_types::{List, Memory, Name};
use std::alloc::Global;

fn plain_top(alloc: Global, used: &mut UsedNames, top: Top) -> Result<Top, Memory>
    ensures value { IfOk result (λ it. it ≡ the_plain_top (guard_names_beside used.old.file) top) }
    ensures file { used.new.file ≡ used.old.file }
{
    match top {
        Top::Function(function) => Ok(Top::Function(plain_function(alloc, used, function)?)),
        other => Ok(other),
    }
}

fn plain_tops(alloc: Global, used: &mut UsedNames, tops: List<Top>) -> Result<List<Top>, Memory>
    ensures { IfOk result (λ it. it ≡ map (the_plain_top (guard_names_beside used.old.file)) tops) }
{
    let mut out = List::from_vec(Vec::with_capacity(alloc, tops.len())?);
    for top in tops.into_vec() {
        out.push(plain_top(alloc, used, top)?)?;
    }
    Ok(out)
}

/// The plain form of a program in which these names stand: a program in which the guards of labels are
/// variables and the sections of switches have their ends (docs/REWRITING.md).
///
/// In a flat function with a body, the variables are the parameters, the block variables, and then one
/// `int` for the guard of each label whose guard stands in the body, named by `guard_names`, in the order of
/// the labels. The body begins with a declaration of each block variable, without a value, and of each such
/// guard, with the value 0. Then come the items: `Arm L` is `g = 1;`, or `g = c;` for a condition `c` whose
/// outermost mark is a comparison, `!`, `&&` or `||`, and else `g = c != 0;`. `Land L` is `g = 0;`. The
/// tests `On L`, `Off L`, `AndOff(L, t)` and `OrOn(L, t)` are `g`, `!g`, `!g && t` and `g || t`. The
/// selector `Pick(L, k, e)` is `g ? k : e`, with `k` as a constant of the promoted kind of the selector. The
/// function has no labels then, and is not flat.
///
/// In every function, a section of a `switch` that has no end and whose last item is `break` gets its end in
/// that place. Then a section with an empty list and no end, other than the last, gives its cases and its
/// default to the next.
///
/// A program whose functions are ready (each body in range, its kinds agree, and in a flat function it is
/// well made and without Leap) behaves as its plain form does. Want of memory is the only failure; variables
/// that no `u32` numbers count as that. The program is given up then.
pub fn plain(alloc: Global, names: &List<Name>, program: Program) -> Result<Program, Memory>
    ensures value { IfOk result (λ it. it ≡ the_plain names.now program) }
    ensures no_jumps { is_jump_free_program program ≡ true → IfOk result (λ it. is_plain_program it ≡ true) }
    ensures few { IfOk result (λ it. AreFewInTops program.tops it.tops) }
    ensures ranged { IsProgramReady (guard_names names.now) program → IfOk result (λ it. IsProgramInRange it) }
    ensures behaves { IsProgramReady (guard_names names.now) program → IfOk result (λ it. BehaveTheSame program it) }
    ensures structured { IsProgramReady (guard_names names.now) program → is_jump_free_program program ≡ true → IfOk result (λ it. BehavesAsStructured program it) }
{
    let mut used = UsedNames::new(alloc, names.as_slice())?;
    let tops = plain_tops(alloc, &mut used, program.tops)?;
    Ok(Program { tops })
}
