ghost use Rattle.std.specs.Prelude.{◌≡◌, ◌++◌, ◌∷◌, [], ◌+◌, List as Several, ℕ, IfOk, OnOk};
ghost use Rattle.flat_names.specs.Gathered.{AreGathered};
ghost use Rattle.jump_meaning.specs.Runs.{BehaveTheSame};
ghost use Rattle.c_resolved_laws.specs.Counts.{IsResolved};
ghost use Rattle.goto_lowering.specs.Tops.{IsNext};
ghost use Rattle.lower_result_laws.specs.Expressions.{KeepsExpressions};
ghost use Rattle.lower_laws.specs.Lowering.{LoweredTops as AreLowered, IsTopLowered, IsLoweredProgram, top_gotos, tops_gotos, program_gotos};

use crate::functions::{LoweredFunction, lower_function};
use c_tree::{Program, Top};
use c_types::{List, Memory};
use flat_names::ProgramNames;
use std::alloc::Global;

/// What stands at file scope once it is lowered, and how many gotos it has.
#[derive(Drop)]
struct LoweredTop {
    top: Top,
    gotos: u64,
}

fn lower_top(alloc: Global, names: &mut ProgramNames, top: Top) -> Result<LoweredTop, Memory>
    ensures top { (all file : Several (Several ℕ)) → AreGathered all file names.old → IfOk result (λ it. IsTopLowered all file top it.top) }
    ensures gotos { IfOk result (λ it. it.gotos ≡ top_gotos it.top) }
    ensures used { names.new.used.file ≡ names.old.used.file }
    ensures taken { names.new.taken.file ≡ names.old.taken.file }
{
    match top {
        Top::Function(function) => {
            let LoweredFunction { function, gotos } = lower_function(alloc, names, function)?;
            // a list holds at most 4,294,967,295 variables or labels, which its slice tells
            let _ = function.slots.as_slice();
            let _ = function.labels.as_slice();
            Ok(LoweredTop {
                top: Top::Function(function),
                gotos,
            })
        }
        other => Ok(LoweredTop {
            top: other,
            gotos: 0,
        }),
    }
}

fn sum(a: u64, b: u64) -> Result<u64, Memory>
    ensures { IfOk result (λ it. it ≡ a + b) }
{
    match a.checked_add(b) {
        Some(sum) => Ok(sum),
        None => Err(Memory),
    }
}

/// What stands at file scope, and how many gotos it has.
#[derive(Drop)]
struct LoweredTops {
    tops: List<Top>,
    gotos: u64,
}

/// Puts one more behind the others.
fn add_top(
    alloc: Global,
    names: &mut ProgramNames,
    top: Top,
    out: &mut LoweredTops,
) -> Result<(), Memory>
    ensures tops { (all file : Several (Several ℕ)) → AreGathered all file names.old → OnOk result (IsNext all file top out.old.tops out.new.tops) }
    ensures gotos { out.old.gotos ≡ tops_gotos out.old.tops → OnOk result (out.new.gotos ≡ tops_gotos out.new.tops) }
    ensures used { names.new.used.file ≡ names.old.used.file }
    ensures taken { names.new.taken.file ≡ names.old.taken.file }
{
    let LoweredTop { top, gotos } = lower_top(alloc, names, top)?;
    out.gotos = sum(out.gotos, gotos)?;
    out.tops.push(top)
}

fn lower_tops(
    alloc: Global,
    names: &mut ProgramNames,
    tops: List<Top>,
) -> Result<LoweredTops, Memory>
    ensures tops { (all file : Several (Several ℕ)) → AreGathered all file names.old → IfOk result (λ it. AreLowered all file tops it.tops) }
    ensures gotos { IfOk result (λ it. it.gotos ≡ tops_gotos it.tops) }
{
    let mut out = LoweredTops {
        tops: List::new(alloc),
        gotos: 0,
    };
    for top in tops.into_vec() {
        add_top(alloc, names, top, &mut out)?;
    }
    Ok(out)
}

/// A resolved program in which the body of each function is one flat list of assignments, calls, returns, labels,
/// gotos, and `if`s whose then-list is one goto, behind the declarations of its variables; and how many gotos it has.
/// It behaves as the program does: from every entry, on every input and all answers. A full expression of it is one of the
/// program, or has at most two counted tokens more than an initialiser or a selector of that, or is made and has at most
/// three. Want of memory is the only failure, and the program is given up then.
pub fn lower(alloc: Global, program: Program) -> Result<(Program, u64), Memory>
    requires { IsResolved program }
    ensures lowered { IfOk result (λ r. IsLoweredProgram program r.0) }
    ensures gotos { IfOk result (λ r. r.1 ≡ program_gotos r.0) }
    ensures behaves { IfOk result (λ r. BehaveTheSame program r.0) }
    ensures expressions { IfOk result (λ r. KeepsExpressions program r.0) }
{
    let (_, names) = ProgramNames::of_program(alloc, &program)?;
    let mut names = names;
    let LoweredTops { tops, gotos } = lower_tops(alloc, &mut names, program.tops)?;
    Ok((Program { tops }, gotos))
}
