ghost use Rattle.std.specs.Prelude.{◌≡◌, IfOk, OnOk, MatchOption};
ghost use Rattle.c_tree.specs.declared.tree.Program.{Program as TheProgram};
ghost use Rattle.jump_meaning.specs.Code.{function_tree, function_named, undeclared};
ghost use Rattle.step_interp.specs.Functions.{AddsTop, AddsFunction, AreFunctionsOf, IsEmpty, IsRoutineOf, keeps as the_keeps, stays as the_stays};

use c_tree::{Function, Program, Top};
use c_types::{Memory, Name};
use std::alloc::Global;
use std::collections::BTreeMap;
use step_tasks::{Labels, labels_of};

/// A function, and where its labels stand.
#[derive(Drop)]
pub struct Routine<'a> {
    pub function: &'a Function,
    pub labels: Labels<'a>,
}

/// The functions of a program by their names: of each the definition, else the first declaration.
#[derive(Drop)]
pub struct Functions<'a> {
    pub routines: BTreeMap<&'a str, Routine<'a>>,
}

/// Whether a function stays where another of its name follows.
fn stays(known: &Function, function: &Function) -> bool
    ensures { result ≡ the_stays known.now function.now }
{
    known.body.is_some() || function.body.is_none()
}

/// Whether the table has a function of this name that stays.
fn keeps(functions: &Functions<'_>, function: &Function) -> bool
    ensures { result ≡ the_keeps functions.now function.now }
{
    match functions.routines.get(function.name.as_str()) {
        Some(routine) => stays(routine.function, function),
        None => false,
    }
}

/// Adds a function, unless another of its name stays.
fn add_function<'a>(
    alloc: Global,
    functions: &mut Functions<'a>,
    function: &'a Function,
) -> Result<(), Memory>
    ensures { OnOk result (AddsFunction function.now functions.old functions.new) }
{
    if keeps(functions, function) {
        return Ok(());
    }
    let labels = labels_of(alloc, function)?;
    let routine = Routine { function, labels };
    functions.routines.insert(function.name.as_str(), routine)?;
    Ok(())
}

/// Adds what is declared, if it is a function.
fn add_top<'a>(alloc: Global, functions: &mut Functions<'a>, top: &'a Top) -> Result<(), Memory>
    ensures { OnOk result (AddsTop top.now functions.old functions.new) }
{
    match top {
        Top::Function(function) => add_function(alloc, functions, function),
        _ => Ok(()),
    }
}

fn no_functions<'a>(alloc: Global) -> Functions<'a>
    ensures { IsEmpty result }
{
    Functions {
        routines: BTreeMap::new(alloc),
    }
}

/// The functions of a program.
pub fn functions_of<'a>(alloc: Global, program: &'a Program) -> Result<Functions<'a>, Memory>
    ensures { IfOk result (λ it. AreFunctionsOf program.now it) }
{
    let mut functions = no_functions(alloc);
    for top in program.tops.as_slice() {
        add_top(alloc, &mut functions, top)?;
    }
    Ok(functions)
}

/// The function of a name.
pub fn routine_of<'t, 'a>(functions: &'t Functions<'a>, name: &Name) -> Option<&'t Routine<'a>>
    ensures { (p : TheProgram) → AreFunctionsOf p functions.now
        → MatchOption result (function_named name.now p.tops ≡ undeclared) (λ r. (function_named name.now p.tops ≡ function_tree r.now.function.now) × IsRoutineOf name.now r.now) }
{
    functions.routines.get(name.as_str())
}
