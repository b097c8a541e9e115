ghost use Rattle.std.specs.Prelude.{◌≡◌, ◌∷◌, ℕ, List, map, IfOk, OnOk};
ghost use Rattle.jump_meaning.specs.Values.{Integer};
ghost use Rattle.step_memory.specs.Values.{values_of};
ghost use Rattle.step_interp.specs.Functions.{AreFunctionsOf};
ghost use Rattle.step_interp.specs.Started.{BeginsIn, StartsAs};

use crate::files::store_at_start;
use crate::functions::{Functions, Routine, routine_of};
use crate::lookup::{cells_of, global_cells};
use crate::machine::{MOST_CELLS, Machine};
use crate::slots::rooms_at_start;
use c_tree::Program;
use c_types::{Memory, Name, Stack};
use std::alloc::Global;
use step_memory::Value;
use step_tasks::{Call, Tasks, Values};

/// Leaves an argument.
fn leave_argument<'a>(values: &mut Values<'a>, number: &i128) -> Result<(), Memory>
    ensures { OnOk result ((ns : List (List ℕ)) → values_of ns values.new ≡ Integer number.now ∷ values_of ns values.old) }
{
    let number = *number;
    values.push(Value::Integer(number))
}

/// The arguments of the entry, the first one on top.
fn first_values<'a>(alloc: Global, arguments: &[i128]) -> Result<Values<'a>, Memory>
    ensures { IfOk result (λ it. (ns : List (List ℕ)) → values_of ns it ≡ map Integer arguments.now) }
{
    let mut values = Values::new(alloc);
    let count = arguments.len();
    for at in 0..count {
        leave_argument(&mut values, &arguments[count - 1 - at])?;
    }
    Ok(values)
}

/// The first call of a run, before its first step.
fn machine_at_start<'t, 'a>(
    alloc: Global,
    program: &'a Program,
    functions: &'t Functions<'a>,
    routine: &'t Routine<'a>,
    arguments: &[i128],
    cells: u64,
) -> Result<Machine<'t, 'a>, Memory>
    ensures { IfOk result (λ m. BeginsIn program.now functions.now routine.now.function.now routine.now.labels arguments.now cells m) }
{
    let function = routine.function;
    let mut values = first_values(alloc, arguments)?;
    let rooms = rooms_at_start(alloc, function, &mut values)?;
    let mut store = store_at_start(alloc, program)?;
    store.enter(rooms)?;
    let call = Call::new(alloc, function, &routine.labels)?;
    Ok(Machine {
        alloc,
        program,
        functions,
        store,
        call,
        waiting: Stack::new(alloc),
        cells,
        spare_tasks: Tasks::new(alloc),
        spare_values: Values::new(alloc),
    })
}

/// The start of a run of a program that has these functions: the entry is the first call, and there may
/// be too many cells for it.
pub fn start<'t, 'a>(
    alloc: Global,
    program: &'a Program,
    functions: &'t Functions<'a>,
    name: &Name,
    arguments: &[i128],
) -> Result<Option<Machine<'t, 'a>>, Memory>
    ensures ok { IfOk result (λ m. AreFunctionsOf program.now functions.now → StartsAs program.now name.now arguments.now m) }
{
    let Some(routine) = routine_of(functions, name) else {
        return Err(Memory);
    };
    let cells = global_cells(&program.tops).saturating_add(cells_of(&routine.function.slots));
    if cells > MOST_CELLS {
        return Ok(None);
    }
    let machine = machine_at_start(alloc, program, functions, routine, arguments, cells)?;
    Ok(Some(machine))
}
