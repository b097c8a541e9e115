ghost use Rattle.std.specs.Prelude.{◌≡◌, None, IfOk};
ghost use Rattle.c_tree.specs.InRange.{body_of};
ghost use Rattle.lower_laws.specs.Lowered.{gotos};
ghost use Rattle.lower_laws.specs.Lowering.{IsBodyLowered, IsLoweredBeside};

use crate::bodies::{LoweredBody, lower_body};
use crate::listing::constructs;
use crate::whole::name_lowered;
use c_tree::{Function, Item};
use c_types::{List, Memory};
use flat_form::gotos_in;
use flat_names::{FlatNames, ProgramNames};
use flat_questions::named_labels;
use lower_items::Plan;
use std::alloc::Global;
use std::mem;

/// A function whose body is one flat list, and how many gotos it has.
#[derive(Drop)]
pub struct LoweredFunction {
    pub function: Function,
    pub gotos: u64,
}

fn lower_with_body(
    alloc: Global,
    names: &mut ProgramNames,
    function: Function,
    body: List<Item>,
) -> Result<LoweredFunction, Memory>
    ensures function { IfOk result (λ it. IsBodyLowered names.old.used.file names.old.taken.file function body it.function) }
    ensures gotos { IfOk result (λ it. it.gotos ≡ gotos (body_of it.function)) }
    ensures used { names.new.used.file ≡ names.old.used.file }
    ensures taken { names.new.taken.file ≡ names.old.taken.file }
{
    let Function {
        name,
        result,
        file_only,
        params,
        slots,
        labels,
        body: _,
        flat: _,
    } = function;
    let constructs = constructs(alloc, &body)?;
    let named = named_labels(alloc, &body)?;
    let plan = Plan { named, slots };
    let LoweredBody { items, codes } = lower_body(alloc, params, &plan, body)?;
    let FlatNames { slots, labels } = name_lowered(
        alloc,
        names,
        params,
        plan.slots.as_slice(),
        labels.as_slice(),
        constructs.as_slice(),
        codes.as_slice(),
    )?;
    let gotos = gotos_in(&items)?;
    Ok(LoweredFunction {
        function: Function {
            name,
            result,
            file_only,
            params,
            slots,
            labels,
            body: Some(items),
            flat: false,
        },
        gotos,
    })
}

/// A function as one flat list, with its names, where those of its program are gathered; a prototype stays.
/// The names serve the next function then. Want of memory is the only failure, and the function is given up.
pub fn lower_function(
    alloc: Global,
    names: &mut ProgramNames,
    function: Function,
) -> Result<LoweredFunction, Memory>
    ensures function { IfOk result (λ it. IsLoweredBeside names.old.used.file names.old.taken.file function it.function) }
    ensures gotos { IfOk result (λ it. it.gotos ≡ gotos (body_of it.function)) }
    ensures used { names.new.used.file ≡ names.old.used.file }
    ensures taken { names.new.taken.file ≡ names.old.taken.file }
{
    let mut function = function;
    match mem::replace(&mut function.body, None) {
        Some(body) => lower_with_body(alloc, names, function, body),
        None => Ok(LoweredFunction { function, gotos: 0 }),
    }
}
