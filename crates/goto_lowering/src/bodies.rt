ghost use Rattle.std.specs.Prelude.{◌≡◌, ◌-◌, ◌+◌, ◌≤◌, ℕ, length, IfOk, OnOk};
ghost use Rattle.c_tree.specs.Numerals.{constant};
ghost use Rattle.c_tree.specs.Trees.{trees_of, join};
ghost use Rattle.flat_laws.specs.Parts.{is_named};
ghost use Rattle.flat_questions.specs.Reading.{is_flagged};
ghost use Rattle.lower_laws.specs.Lowered.{declarations, lowered_body};
ghost use Rattle.goto_lowering.specs.Codes.{codes_of};
ghost use Rattle.flat_items.specs.Plans.{number_at};
ghost use Rattle.goto_lowering.specs.Renumbered.{renumbered as the_renumbered};

use crate::renumbering::renumbered;
use c_tree::Item;
use c_types::{List, Memory};
use flat_form::{labels_in, places_of};
use flat_items::Places;
use lower_items::{Plan, lower_list};
use std::alloc::Global;

/// The flat list of a body, and the codes of its labels.
#[derive(Drop)]
pub struct LoweredBody {
    /// The items. A label's number is its place in `codes`.
    pub items: List<Item>,
    /// Which labels stand in it, in text order: those of the source have the codes 0, 7, 14 and so on.
    pub codes: List<u32>,
}

/// Declares so many variables without initialisers.
fn declare(from: u32, count: u32, out: &mut List<Item>) -> Result<(), Memory>
    ensures { OnOk result (trees_of out.new ≡ join (trees_of out.old) (declarations from count)) }
{
    if count > 4294967295 - from {
        return Err(Memory);
    }
    for i in 0..count {
        out.push(Item::Local(from + i, None))?;
    }
    Ok(())
}

/// The items of a flat list, in which the labels have these places.
fn add_renumbered(places: &Places, items: List<Item>, out: &mut List<Item>) -> Result<(), Memory>
    ensures { OnOk result (trees_of out.new ≡ join (trees_of out.old) (the_renumbered (number_at places.now) (trees_of items))) }
{
    for item in items.into_vec() {
        out.push(renumbered(places, item)?)?;
    }
    Ok(())
}

fn declared_count(params: u32, slots: u32, variables: u32) -> u32
    requires { slots ≤ variables }
    ensures { result ≡ slots - params + (variables - slots) }
{
    if params < slots {
        variables - params
    } else {
        variables - slots
    }
}

/// The body of a function with so many parameters as one flat list of gotos, behind the declarations of
/// its variables. Those of its switches come behind those that it has. The items are moved, and no
/// expression is copied. Want of memory is the only failure; numbers past `u32` count as that.
pub fn lower_body(
    alloc: Global,
    params: u32,
    plan: &Plan,
    body: List<Item>,
) -> Result<LoweredBody, Memory>
    requires { (l : ℕ) → is_flagged plan.now.named l ≡ is_named (trees_of body) l }
    ensures items { IfOk result (λ it. trees_of it.items ≡ lowered_body constant params plan.now.slots (trees_of body)) }
    ensures codes { IfOk result (λ it. it.codes ≡ codes_of plan.now.slots (trees_of body)) }
{
    let slots = plan.slots.len() as u32;
    let made = lower_list(alloc, plan, slots, body)?;
    let codes = labels_in(alloc, &made.items)?;
    let places = places_of(alloc, codes.as_slice())?;
    let mut out = List::new(alloc);
    declare(
        params,
        declared_count(params, slots, made.variables),
        &mut out,
    )?;
    add_renumbered(&places, made.items, &mut out)?;
    Ok(LoweredBody { items: out, codes })
}
