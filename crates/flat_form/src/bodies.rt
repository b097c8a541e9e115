ghost use Rattle.std.specs.Prelude.{◌≡◌, ℕ, [], length, IfOk};
ghost use Rattle.c_tree.specs.Numerals.{constant};
ghost use Rattle.c_tree.specs.Trees.{trees_of};
ghost use Rattle.flat_laws.specs.Parts.{is_named};
ghost use Rattle.flat_laws.specs.FlatForm.{flat_body as the_flat_body};
ghost use Rattle.flat_questions.specs.Reading.{is_flagged};
ghost use Rattle.flat_form.specs.Codes.{label_codes, coded_form};

use crate::flat_bodies_labels::labels_in;
use crate::places::places_of;
use crate::renumbering::renumber;
use c_copies::copy_slots;
use c_tree::{Function, Item};
use c_types::{List, Memory};
use flat_items::{Places, Plan, write_body};
use flat_questions::named_labels;
use std::alloc::Global;

/// The flat form of a body, and the codes of its labels.
#[derive(Drop)]
pub struct FlatBody {
    /// The items. A label's number is its place in `codes`.
    pub items: List<Item>,
    /// Which labels stand in it, in text order. First come the codes of the labels of the source; the
    /// others are of labels that were made.
    pub codes: List<u32>,
}

/// The plan of a flat form in which each label has its code as its number.
fn coded_plan(alloc: Global, function: &Function, body: &List<Item>) -> Result<Plan, Memory>
    ensures named { IfOk result (λ it. (l : ℕ) → is_flagged it.named l ≡ is_named (trees_of body.now) l) }
    ensures table { IfOk result (λ it. it.places.table ≡ []) }
    ensures behind { IfOk result (λ it. it.places.behind ≡ 0) }
    ensures count { IfOk result (λ it. it.count ≡ length function.now.labels) }
    ensures slots { IfOk result (λ it. it.slots ≡ function.now.slots) }
{
    let named = named_labels(alloc, body)?;
    let slots = copy_slots(alloc, function.slots.as_slice())?;
    let places = Places {
        table: List::new(alloc),
        behind: 0,
    };
    Ok(Plan {
        named,
        places,
        count: function.labels.len() as u32,
        slots,
    })
}

/// The items of the flat form, in which each label has its code as its number.
fn coded_items(alloc: Global, function: &Function, body: &List<Item>) -> Result<List<Item>, Memory>
    ensures { IfOk result (λ it. trees_of it ≡ coded_form function.now (trees_of body.now)) }
{
    let plan = coded_plan(alloc, function, body)?;
    write_body(alloc, &plan, function.slots.len() as u32, body)
}

/// The flat form of the body of a function with jumps. Its variables are those of the function, and
/// behind them one for each scattered switch, in text order. Want of memory is the only failure;
/// numbers past `u32` count as that.
pub fn flat_body(alloc: Global, function: &Function, body: &List<Item>) -> Result<FlatBody, Memory>
    ensures items { IfOk result (λ it. trees_of it.items ≡ the_flat_body constant function.now.slots (length function.now.labels) (trees_of body.now)) }
    ensures codes { IfOk result (λ it. it.codes ≡ label_codes function.now (trees_of body.now)) }
{
    let mut items = coded_items(alloc, function, body)?;
    let codes = labels_in(alloc, &items)?;
    let places = places_of(alloc, codes.as_slice())?;
    renumber(&places, &mut items)?;
    Ok(FlatBody { items, codes })
}
