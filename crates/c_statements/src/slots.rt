//! The slots of declared variables.

ghost use Rattle.std.specs.Prelude.{◌≡◌, ◌++◌, ◌∷◌, [], length, IfOk, OnOk};
ghost use Rattle.c_kinds.specs.Scopes.{bind};
ghost use Rattle.c_grammar.specs.Views.{words_of};
ghost use Rattle.c_statements.specs.Declarations as spec;

use crate::extents::Extent;
use c_grammar::Words;
use c_kinds::{Binding, Scopes, Shape, name_of};
use c_tree::Slot;
use c_types::{List, Memory};
use std::alloc::Global;

/// How many cells the slot of a variable has. 2^32 are refused as for want of memory.
pub fn cells_of(extent: Extent) -> Result<Option<u32>, Memory>
    ensures { IfOk result (λ cells. cells ≡ spec.cells_of extent) }
{
    match extent {
        Extent::One => Ok(None),
        Extent::Many(cells) => {
            if cells > 4294967295 {
                return Err(Memory);
            }
            Ok(Some(cells as u32))
        }
        Extent::Unclear => Ok(Some(1)),
    }
}

/// Gives a variable of a block the next slot, and binds its name, unless the nearest scope has it.
pub fn declare<'a>(
    alloc: Global,
    words: &Words<'a>,
    scopes: &mut Scopes<'a>,
    slots: &mut List<Slot>,
    name: u32,
    shape: Shape,
    extent: Extent,
) -> Result<(), Memory>
    ensures scopes { OnOk result (scopes.new ≡ bind (words_of words.now name) (Binding.Local (length slots.old) shape) scopes.old) }
    ensures slots { OnOk result (slots.new ≡ slots.old ++ spec.slot (words_of words.now name) shape (spec.cells_of extent) ∷ []) }
{
    let word = words.get(name);
    let number = slots.len() as u32;
    let cells = cells_of(extent)?;
    slots.push(Slot {
        name: name_of(alloc, word)?,
        kind: shape.kind,
        cells,
        constant: shape.constant,
    })?;
    scopes.bind(word, Binding::Local(number, shape))
}
