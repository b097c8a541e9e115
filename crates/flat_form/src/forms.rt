ghost use Rattle.std.specs.Prelude.{◌≡◌, ℕ, List, false, length, IfOk, IfNone, IfSome, OnOk, OnErr};
ghost use Rattle.c_tree.specs.Numerals.{constant};
ghost use Rattle.c_tree.specs.Trees.{trees_of};
ghost use Rattle.flat_laws.specs.Parts.{has_jumps as the_has_jumps};
ghost use Rattle.flat_laws.specs.FlatForm.{flat_body as the_flat_body};
ghost use Rattle.flat_form.specs.Codes.{label_codes};
ghost use Rattle.flat_names.specs.FlatNames.{flat_names_beside};
ghost use Rattle.flat_form.specs.declared.forms.Form.TheVariants.{Flat};
ghost use Rattle.flat_form.specs.Cleared.{jumps_in};
ghost use Rattle.flat_form.specs.Flattened.{applied, IsBodyForm, IsFormBeside, IsFlattenedBeside};

use crate::clearing::clear;
use crate::{FlatBody, flat_body};
use c_tree::{Function, Item};
use c_types::{List, Memory};
use flat_names::{FlatNames, ProgramNames, name_flat};
use flat_questions::has_jumps;
use std::alloc::Global;
use std::mem;

/// The body, variables and labels of a flat form.
#[derive(Drop)]
pub struct Made {
    pub body: List<Item>,
    pub names: FlatNames,
}

/// What becomes of a function, as contracts say it.
#[derive(Drop)]
pub enum Form {
    /// A prototype stays as it is.
    Same,
    /// A function without jumps gets this body, and has no labels.
    Calm(List<Item>),
    /// A function with jumps becomes flat.
    Flat(Made),
}

/// The flat form of a body with jumps, and its names.
fn flat_form(
    alloc: Global,
    names: &mut ProgramNames,
    function: &Function,
    body: &List<Item>,
) -> Result<Made, Memory>
    ensures items { IfOk result (λ it. trees_of it.body ≡ the_flat_body constant function.now.slots (length function.now.labels) (trees_of body.now)) }
    ensures names { IfOk result (λ it. it.names ≡ flat_names_beside names.old.used.file names.old.taken.file function.now (trees_of body.now) (label_codes function.now (trees_of body.now))) }
    ensures used { names.new.used.file ≡ names.old.used.file }
    ensures taken { names.new.taken.file ≡ names.old.taken.file }
{
    let flat = flat_body(alloc, function, body)?;
    let FlatBody { items, codes } = flat;
    let names = name_flat(alloc, names, function, body, codes.as_slice())?;
    Ok(Made { body: items, names })
}

/// The flat form of a function with this body, if that has jumps.
fn made_of_body(
    alloc: Global,
    names: &mut ProgramNames,
    function: &Function,
    body: &List<Item>,
) -> Result<Option<Made>, Memory>
    ensures none { IfOk result (λ it. IfNone it (the_has_jumps (trees_of body.now) ≡ false)) }
    ensures some { IfOk result (λ it. IfSome it (λ m. IsBodyForm names.old.used.file names.old.taken.file function.now body.now (Flat m))) }
    ensures used { names.new.used.file ≡ names.old.used.file }
    ensures taken { names.new.taken.file ≡ names.old.taken.file }
{
    if has_jumps(body) {
        let made = flat_form(alloc, names, function, body)?;
        Ok(Some(made))
    } else {
        Ok(None)
    }
}

/// The flat form of a function, if it has jumps.
fn made_of(
    alloc: Global,
    names: &mut ProgramNames,
    function: &Function,
) -> Result<Option<Made>, Memory>
    ensures none { IfOk result (λ it. IfNone it (jumps_in function.now ≡ false)) }
    ensures some { IfOk result (λ it. IfSome it (λ m. IsFormBeside names.old.used.file names.old.taken.file function.now (Flat m))) }
    ensures used { names.new.used.file ≡ names.old.used.file }
    ensures taken { names.new.taken.file ≡ names.old.taken.file }
{
    match &function.body {
        Some(body) => made_of_body(alloc, names, function, body),
        None => Ok(None),
    }
}

fn make_flat(function: &mut Function, made: Made)
    ensures { function.new ≡ applied (Flat made) function.old }
{
    let Made { body, names } = made;
    let FlatNames { slots, labels } = names;
    drop(mem::replace(&mut function.body, Some(body)));
    drop(mem::replace(&mut function.slots, slots));
    drop(mem::replace(&mut function.labels, labels));
    function.flat = true;
}

/// A function without jumps loses its labels where it stands. A prototype stays as it is.
fn make_calm(alloc: Global, function: &mut Function)
    requires { jumps_in function.old ≡ false }
    ensures { (used taken : List (List ℕ)) → IsFlattenedBeside used taken function.old function.new }
{
    match mem::replace(&mut function.body, None) {
        Some(mut body) => {
            clear(alloc, false, &mut body);
            drop(mem::replace(&mut function.labels, List::new(alloc)));
            function.body = Some(body);
        }
        None => {}
    }
}

/// Puts a function into its flat form, where the names of its program are gathered. They are kept for the next function,
/// also after `Memory`, the only failure. A body with jumps is made beside the old one, so that the function is as it was
/// then; one without jumps stays where it is, without its labels.
pub fn flatten_function(
    alloc: Global,
    names: &mut ProgramNames,
    function: &mut Function,
) -> Result<(), Memory>
    ensures ok { OnOk result (IsFlattenedBeside names.old.used.file names.old.taken.file function.old function.new) }
    ensures err { OnErr result (function.new ≡ function.old) }
    ensures used { names.new.used.file ≡ names.old.used.file }
    ensures taken { names.new.taken.file ≡ names.old.taken.file }
{
    match made_of(alloc, names, function)? {
        Some(made) => make_flat(function, made),
        None => make_calm(alloc, function),
    }
    Ok(())
}
