ghost use Rattle.std.specs.Prelude.{◌≡◌, ◌<◌, ◌||◌, ℕ, eqb, length, IfOk, OnOk};
ghost use Rattle.c_tree.specs.Everywhere.{total, total_of, total_in};
ghost use Rattle.c_tree.specs.Trees.{trees_of, sections_of};
ghost use Rattle.flat_laws.specs.Parts.{is_some_number, gotos_to, is_named};
ghost use Rattle.flat_questions.specs.Reading.{is_flagged};
ghost use Rattle.c_tree.specs.Views.{tree_at};

use c_tree::{Item, Section};
use c_types::{List, Memory};
use std::alloc::Global;

/// Which labels of a body are named by a goto: a flag for each, from label 0 on; labels past the last
/// flag aren't. Want of memory is the only failure.
pub fn named_labels(alloc: Global, body: &List<Item>) -> Result<List<bool>, Memory>
    ensures { IfOk result (λ it. (l : ℕ) → is_flagged it l ≡ is_named (trees_of body.now) l) }
{
    let mut flags = List::new(alloc);
    add_list(&mut flags, body)?;
    Ok(flags)
}

fn grow(flags: &mut List<bool>, label: u32) -> Result<(), Memory>
    ensures same { OnOk result ((l : ℕ) → is_flagged flags.new l ≡ is_flagged flags.old l) }
    ensures room { OnOk result (label < length flags.new) }
{
    let at = label as usize;
    let from = flags.len();
    for _i in from..at + 1 {
        flags.push(false)?;
    }
    Ok(())
}

fn add(flags: &mut List<bool>, label: u32) -> Result<(), Memory>
    ensures { OnOk result ((l : ℕ) → is_flagged flags.new l ≡ (is_flagged flags.old l || eqb l label)) }
{
    grow(flags, label)?;
    flags.set(label as usize, true);
    Ok(())
}

#[cycle(naming)]
fn add_item(flags: &mut List<bool>, item: &Item) -> Result<(), Memory>
    ensures { OnOk result ((l : ℕ) → is_flagged flags.new l ≡ (is_flagged flags.old l || is_some_number (total_of (gotos_to l) (tree_at item.now)))) }
{
    match item {
        Item::If(_, a, b) => {
            add_list(flags, a)?;
            add_list(flags, b)
        }
        Item::While(_, a) => add_list(flags, a),
        Item::Do(a, _) => add_list(flags, a),
        Item::For(first, _, _, a) => {
            add_list(flags, first)?;
            add_list(flags, a)
        }
        Item::Switch(_, sections) => add_sections(flags, sections.as_slice()),
        Item::Block(a) => add_list(flags, a),
        Item::Goto(label) => add(flags, *label),
        _ => Ok(()),
    }
}

#[cycle(naming)]
fn add_list(flags: &mut List<bool>, list: &List<Item>) -> Result<(), Memory>
    ensures { OnOk result ((l : ℕ) → is_flagged flags.new l ≡ (is_flagged flags.old l || is_named (trees_of list.now) l)) }
{
    add_items(flags, list.as_slice())
}

#[cycle(naming)]
fn add_items(flags: &mut List<bool>, items: &[Item]) -> Result<(), Memory>
    ensures { OnOk result ((l : ℕ) → is_flagged flags.new l ≡ (is_flagged flags.old l || is_named (trees_of items.now) l)) }
{
    for i in 0..items.len() {
        add_item(flags, &items[i])?;
    }
    Ok(())
}

#[cycle(naming)]
fn add_sections(flags: &mut List<bool>, sections: &[Section]) -> Result<(), Memory>
    ensures { OnOk result ((l : ℕ) → is_flagged flags.new l ≡ (is_flagged flags.old l || is_some_number (total_in (gotos_to l) (sections_of sections.now)))) }
{
    for i in 0..sections.len() {
        add_list(flags, &sections[i].list)?;
    }
    Ok(())
}
