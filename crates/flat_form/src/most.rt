//! The most gotos and labels that a flat form can have, told without making it.

ghost use Rattle.std.specs.Prelude.{◌≡◌, ◌+◌, ◌≤◌, None, Some, cond, length, IfOk, IfNone, IfSome, IsSomeAnd, OnOk};
ghost use Rattle.c_tree.specs.Everywhere.{total, total_of, total_in};
ghost use Rattle.c_tree.specs.declared.tree.Section.{out-Section};
ghost use Rattle.c_tree.specs.Trees.{trees_of, sections_of};
ghost use Rattle.c_tree.specs.Views.{tree_at};
ghost use Rattle.flat_laws.specs.Parts.{has_jumps as jumps};
ghost use Rattle.c_resolved_laws.specs.Bounds.{entries, most_gotos, most_labels};
ghost use Rattle.c_resolved_laws.specs.Counts.{section_ends, flat_counts as the_flat_counts};

use crate::sums::{add as add_to, one_if};
use c_tree::{Item, Section};
use c_types::{List, Memory};
use flat_questions::has_jumps;

/// Gotos and labels, counted apart.
#[derive(Drop)]
struct Most {
    gotos: u64,
    labels: u64,
}

fn add(most: &mut Most, gotos: u64, labels: u64) -> Result<(), Memory>
    ensures gotos { OnOk result (most.new.gotos ≡ most.old.gotos + gotos) }
    ensures labels { OnOk result (most.new.labels ≡ most.old.labels + labels) }
{
    add_to(&mut most.gotos, gotos)?;
    add_to(&mut most.labels, labels)
}

#[cycle(most)]
fn add_list(list: &List<Item>, most: &mut Most) -> Result<(), Memory>
    ensures gotos { OnOk result (most.new.gotos ≡ most.old.gotos + total most_gotos (trees_of list.now)) }
    ensures labels { OnOk result (most.new.labels ≡ most.old.labels + total most_labels (trees_of list.now)) }
{
    add_items(list.as_slice(), most)
}

#[cycle(most)]
fn add_items(items: &[Item], most: &mut Most) -> Result<(), Memory>
    ensures gotos { OnOk result (most.new.gotos ≡ most.old.gotos + total most_gotos (trees_of items.now)) }
    ensures labels { OnOk result (most.new.labels ≡ most.old.labels + total most_labels (trees_of items.now)) }
{
    for i in 0..items.len() {
        add_item(&items[i], most)?;
    }
    Ok(())
}

#[cycle(most)]
fn add_item(item: &Item, most: &mut Most) -> Result<(), Memory>
    ensures gotos { OnOk result (most.new.gotos ≡ most.old.gotos + total_of most_gotos (tree_at item.now)) }
    ensures labels { OnOk result (most.new.labels ≡ most.old.labels + total_of most_labels (tree_at item.now)) }
{
    match item {
        Item::If(_, a, b) => {
            add_list(a, most)?;
            add_list(b, most)
        }
        Item::While(_, a) => add_loop(a, most),
        Item::Do(a, _) => add_loop(a, most),
        Item::For(first, _, _, a) => {
            add_list(first, most)?;
            add_loop(a, most)
        }
        Item::Block(a) => add_list(a, most),
        Item::Switch(_, sections) => {
            add(most, 1, 1)?;
            add_sections(sections.as_slice(), most)
        }
        Item::Break => add(most, 1, 0),
        Item::Continue => add(most, 1, 0),
        Item::Goto(_) => add(most, 1, 0),
        Item::Mark(_) => add(most, 0, 1),
        Item::Arrival(_) => add(most, 1, 1),
        _ => Ok(()),
    }
}

/// Adds a loop with this body.
#[cycle(most)]
fn add_loop(body: &List<Item>, most: &mut Most) -> Result<(), Memory>
    ensures gotos { OnOk result (most.new.gotos ≡ most.old.gotos + total most_gotos (trees_of body.now)) }
    ensures labels { OnOk result (most.new.labels ≡ most.old.labels + (2 + total most_labels (trees_of body.now))) }
{
    add(most, 0, 2)?;
    add_list(body, most)
}

#[cycle(most)]
fn add_sections(sections: &[Section], most: &mut Most) -> Result<(), Memory>
    ensures gotos { OnOk result (most.new.gotos ≡ most.old.gotos + (entries (sections_of sections.now) + section_ends (sections_of sections.now) + total_in most_gotos (sections_of sections.now))) }
    ensures labels { OnOk result (most.new.labels ≡ most.old.labels + (entries (sections_of sections.now) + total_in most_labels (sections_of sections.now))) }
{
    for i in 0..sections.len() {
        let section = &sections[i];
        add_entries(section, most)?;
        add_list(&section.list, most)?;
    }
    Ok(())
}

/// Adds the labels of a section itself and its end.
fn add_entries(section: &Section, most: &mut Most) -> Result<(), Memory>
    ensures gotos { OnOk result (most.new.gotos ≡ most.old.gotos + (length (out-Section section.now).cases + cond (out-Section section.now).default 1 0 + cond (out-Section section.now).ends 1 0)) }
    ensures labels { OnOk result (most.new.labels ≡ most.old.labels + (length (out-Section section.now).cases + cond (out-Section section.now).default 1 0)) }
{
    let cases = section.cases.len() as u64;
    let default = one_if(section.default);
    add(most, cases, cases)?;
    add(most, default, default)?;
    add(most, one_if(section.ends), 0)
}

/// The most gotos and labels that the flat form of a function with this body can have, told without
/// making it: what its items give at most, added up. `None` where it has no jumps. Want of memory is the
/// only failure; more than `u64` holds count as that.
pub fn most_counts(body: &List<Item>) -> Result<Option<(u64, u64)>, Memory>
    ensures value { IfOk result (λ most. most ≡ cond (jumps (trees_of body.now)) (Some (total most_gotos (trees_of body.now), total most_labels (trees_of body.now))) None) }
    ensures none { IfOk result (λ most. IfNone most (the_flat_counts (trees_of body.now) ≡ None)) }
    ensures some { IfOk result (λ most. IfSome most (λ m. IsSomeAnd (the_flat_counts (trees_of body.now)) (λ n. n.0 ≤ m.0 × n.1 ≤ m.1))) }
{
    if has_jumps(body) {
        let mut most = Most {
            gotos: 0,
            labels: 0,
        };
        add_list(body, &mut most)?;
        Ok(Some((most.gotos, most.labels)))
    } else {
        Ok(None)
    }
}
