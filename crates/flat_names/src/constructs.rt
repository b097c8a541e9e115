ghost use Rattle.std.specs.Prelude.{◌≡◌, ◌++◌, ◌∷◌, length, IfOk, OnOk};
ghost use Rattle.c_tree.specs.TestTrees.{selector_tree};
ghost use Rattle.c_tree.specs.Trees.{trees_of, sections_of};
ghost use Rattle.jump_meaning.specs.Step.{switch_kind as the_switch_kind};
ghost use Rattle.flat_laws.specs.Parts.{switch_labels, cases_among, has_default, leaves as the_leaves};
ghost use Rattle.flat_names.specs.FlatNames.{switch_construct as the_switch_construct, constructs as the_constructs, constructs_in, constructs_among};
ghost use Rattle.c_tree.specs.Views.{tree_at};

use c_tree::{Item, Section, Selector};
use c_types::{IntKind, List, Memory};
use flat_questions::{case_numbers, is_scattered, leaves, switch_has_default, switch_kind};
use std::alloc::Global;

/// A loop or switch, as far as names go.
#[derive(Clone, Copy)]
pub enum Construct {
    /// One that stays.
    Stays,
    /// A scattered switch: the kind of its variable, how many cases it has, whether it has a default,
    /// and whether a goto leads behind it.
    Scattered(IntKind, usize, bool, bool),
}

/// The loops and switches of a body, in text order. Want of memory is the only failure.
pub fn constructs(alloc: Global, body: &List<Item>) -> Result<List<Construct>, Memory>
    ensures { IfOk result (λ it. it ≡ the_constructs (trees_of body.now)) }
{
    let mut out = List::new(alloc);
    add_list(alloc, body, &mut out)?;
    Ok(out)
}

fn case_count(alloc: Global, kind: IntKind, sections: &[Section]) -> Result<usize, Memory>
    ensures { IfOk result (λ it. it ≡ length (cases_among (switch_labels (sections_of sections.now)))) }
{
    let numbers = case_numbers(alloc, kind, sections)?;
    Ok(numbers.len())
}

fn scattered(alloc: Global, selector: &Selector, sections: &[Section]) -> Result<Construct, Memory>
    ensures { IfOk result (λ it. it ≡ Construct.Scattered (the_switch_kind (selector_tree selector.now)) (length (cases_among (switch_labels (sections_of sections.now)))) (has_default (switch_labels (sections_of sections.now))) (the_leaves (sections_of sections.now))) }
{
    let kind = switch_kind(selector);
    let count = case_count(alloc, kind, sections)?;
    Ok(Construct::Scattered(kind, count, switch_has_default(sections), leaves(sections)))
}

fn switch_construct(
    alloc: Global,
    selector: &Selector,
    sections: &[Section],
) -> Result<Construct, Memory>
    ensures { IfOk result (λ it. it ≡ the_switch_construct (selector_tree selector.now) (sections_of sections.now)) }
{
    if is_scattered(sections) {
        scattered(alloc, selector, sections)
    } else {
        Ok(Construct::Stays)
    }
}

#[cycle(listing)]
fn add_list(alloc: Global, list: &List<Item>, out: &mut List<Construct>) -> Result<(), Memory>
    ensures { OnOk result (out.new ≡ out.old ++ the_constructs (trees_of list.now)) }
{
    add_items(alloc, list.as_slice(), out)
}

#[cycle(listing)]
fn add_items(alloc: Global, items: &[Item], out: &mut List<Construct>) -> Result<(), Memory>
    ensures { OnOk result (out.new ≡ out.old ++ the_constructs (trees_of items.now)) }
{
    for i in 0..items.len() {
        add_item(alloc, &items[i], out)?;
    }
    Ok(())
}

#[cycle(listing)]
fn add_loop(alloc: Global, a: &List<Item>, out: &mut List<Construct>) -> Result<(), Memory>
    ensures { OnOk result (out.new ≡ out.old ++ Construct.Stays ∷ the_constructs (trees_of a.now)) }
{
    out.push(Construct::Stays)?;
    add_list(alloc, a, out)
}

#[cycle(listing)]
fn add_item(alloc: Global, item: &Item, out: &mut List<Construct>) -> Result<(), Memory>
    ensures { OnOk result (out.new ≡ out.old ++ constructs_in (tree_at item.now)) }
{
    match item {
        Item::If(_, a, b) => {
            add_list(alloc, a, out)?;
            add_list(alloc, b, out)
        }
        Item::While(_, a) => add_loop(alloc, a, out),
        Item::Do(a, _) => add_loop(alloc, a, out),
        Item::For(first, _, _, a) => {
            add_loop(alloc, first, out)?;
            add_list(alloc, a, out)
        }
        Item::Block(a) => add_list(alloc, a, out),
        Item::Switch(selector, sections) => add_switch(alloc, sections, selector, out),
        _ => Ok(()),
    }
}

#[cycle(listing)]
fn add_switch(
    alloc: Global,
    sections: &List<Section>,
    selector: &Selector,
    out: &mut List<Construct>,
) -> Result<(), Memory>
    ensures { OnOk result (out.new ≡ out.old ++ the_switch_construct (selector_tree selector.now) (sections_of sections.now) ∷ constructs_among (sections_of sections.now)) }
{
    let parts = sections.as_slice();
    let construct = switch_construct(alloc, selector, parts)?;
    out.push(construct)?;
    add_sections(alloc, parts, out)
}

#[cycle(listing)]
fn add_sections(
    alloc: Global,
    sections: &[Section],
    out: &mut List<Construct>,
) -> Result<(), Memory>
    ensures { OnOk result (out.new ≡ out.old ++ constructs_among (sections_of sections.now)) }
{
    for i in 0..sections.len() {
        add_list(alloc, &sections[i].list, out)?;
    }
    Ok(())
}
