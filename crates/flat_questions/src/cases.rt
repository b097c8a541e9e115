ghost use Rattle.std.specs.Prelude.{◌≡◌, ◌++◌, ◌∷◌, [], map, option_map, IfOk, OnOk};
ghost use Rattle.c_tree.specs.Cases.{case_number as the_case_number};
ghost use Rattle.c_tree.specs.ExpressionTrees.{expression_tree};
ghost use Rattle.c_tree.specs.Trees.{expression_trees, trees_of, sections_of};
ghost use Rattle.flat_laws.specs.Parts.{arrivals, arrivals_in, switch_labels, cases_among};
ghost use Rattle.c_tree.specs.Views.{tree_at};

use c_constants::constant_value;
use c_tree::{Expression, Item, Section};
use c_types::{IntKind, List, Memory, convert};
use std::alloc::Global;

/// The number of a case in the kind in which its switch compares, or `None` where it has none.
pub fn case_number(kind: IntKind, case: &Expression) -> Option<i128>
    ensures { result ≡ the_case_number kind (expression_tree case.now) }
{
    match constant_value(case) {
        Some(value) => Some(convert(kind, value)),
        None => None,
    }
}

/// The numbers of all cases of a switch of these sections in the kind, those of its sections and
/// nested ones, in text order. Want of memory is the only failure.
pub fn case_numbers(
    alloc: Global,
    kind: IntKind,
    sections: &[Section],
) -> Result<List<Option<i128>>, Memory>
    ensures { IfOk result (λ it. it ≡ map (the_case_number kind) (cases_among (switch_labels (sections_of sections.now)))) }
{
    let mut out = List::new(alloc);
    for i in 0..sections.len() {
        let section = &sections[i];
        add_cases(kind, section.cases.as_slice(), &mut out)?;
        add_list(kind, &section.list, &mut out)?;
    }
    Ok(out)
}

fn add_cases(
    kind: IntKind,
    cases: &[Expression],
    out: &mut List<Option<i128>>,
) -> Result<(), Memory>
    ensures { OnOk result (out.new ≡ out.old ++ map (the_case_number kind) (expression_trees cases.now)) }
{
    for i in 0..cases.len() {
        out.push(case_number(kind, &cases[i]))?;
    }
    Ok(())
}

fn add_arrival(
    kind: IntKind,
    case: &Option<Expression>,
    out: &mut List<Option<i128>>,
) -> Result<(), Memory>
    ensures { OnOk result (out.new ≡ out.old ++ map (the_case_number kind) (cases_among (option_map expression_tree case.now ∷ []))) }
{
    match case {
        Some(case) => out.push(case_number(kind, case)),
        None => Ok(()),
    }
}

#[cycle(numbering)]
fn add_list(kind: IntKind, list: &List<Item>, out: &mut List<Option<i128>>) -> Result<(), Memory>
    ensures { OnOk result (out.new ≡ out.old ++ map (the_case_number kind) (cases_among (arrivals (trees_of list.now)))) }
{
    add_items(kind, list.as_slice(), out)
}

#[cycle(numbering)]
fn add_items(kind: IntKind, items: &[Item], out: &mut List<Option<i128>>) -> Result<(), Memory>
    ensures { OnOk result (out.new ≡ out.old ++ map (the_case_number kind) (cases_among (arrivals (trees_of items.now)))) }
{
    for i in 0..items.len() {
        add_item(kind, &items[i], out)?;
    }
    Ok(())
}

#[cycle(numbering)]
fn add_item(kind: IntKind, item: &Item, out: &mut List<Option<i128>>) -> Result<(), Memory>
    ensures { OnOk result (out.new ≡ out.old ++ map (the_case_number kind) (cases_among (arrivals_in (tree_at item.now)))) }
{
    match item {
        Item::If(_, a, b) => {
            add_list(kind, a, out)?;
            add_list(kind, b, out)
        }
        Item::While(_, a) => add_list(kind, a, out),
        Item::Do(a, _) => add_list(kind, a, out),
        Item::For(_, _, _, a) => add_list(kind, a, out),
        Item::Block(a) => add_list(kind, a, out),
        Item::Arrival(case) => add_arrival(kind, case, out),
        _ => Ok(()),
    }
}
