ghost use Rattle.std.specs.Prelude.{◌≡◌, ◌∷◌, [], not, option_map};
ghost use Rattle.c_tree.specs.ExpressionTrees.{expression_tree};
ghost use Rattle.c_tree.specs.TextItems.{is_empty};
ghost use Rattle.c_tree.specs.Trees.{trees_of, sections_of};
ghost use Rattle.flat_laws.specs.Parts.{arrivals, arrivals_in, is_scattered as the_is_scattered, switch_labels, has_default as the_has_default};
ghost use Rattle.flat_questions.specs.Reading.{default_in};
ghost use Rattle.c_tree.specs.Views.{tree_at};

use c_tree::{Expression, Item, Section};
use c_types::List;

/// Whether a case label or a default stands in a list that is bound to a switch around it.
#[cycle(arrival)]
pub fn has_arrival(list: &List<Item>) -> bool
    ensures { result ≡ not (is_empty (arrivals (trees_of list.now))) }
{
    items_have_arrival(list.as_slice())
}

#[cycle(arrival)]
fn items_have_arrival(items: &[Item]) -> bool
    ensures { result ≡ not (is_empty (arrivals (trees_of items.now))) }
{
    for i in 0..items.len() {
        if is_arrival_in(&items[i]) {
            return true;
        }
    }
    false
}

#[cycle(arrival)]
fn is_arrival_in(item: &Item) -> bool
    ensures { result ≡ not (is_empty (arrivals_in (tree_at item.now))) }
{
    match item {
        Item::If(_, a, b) => has_arrival(a) || has_arrival(b),
        Item::While(_, a) => has_arrival(a),
        Item::Do(a, _) => has_arrival(a),
        Item::For(_, _, _, a) => has_arrival(a),
        Item::Block(a) => has_arrival(a),
        Item::Arrival(_) => true,
        _ => false,
    }
}

/// Whether a switch of these sections has a case label or a default in a nested statement.
pub fn is_scattered(sections: &[Section]) -> bool
    ensures { result ≡ the_is_scattered (sections_of sections.now) }
{
    for i in 0..sections.len() {
        if has_arrival(&sections[i].list) {
            return true;
        }
    }
    false
}

/// Whether a default stands in a list that is bound to a switch around it.
#[cycle(nested_default)]
fn has_default(list: &List<Item>) -> bool
    ensures { result ≡ the_has_default (arrivals (trees_of list.now)) }
{
    items_have_default(list.as_slice())
}

#[cycle(nested_default)]
fn items_have_default(items: &[Item]) -> bool
    ensures { result ≡ the_has_default (arrivals (trees_of items.now)) }
{
    for i in 0..items.len() {
        if is_default_in(&items[i]) {
            return true;
        }
    }
    false
}

#[cycle(nested_default)]
fn is_default_in(item: &Item) -> bool
    ensures { result ≡ the_has_default (arrivals_in (tree_at item.now)) }
{
    match item {
        Item::If(_, a, b) => has_default(a) || has_default(b),
        Item::While(_, a) => has_default(a),
        Item::Do(a, _) => has_default(a),
        Item::For(_, _, _, a) => has_default(a),
        Item::Block(a) => has_default(a),
        Item::Arrival(case) => is_default(case),
        _ => false,
    }
}

fn is_default(case: &Option<Expression>) -> bool
    ensures { result ≡ the_has_default (option_map expression_tree case.now ∷ []) }
{
    case.is_none()
}

/// Whether a switch of these sections has a default, of a section or in a nested statement.
pub fn switch_has_default(sections: &[Section]) -> bool
    ensures { result ≡ the_has_default (switch_labels (sections_of sections.now)) }
{
    for i in 0..sections.len() {
        if section_has_default(&sections[i]) {
            return true;
        }
    }
    false
}

fn section_has_default(section: &Section) -> bool
    ensures { result ≡ default_in section.now }
{
    section.default || has_default(&section.list)
}
