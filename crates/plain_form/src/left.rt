//! The guards that are left in a body.

ghost use Rattle.std.specs.Prelude.{◌≡◌, ◌≤◌, ◌++◌, ◌∷◌, [], cond, length, IfOk, OnOk};
ghost use Rattle.plain_laws.specs.Plain.{labels_left, names_left};
ghost use Rattle.plain_form.specs.Marks.{unmarked, mark as the_mark, test_marked, selector_marked, item_marked, section_marked, items_marked, sections_marked, marks_of as the_marks_of, places_marked as the_places_marked, names_marked as the_names_marked};

use c_tree::{Item, Section, Selector, Test};
use c_types::{List, Memory, Name};
use std::alloc::Global;

fn mark(marks: &mut List<bool>, label: u32)
    ensures { marks.new ≡ the_mark label marks.old }
{
    let at = label as usize;
    if at < marks.len() {
        marks.set(at, true);
    }
}

fn mark_test(marks: &mut List<bool>, test: &Test)
    ensures { marks.new ≡ test_marked test.now marks.old }
{
    match test {
        Test::Source(_) => {}
        Test::On(label) => mark(marks, *label),
        Test::Off(label) => mark(marks, *label),
        Test::AndOff(label, rest) => {
            mark(marks, *label);
            mark_test(marks, rest.get())
        }
        Test::OrOn(label, rest) => {
            mark(marks, *label);
            mark_test(marks, rest.get())
        }
    }
}

fn mark_selector(marks: &mut List<bool>, selector: &Selector)
    ensures { marks.new ≡ selector_marked selector.now marks.old }
{
    match selector {
        Selector::Source(_) => {}
        Selector::Pick(label, _, rest) => {
            mark(marks, *label);
            mark_selector(marks, rest.get())
        }
    }
}

#[cycle(mark_items)]
fn mark_item(marks: &mut List<bool>, item: &Item)
    ensures { marks.new ≡ item_marked item.now marks.old }
{
    match item {
        Item::If(test, a, b) => {
            mark_test(marks, test);
            mark_items(marks, a.as_slice());
            mark_items(marks, b.as_slice())
        }
        Item::While(test, a) => {
            mark_test(marks, test);
            mark_items(marks, a.as_slice())
        }
        Item::Do(a, test) => {
            mark_test(marks, test);
            mark_items(marks, a.as_slice())
        }
        Item::For(first, _, _, a) => {
            mark_items(marks, first.as_slice());
            mark_items(marks, a.as_slice())
        }
        Item::Switch(selector, sections) => {
            mark_selector(marks, selector);
            mark_sections(marks, sections.as_slice())
        }
        Item::Block(a) => mark_items(marks, a.as_slice()),
        Item::Arm(label, _) => mark(marks, *label),
        Item::Land(label) => mark(marks, *label),
        _ => {}
    }
}

#[cycle(mark_items)]
fn mark_items(marks: &mut List<bool>, items: &[Item])
    ensures { marks.new ≡ items_marked items.now marks.old }
{
    for i in 0..items.len() {
        mark_item(marks, &items[i]);
    }
}

#[cycle(mark_items)]
fn mark_section(marks: &mut List<bool>, section: &Section)
    ensures { marks.new ≡ section_marked section.now marks.old }
{
    mark_items(marks, section.list.as_slice())
}

#[cycle(mark_items)]
fn mark_sections(marks: &mut List<bool>, sections: &[Section])
    ensures { marks.new ≡ sections_marked sections.now marks.old }
{
    for i in 0..sections.len() {
        mark_section(marks, &sections[i]);
    }
}

fn no_marks(alloc: Global, count: usize) -> Result<List<bool>, Memory>
    ensures { IfOk result (λ it. it ≡ unmarked count) }
{
    let mut marks = List::new(alloc);
    for i in 0..count {
        marks.push(false)?;
    }
    Ok(marks)
}

/// For each of so many labels whether its guard stands in the body.
fn marks_of(alloc: Global, body: &List<Item>, count: usize) -> Result<List<bool>, Memory>
    ensures { IfOk result (λ it. it ≡ the_marks_of body.now count) }
{
    let mut marks = no_marks(alloc, count)?;
    mark_items(&mut marks, body.as_slice());
    Ok(marks)
}

/// The places of the marks that are set.
fn places_marked(alloc: Global, marks: &List<bool>) -> Result<List<u32>, Memory>
    ensures { IfOk result (λ it. it ≡ the_places_marked 0 marks.now) }
{
    let mut out = List::new(alloc);
    let marks = marks.as_slice();
    for i in 0..marks.len() {
        if marks[i] {
            out.push(i as u32)?;
        }
    }
    Ok(out)
}

fn push_if(out: &mut List<Name>, marked: bool, name: Name) -> Result<(), Memory>
    ensures { OnOk result (out.new ≡ out.old ++ cond marked (name ∷ []) []) }
{
    if marked { out.push(name) } else { Ok(()) }
}

/// Of names, one for each mark, those whose marks are set.
fn names_marked(alloc: Global, names: List<Name>, marks: &List<bool>) -> Result<List<Name>, Memory>
    requires { length names ≤ length marks.now }
    ensures { IfOk result (λ it. it ≡ the_names_marked names marks.now) }
{
    let mut out = List::new(alloc);
    let marks = marks.as_slice();
    let mut at = 0;
    for name in names.into_vec() {
        push_if(&mut out, marks[at], name)?;
        at += 1;
    }
    Ok(out)
}

/// The guards that are left in a body: their labels, which rise, and their names.
#[derive(Drop)]
pub struct Left {
    pub labels: List<u32>,
    pub names: List<Name>,
}

/// The guards that are left in the body, of a function with one of these names for each label.
pub fn guards_left(alloc: Global, body: &List<Item>, names: List<Name>) -> Result<Left, Memory>
    ensures labels { IfOk result (λ it. it.labels ≡ labels_left body.now 0 names) }
    ensures names { IfOk result (λ it. it.names ≡ names_left body.now 0 names) }
{
    let marks = marks_of(alloc, body, names.len())?;
    let labels = places_marked(alloc, &marks)?;
    let names = names_marked(alloc, names, &marks)?;
    Ok(Left { labels, names })
}
