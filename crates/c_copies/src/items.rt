ghost use Rattle.std.specs.Prelude.{◌≡◌, IfOk};

use crate::expressions::{copy_expression, copy_expressions, copy_given, copy_option, copy_part};
use c_tree::{Expression, Item, Section, Selector, Test};
use c_types::{Boxed, List, Memory};
use std::alloc::Global;

fn copy_test(alloc: Global, test: &Test) -> Result<Test, Memory>
    ensures { IfOk result (λ it. it ≡ test.now) }
{
    match test {
        Test::Source(e) => Ok(Test::Source(copy_expression(alloc, e)?)),
        Test::On(at) => Ok(Test::On(*at)),
        Test::Off(at) => Ok(Test::Off(*at)),
        Test::AndOff(at, rest) => {
            let rest = copy_test(alloc, rest.get())?;
            Ok(Test::AndOff(*at, Boxed::new(alloc, rest)?))
        }
        Test::OrOn(at, rest) => {
            let rest = copy_test(alloc, rest.get())?;
            Ok(Test::OrOn(*at, Boxed::new(alloc, rest)?))
        }
    }
}

fn copy_selector(alloc: Global, selector: &Selector) -> Result<Selector, Memory>
    ensures { IfOk result (λ it. it ≡ selector.now) }
{
    match selector {
        Selector::Source(e) => Ok(Selector::Source(copy_expression(alloc, e)?)),
        Selector::Pick(at, k, rest) => {
            let rest = copy_selector(alloc, rest.get())?;
            Ok(Selector::Pick(*at, *k, Boxed::new(alloc, rest)?))
        }
    }
}

/// An equal list of items. Want of memory is the only failure.
#[cycle(copy_items)]
pub fn copy_items(alloc: Global, list: &List<Item>) -> Result<List<Item>, Memory>
    ensures { IfOk result (λ it. it ≡ list.now) }
{
    copy_slice(alloc, list.as_slice())
}

#[cycle(copy_items)]
fn copy_slice(alloc: Global, items: &[Item]) -> Result<List<Item>, Memory>
    ensures { IfOk result (λ it. it ≡ items.now) }
{
    let mut out = List::new(alloc);
    for item in items {
        out.push(copy_item(alloc, item)?)?;
    }
    Ok(out)
}

#[cycle(copy_items)]
fn copy_sections(alloc: Global, items: &[Section]) -> Result<List<Section>, Memory>
    ensures { IfOk result (λ it. it ≡ items.now) }
{
    let mut out = List::new(alloc);
    for item in items {
        out.push(copy_section(alloc, item)?)?;
    }
    Ok(out)
}

#[cycle(copy_items)]
fn copy_section(alloc: Global, section: &Section) -> Result<Section, Memory>
    ensures { IfOk result (λ it. it ≡ section.now) }
{
    let cases = copy_expressions(alloc, section.cases.as_slice())?;
    let list = copy_items(alloc, &section.list)?;
    Ok(Section {
        cases,
        default: section.default,
        list,
        ends: section.ends,
    })
}

/// An equal item. Want of memory is the only failure.
#[cycle(copy_items)]
pub fn copy_item(alloc: Global, item: &Item) -> Result<Item, Memory>
    ensures { IfOk result (λ it. it ≡ item.now) }
{
    match item {
        Item::Evaluate(e) => Ok(Item::Evaluate(copy_expression(alloc, e)?)),
        Item::Return(e) => Ok(Item::Return(copy_option(alloc, e)?)),
        Item::If(test, a, b) => {
            let a = copy_items(alloc, a)?;
            let b = copy_items(alloc, b)?;
            make_if(alloc, test, a, b)
        }
        Item::While(test, a) => {
            let a = copy_items(alloc, a)?;
            make_while(alloc, test, a)
        }
        Item::Do(a, test) => {
            let a = copy_items(alloc, a)?;
            make_do(alloc, a, test)
        }
        Item::For(first, test, third, a) => {
            let first = copy_items(alloc, first)?;
            let a = copy_items(alloc, a)?;
            make_for(alloc, first, test, third, a)
        }
        Item::Switch(selector, sections) => {
            let sections = copy_sections(alloc, sections.as_slice())?;
            make_switch(alloc, selector, sections)
        }
        Item::Block(a) => Ok(Item::Block(copy_items(alloc, a)?)),
        Item::Local(at, e) => Ok(Item::Local(*at, copy_given(alloc, e)?)),
        Item::Break => Ok(Item::Break),
        Item::Continue => Ok(Item::Continue),
        Item::Goto(at) => Ok(Item::Goto(*at)),
        Item::Mark(at) => Ok(Item::Mark(*at)),
        Item::Arm(at, e) => Ok(Item::Arm(*at, copy_option(alloc, e)?)),
        Item::Leap(at) => Ok(Item::Leap(*at)),
        Item::Land(at) => Ok(Item::Land(*at)),
        Item::Arrival(e) => Ok(Item::Arrival(copy_option(alloc, e)?)),
        Item::Note(bytes) => Ok(Item::Note(List::from_slice(alloc, bytes.as_slice())?)),
    }
}

/// An `if` with a copy of the test and these lists. Want of memory is the only failure.
pub fn make_if(alloc: Global, test: &Test, a: List<Item>, b: List<Item>) -> Result<Item, Memory>
    ensures { IfOk result (λ it. it ≡ Item.If test.now a b) }
{
    let test = copy_test(alloc, test)?;
    Ok(Item::If(test, a, b))
}

/// A `while` with a copy of the test and this body. Want of memory is the only failure.
pub fn make_while(alloc: Global, test: &Test, a: List<Item>) -> Result<Item, Memory>
    ensures { IfOk result (λ it. it ≡ Item.While test.now a) }
{
    let test = copy_test(alloc, test)?;
    Ok(Item::While(test, a))
}

/// A `do` with this body and a copy of the test. Want of memory is the only failure.
pub fn make_do(alloc: Global, a: List<Item>, test: &Test) -> Result<Item, Memory>
    ensures { IfOk result (λ it. it ≡ Item.Do a test.now) }
{
    let test = copy_test(alloc, test)?;
    Ok(Item::Do(a, test))
}

/// A `for` with copies of the test and the third part, and these lists. Want of memory is the only
/// failure.
pub fn make_for(
    alloc: Global,
    first: List<Item>,
    test: &Option<Boxed<Expression>>,
    third: &Option<Boxed<Expression>>,
    a: List<Item>,
) -> Result<Item, Memory>
    ensures { IfOk result (λ it. it ≡ Item.For first test.now third.now a) }
{
    let test = copy_part(alloc, test)?;
    match copy_part(alloc, third) {
        Ok(third) => Ok(Item::For(first, test, third, a)),
        Err(e) => {
            drop(test);
            Err(e)
        }
    }
}

/// A `switch` with a copy of the selector and these sections. Want of memory is the only failure.
pub fn make_switch(
    alloc: Global,
    selector: &Selector,
    sections: List<Section>,
) -> Result<Item, Memory>
    ensures { IfOk result (λ it. it ≡ Item.Switch selector.now sections) }
{
    let selector = copy_selector(alloc, selector)?;
    Ok(Item::Switch(selector, sections))
}
