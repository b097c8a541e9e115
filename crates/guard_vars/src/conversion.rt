ghost use Rattle.std.specs.Prelude.{◌≡◌, IfOk, OnOk, OnErr, ◌++◌, ◌∷◌, [], map, option_map, true};
ghost use Rattle.guard_vars.specs.Conversion.{converted, converted_list, converted_item, converted_section, items_of, jump, source, lone_jump, conditional_jump as the_conditional_jump, is_goto_free};
ghost use Rattle.c_tree.specs.Jumps.{body_holds};

use c_copies::{
    copy_expression, copy_expressions, copy_item, make_do, make_for, make_if, make_switch,
    make_while,
};
use c_tree::{Expression, Function, Item, Section, Test};
use c_types::{List, Memory};
use std::alloc::Global;
use std::mem;

/// The conversion of a flat function (docs/REWRITING): `goto L` becomes `Arm L`, `Leap L`, an
/// `if (c) goto L` without else becomes `Arm L c`, `Leap L`, and a label becomes a `Land`.
/// All else stays. The body is made anew beside the old one, so that after `Memory` the function is
/// as it was.
#[tactic(auto, using(crate::proofs::GotoFree::converted_list_free))]
pub fn convert(alloc: Global, function: &mut Function) -> Result<(), Memory>
    ensures ok { OnOk result (function.new ≡ converted function.old) }
    ensures goto_free { OnOk result (body_holds is_goto_free function.new.body ≡ true) }
    ensures err { OnErr result (function.new ≡ function.old) }
{
    let body = convert_body(alloc, &function.body)?;
    drop(mem::replace(&mut function.body, body));
    Ok(())
}

fn convert_body(alloc: Global, body: &Option<List<Item>>) -> Result<Option<List<Item>>, Memory>
    ensures { IfOk result (λ it. it ≡ option_map converted_list body.now) }
{
    match body {
        Some(body) => Ok(Some(convert_list(alloc, body)?)),
        None => Ok(None),
    }
}

#[cycle(convert_list)]
fn convert_list(alloc: Global, list: &List<Item>) -> Result<List<Item>, Memory>
    ensures { IfOk result (λ it. it ≡ converted_list list.now) }
{
    convert_slice(alloc, list.as_slice())
}

#[cycle(convert_list)]
fn convert_slice(alloc: Global, items: &[Item]) -> Result<List<Item>, Memory>
    ensures { IfOk result (λ it. it ≡ converted_list items.now) }
{
    let mut out = List::from_vec(Vec::with_capacity(alloc, room(items))?);
    for item in items {
        convert_item(alloc, item, &mut out)?;
    }
    Ok(out)
}

/// How many items these become. Only the room of a list hangs on it.
fn room(items: &[Item]) -> usize {
    let mut count = items.len();
    for item in items {
        if is_jump(item) {
            count = count.saturating_add(1);
        }
    }
    count
}

/// Whether an item becomes an `Arm` and a `Leap`.
fn is_jump(item: &Item) -> bool {
    match item {
        Item::Goto(_) => true,
        Item::If(test, a, b) => conditional_jump(test, a, b).is_some(),
        _ => false,
    }
}

#[cycle(convert_list)]
fn convert_sections(alloc: Global, sections: &[Section]) -> Result<List<Section>, Memory>
    ensures { IfOk result (λ it. it ≡ map converted_section sections.now) }
{
    let mut out = List::new(alloc);
    for section in sections {
        out.push(convert_section(alloc, section)?)?;
    }
    Ok(out)
}

#[cycle(convert_list)]
fn convert_section(alloc: Global, section: &Section) -> Result<Section, Memory>
    ensures { IfOk result (λ it. it ≡ converted_section section.now) }
{
    let cases = copy_expressions(alloc, section.cases.as_slice())?;
    let list = convert_list(alloc, &section.list)?;
    Ok(Section {
        cases,
        default: section.default,
        list,
        ends: section.ends,
    })
}

fn add_jump(out: &mut List<Item>, label: u32, condition: Option<Expression>) -> Result<(), Memory>
    ensures { OnOk result (out.new ≡ out.old ++ jump label condition) }
{
    out.push(Item::Arm(label, condition))?;
    out.push(Item::Leap(label))
}

fn add_conditional_jump(
    alloc: Global,
    test: &Test,
    label: u32,
    out: &mut List<Item>,
) -> Result<(), Memory>
    ensures { OnOk result (out.new ≡ out.old ++ jump label (source test.now)) }
{
    match test {
        Test::Source(condition) => {
            let condition = copy_expression(alloc, condition)?;
            add_jump(out, label, Some(condition))
        }
        _ => add_jump(out, label, None),
    }
}

fn add_land(out: &mut List<Item>, label: u32) -> Result<(), Memory>
    ensures { OnOk result (out.new ≡ out.old ++ Item.Land label ∷ []) }
{
    out.push(Item::Land(label))
}

fn goto_label(item: &Item) -> Option<u32>
    ensures { result ≡ lone_jump (converted_item item.now ∷ []) }
{
    match item {
        Item::Goto(label) => Some(*label),
        _ => None,
    }
}

fn lone_goto(list: &List<Item>) -> Option<u32>
    ensures { result ≡ lone_jump (map converted_item list.now) }
{
    match list.as_slice() {
        [item] => goto_label(item),
        _ => None,
    }
}

fn conditional_jump(test: &Test, a: &List<Item>, b: &List<Item>) -> Option<u32>
    ensures { result ≡ the_conditional_jump test.now (map converted_item a.now) (map converted_item b.now) }
{
    match (test, b.as_slice()) {
        (Test::Source(_), []) => lone_goto(a),
        _ => None,
    }
}

#[cycle(convert_list)]
fn convert_item(alloc: Global, item: &Item, out: &mut List<Item>) -> Result<(), Memory>
    ensures { OnOk result (out.new ≡ out.old ++ items_of (converted_item item.now)) }
{
    match item {
        Item::Goto(label) => add_jump(out, *label, None),
        Item::Mark(label) => add_land(out, *label),
        Item::If(test, a, b) => match conditional_jump(test, a, b) {
            Some(label) => add_conditional_jump(alloc, test, label, out),
            None => {
                let a = convert_list(alloc, a)?;
                let b = convert_list(alloc, b)?;
                out.push(make_if(alloc, test, a, b)?)
            }
        },
        Item::While(test, a) => {
            let a = convert_list(alloc, a)?;
            out.push(make_while(alloc, test, a)?)
        }
        Item::Do(a, test) => {
            let a = convert_list(alloc, a)?;
            out.push(make_do(alloc, a, test)?)
        }
        Item::For(first, test, third, a) => {
            let first = convert_list(alloc, first)?;
            let a = convert_list(alloc, a)?;
            out.push(make_for(alloc, first, test, third, a)?)
        }
        Item::Switch(selector, sections) => {
            let sections = convert_sections(alloc, sections.as_slice())?;
            out.push(make_switch(alloc, selector, sections)?)
        }
        Item::Block(a) => {
            let a = convert_list(alloc, a)?;
            out.push(Item::Block(a))
        }
        // Any other item stays as it is.
        _ => out.push(copy_item(alloc, item)?),
    }
}
