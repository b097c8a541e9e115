#![tactic(auto, using(crate::proofs::NameLemmas::with_names_append))]

ghost use Rattle.std.specs.Prelude.{◌≡◌, ℕ, List, [], ◌∷◌, IfOk, OnOk};
ghost use Rattle.std.specs.List.Sorted.{IsStrictlySortedBy};
ghost use Rattle.c_types.specs.Words.{name_cmp};
ghost use Rattle.c_copies.specs.Names.{has_name, all_names, all_file_names, with_names, given_name, home_names, expression_names, node_names, place_names, expressions_names, option_names, given_names, test_names, selector_names, item_names, section_names, items_names, sections_names, body_names, slots_names, function_names, enum_names, enums_names, global_names, top_names, tops_names, top_name, names as the_names, file_names as the_file_names, enum_name, enums_name, tops_name};

use crate::gathered::GatheredNames;
use c_tree::{
    EnumItem, Expression, Function, GlobalVariable, Home, Item, Node, Place, Program, Section,
    Selector, Slot, Test, Top,
};
use c_types::{Boxed, List, Memory, Name};
use std::alloc::Global;

fn add_name<'a>(set: &mut GatheredNames<'a>, name: &'a Name) -> Result<(), Memory>
    ensures { OnOk result (set.new ≡ with_names set.old (name.now ∷ [])) }
{
    set.add(name.as_str())
}

fn add_given_name<'a>(set: &mut GatheredNames<'a>, name: &'a Name) -> Result<(), Memory>
    ensures { OnOk result (set.new ≡ with_names set.old (given_name name.now)) }
{
    if name.as_str().is_empty() {
        Ok(())
    } else {
        set.add(name.as_str())
    }
}

fn add_names<'a>(set: &mut GatheredNames<'a>, names: &'a [Name]) -> Result<(), Memory>
    ensures { OnOk result (set.new ≡ with_names set.old names.now) }
{
    for name in names {
        set.add(name.as_str())?;
    }
    Ok(())
}

fn add_home<'a>(set: &mut GatheredNames<'a>, home: &'a Home) -> Result<(), Memory>
    ensures { OnOk result (set.new ≡ with_names set.old (home_names home.now)) }
{
    match home {
        Home::Global(name) => add_name(set, name),
        Home::Slot(_) => Ok(()),
    }
}

#[cycle(add_expression)]
fn add_expression<'a>(set: &mut GatheredNames<'a>, e: &'a Expression) -> Result<(), Memory>
    ensures { OnOk result (set.new ≡ with_names set.old (expression_names e.now)) }
{
    add_node(set, &e.node)
}

#[cycle(add_expression)]
fn add_place<'a>(set: &mut GatheredNames<'a>, place: &'a Place) -> Result<(), Memory>
    ensures { OnOk result (set.new ≡ with_names set.old (place_names place.now)) }
{
    match place {
        Place::Var(home) => add_home(set, home),
        Place::Cell(home, at) => {
            add_home(set, home)?;
            add_expression(set, at.get())
        }
    }
}

#[cycle(add_expression)]
fn add_node<'a>(set: &mut GatheredNames<'a>, node: &'a Node) -> Result<(), Memory>
    ensures { OnOk result (set.new ≡ with_names set.old (node_names node.now)) }
{
    match node {
        Node::Number(_) => Ok(()),
        Node::Character(_) => Ok(()),
        Node::EnumName(name, _) => add_name(set, name),
        Node::Text(_) => Ok(()),
        Node::Array(home) => add_home(set, home),
        Node::Read(place) => add_place(set, place),
        Node::Unary(_, a) => add_expression(set, a.get()),
        Node::Cast(a) => add_expression(set, a.get()),
        Node::Binary(_, a, b) => {
            add_expression(set, a.get())?;
            add_expression(set, b.get())
        }
        Node::Conditional(a, b, c) => {
            add_expression(set, a.get())?;
            add_expression(set, b.get())?;
            add_expression(set, c.get())
        }
        Node::Assign(place, a) => {
            add_place(set, place)?;
            add_expression(set, a.get())
        }
        Node::Update(_, place, a) => {
            add_place(set, place)?;
            add_expression(set, a.get())
        }
        Node::Count(place, _, _) => add_place(set, place),
        Node::Comma(a, b) => {
            add_expression(set, a.get())?;
            add_expression(set, b.get())
        }
        Node::Call(name, args) => {
            add_name(set, name)?;
            add_expressions(set, args.as_slice())
        }
    }
}

#[cycle(add_expression)]
fn add_expressions<'a>(set: &mut GatheredNames<'a>, items: &'a [Expression]) -> Result<(), Memory>
    ensures { OnOk result (set.new ≡ with_names set.old (expressions_names items.now)) }
{
    for i in 0..items.len() {
        add_expression(set, &items[i])?;
    }
    Ok(())
}

fn add_option<'a>(set: &mut GatheredNames<'a>, e: &'a Option<Expression>) -> Result<(), Memory>
    ensures { OnOk result (set.new ≡ with_names set.old (option_names e.now)) }
{
    match e {
        Some(e) => add_expression(set, e),
        None => Ok(()),
    }
}

fn add_part<'a>(set: &mut GatheredNames<'a>, e: &'a Option<Boxed<Expression>>) -> Result<(), Memory>
    ensures { OnOk result (set.new ≡ with_names set.old (option_names e.now)) }
{
    match e {
        Some(e) => add_expression(set, e.get()),
        None => Ok(()),
    }
}

fn add_given<'a>(set: &mut GatheredNames<'a>, e: &'a Option<List<Expression>>) -> Result<(), Memory>
    ensures { OnOk result (set.new ≡ with_names set.old (given_names e.now)) }
{
    match e {
        Some(e) => add_expressions(set, e.as_slice()),
        None => Ok(()),
    }
}

fn add_test<'a>(set: &mut GatheredNames<'a>, test: &'a Test) -> Result<(), Memory>
    ensures { OnOk result (set.new ≡ with_names set.old (test_names test.now)) }
{
    match test {
        Test::Source(e) => add_expression(set, e),
        Test::On(_) => Ok(()),
        Test::Off(_) => Ok(()),
        Test::AndOff(_, rest) => add_test(set, rest.get()),
        Test::OrOn(_, rest) => add_test(set, rest.get()),
    }
}

fn add_selector<'a>(set: &mut GatheredNames<'a>, selector: &'a Selector) -> Result<(), Memory>
    ensures { OnOk result (set.new ≡ with_names set.old (selector_names selector.now)) }
{
    match selector {
        Selector::Source(e) => add_expression(set, e),
        Selector::Pick(_, _, rest) => add_selector(set, rest.get()),
    }
}

#[cycle(add_items)]
fn add_items<'a>(set: &mut GatheredNames<'a>, items: &'a [Item]) -> Result<(), Memory>
    ensures { OnOk result (set.new ≡ with_names set.old (items_names items.now)) }
{
    for i in 0..items.len() {
        add_item(set, &items[i])?;
    }
    Ok(())
}

#[cycle(add_items)]
fn add_sections<'a>(set: &mut GatheredNames<'a>, sections: &'a [Section]) -> Result<(), Memory>
    ensures { OnOk result (set.new ≡ with_names set.old (sections_names sections.now)) }
{
    for i in 0..sections.len() {
        add_section(set, &sections[i])?;
    }
    Ok(())
}

#[cycle(add_items)]
fn add_section<'a>(set: &mut GatheredNames<'a>, section: &'a Section) -> Result<(), Memory>
    ensures { OnOk result (set.new ≡ with_names set.old (section_names section.now)) }
{
    add_expressions(set, section.cases.as_slice())?;
    add_items(set, section.list.as_slice())
}

#[cycle(add_items)]
fn add_item<'a>(set: &mut GatheredNames<'a>, item: &'a Item) -> Result<(), Memory>
    ensures { OnOk result (set.new ≡ with_names set.old (item_names item.now)) }
{
    match item {
        Item::Evaluate(e) => add_expression(set, e),
        Item::Return(e) => add_option(set, e),
        Item::If(test, a, b) => {
            add_test(set, test)?;
            add_items(set, a.as_slice())?;
            add_items(set, b.as_slice())
        }
        Item::While(test, a) => {
            add_test(set, test)?;
            add_items(set, a.as_slice())
        }
        Item::Do(a, test) => {
            add_items(set, a.as_slice())?;
            add_test(set, test)
        }
        Item::For(first, test, third, a) => {
            add_items(set, first.as_slice())?;
            add_part(set, test)?;
            add_part(set, third)?;
            add_items(set, a.as_slice())
        }
        Item::Switch(selector, sections) => {
            add_selector(set, selector)?;
            add_sections(set, sections.as_slice())
        }
        Item::Block(a) => add_items(set, a.as_slice()),
        Item::Local(_, e) => add_given(set, e),
        Item::Break => Ok(()),
        Item::Continue => Ok(()),
        Item::Goto(_) => Ok(()),
        Item::Mark(_) => Ok(()),
        Item::Arm(_, e) => add_option(set, e),
        Item::Leap(_) => Ok(()),
        Item::Land(_) => Ok(()),
        Item::Arrival(e) => add_option(set, e),
        Item::Note(_) => Ok(()),
    }
}

fn add_body<'a>(set: &mut GatheredNames<'a>, body: &'a Option<List<Item>>) -> Result<(), Memory>
    ensures { OnOk result (set.new ≡ with_names set.old (body_names body.now)) }
{
    match body {
        Some(body) => add_items(set, body.as_slice()),
        None => Ok(()),
    }
}

fn add_slots<'a>(set: &mut GatheredNames<'a>, slots: &'a [Slot]) -> Result<(), Memory>
    ensures { OnOk result (set.new ≡ with_names set.old (slots_names slots.now)) }
{
    for i in 0..slots.len() {
        add_given_name(set, &slots[i].name)?;
    }
    Ok(())
}

fn add_function<'a>(set: &mut GatheredNames<'a>, function: &'a Function) -> Result<(), Memory>
    ensures { OnOk result (set.new ≡ with_names set.old (function_names function.now)) }
{
    add_name(set, &function.name)?;
    add_slots(set, function.slots.as_slice())?;
    add_names(set, function.labels.as_slice())?;
    add_body(set, &function.body)
}

fn add_enum_item<'a>(set: &mut GatheredNames<'a>, item: &'a EnumItem) -> Result<(), Memory>
    ensures { OnOk result (set.new ≡ with_names set.old (enum_names item.now)) }
{
    add_name(set, &item.name)?;
    add_option(set, &item.given)
}

fn add_enum<'a>(set: &mut GatheredNames<'a>, items: &'a [EnumItem]) -> Result<(), Memory>
    ensures { OnOk result (set.new ≡ with_names set.old (enums_names items.now)) }
{
    for i in 0..items.len() {
        add_enum_item(set, &items[i])?;
    }
    Ok(())
}

fn add_global<'a>(set: &mut GatheredNames<'a>, global: &'a GlobalVariable) -> Result<(), Memory>
    ensures { OnOk result (set.new ≡ with_names set.old (global_names global.now)) }
{
    add_name(set, &global.slot.name)?;
    add_given(set, &global.init)
}

fn add_top<'a>(set: &mut GatheredNames<'a>, top: &'a Top) -> Result<(), Memory>
    ensures { OnOk result (set.new ≡ with_names set.old (top_names top.now)) }
{
    match top {
        Top::Include(_) => Ok(()),
        Top::Enum(items) => add_enum(set, items.as_slice()),
        Top::Global(global) => add_global(set, global),
        Top::Function(function) => add_function(set, function),
        Top::Note(_) => Ok(()),
    }
}

fn add_tops<'a>(set: &mut GatheredNames<'a>, tops: &'a [Top]) -> Result<(), Memory>
    ensures { OnOk result (set.new ≡ with_names set.old (tops_names tops.now)) }
{
    for i in 0..tops.len() {
        add_top(set, &tops[i])?;
    }
    Ok(())
}

/// All names that stand in a program, each once and in byte order: those of variables, parameters,
/// labels, functions, called functions and enum constants. The empty name of a parameter without a
/// name is left out. Want of memory is the only failure.
pub fn names(alloc: Global, program: &Program) -> Result<List<Name>, Memory>
    ensures value { IfOk result (λ it. it ≡ the_names program.now) }
    ensures rising { IfOk result (IsStrictlySortedBy name_cmp) }
    ensures members { IfOk result (λ it. (n : List ℕ) → has_name it n ≡ has_name (all_names program.now) n) }
{
    let mut set = GatheredNames::new(alloc);
    add_tops(&mut set, program.tops.as_slice())?;
    set.into_list(alloc)
}

fn add_enum_names<'a>(set: &mut GatheredNames<'a>, items: &'a [EnumItem]) -> Result<(), Memory>
    ensures { OnOk result (set.new ≡ with_names set.old (enums_name items.now)) }
{
    for i in 0..items.len() {
        add_name(set, &items[i].name)?;
    }
    Ok(())
}

fn add_top_name<'a>(set: &mut GatheredNames<'a>, top: &'a Top) -> Result<(), Memory>
    ensures { OnOk result (set.new ≡ with_names set.old (top_name top.now)) }
{
    match top {
        Top::Include(_) => Ok(()),
        Top::Enum(items) => add_enum_names(set, items.as_slice()),
        Top::Global(global) => add_name(set, &global.slot.name),
        Top::Function(function) => add_name(set, &function.name),
        Top::Note(_) => Ok(()),
    }
}

fn add_top_names<'a>(set: &mut GatheredNames<'a>, tops: &'a [Top]) -> Result<(), Memory>
    ensures { OnOk result (set.new ≡ with_names set.old (tops_name tops.now)) }
{
    for i in 0..tops.len() {
        add_top_name(set, &tops[i])?;
    }
    Ok(())
}

/// The names of the enum constants, variables and functions of file scope, each once and in byte
/// order. Want of memory is the only failure.
pub fn file_names(alloc: Global, program: &Program) -> Result<List<Name>, Memory>
    ensures value { IfOk result (λ it. it ≡ the_file_names program.now) }
    ensures rising { IfOk result (IsStrictlySortedBy name_cmp) }
    ensures members { IfOk result (λ it. (n : List ℕ) → has_name it n ≡ has_name (all_file_names program.now) n) }
{
    let mut set = GatheredNames::new(alloc);
    add_top_names(&mut set, program.tops.as_slice())?;
    set.into_list(alloc)
}
