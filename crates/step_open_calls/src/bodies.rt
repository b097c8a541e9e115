ghost use Rattle.std.specs.Prelude.{◌≡◌};
ghost use Rattle.step_open_calls.specs.Calls.{is_open, test_calls, selector_calls, option_calls, item_calls, section_calls, items_call, sections_call, body_calls, top_calls, has_open_call as the_has_open_call};

use crate::expressions::{in_expression, in_expressions, in_given, in_option, in_part};
use c_tree::{Expression, Item, Program, Section, Selector, Test, Top};
use c_types::List;

fn in_test(program: &Program, test: &Test) -> bool
    ensures { result ≡ test_calls (is_open program.now) test.now }
{
    match test {
        Test::Source(e) => in_expression(program, e),
        Test::On(_) => false,
        Test::Off(_) => false,
        Test::AndOff(_, rest) => in_test(program, rest.get()),
        Test::OrOn(_, rest) => in_test(program, rest.get()),
    }
}

fn in_selector(program: &Program, selector: &Selector) -> bool
    ensures { result ≡ selector_calls (is_open program.now) selector.now }
{
    match selector {
        Selector::Source(e) => in_expression(program, e),
        Selector::Pick(_, _, rest) => in_selector(program, rest.get()),
    }
}

#[cycle(item)]
fn in_items(program: &Program, items: &[Item]) -> bool
    ensures { result ≡ items_call (is_open program.now) items.now }
{
    for item in items {
        if in_item(program, item) {
            return true;
        }
    }
    false
}

#[cycle(item)]
fn in_sections(program: &Program, sections: &[Section]) -> bool
    ensures { result ≡ sections_call (is_open program.now) sections.now }
{
    for section in sections {
        if in_section(program, section) {
            return true;
        }
    }
    false
}

#[cycle(item)]
#[tactic(auto, using(crate::proofs::Forms::section_calls_is))]
fn in_section(program: &Program, section: &Section) -> bool
    ensures { result ≡ section_calls (is_open program.now) section.now }
{
    in_expressions(program, section.cases.as_slice()) || in_items(program, section.list.as_slice())
}

#[cycle(item)]
#[tactic(auto, using(crate::proofs::Forms::item_calls_if, crate::proofs::Forms::item_calls_while, crate::proofs::Forms::item_calls_do, crate::proofs::Forms::item_calls_for, crate::proofs::Forms::item_calls_switch))]
fn in_item(program: &Program, item: &Item) -> bool
    ensures { result ≡ item_calls (is_open program.now) item.now }
{
    match item {
        Item::Evaluate(e) => in_expression(program, e),
        Item::Return(e) => in_option(program, e),
        Item::If(test, a, b) => {
            in_test(program, test)
                || in_items(program, a.as_slice())
                || in_items(program, b.as_slice())
        }
        Item::While(test, a) => { in_test(program, test) || in_items(program, a.as_slice()) }
        Item::Do(a, test) => { in_test(program, test) || in_items(program, a.as_slice()) }
        Item::For(first, test, third, a) => {
            in_items(program, first.as_slice())
                || in_part(program, test)
                || in_part(program, third)
                || in_items(program, a.as_slice())
        }
        Item::Switch(selector, sections) => {
            in_selector(program, selector) || in_sections(program, sections.as_slice())
        }
        Item::Block(a) => in_items(program, a.as_slice()),
        Item::Local(_, given) => in_given(program, given),
        Item::Break => false,
        Item::Continue => false,
        Item::Goto(_) => false,
        Item::Mark(_) => false,
        Item::Arm(_, e) => in_option(program, e),
        Item::Leap(_) => false,
        Item::Land(_) => false,
        Item::Arrival(e) => in_option(program, e),
        Item::Note(_) => false,
    }
}

fn in_body(program: &Program, body: &Option<List<Item>>) -> bool
    ensures { result ≡ body_calls (is_open program.now) body.now }
{
    match body {
        Some(items) => in_items(program, items.as_slice()),
        None => false,
    }
}

fn in_top(program: &Program, top: &Top) -> bool
    ensures { result ≡ top_calls (is_open program.now) top.now }
{
    match top {
        Top::Function(function) => in_body(program, &function.body),
        Top::Include(_) => false,
        Top::Enum(_) => false,
        Top::Global(_) => false,
        Top::Note(_) => false,
    }
}

/// Whether a call in the bodies of the program names a function that has no body and is none of the library's. It takes
/// no memory.
pub fn has_open_call(program: &Program) -> bool
    ensures { result ≡ the_has_open_call program.now }
{
    for top in program.tops.as_slice() {
        if in_top(program, top) {
            return true;
        }
    }
    false
}
