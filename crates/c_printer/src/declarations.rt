//! Declarations, and the parts of statements.

ghost use Rattle.std.specs.Prelude.{◌≡◌, List, map, codes};
ghost use Rattle.c_tree.specs.TextPieces.{◌⨾◌, space, newline, word, punctuator, verbatim};
ghost use Rattle.c_tree.specs.TextItems.{length_text, values_text, initialisers_text, declarator_text, kind_words, declaration_text, test_text, selector_text, part_text, label_name as the_label_name, local_text, further_text};
ghost use Rattle.c_printer.specs.Writing.{Prints};

use crate::expressions::{put_expression, put_expressions, put_kind};
use crate::pieces::{
    put_comma, put_newline, put_number, put_punctuator, put_space, put_spaced, put_verbatim,
    put_word,
};
use c_tree::{Expression, Function, Selector, Slot, Test};
use c_types::{Boxed, IntKind, List};
use rg_ports::Output;

/// A keyword and a space.
pub fn put_keyword<W: Output>(out: &mut W, text: &str)
    ensures { Prints (W.progress out.old) (W.progress out.new) (word text.now ⨾ space) }
{
    put_word(out, text);
    put_space(out);
}

/// The end of a statement and of its line.
pub fn put_end<W: Output>(out: &mut W)
    ensures { Prints (W.progress out.old) (W.progress out.new) (punctuator (codes ";") ⨾ newline) }
{
    put_punctuator(out, ";");
    put_newline(out);
}

/// A directive or a comment, and the end of its line.
pub fn put_verbatim_line<W: Output>(out: &mut W, bytes: &[u8])
    ensures { Prints (W.progress out.old) (W.progress out.new) (verbatim bytes.now ⨾ newline) }
{
    put_verbatim(out, bytes);
    put_newline(out);
}

/// The length of an array, in its brackets.
fn put_length<W: Output>(out: &mut W, cells: Option<u32>)
    ensures { Prints (W.progress out.old) (W.progress out.new) (length_text cells) }
{
    if let Some(length) = cells {
        put_punctuator(out, "[");
        put_number(out, Some(IntKind::Int), length as i128);
        put_punctuator(out, "]");
    }
}

/// Values with commas between them, in braces where they are those of an array.
fn put_values<W: Output>(out: &mut W, slots: &[Slot], cells: Option<u32>, values: &[Expression])
    ensures { Prints (W.progress out.old) (W.progress out.new) (values_text slots.now cells values.now) }
{
    match cells {
        None => put_expressions(out, slots, values),
        Some(_) => {
            put_punctuator(out, "{");
            put_expressions(out, slots, values);
            put_punctuator(out, "}");
        }
    }
}

fn put_initialisers<W: Output>(
    out: &mut W,
    slots: &[Slot],
    cells: Option<u32>,
    given: &Option<List<Expression>>,
)
    ensures { Prints (W.progress out.old) (W.progress out.new) (initialisers_text slots.now cells given.now) }
{
    if let Some(values) = given {
        put_spaced(out, "=");
        put_values(out, slots, cells, values.as_slice());
    }
}

/// A declared name, its length and its initialisers.
fn put_declarator<W: Output>(
    out: &mut W,
    slots: &[Slot],
    slot: &Slot,
    given: &Option<List<Expression>>,
)
    ensures { Prints (W.progress out.old) (W.progress out.new) (declarator_text slots.now slot.now given.now) }
{
    put_word(out, slot.name.as_str());
    put_length(out, slot.cells);
    put_initialisers(out, slots, slot.cells, given);
}

/// The words before a declared name.
pub fn put_kind_words<W: Output>(out: &mut W, slot: &Slot)
    ensures { Prints (W.progress out.old) (W.progress out.new) (kind_words slot.now) }
{
    if slot.constant {
        put_keyword(out, "const");
    }
    put_kind(out, slot.kind);
}

pub fn put_declaration<W: Output>(
    out: &mut W,
    slots: &[Slot],
    slot: &Slot,
    given: &Option<List<Expression>>,
)
    ensures { Prints (W.progress out.old) (W.progress out.new) (declaration_text slots.now slot.now given.now) }
{
    put_kind_words(out, slot);
    put_space(out);
    put_declarator(out, slots, slot, given);
}

/// The declaration of a slot.
pub fn put_local<W: Output>(
    out: &mut W,
    function: &Function,
    at: u32,
    given: &Option<List<Expression>>,
)
    ensures { Prints (W.progress out.old) (W.progress out.new) (local_text function.now at given.now) }
{
    let slots = function.slots.as_slice();
    if let Some(slot) = slots.get(at as usize) {
        put_declaration(out, slots, slot, given);
    }
}

/// One more declarator of a declaration.
pub fn put_further<W: Output>(
    out: &mut W,
    function: &Function,
    at: u32,
    given: &Option<List<Expression>>,
)
    ensures { Prints (W.progress out.old) (W.progress out.new) (further_text function.now at given.now) }
{
    let slots = function.slots.as_slice();
    if let Some(slot) = slots.get(at as usize) {
        put_comma(out);
        put_declarator(out, slots, slot, given);
    }
}

/// A test, in its brackets. One that the rewriting made has no text.
fn put_test<W: Output>(out: &mut W, slots: &[Slot], test: &Test)
    ensures { Prints (W.progress out.old) (W.progress out.new) (test_text slots.now test.now) }
{
    put_punctuator(out, "(");
    match test {
        Test::Source(e) => put_expression(out, slots, e, 1),
        Test::On(_) | Test::Off(_) | Test::AndOff(..) | Test::OrOn(..) => {}
    }
    put_punctuator(out, ")");
}

/// A keyword and the test after it.
pub fn put_condition<W: Output>(out: &mut W, text: &str, slots: &[Slot], test: &Test)
    ensures { Prints (W.progress out.old) (W.progress out.new) (word text.now ⨾ space ⨾ test_text slots.now test.now) }
{
    put_keyword(out, text);
    put_test(out, slots, test);
}

/// A selector, in its brackets. One that the rewriting made has no text.
pub fn put_selector<W: Output>(out: &mut W, slots: &[Slot], selector: &Selector)
    ensures { Prints (W.progress out.old) (W.progress out.new) (selector_text slots.now selector.now) }
{
    put_punctuator(out, "(");
    match selector {
        Selector::Source(e) => put_expression(out, slots, e, 1),
        Selector::Pick(..) => {}
    }
    put_punctuator(out, ")");
}

/// The value of a `return`, after a space.
pub fn put_value<W: Output>(out: &mut W, slots: &[Slot], value: &Option<Expression>)
    ensures { Prints (W.progress out.old) (W.progress out.new) (part_text slots.now value.now) }
{
    if let Some(e) = value {
        put_space(out);
        put_expression(out, slots, e, 1);
    }
}

/// The second or third part of a `for`, after a space.
pub fn put_part<W: Output>(out: &mut W, slots: &[Slot], part: &Option<Boxed<Expression>>)
    ensures { Prints (W.progress out.old) (W.progress out.new) (part_text slots.now part.now) }
{
    if let Some(e) = part {
        put_space(out);
        put_expression(out, slots, e.get(), 1);
    }
}

/// The name of a label, empty where there is no such label.
pub fn label_name(function: &Function, at: u32) -> &str
    ensures { result.now ≡ the_label_name function.now at }
{
    match function.labels.as_slice().get(at as usize) {
        Some(name) => name.as_str(),
        None => "",
    }
}
