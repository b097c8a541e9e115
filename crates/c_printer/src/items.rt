//! Statements and the lists of them, one line for each.

ghost use Rattle.std.specs.Prelude.{◌≡◌, map, codes};
ghost use Rattle.c_tree.specs.declared.tree.Section.{out-Section};
ghost use Rattle.c_tree.specs.TextPieces.{◌⨾◌, only_if, space, newline, indentation, word, punctuator, joined};
ghost use Rattle.c_tree.specs.TextItems.{deeper as the_deeper, part_text, first_text, is_printed as the_is_printed, line, null_line, default_line, case_line, list_text, braced, else_text, section_end, sections_text, printed, printed_section};
ghost use Rattle.c_printer.specs.Writing.{Prints};

use crate::declarations::{
    put_end, put_further, put_keyword, put_local, put_part, put_verbatim_line,
};
use crate::expressions::put_expression;
use crate::pieces::{put_indentation, put_newline, put_punctuator, put_space, put_word};
use crate::shape::{begins_with_local, ends_in_note, is_lone_if, is_printed};
use crate::statements::{
    put_close, put_close_line, put_evaluation, put_goto, put_keyword_line, put_local_line,
    put_mark, put_repeat, put_return, put_switch, put_tested,
};
use c_tree::{Expression, Function, Item, Section, Slot};
use c_types::Boxed;
use rg_ports::Output;

/// The depth of a list in one of this depth.
fn deeper(depth: u32) -> u32
    ensures { result ≡ the_deeper depth }
{
    if depth < 20 { depth + 1 } else { 20 }
}

/// The first part of a `for`.
fn put_first<W: Output>(out: &mut W, function: &Function, items: &[Item])
    ensures { Prints (W.progress out.old) (W.progress out.new) (first_text (map (printed function.now) items.now)) }
{
    if items.is_empty() {
        return;
    }
    put_head(out, function, &items[0]);
    for i in 1..items.len() {
        put_next(out, function, &items[i]);
    }
}

/// An item as the first part of a `for`, which is an expression or a declaration.
fn put_head<W: Output>(out: &mut W, function: &Function, item: &Item)
    ensures { Prints (W.progress out.old) (W.progress out.new) (printed function.now item.now).head }
{
    match item {
        Item::Evaluate(e) => put_expression(out, function.slots.as_slice(), e, 1),
        Item::Local(at, given) => put_local(out, function, *at, given),
        _ => {}
    }
}

/// An item as one more declarator of the first part of a `for`.
fn put_next<W: Output>(out: &mut W, function: &Function, item: &Item)
    ensures { Prints (W.progress out.old) (W.progress out.new) (printed function.now item.now).further }
{
    if let Item::Local(at, given) = item {
        put_further(out, function, *at, given);
    }
}

/// The second and the third part of a `for`, each after its `;`.
fn put_parts<W: Output>(
    out: &mut W,
    slots: &[Slot],
    test: &Option<Boxed<Expression>>,
    step: &Option<Boxed<Expression>>,
)
    ensures { Prints (W.progress out.old) (W.progress out.new) (punctuator (codes ";") ⨾ part_text slots.now test.now ⨾ punctuator (codes ";") ⨾ part_text slots.now step.now) }
{
    put_punctuator(out, ";");
    put_part(out, slots, test);
    put_punctuator(out, ";");
    put_part(out, slots, step);
}

/// The three parts of a `for`, in their brackets.
fn put_brackets<W: Output>(
    out: &mut W,
    function: &Function,
    first: &[Item],
    test: &Option<Boxed<Expression>>,
    step: &Option<Boxed<Expression>>,
)
    ensures { Prints (W.progress out.old) (W.progress out.new) (punctuator (codes "(") ⨾ first_text (map (printed function.now) first.now) ⨾ punctuator (codes ";") ⨾ part_text function.now.slots test.now ⨾ punctuator (codes ";") ⨾ part_text function.now.slots step.now ⨾ punctuator (codes ")")) }
{
    put_punctuator(out, "(");
    put_first(out, function, first);
    put_parts(out, function.slots.as_slice(), test, step);
    put_punctuator(out, ")");
}

/// A `for` up to its list.
fn put_for<W: Output>(
    out: &mut W,
    function: &Function,
    first: &[Item],
    test: &Option<Boxed<Expression>>,
    step: &Option<Boxed<Expression>>,
)
    ensures { Prints (W.progress out.old) (W.progress out.new) (word (codes "for") ⨾ space ⨾ punctuator (codes "(") ⨾ first_text (map (printed function.now) first.now) ⨾ punctuator (codes ";") ⨾ part_text function.now.slots test.now ⨾ punctuator (codes ";") ⨾ part_text function.now.slots step.now ⨾ punctuator (codes ")") ⨾ space) }
{
    put_keyword(out, "for");
    put_brackets(out, function, first, test, step);
    put_space(out);
}

/// The spaces before the first line of an item, if it has lines.
fn put_margin<W: Output>(out: &mut W, function: &Function, item: &Item, depth: u32)
    ensures { Prints (W.progress out.old) (W.progress out.new) (only_if (the_is_printed (printed function.now item.now).shape) (indentation depth)) }
{
    if is_printed(item) {
        put_indentation(out, depth);
    }
}

fn put_case<W: Output>(out: &mut W, slots: &[Slot], depth: u32, constant: &Expression)
    ensures { Prints (W.progress out.old) (W.progress out.new) (case_line slots.now depth constant.now) }
{
    put_indentation(out, depth);
    put_keyword(out, "case");
    put_expression(out, slots, constant, 3);
    put_punctuator(out, ":");
    put_newline(out);
}

fn put_cases<W: Output>(out: &mut W, slots: &[Slot], depth: u32, cases: &[Expression])
    ensures { Prints (W.progress out.old) (W.progress out.new) (joined (map (case_line slots.now depth) cases.now)) }
{
    for i in 0..cases.len() {
        put_case(out, slots, depth, &cases[i]);
    }
}

fn put_default<W: Output>(out: &mut W, depth: u32, default: bool)
    ensures { Prints (W.progress out.old) (W.progress out.new) (only_if default (default_line depth)) }
{
    if default {
        put_indentation(out, depth);
        put_word(out, "default");
        put_punctuator(out, ":");
        put_newline(out);
    }
}

/// A null statement, where a condition holds.
fn put_null_line<W: Output>(out: &mut W, depth: u32, wanted: bool)
    ensures { Prints (W.progress out.old) (W.progress out.new) (only_if wanted (null_line depth)) }
{
    if wanted {
        put_indentation(out, depth);
        put_end(out);
    }
}

/// What stands after the list of a section.
fn put_section_end<W: Output>(
    out: &mut W,
    function: &Function,
    section: &Section,
    last: bool,
    depth: u32,
)
    ensures { Prints (W.progress out.old) (W.progress out.new) (section_end (out-Section section.now).ends (map (printed function.now) (out-Section section.now).list) last depth) }
{
    let items = section.list.as_slice();
    if section.ends {
        put_indentation(out, depth);
        put_keyword_line(out, "break");
    } else {
        put_null_line(
            out,
            depth,
            (last && items.is_empty()) || ends_in_note(items),
        );
    }
}

/// The lines of an item at a depth, without the spaces before the first.
#[cycle(put_list)]
fn put_lines<W: Output>(out: &mut W, function: &Function, item: &Item, depth: u32)
    ensures { Prints (W.progress out.old) (W.progress out.new) ((printed function.now item.now).lines depth) }
{
    match item {
        Item::Evaluate(e) => put_evaluation(out, function, e),
        Item::Return(value) => put_return(out, function, value),
        Item::If(test, then, otherwise) => {
            put_tested(out, "if", function, test);
            put_braced(out, function, then.as_slice(), depth);
            put_else(out, function, otherwise.as_slice(), depth);
        }
        Item::While(test, body) => {
            put_tested(out, "while", function, test);
            put_block(out, function, body.as_slice(), depth);
        }
        Item::Do(body, test) => {
            put_keyword(out, "do");
            put_braced(out, function, body.as_slice(), depth);
            put_repeat(out, function, test);
        }
        Item::For(first, test, step, body) => {
            put_for(out, function, first.as_slice(), test, step);
            put_block(out, function, body.as_slice(), depth);
        }
        Item::Switch(selector, sections) => {
            put_switch(out, function, selector);
            put_sections(out, function, sections.as_slice(), depth);
            put_close_line(out, depth);
        }
        Item::Block(body) => put_block(out, function, body.as_slice(), depth),
        Item::Local(at, given) => put_local_line(out, function, *at, given),
        Item::Break => put_keyword_line(out, "break"),
        Item::Continue => put_keyword_line(out, "continue"),
        Item::Goto(at) => put_goto(out, function, *at),
        Item::Mark(at) => put_mark(out, function, *at),
        Item::Note(bytes) => put_verbatim_line(out, bytes.as_slice()),
        Item::Arm(..) | Item::Leap(_) | Item::Land(_) | Item::Arrival(_) => {}
    }
}

/// The lines of a list at a depth.
#[cycle(put_list)]
fn put_list<W: Output>(out: &mut W, function: &Function, items: &[Item], depth: u32)
    ensures { Prints (W.progress out.old) (W.progress out.new) (list_text (map (printed function.now) items.now) depth) }
{
    for i in 0..items.len() {
        put_margin(out, function, &items[i], depth);
        put_lines(out, function, &items[i], depth);
    }
}

/// A list in braces, in a construct at a depth.
#[cycle(put_list)]
pub fn put_braced<W: Output>(out: &mut W, function: &Function, items: &[Item], depth: u32)
    ensures { Prints (W.progress out.old) (W.progress out.new) (braced (map (printed function.now) items.now) depth) }
{
    put_punctuator(out, "{");
    put_newline(out);
    put_list(out, function, items, deeper(depth));
    put_close(out, depth);
}

/// A list in braces, and the end of its line.
#[cycle(put_list)]
fn put_block<W: Output>(out: &mut W, function: &Function, items: &[Item], depth: u32)
    ensures { Prints (W.progress out.old) (W.progress out.new) (braced (map (printed function.now) items.now) depth ⨾ newline) }
{
    put_braced(out, function, items, depth);
    put_newline(out);
}

/// An else-list, which goes on as `else if` where it is one `if`.
#[cycle(put_list)]
fn put_else<W: Output>(out: &mut W, function: &Function, items: &[Item], depth: u32)
    ensures { Prints (W.progress out.old) (W.progress out.new) (else_text (map (printed function.now) items.now) depth) }
{
    if items.is_empty() {
        put_newline(out);
        return;
    }
    put_space(out);
    put_keyword(out, "else");
    if is_lone_if(items) {
        put_lines(out, function, &items[0], depth);
    } else {
        put_block(out, function, items, depth);
    }
}

#[cycle(put_list)]
fn put_section<W: Output>(
    out: &mut W,
    function: &Function,
    section: &Section,
    last: bool,
    depth: u32,
)
    ensures { Prints (W.progress out.old) (W.progress out.new) (printed_section function.now section.now last depth) }
{
    let items = section.list.as_slice();
    put_cases(
        out,
        function.slots.as_slice(),
        depth,
        section.cases.as_slice(),
    );
    put_default(out, depth, section.default);
    put_null_line(out, deeper(depth), begins_with_local(items));
    put_list(out, function, items, deeper(depth));
    put_section_end(out, function, section, last, deeper(depth));
}

#[cycle(put_list)]
fn put_sections<W: Output>(out: &mut W, function: &Function, sections: &[Section], depth: u32)
    ensures { Prints (W.progress out.old) (W.progress out.new) (sections_text (map (printed_section function.now) sections.now) depth) }
{
    for i in 0..sections.len() {
        put_section(out, function, &sections[i], i + 1 == sections.len(), depth);
    }
}
