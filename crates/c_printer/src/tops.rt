//! What stands at file scope.

ghost use Rattle.std.specs.Prelude.{◌≡◌, map, take};
ghost use Rattle.c_tree.specs.TextPieces.{listed, joined};
ghost use Rattle.c_tree.specs.Text.{given_text, enumerator_text, enum_start, enum_end, enum_text, static_text, global_text, parameter_name, array_brackets, parameter_text, parameters_text, body_text, head_text, function_text, top_text, program_text};
ghost use Rattle.c_printer.specs.Writing.{Prints};

use crate::declarations::{
    put_declaration, put_end, put_keyword, put_kind_words, put_verbatim_line,
};
use crate::expressions::{put_comma_between, put_expression, put_result};
use crate::items::put_braced;
use crate::pieces::{put_newline, put_punctuator, put_space, put_spaced, put_word};
use c_tree::{EnumItem, Expression, Function, GlobalVariable, Item, Program, Slot, Top};
use c_types::List;
use rg_ports::Output;

/// The value that an enumerator is given.
fn put_given<W: Output>(out: &mut W, given: &Option<Expression>)
    ensures { Prints (W.progress out.old) (W.progress out.new) (given_text given.now) }
{
    if let Some(e) = given {
        put_spaced(out, "=");
        put_expression(out, &[], e, 3);
    }
}

fn put_enumerator<W: Output>(out: &mut W, item: &EnumItem)
    ensures { Prints (W.progress out.old) (W.progress out.new) (enumerator_text item.now) }
{
    put_word(out, item.name.as_str());
    put_given(out, &item.given);
}

fn put_enumerators<W: Output>(out: &mut W, items: &[EnumItem])
    ensures { Prints (W.progress out.old) (W.progress out.new) (listed (map enumerator_text items.now)) }
{
    for i in 0..items.len() {
        put_comma_between(out, i);
        put_enumerator(out, &items[i]);
    }
}

fn put_enum_start<W: Output>(out: &mut W)
    ensures { Prints (W.progress out.old) (W.progress out.new) enum_start }
{
    put_keyword(out, "enum");
    put_punctuator(out, "{");
    put_space(out);
}

fn put_enum_end<W: Output>(out: &mut W)
    ensures { Prints (W.progress out.old) (W.progress out.new) enum_end }
{
    put_space(out);
    put_punctuator(out, "}");
    put_end(out);
}

fn put_enum<W: Output>(out: &mut W, items: &[EnumItem])
    ensures { Prints (W.progress out.old) (W.progress out.new) (enum_text items.now) }
{
    put_enum_start(out);
    put_enumerators(out, items);
    put_enum_end(out);
}

fn put_static<W: Output>(out: &mut W, file_only: bool)
    ensures { Prints (W.progress out.old) (W.progress out.new) (static_text file_only) }
{
    if file_only {
        put_keyword(out, "static");
    }
}

fn put_global<W: Output>(out: &mut W, global: &GlobalVariable)
    ensures { Prints (W.progress out.old) (W.progress out.new) (global_text global.now) }
{
    put_static(out, global.file_only);
    put_declaration(out, &[], &global.slot, &global.init);
    put_end(out);
}

/// The name of a parameter after a space, or nothing for the empty name.
fn put_parameter_name<W: Output>(out: &mut W, name: &str)
    ensures { Prints (W.progress out.old) (W.progress out.new) (parameter_name name.now) }
{
    if !name.is_empty() {
        put_space(out);
        put_word(out, name);
    }
}

/// The brackets of an array parameter.
fn put_array_brackets<W: Output>(out: &mut W, cells: Option<u32>)
    ensures { Prints (W.progress out.old) (W.progress out.new) (array_brackets cells) }
{
    if let Some(_) = cells {
        put_punctuator(out, "[");
        put_punctuator(out, "]");
    }
}

fn put_parameter<W: Output>(out: &mut W, slot: &Slot)
    ensures { Prints (W.progress out.old) (W.progress out.new) (parameter_text slot.now) }
{
    put_kind_words(out, slot);
    put_parameter_name(out, slot.name.as_str());
    put_array_brackets(out, slot.cells);
}

fn put_parameters<W: Output>(out: &mut W, slots: &[Slot])
    ensures { Prints (W.progress out.old) (W.progress out.new) (parameters_text slots.now) }
{
    if slots.is_empty() {
        put_word(out, "void");
    } else {
        put_some_parameters(out, slots);
    }
}

fn put_some_parameters<W: Output>(out: &mut W, slots: &[Slot])
    ensures { Prints (W.progress out.old) (W.progress out.new) (listed (map parameter_text slots.now)) }
{
    for i in 0..slots.len() {
        put_comma_between(out, i);
        put_parameter(out, &slots[i]);
    }
}

/// The slots that are parameters.
fn parameters(function: &Function) -> &[Slot]
    ensures { result.now ≡ take function.now.params function.now.slots }
{
    let slots = function.slots.as_slice();
    let count = function.params as usize;
    if count < slots.len() {
        &slots[..count]
    } else {
        slots
    }
}

/// A body, or the end of a prototype.
fn put_body<W: Output>(out: &mut W, function: &Function, body: &Option<List<Item>>)
    ensures { Prints (W.progress out.old) (W.progress out.new) (body_text function.now body.now) }
{
    match body {
        None => put_punctuator(out, ";"),
        Some(body) => {
            put_space(out);
            put_braced(out, function, body.as_slice(), 0);
        }
    }
}

/// The words of a function up to its parameters.
fn put_head<W: Output>(out: &mut W, function: &Function)
    ensures { Prints (W.progress out.old) (W.progress out.new) (head_text function.now) }
{
    put_static(out, function.file_only);
    put_result(out, function.result);
    put_space(out);
    put_word(out, function.name.as_str());
}

fn put_function<W: Output>(out: &mut W, function: &Function)
    ensures { Prints (W.progress out.old) (W.progress out.new) (function_text function.now) }
{
    put_head(out, function);
    put_punctuator(out, "(");
    put_parameters(out, parameters(function));
    put_punctuator(out, ")");
    put_body(out, function, &function.body);
    put_newline(out);
}

fn put_top<W: Output>(out: &mut W, top: &Top)
    ensures { Prints (W.progress out.old) (W.progress out.new) (top_text top.now) }
{
    match top {
        Top::Include(bytes) => put_verbatim_line(out, bytes.as_slice()),
        Top::Enum(items) => put_enum(out, items.as_slice()),
        Top::Global(global) => put_global(out, global),
        Top::Function(function) => put_function(out, function),
        Top::Note(bytes) => put_verbatim_line(out, bytes.as_slice()),
    }
}

pub fn put_program<W: Output>(out: &mut W, program: &Program)
    ensures { Prints (W.progress out.old) (W.progress out.new) (program_text program.now) }
{
    let tops = program.tops.as_slice();
    for i in 0..tops.len() {
        put_top(out, &tops[i]);
    }
}
