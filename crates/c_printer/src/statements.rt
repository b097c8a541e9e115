//! Statements that hold no list, and what stands before and after the lists of the others.

ghost use Rattle.std.specs.Prelude.{codes};
ghost use Rattle.c_tree.specs.TextPieces.{◌⨾◌, space, newline, indentation, word, punctuator};
ghost use Rattle.c_tree.specs.TextExpressions.{expression_text};
ghost use Rattle.c_tree.specs.TextItems.{test_text, selector_text, part_text, label_name as the_label_name, local_text};
ghost use Rattle.c_printer.specs.Writing.{Prints};

use crate::declarations::{
    label_name, put_condition, put_end, put_keyword, put_local, put_selector, put_value,
};
use crate::expressions::put_expression;
use crate::pieces::{put_indentation, put_newline, put_punctuator, put_space, put_word};
use c_tree::{Expression, Function, Selector, Test};
use c_types::List;
use rg_ports::Output;

/// An expression statement.
pub fn put_evaluation<W: Output>(out: &mut W, function: &Function, e: &Expression)
    ensures { Prints (W.progress out.old) (W.progress out.new) (expression_text function.now.slots e.now 1 ⨾ punctuator (codes ";") ⨾ newline) }
{
    put_expression(out, function.slots.as_slice(), e, 1);
    put_end(out);
}

/// A `return`, with its value, if it has one.
pub fn put_return<W: Output>(out: &mut W, function: &Function, value: &Option<Expression>)
    ensures { Prints (W.progress out.old) (W.progress out.new) (word (codes "return") ⨾ part_text function.now.slots value.now ⨾ punctuator (codes ";") ⨾ newline) }
{
    put_word(out, "return");
    put_value(out, function.slots.as_slice(), value);
    put_end(out);
}

/// The declaration of a slot, as a statement.
pub fn put_local_line<W: Output>(
    out: &mut W,
    function: &Function,
    at: u32,
    given: &Option<List<Expression>>,
)
    ensures { Prints (W.progress out.old) (W.progress out.new) (local_text function.now at given.now ⨾ punctuator (codes ";") ⨾ newline) }
{
    put_local(out, function, at, given);
    put_end(out);
}

/// A statement of one keyword.
pub fn put_keyword_line<W: Output>(out: &mut W, text: &str)
    ensures { Prints (W.progress out.old) (W.progress out.new) (word text.now ⨾ punctuator (codes ";") ⨾ newline) }
{
    put_word(out, text);
    put_end(out);
}

/// A `goto` and the name of its label.
pub fn put_goto<W: Output>(out: &mut W, function: &Function, at: u32)
    ensures { Prints (W.progress out.old) (W.progress out.new) (word (codes "goto") ⨾ space ⨾ word (the_label_name function.now at) ⨾ punctuator (codes ";") ⨾ newline) }
{
    put_keyword(out, "goto");
    put_word(out, label_name(function, at));
    put_end(out);
}

/// A label, before a null statement.
pub fn put_mark<W: Output>(out: &mut W, function: &Function, at: u32)
    ensures { Prints (W.progress out.old) (W.progress out.new) (word (the_label_name function.now at) ⨾ punctuator (codes ":") ⨾ space ⨾ punctuator (codes ";") ⨾ newline) }
{
    put_word(out, label_name(function, at));
    put_punctuator(out, ":");
    put_space(out);
    put_end(out);
}

/// A keyword and a test, before a list.
pub fn put_tested<W: Output>(out: &mut W, text: &str, function: &Function, test: &Test)
    ensures { Prints (W.progress out.old) (W.progress out.new) (word text.now ⨾ space ⨾ test_text function.now.slots test.now ⨾ space) }
{
    put_condition(out, text, function.slots.as_slice(), test);
    put_space(out);
}

/// The end of a `do`.
pub fn put_repeat<W: Output>(out: &mut W, function: &Function, test: &Test)
    ensures { Prints (W.progress out.old) (W.progress out.new) (space ⨾ word (codes "while") ⨾ space ⨾ test_text function.now.slots test.now ⨾ punctuator (codes ";") ⨾ newline) }
{
    put_space(out);
    put_condition(out, "while", function.slots.as_slice(), test);
    put_end(out);
}

/// The first line of a `switch`.
pub fn put_switch<W: Output>(out: &mut W, function: &Function, selector: &Selector)
    ensures { Prints (W.progress out.old) (W.progress out.new) (word (codes "switch") ⨾ space ⨾ selector_text function.now.slots selector.now ⨾ space ⨾ punctuator (codes "{") ⨾ newline) }
{
    put_keyword(out, "switch");
    put_selector(out, function.slots.as_slice(), selector);
    put_space(out);
    put_punctuator(out, "{");
    put_newline(out);
}

/// The `}` of a construct, at the construct's depth.
pub fn put_close<W: Output>(out: &mut W, depth: u32)
    ensures { Prints (W.progress out.old) (W.progress out.new) (indentation depth ⨾ punctuator (codes "}")) }
{
    put_indentation(out, depth);
    put_punctuator(out, "}");
}

/// The last line of a `switch`.
pub fn put_close_line<W: Output>(out: &mut W, depth: u32)
    ensures { Prints (W.progress out.old) (W.progress out.new) (indentation depth ⨾ punctuator (codes "}") ⨾ newline) }
{
    put_close(out, depth);
    put_newline(out);
}
