//! Enums (ISO/IEC 9899:2011, 6.7.2.2).

ghost use Rattle.std.specs.Prelude.{◌≡◌, ◌++◌, ◌∷◌, [], map, Some, negsuc, option_map, option_and_then, IfOk, OnOk};
ghost use Rattle.c_kinds.specs.Views.{env_of, term};
ghost use Rattle.c_grammar.specs.Parts.{part_of, gathered, enumerator_in};
ghost use Rattle.c_grammar.specs.TopViews.{enumerator_form};
ghost use Rattle.c_grammar.specs.Views.{words_of};
ghost use Rattle.c_statements.specs.Declarations.{constant_at, constant_or_placeholder};
ghost use Rattle.c_scopes.specs.Enums as spec;
ghost use Rattle.c_scopes.specs.FileNames.{file_name_faults};
ghost use Rattle.c_scopes.specs.NodeViews.{enumerators_of};

use crate::constants::placeholder;
use crate::file_names::{bind_name, report_file_name};
use c_grammar::{EnumeratorLayer, SyntaxNode, Words, enumerator_layer, first_token};
use c_kinds::{Binding, Fault, Known, constant_expression, name_of, report_if};
use c_tree::{EnumItem, Expression};
use c_types::{IntKind, List, Memory, Stack, reasons};
use std::alloc::Global;

/// The constant expression of an enum constant, if one is written, and the number that it or the
/// constant before gives.
#[derive(Drop)]
struct Number {
    given: Option<Expression>,
    number: Option<i128>,
}

fn an_int(number: Option<i128>) -> Option<i32>
    ensures { result ≡ option_and_then spec.an_int number }
{
    match number {
        Some(number) => {
            if number < -2147483648 || number > 2147483647 {
                None
            } else {
                Some(number as i32)
            }
        }
        None => None,
    }
}

fn next_number(before: Option<i32>) -> Option<i128>
    ensures { result ≡ spec.next_value before }
{
    match before {
        Some(value) => Some(value as i128 + 1),
        None => None,
    }
}

fn or_zero(value: Option<i32>) -> i128
    ensures { result ≡ spec.or_zero value }
{
    match value {
        Some(value) => value as i128,
        None => 0,
    }
}

/// Reports a number that is no `int`.
fn report_int(faults: &mut Stack<Fault>, at: u32, number: Option<i128>) -> Result<(), Memory>
    ensures { OnOk result (faults.new ≡ spec.int_fault at number faults.old) }
{
    match number {
        Some(number) => report_if(
            faults,
            !IntKind::Int.contains(number),
            at,
            reasons::NOT_CONSTANT,
        ),
        None => Ok(()),
    }
}

fn number_first(words: &Words, e: EnumeratorLayer) -> u32
    ensures { result ≡ spec.number_first e.entry.name (enumerator_form (words_of words.now) e.entry).value }
{
    match e.value {
        Some(x) => first_token(words, x),
        None => e.name,
    }
}

fn with_number(constant: Option<(Expression, i128)>) -> Number
    ensures given { result.given ≡ Some (constant_or_placeholder constant) }
    ensures number { result.number ≡ option_map (λ c. c.1) constant }
{
    match constant {
        Some((given, number)) => Number {
            given: Some(given),
            number: Some(number),
        },
        None => Number {
            given: Some(placeholder()),
            number: None,
        },
    }
}

/// The number of an enum constant, with the violations of the expression that is written.
fn read_number(
    alloc: Global,
    known: &Known,
    faults: &mut Stack<Fault>,
    e: EnumeratorLayer,
    before: Option<i32>,
) -> Result<Number, Memory>
    ensures given { IfOk result (λ n. n.given ≡ option_map (constant_at (env_of known.now)) (enumerator_form (words_of known.now.words) e.entry).value) }
    ensures number { IfOk result (λ n. n.number ≡ spec.number_of (env_of known.now) (enumerator_form (words_of known.now.words) e.entry).value before) }
    ensures faults { OnOk result (faults.new ≡ spec.given_faults (env_of known.now) (enumerator_form (words_of known.now.words) e.entry).value faults.old) }
{
    match e.value {
        Some(x) => Ok(with_number(constant_expression(alloc, known, faults, x)?)),
        None => Ok(Number {
            given: None,
            number: next_number(before),
        }),
    }
}

/// Puts an enum constant behind others, and answers its number.
fn add_item(
    alloc: Global,
    known: &Known,
    faults: &mut Stack<Fault>,
    e: EnumeratorLayer,
    before: Option<i32>,
    out: &mut List<EnumItem>,
) -> Result<Option<i128>, Memory>
    ensures number { IfOk result (λ n. n ≡ spec.number_of (env_of known.now) (enumerator_form (words_of known.now.words) e.entry).value before) }
    ensures out { IfOk result (λ n. out.new ≡ out.old ++ spec.enum_item (enumerator_form (words_of known.now.words) e.entry) (option_and_then spec.an_int n) (env_of known.now) ∷ []) }
    ensures faults { OnOk result (faults.new ≡ spec.given_faults (env_of known.now) (enumerator_form (words_of known.now.words) e.entry).value faults.old) }
{
    let name = name_of(alloc, known.words.get(e.name))?;
    let Number { given, number } = read_number(alloc, known, faults, e, before)?;
    out.push(EnumItem {
        name,
        given,
        value: or_zero(an_int(number)),
    })?;
    Ok(number)
}

/// Declares an enum constant, puts it behind others, and answers its value.
fn add_constant<'a>(
    alloc: Global,
    known: &mut Known<'a>,
    faults: &mut Stack<Fault>,
    e: EnumeratorLayer,
    before: Option<i32>,
    out: &mut List<EnumItem>,
) -> Result<Option<i32>, Memory>
    ensures words { OnOk result (known.new.words ≡ known.old.words) }
    ensures value { IfOk result (λ v. v ≡ spec.value_of (env_of known.old) (enumerator_form (words_of known.old.words) e.entry).value before) }
    ensures env { IfOk result (λ v. env_of known.new ≡ spec.enumerated (enumerator_form (words_of known.old.words) e.entry) v (env_of known.old)) }
    ensures out { IfOk result (λ v. out.new ≡ out.old ++ spec.enum_item (enumerator_form (words_of known.old.words) e.entry) v (env_of known.old) ∷ []) }
    ensures faults { OnOk result (faults.new ≡ file_name_faults e.entry.name (env_of known.old) (spec.value_faults (env_of known.old) e.entry.name (enumerator_form (words_of known.old.words) e.entry).value before faults.old)) }
{
    let number = add_item(alloc, known, faults, e, before, out)?;
    report_int(faults, number_first(&known.words, e), number)?;
    report_file_name(faults, known, e.name)?;
    let value = an_int(number);
    bind_name(known, e.name, Binding::Constant(or_zero(value)))?;
    Ok(value)
}

/// Declares the constants of an enum.
#[tactic(auto, using(crate::proofs::Nodes::enumerators))]
pub fn read_enum<'a>(
    alloc: Global,
    known: &mut Known<'a>,
    faults: &mut Stack<Fault>,
    nodes: &[SyntaxNode],
) -> Result<List<EnumItem>, Memory>
    ensures words { OnOk result (known.new.words ≡ known.old.words) }
    ensures env { OnOk result (env_of known.new ≡ spec.behind_enum (enumerators_of (words_of known.old.words) nodes.now) (Some (negsuc 0)) (env_of known.old)) }
    ensures items { IfOk result (λ it. it ≡ spec.enum_items (enumerators_of (words_of known.old.words) nodes.now) (Some (negsuc 0)) (env_of known.old)) }
    ensures faults { OnOk result (faults.new ≡ spec.enum_faults (enumerators_of (words_of known.old.words) nodes.now) (Some (negsuc 0)) (env_of known.old) faults.old) }
{
    let mut out = List::new(alloc);
    let mut before = Some(-1);
    for x in nodes {
        if let Some(e) = enumerator_layer(&known.words, x) {
            before = add_constant(alloc, known, faults, e, before, &mut out)?;
        }
    }
    Ok(out)
}
