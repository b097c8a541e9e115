//! The lengths of arrays, and bad arrays (ISO/IEC 9899:2011, 6.7.6.2 and 6.7.9).

ghost use Rattle.std.specs.Prelude.{◌≡◌, ◌≤◌, length, option_map, IfOk, OnOk};
ghost use Rattle.c_kinds.specs.Views.{env_of};
ghost use Rattle.c_grammar.specs.ItemViews.{initialiser_form, size_form, term_list_of};
ghost use Rattle.c_grammar.specs.Views.{words_of};
ghost use Rattle.c_statements.specs.Declarations as spec;

use crate::extents::{Extent, Length};
use crate::nodes::value_count;
use c_grammar::{InitialiserLayer, SizeLayer, SyntaxNode, Words};
use c_kinds::{Fault, Known, constant_expression};
use c_tree::Expression;
use c_types::{Memory, Stack};
use std::alloc::Global;

/// How many values a list has, between tokens.
#[tactic(auto, using(crate::proofs::Lists::values))]
pub fn count_values(words: &Words, parts: &[SyntaxNode]) -> usize
    ensures value { result ≡ length (term_list_of (words_of words.now) parts.now) }
    ensures bound { result ≤ length parts.now }
{
    let mut count = 0;
    for x in parts {
        count += value_count(x);
    }
    count
}

fn in_bounds(value: i128) -> Option<u64>
    ensures { result ≡ spec.in_bounds value }
{
    if value >= 1 && value <= 65536 {
        return Some(value as u64);
    }
    None
}

fn constant_extent(value: Option<i128>) -> Extent
    ensures { result ≡ spec.constant_extent value }
{
    match value {
        Some(value) => match in_bounds(value) {
            Some(cells) => Extent::Many(cells),
            None => Extent::Unclear,
        },
        None => Extent::Unclear,
    }
}

fn listed_extent(words: &Words, value: InitialiserLayer) -> Extent
    ensures { result ≡ spec.listed_extent (initialiser_form (words_of words.now) value.entry) }
{
    match value {
        InitialiserLayer::ValueList(parts) => Extent::Many(count_values(words, parts) as u64),
        InitialiserLayer::OneValue(_) => Extent::Unclear,
        InitialiserLayer::NoValue => Extent::Unclear,
    }
}

/// How many cells a variable has.
pub fn extent_of(words: &Words, length: Length, value: InitialiserLayer) -> Extent
    ensures { result ≡ spec.extent_of length (initialiser_form (words_of words.now) value.entry) }
{
    match length {
        Length::NoLength => Extent::One,
        Length::OfList => listed_extent(words, value),
        Length::Constant(value) => constant_extent(value),
    }
}

fn is_bad_length(words: &Words, length: Length, value: InitialiserLayer) -> bool
    ensures { result ≡ spec.is_bad_length length (initialiser_form (words_of words.now) value.entry) }
{
    match length {
        Length::NoLength => false,
        Length::OfList => match value {
            InitialiserLayer::ValueList(parts) => 65536 < count_values(words, parts),
            InitialiserLayer::OneValue(_) => true,
            InitialiserLayer::NoValue => true,
        },
        Length::Constant(Some(value)) => in_bounds(value).is_none(),
        Length::Constant(None) => false,
    }
}

fn is_bad_list(local: bool, extent: Extent, given: u64) -> bool
    ensures { result ≡ spec.is_bad_list local extent given }
{
    match extent {
        Extent::One => true,
        Extent::Many(cells) => cells < given || (local && 1024 < cells),
        Extent::Unclear => false,
    }
}

fn is_bad_value(words: &Words, local: bool, extent: Extent, value: InitialiserLayer) -> bool
    ensures { result ≡ spec.is_bad_value local extent (initialiser_form (words_of words.now) value.entry) }
{
    match value {
        InitialiserLayer::NoValue => false,
        InitialiserLayer::OneValue(_) => !matches!(extent, Extent::One),
        InitialiserLayer::ValueList(parts) => {
            is_bad_list(local, extent, count_values(words, parts) as u64)
        }
    }
}

/// Whether a variable has a length that no array can have, or an initialiser that doesn't fit.
pub fn is_bad_shape(words: &Words, local: bool, length: Length, value: InitialiserLayer) -> bool
    ensures { result ≡ spec.is_bad_shape local length (initialiser_form (words_of words.now) value.entry) }
{
    is_bad_length(words, length, value)
        || is_bad_value(words, local, extent_of(words, length, value), value)
}

fn number_of(constant: Option<(Expression, i128)>) -> Option<i128>
    ensures { result ≡ option_map (λ c. c.1) constant }
{
    match constant {
        Some((e, number)) => {
            drop(e);
            Some(number)
        }
        None => None,
    }
}

/// What the brackets behind a declared name give, with the violations in them.
pub fn read_length(
    alloc: Global,
    known: &Known,
    faults: &mut Stack<Fault>,
    size: SizeLayer,
) -> Result<Length, Memory>
    ensures value { IfOk result (λ l. l ≡ spec.length_in (env_of known.now) (size_form (words_of known.now.words) size.entry)) }
    ensures faults { OnOk result (faults.new ≡ spec.size_faults (env_of known.now) (size_form (words_of known.now.words) size.entry) faults.old) }
{
    match size {
        SizeLayer::NoSize => Ok(Length::NoLength),
        SizeLayer::Unsized => Ok(Length::OfList),
        SizeLayer::Sized(x) => {
            let constant = constant_expression(alloc, known, faults, x)?;
            Ok(Length::Constant(number_of(constant)))
        }
    }
}
