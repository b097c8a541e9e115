//! The labels of a function: their numbers and names, and which of them stand there twice.

ghost use Rattle.std.specs.Prelude.{◌≡◌, ◌++◌, [], map, IfOk, OnOk};
ghost use Rattle.c_grammar.specs.Views.{words_of};
ghost use Rattle.c_statements.specs.Context.{has_label};
ghost use Rattle.c_statements.specs.Labels as spec;

use crate::label_numbers::LabelNumbers;
use c_grammar::Words;
use c_kinds::{Fault, name_of, report_if};
use c_types::{List, Memory, Name, Stack, reasons};
use std::alloc::Global;

/// The labels of a function.
#[derive(Drop)]
pub struct FunctionLabels<'a> {
    pub numbers: LabelNumbers<'a>,
    /// Their names, each once, in text order.
    pub names: List<Name>,
}

/// Puts a name behind others, unless it is known, and gives it the next number.
#[tactic(auto, using(crate::proofs::Lists::names_behind))]
fn add_name<'a>(
    alloc: Global,
    known: bool,
    numbers: &mut LabelNumbers<'a>,
    names: &mut List<Name>,
    name: &'a [u8],
) -> Result<(), Memory>
    requires { known ≡ has_label numbers.old name.now }
    ensures numbers { OnOk result (numbers.new ≡ spec.with_number name.now numbers.old) }
    ensures names { OnOk result (names.new ≡ names.old ++ spec.new_name (has_label numbers.old name.now) name.now []) }
{
    if known {
        return Ok(());
    }
    names.push(name_of(alloc, name)?)?;
    numbers.add_new(name)
}

/// The labels with these tokens as their names. Those whose name an earlier one has are reported.
#[tactic(auto, using(crate::proofs::Lists::one_behind))]
pub fn function_labels<'a>(
    alloc: Global,
    words: &Words<'a>,
    faults: &mut Stack<Fault>,
    labels: Stack<u32>,
) -> Result<FunctionLabels<'a>, Memory>
    ensures numbers { IfOk result (λ t. t.numbers ≡ spec.numbers (map (words_of words.now) labels)) }
    ensures names { IfOk result (λ t. t.names ≡ spec.distinct (map (words_of words.now) labels)) }
    ensures faults { OnOk result (faults.new ≡ spec.twice_faults (words_of words.now) labels faults.old) }
{
    let mut left = labels;
    let mut numbers = LabelNumbers::new(alloc);
    let mut names = List::new(alloc);
    while let Some(at) = left.pop() {
        let name = words.get(at);
        let known = numbers.has(name);
        report_if(faults, known, at, reasons::LABEL_TWICE)?;
        add_name(alloc, known, &mut numbers, &mut names, name)?;
    }
    Ok(FunctionLabels { numbers, names })
}
