//! Calls: what they are by their arguments, and their violations.

ghost use Rattle.std.specs.Prelude.{◌≡◌, ◌++◌, ◌∷◌, [], IfOk, OnOk};
ghost use Rattle.std.specs.Option.{option_copied};
ghost use Rattle.c_kinds.specs.Calls as spec;
ghost use Rattle.c_kinds.specs.Formats.{wanted as the_wanted};
ghost use Rattle.c_kinds.specs.Scopes.{fault as the_fault};

use crate::binding::{Binding, Want};
use crate::faults::{report, report_texts, report_wanted, same_kind, same_truth};
use crate::formats::wanted;
use crate::marks::is_wide;
use crate::names::name_of;
use crate::typed::{ArrayName, Fault, Given, Typed};
use crate::values::{expression, expression_of, of_result};
use c_tree::{Expression, Node};
use c_types::{Bytes, IntKind, List, Memory, Stack, reasons};
use std::alloc::Global;

fn array_fits(kind: IntKind, constant: bool, external: bool, a: &ArrayName) -> bool
    ensures { result ≡ spec.array_fits kind constant external a.now }
{
    same_kind(kind, a.kind) && (constant || !a.constant) && !external
}

fn fits(want: Want, x: &Typed) -> bool
    ensures { result ≡ spec.fits want x.now }
{
    match (want, x) {
        (Want::Number(_, _), Typed::Value(_)) => true,
        (Want::Array(kind, constant, external), Typed::Array(a)) => {
            array_fits(kind, constant, external, a)
        }
        (Want::Sized(wide), Typed::Value(v)) => same_truth(wide, is_wide(v.kind)),
        _ => false,
    }
}

#[tactic(auto, using(crate::proofs::Arguments::ends))]
fn each_fits(wants: &[Want], given: &[Given]) -> bool
    ensures { result ≡ spec.each_fits wants.now given.now }
{
    for (i, x) in given.iter().enumerate() {
        let Some(want) = wants.get(i) else {
            return true;
        };
        if !fits(*want, &x.typed) {
            return false;
        }
    }
    true
}

fn all_fit(wants: &[Want], given: &[Given]) -> bool
    ensures { result ≡ spec.all_fit wants.now given.now }
{
    wants.len() == given.len() && each_fits(wants, given)
}

fn hand(out: &mut List<Expression>, x: Typed) -> Result<(), Memory>
    ensures { OnOk result (out.new ≡ out.old ++ spec.handed x) }
{
    match x {
        Typed::Value(v) => out.push(expression(v)),
        Typed::Array(a) => out.push(expression_of(Some(a.kind), Node::Array(a.home))),
        other => {
            drop(other);
            Ok(())
        }
    }
}

/// These expressions, and what a call has of the given arguments behind them.
#[tactic(auto, using(crate::proofs::Arguments::appended))]
fn handed(front: List<Expression>, given: List<Given>) -> Result<List<Expression>, Memory>
    ensures { IfOk result (λ es. es ≡ front ++ spec.all_handed given) }
{
    let mut out = front;
    for x in given.into_vec() {
        hand(&mut out, x.typed)?;
    }
    Ok(out)
}

/// A call with these arguments in front of the given ones, where they are what is wanted.
fn call_with(
    alloc: Global,
    kind: Option<IntKind>,
    name: &[u8],
    front: List<Expression>,
    wants: &[Want],
    given: List<Given>,
) -> Result<Typed, Memory>
    ensures { IfOk result (λ x. x ≡ spec.call kind name.now front wants.now given) }
{
    if !all_fit(wants, given.as_slice()) {
        return Ok(Typed::Wrong);
    }
    let arguments = handed(front, given)?;
    let name = name_of(alloc, name)?;
    Ok(of_result(kind, Node::Call(name, arguments)))
}

/// A call that is wrong for this reason, whatever its arguments are.
fn wrong_call(
    faults: &mut Stack<Fault>,
    at: u32,
    reason: u32,
    given: &[Given],
) -> Result<Typed, Memory>
    ensures value { IfOk result (λ x. x ≡ Typed.Wrong) }
    ensures faults { OnOk result (faults.new ≡ the_fault at reason (spec.text_faults given.now faults.old)) }
{
    report_texts(faults, given)?;
    report(faults, at, reason)?;
    Ok(Typed::Wrong)
}

/// A call of `printf` with this text, by what the text wants.
fn printing(
    alloc: Global,
    faults: &mut Stack<Fault>,
    at: u32,
    name: &[u8],
    bytes: Bytes,
    given: List<Given>,
) -> Result<Typed, Memory>
    ensures value { IfOk result (λ x. x ≡ spec.printing name.now bytes (the_wanted bytes) given) }
    ensures faults { OnOk result (faults.new ≡ spec.printing_faults at (the_wanted bytes) given faults.old) }
{
    let Some(wants) = wanted(alloc, bytes.as_slice())? else {
        return wrong_call(faults, at, reasons::BAD_PRINTF, given.as_slice());
    };
    report_wanted(
        faults,
        at,
        reasons::BAD_PRINTF,
        wants.as_slice(),
        given.as_slice(),
    )?;
    let mut front = List::new(alloc);
    front.push(expression_of(None, Node::Text(bytes)))?;
    call_with(
        alloc,
        Some(IntKind::Int),
        name,
        front,
        wants.as_slice(),
        given,
    )
}

fn text_of(x: Typed) -> Option<Bytes>
    ensures { result ≡ spec.text_of x }
{
    match x {
        Typed::Text(bytes) => Some(bytes),
        other => {
            drop(other);
            None
        }
    }
}

/// A call of `printf`.
fn printf(
    alloc: Global,
    faults: &mut Stack<Fault>,
    at: u32,
    name: &[u8],
    given: List<Given>,
) -> Result<Typed, Memory>
    ensures value { IfOk result (λ x. x ≡ spec.printf name.now given) }
    ensures faults { OnOk result (faults.new ≡ spec.printf_faults at given faults.old) }
{
    let mut given = given;
    if given.is_empty() {
        return wrong_call(faults, at, reasons::BAD_PRINTF, given.as_slice());
    }
    let format = given.remove(0);
    match text_of(format.typed) {
        Some(bytes) => printing(alloc, faults, at, name, bytes, given),
        None => wrong_call(faults, at, reasons::BAD_PRINTF, given.as_slice()),
    }
}

/// A call of the name of a token, by what it is bound to, and its violations.
pub fn call(
    alloc: Global,
    faults: &mut Stack<Fault>,
    at: u32,
    name: &[u8],
    binding: Option<&Binding>,
    given: List<Given>,
) -> Result<Typed, Memory>
    ensures value { IfOk result (λ x. x ≡ spec.called name.now (option_copied binding.entry) given) }
    ensures faults { OnOk result (faults.new ≡ spec.call_faults at (option_copied binding.entry) given faults.old) }
{
    match binding {
        Some(Binding::Function(signature)) => {
            let wants = signature.wants.as_slice();
            report_wanted(faults, at, reasons::WRONG_COUNT, wants, given.as_slice())?;
            call_with(
                alloc,
                signature.result,
                name,
                List::new(alloc),
                wants,
                given,
            )
        }
        Some(Binding::Printf) => printf(alloc, faults, at, name, given),
        Some(_) => wrong_call(faults, at, reasons::WRONG_KIND, given.as_slice()),
        None => wrong_call(faults, at, reasons::NOT_DECLARED, given.as_slice()),
    }
}
