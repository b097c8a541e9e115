//! Violations of the use of an operand, and of arguments.

ghost use Rattle.std.specs.Prelude.{◌≡◌, OnOk};
ghost use Rattle.c_kinds.specs.Calls as spec;
ghost use Rattle.c_kinds.specs.Values as values;
ghost use Rattle.c_kinds.specs.Scopes.{fault as the_fault, fault_if};

use crate::binding::Want;
use crate::marks::is_wide;
use crate::typed::{ArrayName, Fault, Given, Typed};
use c_types::{IntKind, Memory, Stack, reasons};

/// Whether two kinds are the same.
pub fn same_kind(a: IntKind, b: IntKind) -> bool
    ensures { result ≡ spec.same_kind a b }
{
    match a {
        IntKind::Char => matches!(b, IntKind::Char),
        IntKind::UChar => matches!(b, IntKind::UChar),
        IntKind::Int => matches!(b, IntKind::Int),
        IntKind::UInt => matches!(b, IntKind::UInt),
        IntKind::Long => matches!(b, IntKind::Long),
        IntKind::ULong => matches!(b, IntKind::ULong),
    }
}

/// Whether both hold or neither does.
pub fn same_truth(a: bool, b: bool) -> bool
    ensures { result ≡ spec.same_truth a b }
{
    if a { b } else { !b }
}

/// Puts a violation in front of those that were found before.
pub fn report(faults: &mut Stack<Fault>, at: u32, reason: u32) -> Result<(), Memory>
    ensures { OnOk result (faults.new ≡ the_fault at reason faults.old) }
{
    faults.push(Fault { at, reason })
}

/// Puts a violation in front of others where there is one.
pub fn report_if(faults: &mut Stack<Fault>, wrong: bool, at: u32, reason: u32) -> Result<(), Memory>
    ensures { OnOk result (faults.new ≡ fault_if wrong at reason faults.old) }
{
    if wrong {
        report(faults, at, reason)
    } else {
        Ok(())
    }
}

/// Reports an operand whose value is dropped and that may not stand there.
pub fn report_drop(faults: &mut Stack<Fault>, first: u32, x: &Typed) -> Result<(), Memory>
    ensures { OnOk result (faults.new ≡ values.drop_fault first x.now faults.old) }
{
    match x {
        Typed::Text(_) => report(faults, first, reasons::BAD_PRINTF),
        Typed::Array(a) => report(faults, a.token, reasons::WRONG_KIND),
        _ => Ok(()),
    }
}

/// Reports an operand whose value is used and that has none.
pub fn report_use(faults: &mut Stack<Fault>, first: u32, x: &Typed) -> Result<(), Memory>
    ensures { OnOk result (faults.new ≡ values.use_fault first x.now faults.old) }
{
    match x {
        Typed::Void(_) => report(faults, first, reasons::VOID_USED),
        _ => report_drop(faults, first, x),
    }
}

fn report_text(faults: &mut Stack<Fault>, first: u32, x: &Typed) -> Result<(), Memory>
    ensures { OnOk result (faults.new ≡ values.text_fault first x.now faults.old) }
{
    match x {
        Typed::Text(_) => report(faults, first, reasons::BAD_PRINTF),
        _ => Ok(()),
    }
}

fn report_array(
    faults: &mut Stack<Fault>,
    kind: IntKind,
    constant: bool,
    external: bool,
    first: u32,
    a: &ArrayName,
) -> Result<(), Memory>
    ensures { OnOk result (faults.new ≡ spec.array_fault kind constant external first a.now faults.old) }
{
    report_if(faults, !same_kind(kind, a.kind), first, reasons::WRONG_KIND)?;
    report_if(
        faults,
        a.constant && !constant,
        a.token,
        reasons::CONST_ASSIGNED,
    )?;
    report_if(faults, external, first, reasons::ARRAY_HANDED_OUT)
}

fn report_number(faults: &mut Stack<Fault>, first: u32, x: &Typed) -> Result<(), Memory>
    ensures { OnOk result (faults.new ≡ spec.number_fault first x.now faults.old) }
{
    match x {
        Typed::Array(_) => report(faults, first, reasons::WRONG_KIND),
        _ => report_use(faults, first, x),
    }
}

fn report_array_want(
    faults: &mut Stack<Fault>,
    kind: IntKind,
    constant: bool,
    external: bool,
    first: u32,
    x: &Typed,
) -> Result<(), Memory>
    ensures { OnOk result (faults.new ≡ spec.array_want_fault kind constant external first x.now faults.old) }
{
    match x {
        Typed::Array(a) => report_array(faults, kind, constant, external, first, a),
        Typed::Value(_) => report(faults, first, reasons::WRONG_KIND),
        _ => report_use(faults, first, x),
    }
}

fn report_sized(faults: &mut Stack<Fault>, wide: bool, first: u32, x: &Typed) -> Result<(), Memory>
    ensures { OnOk result (faults.new ≡ spec.sized_fault wide first x.now faults.old) }
{
    match x {
        Typed::Value(v) => report_if(
            faults,
            !same_truth(wide, is_wide(v.kind)),
            first,
            reasons::BAD_PRINTF,
        ),
        _ => report_number(faults, first, x),
    }
}

fn report_argument(faults: &mut Stack<Fault>, want: Want, given: &Given) -> Result<(), Memory>
    ensures { OnOk result (faults.new ≡ spec.argument_fault want given.now.first given.now.typed faults.old) }
{
    match want {
        Want::Number(_, _) => report_number(faults, given.first, &given.typed),
        Want::Array(kind, constant, external) => {
            report_array_want(faults, kind, constant, external, given.first, &given.typed)
        }
        Want::Sized(wide) => report_sized(faults, wide, given.first, &given.typed),
    }
}

/// Reports the texts among arguments of which nothing is known to be wanted.
pub fn report_texts(faults: &mut Stack<Fault>, given: &[Given]) -> Result<(), Memory>
    ensures { OnOk result (faults.new ≡ spec.text_faults given.now faults.old) }
{
    for g in given {
        report_text(faults, g.first, &g.typed)?;
    }
    Ok(())
}

#[tactic(auto, using(crate::proofs::Arguments::ends))]
fn report_each(faults: &mut Stack<Fault>, wants: &[Want], given: &[Given]) -> Result<(), Memory>
    ensures { OnOk result (faults.new ≡ spec.argument_faults wants.now given.now faults.old) }
{
    for (i, x) in given.iter().enumerate() {
        let Some(want) = wants.get(i) else {
            return Ok(());
        };
        report_argument(faults, *want, x)?;
    }
    Ok(())
}

/// Reports arguments that are not what is wanted, with the reason where their number isn't.
pub fn report_wanted(
    faults: &mut Stack<Fault>,
    at: u32,
    reason: u32,
    wants: &[Want],
    given: &[Given],
) -> Result<(), Memory>
    ensures { OnOk result (faults.new ≡ spec.wanted_faults at reason wants.now given.now faults.old) }
{
    if wants.len() == given.len() {
        return report_each(faults, wants, given);
    }
    report_texts(faults, given)?;
    report(faults, at, reason)
}
