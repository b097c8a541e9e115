ghost use Rattle.std.specs.Prelude.{◌≡◌, ◌+◌, ◌≤◌, [], None, get_or, length, IfOk, OnOk};
ghost use Rattle.c_copies.specs.Names.{with_name};
ghost use Rattle.c_fresh_names.specs.Fresh.{numbered as the_numbered, fresh as the_fresh};
ghost use Rattle.flat_names.specs.Gathered.{all_used};
ghost use Rattle.flat_names.specs.FlatNames.{Gets, label_of as the_label_of, named_or, naming, chosen, used_then, label_names as the_label_names};

use crate::giving::Made;
use c_fresh_names::{UsedNames, numbered};
use c_types::{List, Memory, Name};
use std::alloc::Global;

/// Which label a code is.
#[derive(Clone, Copy)]
pub enum Label {
    /// A label of the source.
    OfSource(u32),
    /// The label behind a loop or switch.
    OfBreak(u32),
    /// The label before the end of a loop's body.
    OfContinue(u32),
    /// The label of the default of a scattered switch.
    OfDefault(u32),
    /// The label of a case of the scattered switches.
    OfCase(u32),
}

fn label_of(count: u32, code: u32) -> Label
    ensures { result ≡ the_label_of count code }
{
    if code < count {
        Label::OfSource(code)
    } else {
        let made = code - count;
        let k = made / 4;
        match made % 4 {
            0 => Label::OfBreak(k),
            1 => Label::OfContinue(k),
            2 => Label::OfDefault(k),
            _ => Label::OfCase(k),
        }
    }
}

/// The name at the place, or an empty one past the last.
pub fn own_name(alloc: Global, names: &[Name], at: u32) -> Result<Name, Memory>
    ensures { IfOk result (λ it. it ≡ get_or names.now at []) }
{
    let at = at as usize;
    if at < names.len() {
        names[at].copy(alloc)
    } else {
        Ok(Name::from_string(String::new(alloc)))
    }
}

/// A name that is not used, of the base and a number. It is used then.
pub fn made_name(alloc: Global, base: &str, k: u64, used: &mut UsedNames) -> Result<Name, Memory>
    ensures name { IfOk result (λ it. it ≡ the_fresh (the_numbered base.now k) (all_used used.old)) }
    ensures used { IfOk result (λ it. all_used used.new ≡ with_name (all_used used.old) it) }
    ensures file { used.new.file ≡ used.old.file }
{
    let base = numbered(alloc, base, k)?;
    let name = used.fresh(alloc, base.as_str())?;
    used.add(alloc, name.as_str())?;
    Ok(name)
}

/// The name that was given to a label, or one of the base.
fn name_or(
    alloc: Global,
    given: &Option<Name>,
    base: &str,
    k: u32,
    used: &mut UsedNames,
) -> Result<Name, Memory>
    ensures name { IfOk result (λ it. it ≡ chosen (named_or given.now (the_numbered base.now (k + 1))) (all_used used.old)) }
    ensures used { OnOk result (all_used used.new ≡ used_then (named_or given.now (the_numbered base.now (k + 1))) (all_used used.old)) }
    ensures file { used.new.file ≡ used.old.file }
{
    match given {
        Some(name) => name.copy(alloc),
        None => made_name(alloc, base, k as u64 + 1, used),
    }
}

fn optional_name(
    alloc: Global,
    given: &[Option<Name>],
    base: &str,
    k: u32,
    used: &mut UsedNames,
) -> Result<Name, Memory>
    ensures name { IfOk result (λ it. it ≡ chosen (named_or (get_or given.now k None) (the_numbered base.now (k + 1))) (all_used used.old)) }
    ensures used { OnOk result (all_used used.new ≡ used_then (named_or (get_or given.now k None) (the_numbered base.now (k + 1))) (all_used used.old)) }
    ensures file { used.new.file ≡ used.old.file }
{
    let at = k as usize;
    if at < given.len() {
        name_or(alloc, &given[at], base, k, used)
    } else {
        made_name(alloc, base, k as u64 + 1, used)
    }
}

fn label_name(
    alloc: Global,
    labels: &[Name],
    made: &Made,
    label: Label,
    used: &mut UsedNames,
) -> Result<Name, Memory>
    ensures name { IfOk result (λ it. it ≡ chosen (naming labels.now made.now label) (all_used used.old)) }
    ensures used { OnOk result (all_used used.new ≡ used_then (naming labels.now made.now label) (all_used used.old)) }
    ensures file { used.new.file ≡ used.old.file }
{
    match label {
        Label::OfSource(l) => own_name(alloc, labels, l),
        Label::OfBreak(k) => optional_name(alloc, made.breaks.as_slice(), "break", k, used),
        Label::OfContinue(k) => made_name(alloc, "continue", k as u64 + 1, used),
        Label::OfDefault(k) => optional_name(alloc, made.defaults.as_slice(), "default", k, used),
        Label::OfCase(j) => own_name(alloc, made.cases.as_slice(), j),
    }
}

/// The names of labels with these codes, in their order, of a function that has these labels. Want of
/// memory is the only failure.
pub fn label_names(
    alloc: Global,
    labels: &[Name],
    made: &Made,
    used: &mut UsedNames,
    codes: &[u32],
) -> Result<List<Name>, Memory>
    requires { length labels.now ≤ 4294967295 }
    ensures value { IfOk result (λ it. it ≡ the_label_names labels.now made.now (all_used used.old) codes.now) }
    ensures file { used.new.file ≡ used.old.file }
{
    let mut out = List::new(alloc);
    for i in 0..codes.len() {
        let label = label_of(labels.len() as u32, codes[i]);
        let name = label_name(alloc, labels, made, label, used)?;
        out.push(name)?;
    }
    Ok(out)
}
