//! The scopes around a place, by a log of what was entered and bound.

ghost use Rattle.std.specs.Prelude.{◌≡◌, [], ◌∷◌, cond, drop, false, is_some, reverse, IfOk, OnOk, IsSome};
ghost use Rattle.std.specs.Map.{count_at};
ghost use Rattle.std.specs.BTreeMap.{get, Updates};
ghost use Rattle.std.specs.Option.{option_copied};
ghost use Rattle.c_types.specs.Words.{name_cmp};
ghost use Rattle.c_kinds.specs.Scopes as spec;
ghost use Rattle.c_kinds.specs.ScopeLogs as logs;

use crate::binding::{Binding, Signature, Want};
use c_types::{IntKind, List, Memory};
use name_keys::{Key, key_of};
use std::alloc::Global;
use std::collections::BTreeMap;
use std::marker::Model;

/// A known function with one `int` as its argument, or none.
fn takes(alloc: Global, kind: Option<IntKind>, number: bool) -> Result<Binding, Memory>
    ensures { IfOk result (λ b. b ≡ spec.takes kind (cond number (Want.Number IntKind.Int false ∷ []) [])) }
{
    let mut wants = List::new(alloc);
    if number {
        wants.push(Want::Number(IntKind::Int, false))?;
    }
    Ok(Binding::Function(Signature {
        result: kind,
        wants,
    }))
}

/// A step of the log, with the number of the one that it takes the place of, or 0.
#[derive(Drop)]
enum Step<'a> {
    /// A scope was entered.
    Enter(usize),
    /// A name was bound in the nearest scope.
    Bind(Key<'a>, usize, Binding),
}

/// The number of the last step that bound the name, or 0.
fn number_of<'a>(numbers: &BTreeMap<Key<'a>, usize>, name: &'a [u8]) -> usize
    ensures { result ≡ count_at (get name_cmp numbers.now) name.now }
{
    match numbers.get(&key_of(name)) {
        Some(number) => *number,
        None => 0,
    }
}

/// Gives a name that has a number another one. This takes no memory.
fn set_number<'a>(numbers: &mut BTreeMap<Key<'a>, usize>, name: &Key<'a>, number: usize)
    requires { IsSome (get name_cmp numbers.old name.now) }
    ensures { Updates name_cmp numbers.old numbers.new name.now (Some number) }
{
    if let Some(old) = numbers.get_mut(name) {
        *old = number;
    }
}

fn bound_in<'s>(step: &'s Step) -> Option<&'s Binding>
    ensures { option_copied result ≡ logs.bound_in step.now }
{
    match step {
        Step::Enter(_) => None,
        Step::Bind(_, _, binding) => Some(binding),
    }
}

/// What the step with the number bound.
#[tactic(auto, using(crate::proofs::ScopeLaws::bound_by_place))]
fn bound_by<'s>(steps: &'s List<Step>, number: usize) -> Option<&'s Binding>
    ensures { option_copied result ≡ logs.bound_by number (reverse steps.now) }
{
    if number == 0 {
        return None;
    }
    match steps.get(number - 1) {
        Some(step) => bound_in(step),
        None => None,
    }
}

/// Takes back what the nearest scope bound, and the scope. The result is the number of the step
/// that entered the one around it.
fn take_back<'a>(steps: &mut List<Step<'a>>, numbers: &mut BTreeMap<Key<'a>, usize>) -> usize
    requires log { logs.IsLog (reverse steps.old) }
    requires last { logs.HasLast numbers.old (reverse steps.old) }
    ensures left { logs.scopes_after (reverse steps.new) ≡ drop 1 (logs.scopes_after (reverse steps.old)) }
    ensures log { logs.IsLog (reverse steps.new) }
    ensures last { logs.HasLast numbers.new (reverse steps.new) }
    ensures entered { result ≡ logs.last_entered (reverse steps.new) }
{
    while let Some(step) = steps.pop() {
        match step {
            Step::Enter(outer) => return outer,
            Step::Bind(name, before, _binding) => set_number(numbers, &name, before),
        }
    }
    0
}

/// The scopes around a place, which contracts see with the nearest first.
#[derive(Drop)]
pub struct Scopes<'a> {
    steps: List<Step<'a>>,
    entered: usize,
    numbers: BTreeMap<Key<'a>, usize>,
}

impl<'a> Model for Scopes<'a> {
    ghost use Rattle.std.specs.Prelude.{◌≡◌, List, ℕ, reverse};
    ghost use Rattle.c_kinds.specs.declared.binding.Binding.{Binding};

    ghost Value = { List (List (List ℕ × Binding)) };

    ghost use Rattle.c_kinds.specs.ScopeLogs.{scopes_after, last_entered, IsLog, HasLast};

    ghost view = { λ it. scopes_after (reverse it.steps) };

    ghost invariant = { λ it. IsLog (reverse it.steps) × (it.entered ≡ last_entered (reverse it.steps)) × HasLast it.numbers (reverse it.steps) };
}

impl<'a> Scopes<'a> {
    /// No scopes.
    fn new(alloc: Global) -> Scopes<'a>
        ensures { result ≡ [] }
    {
        Scopes {
            steps: List::new(alloc),
            entered: 0,
            numbers: BTreeMap::new(alloc),
        }
    }

    /// The scope around the file, which has the known functions.
    pub fn known(alloc: Global) -> Result<Scopes<'a>, Memory>
        ensures { IfOk result (λ it. it ≡ spec.known_scope ∷ []) }
    {
        let mut scopes = Scopes::new(alloc);
        scopes.enter(alloc)?;
        scopes.bind(b"abort", takes(alloc, None, false)?)?;
        scopes.bind(b"exit", takes(alloc, None, true)?)?;
        scopes.bind(b"getchar", takes(alloc, Some(IntKind::Int), false)?)?;
        scopes.bind(b"printf", Binding::Printf)?;
        scopes.bind(b"putchar", takes(alloc, Some(IntKind::Int), true)?)?;
        Ok(scopes)
    }

    /// Enters a scope without names.
    pub fn enter(&mut self, _alloc: Global) -> Result<(), Memory>
        ensures { OnOk result (self.new ≡ [] ∷ self.old) }
    {
        self.steps.push(Step::Enter(self.entered))?;
        self.entered = self.steps.len();
        Ok(())
    }

    /// Leaves the nearest scope. This takes no memory.
    pub fn leave(&mut self)
        ensures { self.new ≡ drop 1 self.old }
    {
        self.entered = take_back(&mut self.steps, &mut self.numbers);
    }

    /// Binds a name that the nearest scope doesn't have.
    pub fn bind(&mut self, name: &'a [u8], binding: Binding) -> Result<(), Memory>
        ensures { OnOk result (self.new ≡ spec.bind name.now binding self.old) }
    {
        let before = number_of(&self.numbers, name);
        if self.entered == 0 || before > self.entered {
            return Ok(());
        }
        self.steps.push(Step::Bind(key_of(name), before, binding))?;
        if let Err(_) = self.numbers.insert(key_of(name), self.steps.len()) {
            self.steps.pop();
            return Err(Memory);
        }
        Ok(())
    }

    /// What the nearest scope has the name bound to.
    #[tactic(auto, using(crate::proofs::ScopeLaws::bound_is))]
    pub fn bound(&self, name: &'a [u8]) -> Option<&Binding>
        ensures { option_copied result ≡ spec.bound name.now self.now }
    {
        let number = number_of(&self.numbers, name);
        if number > self.entered {
            bound_by(&self.steps, number)
        } else {
            None
        }
    }

    /// Whether the nearest scope has the name.
    pub fn is_bound(&self, name: &'a [u8]) -> bool
        ensures { result ≡ spec.is_bound name.now self.now }
    {
        self.bound(name).is_some()
    }

    /// What the name is bound to in the nearest scope that has it.
    #[tactic(auto, using(crate::proofs::ScopeLaws::look_up_is))]
    pub fn look_up(&self, name: &'a [u8]) -> Option<&Binding>
        ensures { option_copied result ≡ spec.look_up self.now name.now }
    {
        bound_by(&self.steps, number_of(&self.numbers, name))
    }
}
