ghost use Rattle.std.specs.Prelude.{◌≡◌, ℕ, List, ◌∷◌, not, ◌&&◌, IfOk, OnOk};
ghost use Rattle.jump_meaning.specs.Calls.{lacks as the_lacks, returned, fallen};
ghost use Rattle.jump_meaning.specs.Code.{function_tree};
ghost use Rattle.jump_meaning.specs.Effects.{top};
ghost use Rattle.jump_meaning.specs.Step.{begin_call, leave as the_leave};
ghost use Rattle.jump_meaning.specs.World.{World, push};
ghost use Rattle.step_memory.specs.Stores.{names_of};
ghost use Rattle.step_memory.specs.Values.{value_of, values_of};
ghost use Rattle.step_tasks.specs.Controls.{body_of};
ghost use Rattle.step_tasks.specs.Labels.{AreLabelsOf};
ghost use Rattle.step_interp.specs.Machines.{HasWorld, IsFunctionOf, IsGiven, frames_of};
ghost use Rattle.step_interp.specs.Moves.{EndsRun, Reaches, with_waiting};

use crate::functions::Functions;
use crate::lookup::cells_of;
use crate::slots::rooms_at_start;
use crate::spare::begun;
use c_tree::{Function, Program};
use c_types::{Bytes, Memory, Stack, Trap, convert};
use std::alloc::Global;
use std::mem;
use step_memory::{Store, Value};
use step_tasks::{Call, Labels, Tasks, Values, drops_next, integer, leave_number, take};

/// The most calls in one another.
pub const MOST_CALLS: u32 = 10000;

/// The most cells of arrays that are present.
pub const MOST_CELLS: u64 = 4194304;

/// A run at one time: the functions of its program, its variables, the newest call, the calls that wait
/// for it, the newest first, and the number of cells of arrays that are present. What stands in the spare
/// stacks is of no use: the next call takes their memory.
#[derive(Drop)]
pub struct Machine<'t, 'a> {
    pub alloc: Global,
    pub program: &'a Program,
    pub functions: &'t Functions<'a>,
    pub store: Store<'a>,
    pub call: Call<'t, 'a>,
    pub waiting: Stack<Call<'t, 'a>>,
    pub cells: u64,
    pub spare_tasks: Tasks<'a>,
    pub spare_values: Values<'a>,
}

/// What a step comes to.
#[derive(Drop)]
pub enum Next {
    Goes,
    /// The next byte of the input is the value of a call.
    Reads,
    Writes(u8),
    Prints(Bytes),
    Ends(i128),
    Traps(Trap),
}

/// Whether the value is missing that the function should give.
fn lacks(function: &Function, value: Value<'_>) -> bool
    ensures { (ns : List (List ℕ)) → result ≡ the_lacks (function_tree function.now) (value_of ns value.entry) }
{
    match value {
        Value::Missing => function.result.is_some(),
        _ => false,
    }
}

/// Whether a value that is missing would be used.
fn is_refused(lacking: bool, dropped: bool) -> bool
    ensures { result ≡ (lacking && not dropped) }
{
    lacking && !dropped
}

/// The end of the run with the value of its first call.
fn end_run(function: &Function, value: Value<'_>) -> Next
    ensures { (ns : List (List ℕ)) (w : World) → EndsRun function.now (value_of ns value.entry) w result }
{
    if lacks(function, value) {
        return Next::Traps(Trap::NoValue);
    }
    Next::Ends(integer(value))
}

impl<'t, 'a> Machine<'t, 'a> {
    /// The byte that was read, or -1 at the end of the input, is the value of the call.
    pub fn give(&mut self, number: i128) -> Result<(), Memory>
        ensures ok { OnOk result (IsGiven number self.old self.new) }
        ensures program { self.new.program ≡ self.old.program }
    {
        leave_number(&mut self.call.values, number)
    }

    /// The newest call is over, and leaves its value with the one that called it.
    fn return_to(&mut self, caller: Call<'t, 'a>, value: Value<'a>) -> Result<Next, Memory>
        ensures program { self.new.program ≡ self.old.program }
        ensures ok { IfOk result (λ next. (w : World) → HasWorld (with_waiting caller.entry self.old) w
            → Reaches ⊥ (the_leave (function_tree self.old.call.function.now) (value_of (names_of self.old.store) value.entry) (frames_of (names_of self.old.store) (caller.entry ∷ self.old.waiting)) w) w next self.new) }
    {
        let mut caller = caller;
        let dropped = drops_next(&mut caller.tasks);
        if is_refused(lacks(self.call.function, value), dropped) {
            return Ok(Next::Traps(Trap::NoValue));
        }
        caller.values.push(value)?;
        self.cells = self
            .cells
            .saturating_sub(cells_of(&self.call.function.slots));
        self.store.leave();
        mem::swap(&mut self.spare_tasks, &mut self.call.tasks);
        mem::swap(&mut self.spare_values, &mut self.call.values);
        self.call = caller;
        Ok(Next::Goes)
    }

    /// The newest call is over, and leaves its value.
    fn leave(&mut self, value: Value<'a>) -> Result<Next, Memory>
        ensures program { self.new.program ≡ self.old.program }
        ensures ok { IfOk result (λ next. (w : World) → HasWorld self.old w
            → Reaches ⊥ (the_leave (function_tree self.old.call.function.now) (value_of (names_of self.old.store) value.entry) (frames_of (names_of self.old.store) self.old.waiting) w) w next self.new) }
    {
        match self.waiting.pop() {
            Some(caller) => self.return_to(caller, value),
            None => Ok(end_run(self.call.function, value)),
        }
    }

    /// The end of a call with a value.
    pub fn end(&mut self) -> Result<Next, Memory>
        ensures program { self.new.program ≡ self.old.program }
        ensures ok { IfOk result (λ next. (w : World) → HasWorld self.old w
            → Reaches ⊥ (the_leave (function_tree self.old.call.function.now) (returned (function_tree self.old.call.function.now) (top (values_of (names_of self.old.store) self.old.call.values))) (frames_of (names_of self.old.store) self.old.waiting) w) w next self.new) }
    {
        let value = take(&mut self.call.values);
        match self.call.function.result {
            Some(kind) => self.leave(Value::Integer(convert(kind, integer(value)))),
            None => self.leave(Value::Missing),
        }
    }

    /// The end of a call without a value.
    pub fn fall(&mut self) -> Result<Next, Memory>
        ensures program { self.new.program ≡ self.old.program }
        ensures ok { IfOk result (λ next. (w : World) → HasWorld self.old w
            → Reaches ⊥ (the_leave (function_tree self.old.call.function.now) (fallen self.old.call.function.now.name) (frames_of (names_of self.old.store) self.old.waiting) w) w next self.new) }
    {
        if self.call.function.name.as_str() == "main" {
            self.leave(Value::Integer(0))
        } else {
            self.leave(Value::Missing)
        }
    }

    /// A call of a function with a body, which has these labels, with these arguments, the first one on
    /// top.
    pub fn enter(
        &mut self,
        function: &'a Function,
        labels: &'t Labels<'a>,
        arguments: Values<'a>,
    ) -> Result<Next, Memory>
        ensures program { self.new.program ≡ self.old.program }
        ensures ok { IfOk result (λ next. IsFunctionOf self.old.program.now function.now → AreLabelsOf function.now labels.now → (w : World) → HasWorld self.old w
            → Reaches ⊥ (begin_call function.now.name (body_of function.now) (push (function_tree function.now) (values_of (names_of self.old.store) arguments.entry) w) (frames_of (names_of self.old.store) (self.old.call ∷ self.old.waiting)) w) w next self.new) }
    {
        if self.store.newest >= MOST_CALLS {
            return Ok(Next::Traps(Trap::Calls));
        }
        let cells = self.cells.saturating_add(cells_of(&function.slots));
        if cells > MOST_CELLS {
            return Ok(Next::Traps(Trap::Cells));
        }
        let mut arguments = arguments;
        let rooms = rooms_at_start(self.alloc, function, &mut arguments)?;
        let tasks = mem::replace(&mut self.spare_tasks, Tasks::new(self.alloc));
        let call = begun(self.alloc, function, labels, tasks, arguments)?;
        self.store.enter(rooms)?;
        self.cells = cells;
        let caller = mem::replace(&mut self.call, call);
        self.waiting.push(caller)?;
        Ok(Next::Goes)
    }
}
