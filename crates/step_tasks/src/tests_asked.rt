ghost use Rattle.std.specs.Prelude.{◌≡◌, OnOk};
ghost use Rattle.c_tree.specs.TestTrees.{test_tree, selector_tree};
ghost use Rattle.jump_meaning.specs.Tasks.{Asks, AsksSelector, Arms};
ghost use Rattle.step_tasks.specs.Controls.{MovesAlways};

use crate::added::{add, add_two};
use crate::call::Call;
use crate::guards::{is_set, reset_guard, set_guard};
use crate::operate::operand_kind;
use crate::pending::{leave_constant, leave_number, leave_truth, take_truth};
use crate::work::{Task, Use};
use c_tree::{Selector, Test};
use c_types::{Memory, promote};

/// Takes the value that decides the guard of a label.
pub fn arm(call: &mut Call<'_, '_>, label: u32) -> Result<(), Memory>
    ensures function { call.new.function ≡ call.old.function }
    ensures labels { call.new.labels ≡ call.old.labels }
    ensures ok { OnOk result (MovesAlways (Arms label) call.old call.new) }
{
    if take_truth(&mut call.values) {
        return set_guard(&mut call.guards, label);
    }
    reset_guard(&mut call.guards, label);
    Ok(())
}

/// Leaves whether a test holds, or has it computed.
pub fn ask<'a>(call: &mut Call<'_, 'a>, test: &'a Test) -> Result<(), Memory>
    ensures function { call.new.function ≡ call.old.function }
    ensures labels { call.new.labels ≡ call.old.labels }
    ensures ok { OnOk result (MovesAlways (Asks (test_tree test.now)) call.old call.new) }
{
    match test {
        Test::Source(e) => add(&mut call.tasks, Task::With(Use::Compute, e)),
        Test::On(label) => leave_truth(&mut call.values, is_set(&call.guards, *label)),
        Test::Off(label) => leave_truth(&mut call.values, !is_set(&call.guards, *label)),
        Test::AndOff(label, rest) => {
            if is_set(&call.guards, *label) {
                return leave_number(&mut call.values, 0);
            }
            add(&mut call.tasks, Task::Ask(rest.get()))
        }
        Test::OrOn(label, rest) => {
            if is_set(&call.guards, *label) {
                return leave_number(&mut call.values, 1);
            }
            add(&mut call.tasks, Task::Ask(rest.get()))
        }
    }
}

/// Leaves the value of a selector, or has it computed.
pub fn ask_selector<'a>(call: &mut Call<'_, 'a>, selector: &'a Selector) -> Result<(), Memory>
    ensures function { call.new.function ≡ call.old.function }
    ensures labels { call.new.labels ≡ call.old.labels }
    ensures ok { OnOk result (MovesAlways (AsksSelector (selector_tree selector.now)) call.old call.new) }
{
    match selector {
        Selector::Source(e) => {
            let kind = promote(operand_kind(e.kind));
            add_two(
                &mut call.tasks,
                Task::With(Use::Compute, e),
                Task::Convert(kind),
            )
        }
        Selector::Pick(label, number, rest) => {
            if is_set(&call.guards, *label) {
                return leave_constant(&mut call.values, number);
            }
            add(&mut call.tasks, Task::AskSelector(rest.get()))
        }
    }
}
