//! Moves of a report, in the functions of a program.

ghost use Rattle.std.specs.Prelude.{◌≡◌, IfOk, IfSome, IfNone, List, MatchOption, Some, IsTrue, IsFalse, OnOk, All, true};
ghost use Rattle.c_tree.specs.declared.tree.Top.{Top as TheTop};
ghost use Rattle.restructure_laws.specs.Lawful.{IsOther, IsMovedBy, OneMoved, Moves};
ghost use Rattle.restructure_laws.specs.Replayed.{converted_top, converted_tops, IsTopWellMade, IsTopLeapless};
ghost use Rattle.move_replay.specs.Places.{Finds};
ghost use Rattle.move_replay.specs.Steps.{IsFlatOf, IsLeaplessAt, IsPlaceOf, StopsAt, IsTopMoved};

use crate::one_move::{Known, has_leap_left, move_in};
use crate::places::Places;
use c_tree::Top;
use c_types::{List, Memory, Name};
use guard_vars::convert;
use report_moves::Move;
use std::alloc::Global;

fn convert_top(alloc: Global, top: &mut Top) -> Result<(), Memory>
    ensures { OnOk result (top.new ≡ converted_top top.old) }
{
    match top {
        Top::Function(function) => {
            if function.flat {
                convert(alloc, function)
            } else {
                Ok(())
            }
        }
        _ => Ok(()),
    }
}

/// Converts each flat function.
pub fn convert_tops(alloc: Global, tops: &mut List<Top>) -> Result<(), Memory>
    ensures { OnOk result (tops.new ≡ converted_tops tops.old) }
{
    let mut i = 0;
    while i < tops.len() {
        convert_top(alloc, tops.at_mut(i))?;
        i += 1;
    }
    Ok(())
}

/// The place of the first flat function of the name.
fn place_of(places: &Places, name: &Name) -> Option<usize>
    ensures { (tops : List TheTop) → Finds places.now tops → MatchOption result (All (IsOther name.now) tops) (λ i. IsPlaceOf name.now tops i) }
{
    match places.find(name) {
        Some(at) => Some(at as usize),
        None => None,
    }
}

fn move_top(
    alloc: Global,
    top: &mut Top,
    at: usize,
    step: &Move,
    known: &mut Known,
) -> Result<bool, Memory>
    requires made { IsTopWellMade top.old }
    requires flat { IsFlatOf step.now.function top.old }
    requires leapless { known.old.leapless ≡ Some at → IsTopLeapless top.old }
    ensures yes { IfOk result (λ b. IsTrue b → IsTopMoved step.now top.old top.new) }
    ensures no { IfOk result (λ b. IsFalse b → (u : TheTop) → ¬ (IsTopMoved step.now top.old u)) }
    ensures leapless { IfOk result (λ b. IsTrue b → IfSome known.new.leapless (λ k. (k ≡ at) × IsTopLeapless top.new)) }
{
    match top {
        Top::Function(function) => move_in(alloc, function, at, step, known),
        _ => unreachable!(),
    }
}

/// Makes one move, if it is lawful. After another answer the functions are given up.
fn make_move(
    alloc: Global,
    places: &Places,
    tops: &mut List<Top>,
    step: &Move,
    known: &mut Known,
) -> Result<bool, Memory>
    requires made { All IsTopWellMade tops.old }
    requires places { Finds places.now tops.old }
    requires leapless { IsLeaplessAt known.old.leapless tops.old }
    ensures yes { IfOk result (λ b. IsTrue b → OneMoved step.now tops.old tops.new) }
    ensures no { IfOk result (λ b. IsFalse b → (us : List TheTop) → ¬ (OneMoved step.now tops.old us)) }
    ensures leapless { IfOk result (λ b. IsTrue b → IsLeaplessAt known.new.leapless tops.new) }
{
    match place_of(places, &step.function) {
        Some(i) => move_top(alloc, tops.at_mut(i), i, step, known),
        None => Ok(false),
    }
}

/// Makes the moves in their order. Answers `None` where each was lawful, and else how many were before
/// the first that isn't; then the functions are given up.
pub fn make_moves(
    alloc: Global,
    tops: &mut List<Top>,
    moves: &[Move],
) -> Result<Option<usize>, Memory>
    requires { All IsTopWellMade tops.old }
    ensures all { IfOk result (λ r. IfNone r (Moves tops.old moves.now tops.new)) }
    ensures stopped { IfOk result (λ r. IfSome r (λ n. StopsAt n moves.now tops.old)) }
{
    let places = Places::new(alloc, tops.as_slice())?;
    let mut known = Known {
        land: None,
        leapless: None,
    };
    for i in 0..moves.len() {
        if !make_move(alloc, &places, tops, &moves[i], &mut known)? {
            return Ok(Some(i));
        }
    }
    Ok(None)
}

fn leap_in_top(alloc: Global, top: &Top) -> Result<bool, Memory>
    requires { IsTopWellMade top.now }
    ensures yes { IfOk result (λ b. IsTrue b → ¬ (IsTopLeapless top.now)) }
    ensures no { IfOk result (λ b. IsFalse b → IsTopLeapless top.now) }
{
    match top {
        Top::Function(function) => {
            if function.flat {
                has_leap_left(alloc, function)
            } else {
                Ok(false)
            }
        }
        _ => Ok(false),
    }
}

/// Whether a flat function has a Leap left.
pub fn leap_left(alloc: Global, tops: &[Top]) -> Result<bool, Memory>
    requires { All IsTopWellMade tops.now }
    ensures yes { IfOk result (λ b. IsTrue b → ¬ (All IsTopLeapless tops.now)) }
    ensures no { IfOk result (λ b. IsFalse b → All IsTopLeapless tops.now) }
{
    for i in 0..tops.len() {
        if leap_in_top(alloc, &tops[i])? {
            return Ok(true);
        }
    }
    Ok(false)
}
