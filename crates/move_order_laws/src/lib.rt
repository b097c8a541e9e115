//! The order of the moves: in each body the first Leap in text order is chosen and moved by the rule that applies
//! until it is joined, then the next, until none is left. Conversion and all moves together keep the behaviour of a
//! body, its skeleton (the source statements and source tests, each once, in their order and in their own
//! constructs), and make it three lists deeper for each goto at most.
//!
//! The definitions stand in specs/. Each function here runs no code: its contract is a law of them.
#![tactic(auto)]

mod kept;
mod sequences;

ghost use Rattle.move_order_laws.specs.MoveOrderLaws.{NextMoveLaws, CountLaws, NestingLaws, DerivationLaws};
ghost use Rattle.move_order_laws.specs.MoveBodyLaws.{DerivedLaws, DepthLaws};
ghost use Rattle.move_order_laws.specs.MoveSkeletonLaws.{SkeletonLaws};
ghost use Rattle.move_order_laws.specs.ConvertLaws.{ConversionLaws};
ghost use Rattle.move_order_laws.specs.MoveFunctionLaws.{MovedLaws};

pub use kept::Kept;
pub use sequences::sequence_laws;

/// In a well made body a Leap has one next move.
pub fn next_move_laws()
    ensures { NextMoveLaws }
{}

/// From its choice to its join a Leap has at most as many moves as its level, that of its Land, and
/// three; a derivation has one join for each Leap.
pub fn count_laws()
    ensures { CountLaws }
{}

/// From the choice of a Leap to its join, the lists of a body stand at most three levels deeper in one
/// another.
pub fn nesting_laws()
    ensures { NestingLaws }
{}

/// A well made body has one derivation, which leaves a well made body without Leap.
pub fn derivation_laws()
    ensures { DerivationLaws }
{}

/// A steady program stays steady and behaves the same where all moves are made in one of its bodies.
pub fn derived_laws()
    ensures { DerivedLaws }
{}

/// How deep the lists of a body stand in one another after the conversion, all moves and
/// simplifications.
pub fn depth_laws()
    ensures { DepthLaws }
{}

/// Conversion, moves and simplifications keep the skeleton.
pub fn skeleton_laws()
    ensures { SkeletonLaws }
{}

/// A steady program stays steady, and behaves the same, where a flat function is converted.
pub fn conversion_laws()
    ensures { ConversionLaws }
{}

/// A flat function whose conversion is well made has a derivation to make, and each of its jumps is joined
/// once.
pub fn moved_laws()
    ensures { MovedLaws }
{}
