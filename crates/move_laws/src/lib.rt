//! Theorems on what may be done to a body. Each of the four rules makes it at least as good as before: what
//! leaves it stays, no way through it is worse, and its core is the same, but for Arms that become gotos; so a
//! steady program stays steady and behaves the same. The simplifications of made tests keep its core. A guard
//! that nothing reads can go: its Lands and Arms with it, but for the conditions of the Arms.
//!
//! The definitions stand in specs/. Each function here runs no code: its contract is a law of them.
#![tactic(auto)]

ghost use Rattle.move_laws.specs.MoveRuleLaws.{BehaviourLaws, BetterLaws, MoveLaws, ProgramLaws};
ghost use Rattle.move_laws.specs.GuardSimplifyLaws.{SimplificationLaws};
ghost use Rattle.move_laws.specs.GuardDropLaws.{UnreadLaws};

/// To be at least as good is a preorder of lists, and holds of a whole where it holds of a part.
pub fn better_laws()
    ensures { BetterLaws }
{}

/// Each of the four rules makes a well made body at least as good.
pub fn move_laws()
    ensures { MoveLaws }
{}

/// A program stays in range and made well where a rule changes one body, and its core is no worse.
pub fn program_laws()
    ensures { ProgramLaws }
{}

/// A steady program with the body stays steady and behaves the same.
pub fn behaviour_laws()
    ensures { BehaviourLaws }
{}

/// A steady program stays steady, and behaves the same, where a made test or `if` is simplified.
pub fn simplification_laws()
    ensures { SimplificationLaws }
{}

/// A steady program stays steady, and behaves the same, without a guard that nothing reads.
pub fn unread_laws()
    ensures { UnreadLaws }
{}
