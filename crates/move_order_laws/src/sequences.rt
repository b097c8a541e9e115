//! Conversions, the four rules and the simplifications, one after another, keep what a program does.
//!
//! The definitions stand in specs/. The function here runs no code: its contract is the law.

ghost use Rattle.move_order_laws.specs.Sequences.{DerivationLaws};

/// What is derived from a steady program is steady, and behaves as it does.
pub fn sequence_laws()
    ensures { DerivationLaws }
{}
