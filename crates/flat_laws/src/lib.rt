//! Theorems on looser bodies, which behave the same, and on the flat form of a source body, which is one and is made well,
//! before its conversion and after it. Of a looser body, items, assignments, gotos and labels stand in the place of
//! blocks, declarations, exits and scattered switches.
//!
//! The definitions stand in specs/. The functions here run no code: the contract of each is a law.
#![tactic(auto)]

ghost use Rattle.flat_laws.specs.LooserLaws.{LooseLaws};
ghost use Rattle.flat_laws.specs.FlatLaws.{FlatLaws};
ghost use Rattle.flat_laws.specs.FlatWellMadeLaws.{MadeLaws};

/// A steady program behaves as each program of which each function is the same or looser, and that is steady too.
pub fn loose_laws()
    ensures { LooseLaws }
{}

/// The flat form of the body of a resolved function is a looser body.
pub fn flat_laws()
    ensures { FlatLaws }
{}

/// The flat form of a source body is made well, and its conversion is well made.
pub fn made_laws()
    ensures { MadeLaws }
{}
