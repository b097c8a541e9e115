//! What a text means and where it is at fault, as the walk over it finds and as the definitions by places say: one and
//! the same. Names are bound and expressions typed as defined, the program is the one that the file writes, and the
//! violation that is reported is the least of all places where a rule for names, kinds or statements is broken.
//!
//! The definitions stand in c_reading_defs. They tell places by the numbers of tokens, so the laws are of what is derived, whose
//! tokens stand in text order. The functions here run no code: their contracts are the laws.
#![tactic(auto)]

ghost use Rattle.c_violation_laws.specs.MeaningLaws.{MeaningLaws};
ghost use Rattle.c_violation_laws.specs.ProgramLaws.{ProgramLaws};
ghost use Rattle.c_violation_laws.specs.ExpressionLaws.{ExpressionLaws};
ghost use Rattle.c_violation_laws.specs.FunctionLaws.{FunctionLaws};
ghost use Rattle.c_violation_laws.specs.FileLaws.{FileLaws};

/// Names are bound, formats read and expressions typed as the definitions say.
pub fn meaning_laws()
    ensures { MeaningLaws }
{}

/// What the walk makes of a file is the program that it writes.
pub fn program_laws()
    ensures { ProgramLaws }
{}

/// Walks over expressions find the rules that are broken in them.
pub fn expression_laws()
    ensures { ExpressionLaws }
{}

/// The walk over a function finds the rules that are broken in it.
pub fn function_laws()
    ensures { FunctionLaws }
{}

/// The first violation of a file, as the walk finds it, is the first of those by places, and there is none where no rule is broken.
pub fn file_laws()
    ensures { FileLaws }
{}
