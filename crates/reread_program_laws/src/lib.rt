//! The printed text of a resolved program reads back as the program.
//!
//! The functions here run no code: their contracts are the laws.
#![tactic(auto)]

ghost use Rattle.reread_program_laws.specs.RereadProgramLaws.{BackLaws};
ghost use Rattle.reread_program_laws.specs.RereadTextLaws.{ReadingBackLaws};

/// The comments of the printed text of a resolved program stand where its Notes are printed, its functions are no more
/// tangled than those of the program, and resolving its syntax with its tokens and comments gives the program.
pub fn back_laws()
    ensures { BackLaws }
{}

/// The printed text of a resolved program is scanned, parsed and resolved to the program itself.
pub fn reading_back_laws()
    ensures { ReadingBackLaws }
{}
