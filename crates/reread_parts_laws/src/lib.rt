//! The parts of a printed text read back as what was printed: expressions, statements, functions, variables and enums.
//!
//! The function here runs no code: its contract is the laws.
#![tactic(auto)]

ghost use Rattle.reread_parts_laws.specs.Laws.{RereadLaws};

/// Resolving the syntax of the printed text of a program gives the program, where each part of the file is as it is read.
pub fn reread_laws()
    ensures { RereadLaws }
{}
