//! Theorems on printed text: what the lexer and the grammar make of the text of a tree, and what `scan` and
//! `parse` answer to it.
//!
//! The definitions stand in specs/. Each function here runs no code: its contract is a law of them.
#![tactic(auto)]

ghost use Rattle.print_laws.specs.PrintSyntaxLaws.{PrintedReadsBack};
ghost use Rattle.print_laws.specs.PrintParseLaws.{PrintedTextParses};

/// The printed text of a program that prints is read again: its tokens are those of the tree, in order,
/// and derive its syntax, within the limits.
pub fn printed_reads_back()
    ensures { PrintedReadsBack }
{}

/// The printed text of a program that prints is scanned and parsed to its syntax.
pub fn printed_text_parses()
    ensures { PrintedTextParses }
{}
