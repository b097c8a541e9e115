//! The whole of a rewriting, up to the plain form: it behaves as the program does, keeps its comments, and is resolved again.
//! These are the flat forms, conversions, moves and simplifications of all functions of a program. Kinds agree all
//! along, and the plain form is resolved where its variables have names of their own.
//!
//! The definitions stand in specs/. Each function here runs no code: its contract is a law of them.
#![tactic(auto)]

ghost use Rattle.whole_laws.specs.WholeKindsLaws.{KindLaws};
ghost use Rattle.whole_laws.specs.WholeLaws.{WholeLaws};
ghost use Rattle.whole_laws.specs.WholeCommentsLaws.{NotesLaws};
ghost use Rattle.whole_laws.specs.PlainResolvedLaws.{PlainFormIsResolved};
ghost use Rattle.whole_laws.specs.Guards.{NamedPlainFormIsResolved};

/// A program whose kinds agree is one whose kinds agree after each change.
pub fn kind_laws()
    ensures { KindLaws }
{}

/// What a resolved program is rewritten to is steady, and its plain form behaves as the program does.
pub fn whole_laws()
    ensures { WholeLaws }
{}

/// The plain form of what a program is rewritten to has the Notes of the program, in their order: flat forms keep them,
/// and so do conversions, moves and simplifications, and the plain form of any function.
pub fn notes_laws()
    ensures { NotesLaws }
{}

/// The plain form of what a resolved program is rewritten to is resolved, where each of its variables has a name of its
/// own. So its text is within the limits, too.
pub fn plain_form_is_resolved()
    ensures { PlainFormIsResolved }
{}

/// It is so with the names of guards that the tool gives, where each variable of the flat forms has a name of its own.
pub fn named_plain_form_is_resolved()
    ensures { NamedPlainFormIsResolved }
{}
