//! What a rewriting keeps of a program besides its behaviour: its bounds, its names, and that its text reads back; and
//! that lawful moves in any order keep behaviour. A program is rewritten in one way, and one without jumps to itself.
//! What lawful moves reach reads back, too, with names that a report can write.
//!
//! The definitions stand in specs/. The functions here run no code: their contracts are the laws.
#![tactic(auto)]

ghost use Rattle.restructure_laws.specs.WholeBoundsLaws.{SkeletonsAreKept, GuardsAreFew, JumpsAreWithinLevels, SizesAreBounded};
ghost use Rattle.restructure_laws.specs.RereadPlainLaws.{PlainFormReadsBack};
ghost use Rattle.restructure_laws.specs.WholeNamesLaws.{NamedProgramLaws};
ghost use Rattle.restructure_laws.specs.WholeUniqueLaws.{OneRewritingLaws};
ghost use Rattle.restructure_laws.specs.WholeIdempotentLaws.{SettledLaws};
ghost use Rattle.restructure_laws.specs.ReplayMovesLaws.{LawfulMoveLaws, ReplayLaws};
ghost use Rattle.restructure_laws.specs.ReplayedProgramLaws.{ReplayedProgramLaws};

/// A function with jumps keeps the skeleton of its flat form, one without jumps all but its labels.
pub fn skeletons_kept()
    ensures { SkeletonsAreKept }
{}

/// A function declares at most as many guards as it has labels, switches, loops twice, and labels of scattered switches.
pub fn guards_few()
    ensures { GuardsAreFew }
{}

/// The moves of each jump are at most the level of its Leap, that of its Land, and three.
pub fn jumps_within_levels()
    ensures { JumpsAreWithinLevels }
{}

/// The lists of a result stand at most three levels deeper for each goto of a flat form, and its expressions have at most six
/// counted tokens more for each label.
pub fn sizes_bounded()
    ensures { SizesAreBounded }
{}

/// The plain form of what a resolved program is rewritten to is resolved, its printed text is scanned and parsed to its
/// syntax and reads as it, and its runs by structure are the runs of the program.
pub fn plain_form_reads_back()
    ensures { PlainFormReadsBack }
{}

/// What the tops of a resolved program are flattened to with the names of the program are flat forms, whose variables,
/// labels and guards have names of their own, after all moves too. So the plain form reads back.
pub fn named_program_laws()
    ensures { NamedProgramLaws }
{}

/// A resolved program is rewritten to one program, by one list of moves.
pub fn one_rewriting_laws()
    ensures { OneRewritingLaws }
{}

/// A resolved program is its own plain form, and what one without jumps is rewritten to is itself, by no moves.
pub fn settled_program_laws()
    ensures { SettledLaws }
{}

/// Lawful moves keep bodies well made, a steady program steady, and its behaviour, and make one thing of it.
pub fn lawful_move_laws()
    ensures { LawfulMoveLaws }
{}

/// What lawful moves make of a resolved program behaves as it does, and so does its plain form once no Leap is left.
/// The moves of the rewriting are such.
pub fn replay_laws()
    ensures { ReplayLaws }
{}

/// What lawful moves make of a resolved program, until no Leap is left, has a plain form that is resolved and reads as
/// itself, where it is within the limits of a text. Each of the moves names a function and, where its kind has one, a label.
pub fn replayed_program_laws()
    ensures { ReplayedProgramLaws }
{}
