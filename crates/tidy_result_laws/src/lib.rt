//! What tidying makes of a resolved program without jumps is resolved, its printed text reads back, and it is one.
//!
//! The functions here run no code: their contracts are the laws. The laws above cite the lemmas of proofs/.
#![tactic(auto)]

ghost use Rattle.tidy_result_laws.specs.TidyResolvedLaws.{EndLaws};
ghost use Rattle.tidy_result_laws.specs.TidyRereadLaws.{EndsReadBack, OneEnd};

/// A resolved program without jumps has a resolved end, which behaves as it does.
#[tactic(auto, using(crate::proofs::TheLaws::end_law))]
pub fn end_laws()
    ensures { EndLaws }
{}

/// The end of a resolved program without jumps, whose guards were turned back into `break` and `continue`, is resolved,
/// its printed text reads as it, and its runs by structure are the runs of the program.
pub fn ends_read_back()
    ensures { EndsReadBack }
{}

/// A program has one such end, after one number of changes.
pub fn one_end()
    ensures { OneEnd }
{}
