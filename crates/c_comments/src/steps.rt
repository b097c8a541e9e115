//! What is left of a list, and where a token in it leads.

ghost use Rattle.std.specs.Prelude.{◌≡◌, ◌≤◌, drop, length};
ghost use Rattle.c_comments.specs.Steps as spec;

use c_grammar::SyntaxNode;
use c_statements::Anchor;

/// What is left of a list whose earlier parts are passed.
#[derive(Clone, Copy)]
pub enum Rest<'n> {
    /// The items of a list, and the place behind them.
    Items(Anchor, &'n [SyntaxNode]),
    /// The items of a switch body: whether a section has begun, the first token of the switch and that of
    /// the body.
    Members(bool, u32, u32, &'n [SyntaxNode]),
    /// The labels of a statement, and the statement behind them. Case and default labels of a section
    /// have the place that is given.
    Labels(Option<Anchor>, &'n [SyntaxNode], &'n SyntaxNode),
}

/// Where a token leads: to its place, or into a list that holds the tokens from it up to a bound.
#[derive(Clone, Copy)]
pub enum Step<'n> {
    At(Anchor),
    Into(Rest<'n>, u64),
}

/// What is left of a list from what holds a token on, and where the token leads.
#[derive(Clone, Copy)]
pub struct Passed<'n> {
    pub rest: Rest<'n>,
    pub step: Step<'n>,
}

/// The nodes behind so many.
pub fn behind<'n>(nodes: &'n [SyntaxNode], count: usize) -> &'n [SyntaxNode]
    requires { count ≤ length nodes.now }
    ensures { result.now ≡ drop count nodes.now }
{
    &nodes[count..]
}

/// A step that holds no token from a bound on.
pub fn bounded<'n>(step: Step<'n>, bound: u64) -> Step<'n>
    ensures { result ≡ spec.bounded step.entry bound }
{
    match step {
        Step::At(place) => Step::At(place),
        Step::Into(rest, other) => Step::Into(rest, other.min(bound)),
    }
}
