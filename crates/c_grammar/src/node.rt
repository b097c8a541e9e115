//! A node in memory, which shows a syntax.

ghost use Rattle.std.specs.Prelude.{◌≡◌, ◌<◌, ◌↔◌, true, [], ◌∷◌, ◌+◌, IfOk, IsTrue, MatchResult};
ghost use Rattle.c_grammar.specs.declared.syntax.Production.TheVariants as p;
ghost use Rattle.c_grammar.specs.declared.syntax.Syntax.{out-Syntax};
ghost use Rattle.c_grammar.specs.Nodes as nodes;
ghost use Rattle.c_grammar.specs.Shown.{shown};
ghost use Rattle.c_grammar.specs.Levels.{is_below, keeps_parts};

use crate::syntax::Production;
use c_types::{List, Memory};
use std::alloc::Global;
use std::marker::Model;

/// A node of a derivation, which contracts see as its `Syntax`. An expression stands below many productions that have
/// one part alone, each around the next: these are kept as one node, and a name or a number in it takes no list.
#[derive(Debug, Drop)]
pub struct SyntaxNode {
    /// The outermost of those productions.
    top: Production,
    /// The innermost, to which the parts belong.
    base: Production,
    /// The innermost is a target with one part, a token.
    is_name: bool,
    first: u32,
    after: u32,
    parts: List<SyntaxNode>,
}

impl Model for SyntaxNode {
    ghost use Rattle.c_grammar.specs.declared.syntax.Syntax.{Syntax};
    ghost use Rattle.c_grammar.specs.contracts.syntax.Syntax as syntax;
    ghost use Rattle.std.specs.Coded.{codes};

    ghost Value = { Syntax };

    ghost coded = { Prim.hlevel (codes, syntax.the_row.coded) };

    ghost use Rattle.c_grammar.specs.Shown.{shown};
    ghost use Rattle.c_grammar.specs.Weights.{weight};
    ghost use Rattle.c_grammar.specs.Weighed.{parts_weigh};
    ghost use Rattle.std.proofs.Common.{arith};
    ghost use Rattle.std.specs.Prelude.{◌≡◌, ◌⊎◌, true};
    ghost use Rattle.c_grammar.specs.Levels.{is_level};

    ghost view = { λ it. shown it.top it.base it.is_name it.first it.after it.parts };

    ghost invariant = { λ it. (is_level it.top ≡ true) ⊎ (it.top ≡ it.base) };

    ghost size = { weight };

    ghost size_decreases = { λ a h. omega (arith, parts_weigh a.top a.base a.is_name a.first a.after a.parts) };
}

/// A node as it is kept; `shown` (c_grammar/specs/Shown) says which syntax that is.
#[derive(Clone, Copy)]
pub struct Opened<'a> {
    /// The outermost of the productions that are kept as one.
    pub top: Production,
    /// The innermost, to which the parts belong.
    pub base: Production,
    /// The innermost is a target with one part, its token, which isn't among the parts.
    pub is_name: bool,
    /// The number of its first token.
    pub first: u32,
    /// The number of the token behind its last.
    pub after: u32,
    pub parts: &'a [SyntaxNode],
}

/// Whether a production of an expression stands around this one alone.
fn is_around(rule: Production, top: Production) -> bool
    ensures { result ≡ is_below rule top }
{
    match rule {
        Production::Argument | Production::Expression => matches!(top, Production::Assignment),
        Production::Assignment => matches!(top, Production::Conditional),
        Production::Conditional => matches!(top, Production::Binary),
        Production::Binary => matches!(top, Production::Unary),
        Production::Unary => matches!(top, Production::Postfix),
        Production::Postfix => matches!(top, Production::Target | Production::Token),
        _ => false,
    }
}

fn is_token(rule: Production) -> bool
    ensures { IsTrue result ↔ (rule ≡ p.Token) }
{
    matches!(rule, Production::Token)
}

/// A target around its name as one node, else the part.
fn named(first: u32, after: u32, part: SyntaxNode) -> Result<SyntaxNode, SyntaxNode>
    ensures { MatchResult result (λ it. it ≡ nodes.node p.Target first after (part ∷ [])) (λ it. it ≡ part) }
{
    if is_token(part.top)
        && is_token(part.base)
        && part.first == first
        && first < part.after
        && part.after - first == 1
        && part.parts.is_empty()
    {
        let SyntaxNode { parts, .. } = part;
        return Ok(SyntaxNode {
            top: Production::Target,
            base: Production::Target,
            is_name: true,
            first,
            after,
            parts,
        });
    }
    Err(part)
}

/// A production of an expression around its only part as one node, else the part.
fn as_one(
    rule: Production,
    first: u32,
    after: u32,
    part: SyntaxNode,
) -> Result<SyntaxNode, SyntaxNode>
    ensures { MatchResult result (λ it. it ≡ nodes.node rule first after (part ∷ [])) (λ it. it ≡ part) }
{
    if matches!(rule, Production::Target) {
        return named(first, after, part);
    }
    if is_around(rule, part.top)
        && part.base != rule
        && part.first == first
        && part.after == after
    {
        let mut part = part;
        part.top = rule;
        return Ok(part);
    }
    Err(part)
}

impl SyntaxNode {
    /// A node of this production, with these parts.
    pub fn new(rule: Production, first: u32, after: u32, parts: List<SyntaxNode>) -> SyntaxNode
        ensures { result ≡ nodes.node rule first after parts }
    {
        SyntaxNode {
            top: rule,
            base: rule,
            is_name: false,
            first,
            after,
            parts,
        }
    }

    /// The token with this number.
    pub fn leaf(alloc: Global, at: u32) -> SyntaxNode
        requires { at < 4294967295 }
        ensures { result ≡ nodes.leaf at }
    {
        SyntaxNode::new(Production::Token, at, at + 1, List::new(alloc))
    }

    /// A node of this production whose only part is this one. Takes memory where the two can't be kept as one.
    pub fn around(
        alloc: Global,
        rule: Production,
        first: u32,
        after: u32,
        part: SyntaxNode,
    ) -> Result<SyntaxNode, Memory>
        ensures { IfOk result (λ it. it ≡ nodes.node rule first after (part ∷ [])) }
    {
        match as_one(rule, first, after, part) {
            Ok(node) => Ok(node),
            Err(part) => {
                let mut parts = Vec::with_capacity(alloc, 1)?;
                parts.push(part)?;
                Ok(SyntaxNode::new(rule, first, after, List::from_vec(parts)))
            }
        }
    }

    /// The production of the node.
    pub fn rule(&self) -> Production
        ensures { (out-Syntax self.now).rule ≡ result }
    {
        self.top
    }

    /// The number of its first token.
    pub fn first(&self) -> u32
        ensures { (out-Syntax self.now).first ≡ result }
    {
        self.first
    }

    /// The number of the token behind its last.
    pub fn after(&self) -> u32
        ensures { (out-Syntax self.now).after ≡ result }
    {
        self.after
    }

    /// The parts of a node that isn't of an expression. Of one of an expression they are those of the innermost production
    /// that is kept with it, which `opened` tells.
    pub fn parts(&self) -> &[SyntaxNode]
        ensures { keeps_parts (out-Syntax self.now).rule ≡ true → (out-Syntax self.now).parts ≡ result.now }
    {
        self.parts.as_slice()
    }

    /// The parts of a node that isn't of an expression, for whoever needs the node no more.
    pub fn into_parts(self) -> List<SyntaxNode>
        ensures { keeps_parts (out-Syntax self).rule ≡ true → (out-Syntax self).parts ≡ result }
    {
        let SyntaxNode { parts, .. } = self;
        parts
    }

    /// The node as it is kept. Takes no memory.
    pub fn opened(&self) -> Opened<'_>
        ensures value { self.now ≡ shown result.top result.base result.is_name result.first result.after result.parts.now }
    {
        Opened {
            top: self.top,
            base: self.base,
            is_name: self.is_name,
            first: self.first,
            after: self.after,
            parts: self.parts.as_slice(),
        }
    }
}
