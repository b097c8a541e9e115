//! Nodes.

ghost use Rattle.std.specs.Prelude.{◌≡◌, ◌<◌, ◌≤◌, ◌+◌, [], ◌∷◌, ◌++◌, IfOk};
ghost use Rattle.c_grammar.specs.Nodes as nodes;
ghost use Rattle.c_parse_step.specs.Nodes as spec;
ghost use Rattle.c_parse_step.specs.Shown as shown;

use crate::frame::{Found, Full};
use c_grammar::{Production, SyntaxNode};
use c_types::{List, Memory};
use std::alloc::Global;

/// A node, which keeps no more room than its parts take where memory can be given back.
pub fn node(rule: Production, first: u32, after: u32, parts: List<SyntaxNode>) -> SyntaxNode
    ensures { result ≡ nodes.node rule first after parts }
{
    let mut parts = parts.into_vec();
    parts.shrink_to_fit();
    SyntaxNode::new(rule, first, after, List::from_vec(parts))
}

pub fn leaf(alloc: Global, at: u32) -> SyntaxNode
    requires { at < 4294967295 }
    ensures { result ≡ nodes.leaf at }
{
    SyntaxNode::leaf(alloc, at)
}

/// The token with this number, in front of the token with that one.
pub fn token(alloc: Global, at: u32, after: u32) -> SyntaxNode
    ensures { result ≡ shown.token at after }
{
    SyntaxNode::new(Production::Token, at, after, List::new(alloc))
}

pub fn one(alloc: Global, a: SyntaxNode) -> Result<List<SyntaxNode>, Memory>
    ensures { IfOk result (λ it. it ≡ a ∷ []) }
{
    first_of(alloc, 1, a)
}

/// No parts so far, with room for so many.
pub fn none_of(alloc: Global, room: usize) -> Result<List<SyntaxNode>, Memory>
    ensures { IfOk result (λ it. it ≡ []) }
{
    let parts = Vec::with_capacity(alloc, room)?;
    Ok(List::from_vec(parts))
}

/// One part so far, with room for so many.
#[inline(always)]
pub fn first_of(alloc: Global, room: usize, a: SyntaxNode) -> Result<List<SyntaxNode>, Memory>
    ensures { IfOk result (λ it. it ≡ a ∷ []) }
{
    let mut parts = Vec::with_capacity(alloc, room)?;
    parts.push(a)?;
    Ok(List::from_vec(parts))
}

pub fn two(alloc: Global, a: SyntaxNode, b: SyntaxNode) -> Result<List<SyntaxNode>, Memory>
    ensures { IfOk result (λ it. it ≡ a ∷ b ∷ []) }
{
    two_of(alloc, 2, a, b)
}

/// Two parts so far, with room for so many.
pub fn two_of(
    alloc: Global,
    room: usize,
    a: SyntaxNode,
    b: SyntaxNode,
) -> Result<List<SyntaxNode>, Memory>
    requires { 2 ≤ room }
    ensures { IfOk result (λ it. it ≡ a ∷ b ∷ []) }
{
    let mut parts = Vec::with_capacity(alloc, room)?;
    parts.push_reserved(a);
    parts.push_reserved(b);
    Ok(List::from_vec(parts))
}

pub fn three(
    alloc: Global,
    a: SyntaxNode,
    b: SyntaxNode,
    c: SyntaxNode,
) -> Result<List<SyntaxNode>, Memory>
    ensures { IfOk result (λ it. it ≡ a ∷ b ∷ c ∷ []) }
{
    let mut parts = Vec::with_capacity(alloc, 3)?;
    parts.push_reserved(a);
    parts.push_reserved(b);
    parts.push_reserved(c);
    Ok(List::from_vec(parts))
}

pub fn four(
    alloc: Global,
    a: SyntaxNode,
    b: SyntaxNode,
    c: SyntaxNode,
    d: SyntaxNode,
) -> Result<List<SyntaxNode>, Memory>
    ensures { IfOk result (λ it. it ≡ a ∷ b ∷ c ∷ d ∷ []) }
{
    let mut parts = Vec::with_capacity(alloc, 4)?;
    parts.push_reserved(a);
    parts.push_reserved(b);
    parts.push_reserved(c);
    parts.push_reserved(d);
    Ok(List::from_vec(parts))
}

/// These parts and one more.
pub fn more(mut parts: List<SyntaxNode>, a: SyntaxNode) -> Result<List<SyntaxNode>, Memory>
    ensures { IfOk result (λ it. it ≡ parts ++ a ∷ []) }
{
    parts.push(a)?;
    Ok(parts)
}

/// These parts and two more.
pub fn two_more(
    mut parts: List<SyntaxNode>,
    a: SyntaxNode,
    b: SyntaxNode,
) -> Result<List<SyntaxNode>, Memory>
    ensures { IfOk result (λ it. it ≡ parts ++ a ∷ b ∷ []) }
{
    parts.push(a)?;
    parts.push(b)?;
    Ok(parts)
}

/// These parts, with room for those of a function.
pub fn of_function(parts: List<SyntaxNode>) -> Result<List<SyntaxNode>, Memory>
    ensures { IfOk result (λ it. it ≡ parts) }
{
    let mut parts = parts.into_vec();
    parts.reserve_exact(6)?;
    Ok(List::from_vec(parts))
}

/// One more node around it, and none around a target alone.
pub fn lift(
    alloc: Global,
    rule: Production,
    first: u32,
    after: u32,
    found: Found,
) -> Result<Found, Memory>
    ensures { IfOk result (λ it. it ≡ spec.lift rule first after found) }
{
    match found {
        Found::Lone(t) => Ok(Found::Lone(t)),
        Found::Whole(s) => Ok(Found::Whole(SyntaxNode::around(alloc, rule, first, after, s)?)),
    }
}

pub fn solid_unary(
    alloc: Global,
    first: u32,
    after: u32,
    found: Found,
) -> Result<SyntaxNode, Memory>
    ensures { IfOk result (λ it. it ≡ spec.solid_unary first after found) }
{
    match found {
        Found::Lone(t) => {
            let inner = SyntaxNode::around(alloc, Production::Postfix, first, after, t)?;
            SyntaxNode::around(alloc, Production::Unary, first, after, inner)
        }
        Found::Whole(s) => Ok(s),
    }
}

#[inline(always)]
pub fn solid_binary(
    alloc: Global,
    first: u32,
    after: u32,
    found: Found,
) -> Result<SyntaxNode, Memory>
    ensures { IfOk result (λ it. it ≡ spec.solid_binary first after found) }
{
    match found {
        Found::Lone(t) => {
            let inner = solid_unary(alloc, first, after, Found::Lone(t))?;
            SyntaxNode::around(alloc, Production::Binary, first, after, inner)
        }
        Found::Whole(s) => Ok(s),
    }
}

pub fn solid_conditional(
    alloc: Global,
    first: u32,
    after: u32,
    found: Found,
) -> Result<SyntaxNode, Memory>
    ensures { IfOk result (λ it. it ≡ spec.solid_conditional first after found) }
{
    match found {
        Found::Lone(t) => {
            let inner = solid_binary(alloc, first, after, Found::Lone(t))?;
            SyntaxNode::around(alloc, Production::Conditional, first, after, inner)
        }
        Found::Whole(s) => Ok(s),
    }
}

pub fn solid_assignment(
    alloc: Global,
    first: u32,
    after: u32,
    found: Found,
) -> Result<SyntaxNode, Memory>
    ensures { IfOk result (λ it. it ≡ spec.solid_assignment first after found) }
{
    match found {
        Found::Lone(t) => {
            let inner = solid_conditional(alloc, first, after, Found::Lone(t))?;
            SyntaxNode::around(alloc, Production::Assignment, first, after, inner)
        }
        Found::Whole(s) => Ok(s),
    }
}

pub fn solid_expression(
    alloc: Global,
    first: u32,
    after: u32,
    found: Found,
) -> Result<SyntaxNode, Memory>
    ensures { IfOk result (λ it. it ≡ spec.solid_expression first after found) }
{
    match found {
        Found::Lone(t) => {
            let inner = solid_assignment(alloc, first, after, Found::Lone(t))?;
            SyntaxNode::around(alloc, Production::Expression, first, after, inner)
        }
        Found::Whole(s) => Ok(s),
    }
}

pub fn postfix(
    first: u32,
    after: u32,
    parts: List<SyntaxNode>,
    alloc: Global,
) -> Result<Found, Memory>
    ensures { IfOk result (λ it. it ≡ spec.postfix first after parts) }
{
    let inner = node(Production::Postfix, first, after, parts);
    Ok(Found::Whole(SyntaxNode::around(alloc, Production::Unary, first, after, inner)?))
}

/// A number or a character constant.
pub fn constant(alloc: Global, at: u32, after: u32) -> Result<Found, Memory>
    ensures { IfOk result (λ it. it ≡ spec.postfix at after (shown.token at after ∷ [])) }
{
    let mark = token(alloc, at, after);
    let inner = SyntaxNode::around(alloc, Production::Postfix, at, after, mark)?;
    let whole = SyntaxNode::around(alloc, Production::Unary, at, after, inner)?;
    Ok(Found::Whole(whole))
}

/// A target that is a name.
pub fn variable(alloc: Global, first: u32, after: u32, name: SyntaxNode) -> Result<Found, Memory>
    ensures { IfOk result (λ it. it ≡ spec.target first after (name ∷ [])) }
{
    Ok(Found::Lone(SyntaxNode::around(alloc, Production::Target, first, after, name)?))
}

pub fn target(first: u32, after: u32, parts: List<SyntaxNode>) -> Found
    ensures { result ≡ spec.target first after parts }
{
    Found::Lone(node(Production::Target, first, after, parts))
}

pub fn commas(
    alloc: Global,
    first: u32,
    start: u32,
    after: u32,
    parts: List<SyntaxNode>,
    found: Found,
) -> Result<Found, Memory>
    ensures { IfOk result (λ it. it ≡ spec.commas first start after parts found) }
{
    if parts.len() == 0 {
        return lift(alloc, Production::Expression, first, after, found);
    }
    let last = solid_assignment(alloc, start, after, found)?;
    let parts = more(parts, last)?;
    Ok(Found::Whole(node(Production::Expression, first, after, parts)))
}

/// A full expression of this rule.
pub fn solid(
    alloc: Global,
    kind: Full,
    first: u32,
    after: u32,
    found: Found,
) -> Result<SyntaxNode, Memory>
    ensures { IfOk result (λ it. it ≡ spec.solid kind first after found) }
{
    match kind {
        Full::Expression => solid_expression(alloc, first, after, found),
        Full::Assignment => solid_assignment(alloc, first, after, found),
        Full::Conditional => solid_conditional(alloc, first, after, found),
    }
}
