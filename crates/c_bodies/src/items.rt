//! Items put behind others.

ghost use Rattle.std.specs.Prelude.{◌≡◌, ◌++◌, ◌∷◌, [], OnOk};
ghost use Rattle.c_tree.specs.declared.tree.Item as item;
ghost use Rattle.c_tree.specs.declared.tree.Selector as selector;
ghost use Rattle.c_tree.specs.declared.tree.Test as test;

use crate::values::Selected;
use c_tree::{Expression, Item, Section, Selector, Test};
use c_types::{Boxed, List, Memory};

/// Puts this behind other items: an `if` with both of its lists.
pub fn push_if(
    out: &mut List<Item>,
    e: Expression,
    then: List<Item>,
    other: List<Item>,
) -> Result<(), Memory>
    ensures { OnOk result (out.new ≡ out.old ++ item.If (test.Source e) then other ∷ []) }
{
    out.push(Item::If(Test::Source(e), then, other))
}

/// Puts this behind other items: a `while`.
pub fn push_while(out: &mut List<Item>, e: Expression, body: List<Item>) -> Result<(), Memory>
    ensures { OnOk result (out.new ≡ out.old ++ item.While (test.Source e) body ∷ []) }
{
    out.push(Item::While(Test::Source(e), body))
}

/// Puts this behind other items: a `do`.
pub fn push_do(out: &mut List<Item>, body: List<Item>, e: Expression) -> Result<(), Memory>
    ensures { OnOk result (out.new ≡ out.old ++ item.Do body (test.Source e) ∷ []) }
{
    out.push(Item::Do(body, Test::Source(e)))
}

/// Puts this behind other items: an `if` with an `else`.
pub fn push_choice(out: &mut List<Item>, e: Expression, lists: Lists) -> Result<(), Memory>
    ensures { OnOk result (out.new ≡ out.old ++ item.If (test.Source e) lists.then lists.other ∷ []) }
{
    let Lists { then, other } = lists;
    out.push(Item::If(Test::Source(e), then, other))
}

/// Puts this behind other items: a `for`.
pub fn push_for(out: &mut List<Item>, heads: Heads, body: List<Item>) -> Result<(), Memory>
    ensures { OnOk result (out.new ≡ out.old ++ item.For heads.start heads.test heads.third body ∷ []) }
{
    let Heads { start, test, third } = heads;
    out.push(Item::For(start, test, third, body))
}

/// Puts this behind other items: a `switch`, of which empty sections were passed on.
pub fn push_switch(
    out: &mut List<Item>,
    selected: Selected,
    sections: List<Section>,
) -> Result<(), Memory>
    ensures { OnOk result (out.new ≡ out.old ++ item.Switch (selector.Source selected.expression) sections ∷ []) }
{
    let Selected {
        expression,
        kind: _,
    } = selected;
    out.push(Item::Switch(Selector::Source(expression), sections))
}

/// Puts this behind other items: a block.
pub fn push_block(out: &mut List<Item>, body: List<Item>) -> Result<(), Memory>
    ensures { OnOk result (out.new ≡ out.old ++ item.Block body ∷ []) }
{
    out.push(Item::Block(body))
}

/// Both lists of an `if`.
#[derive(Drop)]
pub struct Lists {
    pub then: List<Item>,
    pub other: List<Item>,
}

/// The first part of a `for`, and its test and its third part, where they are written.
#[derive(Drop)]
pub struct Heads {
    pub start: List<Item>,
    pub test: Option<Boxed<Expression>>,
    pub third: Option<Boxed<Expression>>,
}
