//! Wrappers that go from a test or a selector, and that are put round one.

ghost use Rattle.std.specs.Prelude.{◌≡◌};
ghost use Rattle.c_tree.specs.TestTrees.{test_tree, selector_tree};
ghost use Rattle.move_laws.specs.Simplifications.{round};
ghost use Rattle.guard_simplify.specs.Application.{without, without_pick};

use c_tree::{Expression, Node, Selector, Test};
use c_types::Boxed;
use std::mem;

/// The test without the wrapper that `at` wrappers stand round.
pub fn unwrap_test(test: Test, at: usize) -> Test
    ensures { test_tree result ≡ without at (test_tree test) }
{
    match test {
        Test::AndOff(label, mut rest) => {
            if at == 0 {
                return rest.into_inner();
            }
            let inner = mem::replace(rest.get_mut(), Test::On(0));
            rest.set(unwrap_test(inner, at - 1));
            Test::AndOff(label, rest)
        }
        Test::OrOn(label, mut rest) => {
            if at == 0 {
                return rest.into_inner();
            }
            let inner = mem::replace(rest.get_mut(), Test::On(0));
            rest.set(unwrap_test(inner, at - 1));
            Test::OrOn(label, rest)
        }
        Test::Source(e) => Test::Source(e),
        Test::On(label) => Test::On(label),
        Test::Off(label) => Test::Off(label),
    }
}

/// A selector that stands in the place of one that is taken out.
fn placeholder() -> Selector {
    Selector::Source(Expression {
        kind: None,
        node: Node::Number(0),
    })
}

/// The selector without the wrapper that `at` wrappers stand round.
pub fn unwrap_selector(selector: Selector, at: usize) -> Selector
    ensures { selector_tree result ≡ without_pick at (selector_tree selector) }
{
    match selector {
        Selector::Pick(label, number, mut rest) => {
            if at == 0 {
                return rest.into_inner();
            }
            let inner = mem::replace(rest.get_mut(), placeholder());
            rest.set(unwrap_selector(inner, at - 1));
            Selector::Pick(label, number, rest)
        }
        Selector::Source(e) => Selector::Source(e),
    }
}

/// The labels of a test of `Off` and `AndOff` alone, as wrappers round another test.
pub fn wrap(test: Test, inner: Test, mut spare: Boxed<Test>) -> Test
    ensures { test_tree result ≡ round (test_tree test) (test_tree inner) }
{
    match test {
        Test::Off(label) => {
            spare.set(inner);
            Test::AndOff(label, spare)
        }
        Test::AndOff(label, mut rest) => {
            let more = mem::replace(rest.get_mut(), Test::On(0));
            rest.set(wrap(more, inner, spare));
            Test::AndOff(label, rest)
        }
        Test::Source(e) => {
            drop(e);
            inner
        }
        Test::On(_) => inner,
        Test::OrOn(_, rest) => {
            drop(rest);
            inner
        }
    }
}
