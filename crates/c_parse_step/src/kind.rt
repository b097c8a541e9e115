//! Tests on the class of a token.

ghost use Rattle.std.specs.Prelude.{◌≡◌};
ghost use Rattle.c_grammar.specs.Classes as classes;
ghost use Rattle.c_parse_step.specs.Machine as machine;
ghost use Rattle.c_parse_step.specs.Tests as tests;

use crate::form::{Lead, Want};
use c_grammar::Class;

pub fn is_step(class: Class) -> bool
    ensures { result ≡ tests.is_step class }
{
    matches!(class, Class::Step)
}

pub fn is_question(class: Class) -> bool
    ensures { result ≡ tests.is_question class }
{
    matches!(class, Class::Question)
}

pub fn is_colon(class: Class) -> bool
    ensures { result ≡ tests.is_colon class }
{
    matches!(class, Class::Colon)
}

pub fn is_comma(class: Class) -> bool
    ensures { result ≡ tests.is_comma class }
{
    matches!(class, Class::Comma)
}

pub fn is_open(class: Class) -> bool
    ensures { result ≡ tests.is_open class }
{
    matches!(class, Class::Open)
}

pub fn is_close(class: Class) -> bool
    ensures { result ≡ tests.is_close class }
{
    matches!(class, Class::Close)
}

pub fn is_open_index(class: Class) -> bool
    ensures { result ≡ tests.is_open_index class }
{
    matches!(class, Class::OpenIndex)
}

pub fn is_close_index(class: Class) -> bool
    ensures { result ≡ tests.is_close_index class }
{
    matches!(class, Class::CloseIndex)
}

pub fn is_text(class: Class) -> bool
    ensures { result ≡ tests.is_text class }
{
    matches!(class, Class::Text)
}

/// Whether it may begin a local declaration.
pub fn starts_local(class: Class) -> bool
    ensures { result ≡ tests.starts_local class }
{
    matches!(
        class,
        Class::Const | Class::Char | Class::Int | Class::Long | Class::Signed | Class::Unsigned
    )
}

pub fn is_base(class: Class) -> bool
    ensures { result ≡ tests.is_base class }
{
    matches!(class, Class::Char | Class::Int | Class::Long)
}

pub fn is_assign(class: Class) -> bool
    ensures { result ≡ classes.is_assign class }
{
    matches!(class, Class::Equals | Class::Update)
}

/// How tightly a binary mark binds, and 0 for what is none.
pub fn level(class: Class) -> u32
    ensures { result ≡ classes.level class }
{
    match class {
        Class::OrElse => 4,
        Class::AndThen => 5,
        Class::BitOr => 6,
        Class::BitXor => 7,
        Class::BitAnd => 8,
        Class::Equality => 9,
        Class::Order => 10,
        Class::Shift => 11,
        Class::Sign => 12,
        Class::Product => 13,
        _ => 0,
    }
}

/// Whether the class is the first, which productions await.
pub fn is_same(awaited: Class, class: Class) -> bool
    ensures { result ≡ tests.same awaited class }
{
    match awaited {
        Class::Name => matches!(class, Class::Name),
        Class::Open => matches!(class, Class::Open),
        Class::Close => matches!(class, Class::Close),
        Class::OpenIndex => matches!(class, Class::OpenIndex),
        Class::CloseIndex => matches!(class, Class::CloseIndex),
        Class::OpenBlock => matches!(class, Class::OpenBlock),
        Class::CloseBlock => matches!(class, Class::CloseBlock),
        Class::Comma => matches!(class, Class::Comma),
        Class::Semicolon => matches!(class, Class::Semicolon),
        Class::Colon => matches!(class, Class::Colon),
        Class::Equals => matches!(class, Class::Equals),
        Class::Int => matches!(class, Class::Int),
        Class::Const => matches!(class, Class::Const),
        Class::Else => matches!(class, Class::Else),
        Class::While => matches!(class, Class::While),
        _ => false,
    }
}

/// The token that leads in what may be left out.
pub fn leader(lead: Lead) -> Class
    ensures { result ≡ machine.leader lead }
{
    match lead {
        Lead::Const => Class::Const,
        Lead::Name => Class::Name,
        Lead::Int => Class::Int,
        Lead::Size => Class::OpenIndex,
        Lead::Value | Lead::Constant => Class::Equals,
        Lead::Else => Class::Else,
        Lead::Declarators | Lead::Parameters => Class::Comma,
    }
}

/// Whether the token stands behind what may be left out.
pub fn skips(want: Want, class: Class) -> bool
    ensures { result ≡ machine.skips want class }
{
    match want {
        Want::Optional(lead) => !is_same(leader(lead), class),
        Want::Base => !is_base(class),
        Want::Parameters => is_same(Class::Close, class),
        _ => false,
    }
}
