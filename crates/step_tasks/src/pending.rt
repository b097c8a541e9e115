ghost use Rattle.std.specs.Prelude.{◌≡◌, ◌∷◌, List, ℕ, pos, OnOk};
ghost use Rattle.c_types.specs.declared.kinds.IntKind.TheVariants.{Char};
ghost use Rattle.c_types.specs.Numbers.{converted};
ghost use Rattle.c_tree.specs.Operators.{truth};
ghost use Rattle.jump_meaning.specs.Values as Meant;
ghost use Rattle.jump_meaning.specs.Effects.{top, rest};
ghost use Rattle.jump_meaning.specs.Operations.{holds};
ghost use Rattle.step_memory.specs.Values.{owner_of, value_of, values_of};

use crate::work::Values;
use c_types::{Bytes, IntKind, Memory, convert};
use step_memory::{Owner, Value};

/// The number that a value is.
pub fn integer(value: Value<'_>) -> i128
    ensures { (ns : List (List ℕ)) → result ≡ Meant.integer (value_of ns value.entry) }
{
    match value {
        Value::Integer(number) => number,
        _ => 0,
    }
}

/// Takes the last value.
pub fn take<'a>(values: &mut Values<'a>) -> Value<'a>
    ensures value { (ns : List (List ℕ)) → value_of ns result ≡ top (values_of ns values.old) }
    ensures left { (ns : List (List ℕ)) → values_of ns values.new ≡ rest (values_of ns values.old) }
{
    match values.pop() {
        Some(value) => value,
        None => Value::Missing,
    }
}

/// Takes the last value, which stands for a number.
pub fn take_number<'a>(values: &mut Values<'a>) -> i128
    ensures value { (ns : List (List ℕ)) → result ≡ Meant.integer (top (values_of ns values.old)) }
    ensures left { (ns : List (List ℕ)) → values_of ns values.new ≡ rest (values_of ns values.old) }
{
    integer(take(values))
}

/// The last value, which stays.
pub fn last<'a>(values: &Values<'a>) -> Value<'a>
    ensures { (ns : List (List ℕ)) → value_of ns result ≡ top (values_of ns values.now) }
{
    match values.top() {
        Some(value) => *value,
        None => Value::Missing,
    }
}

/// Takes the last value, and says whether it isn't 0.
pub fn take_truth<'a>(values: &mut Values<'a>) -> bool
    ensures value { (ns : List (List ℕ)) → result ≡ holds (top (values_of ns values.old)) }
    ensures left { (ns : List (List ℕ)) → values_of ns values.new ≡ rest (values_of ns values.old) }
{
    take_number(values) != 0
}

/// Leaves a number.
pub fn leave_number<'a>(values: &mut Values<'a>, number: i128) -> Result<(), Memory>
    ensures ok { OnOk result ((ns : List (List ℕ)) → values_of ns values.new ≡ Meant.Integer number ∷ values_of ns values.old) }
{
    values.push(Value::Integer(number))
}

/// Leaves 1 or 0.
pub fn leave_truth<'a>(values: &mut Values<'a>, holds: bool) -> Result<(), Memory>
    ensures ok { OnOk result ((ns : List (List ℕ)) → values_of ns values.new ≡ Meant.Integer (truth holds) ∷ values_of ns values.old) }
{
    if holds {
        leave_number(values, 1)
    } else {
        leave_number(values, 0)
    }
}

/// Leaves no value.
pub fn leave_nothing(values: &mut Values<'_>) -> Result<(), Memory>
    ensures ok { OnOk result ((ns : List (List ℕ)) → values_of ns values.new ≡ Meant.Missing ∷ values_of ns values.old) }
{
    values.push(Value::Missing)
}

/// Leaves a format.
pub fn leave_format<'a>(values: &mut Values<'a>, format: &'a Bytes) -> Result<(), Memory>
    ensures ok { OnOk result ((ns : List (List ℕ)) → values_of ns values.new ≡ Meant.Format format.now ∷ values_of ns values.old) }
{
    values.push(Value::Format(format))
}

/// Leaves an array.
pub fn leave_array<'a>(values: &mut Values<'a>, owner: Owner) -> Result<(), Memory>
    ensures ok { OnOk result ((ns : List (List ℕ)) → values_of ns values.new ≡ Meant.Lends (owner_of ns owner) ∷ values_of ns values.old) }
{
    values.push(Value::Lends(owner))
}

/// Leaves what a cell of a variable is.
pub fn leave_cell<'a>(values: &mut Values<'a>, owner: Owner, at: u32) -> Result<(), Memory>
    ensures ok { OnOk result ((ns : List (List ℕ)) → values_of ns values.new ≡ Meant.Designates (owner_of ns owner) at ∷ values_of ns values.old) }
{
    values.push(Value::Designates(owner, at))
}

/// Leaves a number of the tree.
pub fn leave_constant<'a>(values: &mut Values<'a>, number: &i128) -> Result<(), Memory>
    ensures ok { OnOk result ((ns : List (List ℕ)) → values_of ns values.new ≡ Meant.Integer number.now ∷ values_of ns values.old) }
{
    let number = *number;
    values.push(Value::Integer(number))
}

/// Leaves the value of a character of the tree.
pub fn leave_character<'a>(values: &mut Values<'a>, byte: &u8) -> Result<(), Memory>
    ensures ok { OnOk result ((ns : List (List ℕ)) → values_of ns values.new ≡ Meant.Integer (converted Char (pos byte.now)) ∷ values_of ns values.old) }
{
    let byte = *byte;
    leave_number(values, convert(IntKind::Char, byte as i128))
}
