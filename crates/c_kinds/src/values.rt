//! What expressions are, by what their operands are.

ghost use Rattle.std.specs.Prelude.{◌≡◌, IfOk, OnOk};
ghost use Rattle.c_kinds.specs.Values as spec;
ghost use Rattle.c_types.specs.Numbers.{usual_kind};

use crate::faults::{report_drop, report_use};
use crate::marks::{binary_kind, unary_kind};
use crate::typed::{ArrayName, Fault, Target, Typed, Valued, Variable};
use c_lexer::Integer;
use c_tree::{BinaryOp, Expression, Node, Place, UnaryOp};
use c_types::{ArithOp, Boxed, IntKind, Memory, Name, Stack, usual};
use std::alloc::Global;

/// An expression, of a kind if it has a value.
pub fn expression_of(kind: Option<IntKind>, node: Node) -> Expression
    ensures { result ≡ spec.expression_of kind node }
{
    Expression { kind, node }
}

/// The expression of a value.
pub fn expression(v: Valued) -> Expression
    ensures { result ≡ spec.expression v }
{
    let Valued { kind, node } = v;
    expression_of(Some(kind), node)
}

fn boxed(alloc: Global, v: Valued) -> Result<Boxed<Expression>, Memory>
    ensures { IfOk result (λ it. it ≡ spec.expression v) }
{
    Boxed::new(alloc, expression(v))
}

fn of_kind(kind: IntKind, node: Node) -> Typed
    ensures { result ≡ spec.of_kind kind node }
{
    Typed::Value(Valued { kind, node })
}

/// An expression of a kind, or one without a value.
pub fn of_result(kind: Option<IntKind>, node: Node) -> Typed
    ensures { result ≡ spec.of_result kind node }
{
    match kind {
        Some(kind) => of_kind(kind, node),
        None => Typed::Void(node),
    }
}

/// The operand where a value is used.
pub fn value_of(x: Typed) -> Option<Valued>
    ensures { result ≡ spec.value_of x }
{
    match x {
        Typed::Value(v) => Some(v),
        other => {
            drop(other);
            None
        }
    }
}

/// What is left of an operand of which the value is dropped.
pub fn dropped_of(x: Typed) -> Option<Expression>
    ensures { result ≡ spec.dropped x }
{
    match x {
        Typed::Value(v) => Some(expression(v)),
        Typed::Void(node) => Some(expression_of(None, node)),
        other => {
            drop(other);
            None
        }
    }
}

/// The operand where a value is used, with the violation of its use.
pub fn used(faults: &mut Stack<Fault>, first: u32, x: Typed) -> Result<Option<Valued>, Memory>
    ensures value { IfOk result (λ v. v ≡ spec.value_of x) }
    ensures faults { OnOk result (faults.new ≡ spec.use_fault first x faults.old) }
{
    match report_use(faults, first, &x) {
        Ok(()) => Ok(value_of(x)),
        Err(e) => {
            drop(x);
            Err(e)
        }
    }
}

/// The operand where its value is dropped, with the violation of its use.
pub fn unused(faults: &mut Stack<Fault>, first: u32, x: Typed) -> Result<Option<Expression>, Memory>
    ensures value { IfOk result (λ v. v ≡ spec.dropped x) }
    ensures faults { OnOk result (faults.new ≡ spec.drop_fault first x faults.old) }
{
    match report_drop(faults, first, &x) {
        Ok(()) => Ok(dropped_of(x)),
        Err(e) => {
            drop(x);
            Err(e)
        }
    }
}

/// An integer constant.
pub fn number(n: Option<Integer>) -> Typed
    ensures { result ≡ spec.number n }
{
    match n {
        Some(n) => of_kind(n.kind, Node::Number(n.value as i128)),
        None => of_kind(IntKind::Int, Node::Number(0)),
    }
}

/// A character constant.
pub fn character_constant(byte: u8) -> Typed
    ensures { result ≡ spec.character_constant byte }
{
    of_kind(IntKind::Int, Node::Character(byte))
}

/// A variable that is a number.
pub fn number_target(x: Option<Variable>) -> Option<Target>
    ensures { result ≡ spec.number_target x }
{
    let Some(Variable { home, shape }) = x else {
        return None;
    };
    if shape.array {
        return None;
    }
    Some(Target {
        place: Place::Var(home),
        kind: shape.kind,
        constant: shape.constant,
    })
}

fn indexed(alloc: Global, x: Variable, i: Valued) -> Result<Option<Target>, Memory>
    ensures { IfOk result (λ t. t ≡ spec.cell_target (Some x) (Some i)) }
{
    let Variable { home, shape } = x;
    if !shape.array {
        drop(i);
        return Ok(None);
    }
    let i = boxed(alloc, i)?;
    Ok(Some(Target {
        place: Place::Cell(home, i),
        kind: shape.kind,
        constant: shape.constant,
    }))
}

/// A cell of a variable that is an array.
pub fn cell_target(
    alloc: Global,
    x: Option<Variable>,
    i: Option<Valued>,
) -> Result<Option<Target>, Memory>
    ensures { IfOk result (λ t. t ≡ spec.cell_target x i) }
{
    let Some(x) = x else {
        drop(i);
        return Ok(None);
    };
    match i {
        Some(i) => indexed(alloc, x, i),
        None => Ok(None),
    }
}

/// A target that can be written to.
pub fn writable(t: Option<Target>) -> Option<Target>
    ensures { result ≡ spec.writable t }
{
    let Some(t) = t else {
        return None;
    };
    if t.constant {
        drop(t);
        None
    } else {
        Some(t)
    }
}

/// The value that a place holds.
pub fn reading(t: Option<Target>) -> Typed
    ensures { result ≡ spec.reading t }
{
    match t {
        Some(Target { place, kind, .. }) => of_kind(kind, Node::Read(place)),
        None => Typed::Wrong,
    }
}

/// A variable by its name.
pub fn variable(token: u32, x: Variable) -> Typed
    ensures { result ≡ spec.variable token x }
{
    let Variable { home, shape } = x;
    if shape.array {
        return Typed::Array(ArrayName {
            token,
            home,
            kind: shape.kind,
            constant: shape.constant,
        });
    }
    of_kind(shape.kind, Node::Read(Place::Var(home)))
}

/// `+ - ! ~` (ISO/IEC 9899:2011, 6.5.3.3).
pub fn unary(alloc: Global, op: UnaryOp, a: Option<Valued>) -> Result<Typed, Memory>
    ensures { IfOk result (λ t. t ≡ spec.unary op a) }
{
    let Some(a) = a else {
        return Ok(Typed::Wrong);
    };
    let kind = unary_kind(op, a.kind);
    let a = boxed(alloc, a)?;
    Ok(of_kind(kind, Node::Unary(op, a)))
}

/// `++` and `--` (6.5.2.4 and 6.5.3.1).
pub fn counting(up: bool, after: bool, t: Option<Target>) -> Typed
    ensures { result ≡ spec.counting up after t }
{
    match t {
        Some(Target { place, kind, .. }) => of_kind(kind, Node::Count(place, up, after)),
        None => Typed::Wrong,
    }
}

/// A cast to a number type (6.5.4).
pub fn cast(alloc: Global, kind: IntKind, a: Option<Valued>) -> Result<Typed, Memory>
    ensures { IfOk result (λ t. t ≡ spec.cast kind a) }
{
    let Some(a) = a else {
        return Ok(Typed::Wrong);
    };
    let a = boxed(alloc, a)?;
    Ok(of_kind(kind, Node::Cast(a)))
}

/// A cast to void (6.5.4).
pub fn cast_void(alloc: Global, a: Option<Expression>) -> Result<Typed, Memory>
    ensures { IfOk result (λ t. t ≡ spec.cast_void a) }
{
    let Some(a) = a else {
        return Ok(Typed::Wrong);
    };
    let a = Boxed::new(alloc, a)?;
    Ok(Typed::Void(Node::Cast(a)))
}

fn binary_of(alloc: Global, op: BinaryOp, a: Valued, b: Valued) -> Result<Typed, Memory>
    ensures { IfOk result (λ t. t ≡ spec.binary op (Some a) (Some b)) }
{
    let kind = binary_kind(op, a.kind, b.kind);
    match boxed(alloc, a) {
        Ok(a) => {
            let b = boxed(alloc, b)?;
            Ok(of_kind(kind, Node::Binary(op, a, b)))
        }
        Err(e) => {
            drop(b);
            Err(e)
        }
    }
}

/// Two operands and the mark between them (6.5.5 to 6.5.14).
pub fn binary(
    alloc: Global,
    op: BinaryOp,
    a: Option<Valued>,
    b: Option<Valued>,
) -> Result<Typed, Memory>
    ensures { IfOk result (λ t. t ≡ spec.binary op a b) }
{
    let Some(a) = a else {
        drop(b);
        return Ok(Typed::Wrong);
    };
    let Some(b) = b else {
        drop(a);
        return Ok(Typed::Wrong);
    };
    binary_of(alloc, op, a, b)
}

fn conditional(alloc: Global, a: Boxed<Expression>, b: Valued, c: Valued) -> Result<Typed, Memory>
    ensures { IfOk result (λ t. t ≡ spec.of_kind (usual_kind b.kind c.kind) (Node.Conditional a (spec.expression b) (spec.expression c))) }
{
    let kind = usual(b.kind, c.kind);
    match boxed(alloc, b) {
        Ok(b) => {
            let c = boxed(alloc, c)?;
            Ok(of_kind(kind, Node::Conditional(a, b, c)))
        }
        Err(e) => {
            drop(c);
            Err(e)
        }
    }
}

fn choice_of(alloc: Global, a: Valued, b: Valued, c: Valued) -> Result<Typed, Memory>
    ensures { IfOk result (λ t. t ≡ spec.choice (Some a) (Some b) (Some c)) }
{
    match boxed(alloc, a) {
        Ok(a) => conditional(alloc, a, b, c),
        Err(e) => {
            drop(b);
            drop(c);
            Err(e)
        }
    }
}

fn choice_with(
    alloc: Global,
    a: Valued,
    b: Option<Valued>,
    c: Option<Valued>,
) -> Result<Typed, Memory>
    ensures { IfOk result (λ t. t ≡ spec.choice (Some a) b c) }
{
    let Some(b) = b else {
        drop(a);
        drop(c);
        return Ok(Typed::Wrong);
    };
    let Some(c) = c else {
        drop(a);
        drop(b);
        return Ok(Typed::Wrong);
    };
    choice_of(alloc, a, b, c)
}

/// `a ? b : c` (6.5.15).
pub fn choice(
    alloc: Global,
    a: Option<Valued>,
    b: Option<Valued>,
    c: Option<Valued>,
) -> Result<Typed, Memory>
    ensures { IfOk result (λ t. t ≡ spec.choice a b c) }
{
    let Some(a) = a else {
        drop(b);
        drop(c);
        return Ok(Typed::Wrong);
    };
    choice_with(alloc, a, b, c)
}

fn stored(alloc: Global, op: Option<ArithOp>, t: Target, a: Valued) -> Result<Typed, Memory>
    ensures { IfOk result (λ x. x ≡ spec.assignment op (Some t) (Some a)) }
{
    match boxed(alloc, a) {
        Ok(a) => {
            let Target { place, kind, .. } = t;
            match op {
                None => Ok(of_kind(kind, Node::Assign(place, a))),
                Some(op) => Ok(of_kind(kind, Node::Update(op, place, a))),
            }
        }
        Err(e) => {
            drop(t);
            Err(e)
        }
    }
}

/// `=`, or an arithmetic mark and `=` (6.5.16).
pub fn assignment(
    alloc: Global,
    op: Option<ArithOp>,
    t: Option<Target>,
    a: Option<Valued>,
) -> Result<Typed, Memory>
    ensures { IfOk result (λ x. x ≡ spec.assignment op t a) }
{
    let Some(t) = t else {
        drop(a);
        return Ok(Typed::Wrong);
    };
    let Some(a) = a else {
        drop(t);
        return Ok(Typed::Wrong);
    };
    stored(alloc, op, t, a)
}

fn with_value(alloc: Global, a: Expression, b: Valued) -> Result<Typed, Memory>
    ensures { IfOk result (λ t. t ≡ spec.with_left a (Typed.Value b)) }
{
    let kind = b.kind;
    match Boxed::new(alloc, a) {
        Ok(a) => {
            let b = boxed(alloc, b)?;
            Ok(of_kind(kind, Node::Comma(a, b)))
        }
        Err(e) => {
            drop(b);
            Err(e)
        }
    }
}

fn with_void(alloc: Global, a: Expression, b: Node) -> Result<Typed, Memory>
    ensures { IfOk result (λ t. t ≡ spec.with_left a (Typed.Void b)) }
{
    match Boxed::new(alloc, a) {
        Ok(a) => {
            let b = Boxed::new(alloc, expression_of(None, b))?;
            Ok(Typed::Void(Node::Comma(a, b)))
        }
        Err(e) => {
            drop(b);
            Err(e)
        }
    }
}

fn with_left(alloc: Global, a: Expression, b: Typed) -> Result<Typed, Memory>
    ensures { IfOk result (λ t. t ≡ spec.with_left a b) }
{
    match b {
        Typed::Value(b) => with_value(alloc, a, b),
        Typed::Void(b) => with_void(alloc, a, b),
        other => {
            drop(a);
            drop(other);
            Ok(Typed::Wrong)
        }
    }
}

fn comma(alloc: Global, a: Option<Expression>, b: Typed) -> Result<Typed, Memory>
    ensures { IfOk result (λ t. t ≡ spec.comma a b) }
{
    match a {
        Some(a) => with_left(alloc, a, b),
        None => {
            drop(b);
            Ok(Typed::Wrong)
        }
    }
}

/// `a, b` (6.5.17), with the violation where b is an array or a text.
pub fn behind_comma(
    alloc: Global,
    faults: &mut Stack<Fault>,
    first: u32,
    a: Typed,
    b: Typed,
) -> Result<Typed, Memory>
    ensures value { IfOk result (λ t. t ≡ spec.comma (spec.dropped a) b) }
    ensures faults { OnOk result (faults.new ≡ spec.drop_fault first b faults.old) }
{
    match report_drop(faults, first, &b) {
        Ok(()) => comma(alloc, dropped_of(a), b),
        Err(e) => {
            drop(a);
            drop(b);
            Err(e)
        }
    }
}

/// An enum constant.
pub fn enum_name(name: Name, value: i128) -> Typed
    ensures { result ≡ spec.of_kind IntKind.Int (Node.EnumName name value) }
{
    of_kind(IntKind::Int, Node::EnumName(name, value))
}
