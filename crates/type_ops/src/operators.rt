ghost use Rattle.std.specs.Prelude.{◌≡◌, IfOk, option_copied};
ghost use Rattle.swift_core.specs.declared.ty.Ty.{out-Ty};
ghost use Rattle.swift_core.specs.declared.term.Core.TheVariants as core;
ghost use Rattle.type_base.specs.Context.{seen};
ghost use Rattle.type_base.specs.Rules.{Answers};
ghost use Rattle.expr_rules.specs.Checks.{Checks};
ghost use Rattle.expr_rules.specs.Levels.{infer_to};
ghost use Rattle.expr_rules.specs.Ops.{prefix_at, operator_at, is_test, equality_at, is_coalesce, coalesces};
ghost use Rattle.expr_rules.specs.OpsSearch.{signs, prefixed, operated, compared, linked, links, coalesced, coalesces_of, chained};

use expr_rules::{check, wanted};
use std::alloc::{AllocError, Global};
use sv_items::Boxed;
use swift_ast::{BinarySign, Expr, Link, PrefixSign};
use swift_core::{Binary, Core, Ty, Unary};
use type_base::{Fault, Inner, Scope, fit};
use value_calls::{Arithmetic, Comparison, Operator};

/// A prefix operator on a value.
fn prefix(alloc: Global, sign: PrefixSign, core: Core, ty: &Ty) -> Result<(Core, Ty), Fault>
    ensures found { Answers result (prefix_at sign core (out-Ty ty.now)) }
{
    match (sign, ty) {
        (PrefixSign::Minus, Ty::Int) => {
            let sign = Unary::Operate(value_calls::Unary::Negate);
            Ok((Core::Unary(sign, Boxed::new(alloc, core)?), Ty::Int))
        }
        (PrefixSign::Not, Ty::Bool) => {
            let sign = Unary::Operate(value_calls::Unary::Not);
            Ok((Core::Unary(sign, Boxed::new(alloc, core)?), Ty::Bool))
        }
        _ => Err(Fault::NotTyped),
    }
}

/// Several prefix operators on a value, of which the last is the innermost.
#[cycle(signed)]
#[tactic(auto, unfolding(type_base::specs::Claims::and_then, expr_rules::specs::OpsSearch::signs))]
fn signed(alloc: Global, prefixes: &[PrefixSign], found: (Core, Ty)) -> Result<(Core, Ty), Fault>
    ensures found { Answers result (signs prefixes.now found) }
{
    match prefixes.split_first() {
        Some((sign, rest)) => {
            let inside = signed(alloc, rest, found)?;
            prefix(alloc, *sign, inside.0, &inside.1)
        }
        None => Ok(found),
    }
}

/// Prefix operators and their operand.
#[inline(never)]
#[tactic(auto, unfolding(type_base::specs::Claims::and_then, expr_rules::specs::OpsSearch::prefixed))]
pub fn prefixed<F>(
    inner: &Inner<F>,
    scope: &Scope<'_>,
    want: Option<&Ty>,
    signs: &[PrefixSign],
    operand: &Expr,
) -> Result<(Core, Ty), Fault>
where
    F: Fn(Global, u32, &Scope<'_>, Option<&Ty>, &Expr) -> Result<(Core, Ty), Fault>,
    requires { Checks inner.now.room (F.pre inner.now.check) (F.post inner.now.check) }
    ensures found { Answers result (prefixed signs.now (infer_to inner.now.room operand.now) (seen scope.now) (option_copied want.entry)) }
{
    let found = check(inner, scope, None, operand)?;
    signed(inner.alloc, signs, found)
}

/// The operator of a sign whose operands have this type.
fn operator(sign: BinarySign, ty: &Ty) -> Option<Binary>
    ensures value { result ≡ operator_at sign (out-Ty ty.now) }
{
    let operator = match (sign, ty) {
        (BinarySign::Plus, Ty::Int) => Operator::Compute(Arithmetic::Plus),
        (BinarySign::Plus, Ty::Text) => Operator::JoinTexts,
        (BinarySign::Plus, Ty::List(_)) => Operator::JoinLists,
        (BinarySign::Minus, Ty::Int) => Operator::Compute(Arithmetic::Minus),
        (BinarySign::Times, Ty::Int) => Operator::Compute(Arithmetic::Times),
        (BinarySign::Divide, Ty::Int) => Operator::Compute(Arithmetic::Divide),
        (BinarySign::Remainder, Ty::Int) => Operator::Compute(Arithmetic::Remainder),
        (BinarySign::Less, Ty::Int) => Operator::Compare(Comparison::Less),
        (BinarySign::AtMost, Ty::Int) => Operator::Compare(Comparison::LessOrEqual),
        (BinarySign::Greater, Ty::Int) => Operator::Compare(Comparison::Greater),
        (BinarySign::AtLeast, Ty::Int) => Operator::Compare(Comparison::GreaterOrEqual),
        (BinarySign::And, Ty::Bool) => return Some(Binary::And),
        (BinarySign::Or, Ty::Bool) => return Some(Binary::Or),
        _ => return None,
    };
    Some(Binary::Operate(operator))
}

fn is_test(sign: BinarySign) -> bool
    ensures value { result ≡ is_test sign }
{
    match sign {
        BinarySign::Less | BinarySign::AtMost | BinarySign::Greater | BinarySign::AtLeast => true,
        _ => false,
    }
}

fn binary(alloc: Global, sign: Binary, left: Core, right: Core) -> Result<Core, AllocError>
    ensures value { IfOk result (λ c. c ≡ core.Binary sign left right) }
{
    let left = Boxed::new(alloc, left)?;
    Ok(Core::Binary(sign, left, Boxed::new(alloc, right)?))
}

/// An operator whose operands have one type.
#[tactic(auto, unfolding(type_base::specs::Claims::and_then, expr_rules::specs::OpsSearch::operated))]
fn operated<F>(
    inner: &Inner<F>,
    scope: &Scope<'_>,
    sign: BinarySign,
    left: (Core, Ty),
    right: &Expr,
) -> Result<(Core, Ty), Fault>
where
    F: Fn(Global, u32, &Scope<'_>, Option<&Ty>, &Expr) -> Result<(Core, Ty), Fault>,
    requires { Checks inner.now.room (F.pre inner.now.check) (F.post inner.now.check) }
    ensures found { Answers result (operated sign left (infer_to inner.now.room right.now) (seen scope.now)) }
{
    let operator = match operator(sign, &left.1) {
        Some(operator) => operator,
        None => return Err(Fault::NotTyped),
    };
    let right = check(inner, scope, None, right)?;
    if !right.1.same(&left.1) {
        return Err(Fault::NotTyped);
    }
    let core = binary(inner.alloc, operator, left.0, right.0)?;
    Ok((core, if is_test(sign) { Ty::Bool } else { left.1 }))
}

fn equality(sign: BinarySign) -> Option<Binary>
    ensures value { result ≡ equality_at sign }
{
    match sign {
        BinarySign::Equal => Some(Binary::Operate(Operator::Equal)),
        BinarySign::NotEqual => Some(Binary::Operate(Operator::NotEqual)),
        _ => None,
    }
}

/// `==` or `!=`: the type of the left side is expected on the right.
#[tactic(auto, unfolding(type_base::specs::Claims::and_then, expr_rules::specs::OpsSearch::compared))]
fn compared<F>(
    inner: &Inner<F>,
    scope: &Scope<'_>,
    sign: Binary,
    left: (Core, Ty),
    right: &Expr,
) -> Result<(Core, Ty), Fault>
where
    F: Fn(Global, u32, &Scope<'_>, Option<&Ty>, &Expr) -> Result<(Core, Ty), Fault>,
    requires { Checks inner.now.room (F.pre inner.now.check) (F.post inner.now.check) }
    ensures found { Answers result (compared sign left (infer_to inner.now.room right.now) (seen scope.now)) }
{
    let right = wanted(inner, scope, &left.1, right)?;
    Ok((binary(inner.alloc, sign, left.0, right)?, Ty::Bool))
}

/// An operator and its right operand behind a left one.
#[tactic(auto, unfolding(type_base::specs::Claims::given, expr_rules::specs::OpsSearch::linked))]
fn linked<F>(
    inner: &Inner<F>,
    scope: &Scope<'_>,
    sign: BinarySign,
    left: (Core, Ty),
    right: &Expr,
) -> Result<(Core, Ty), Fault>
where
    F: Fn(Global, u32, &Scope<'_>, Option<&Ty>, &Expr) -> Result<(Core, Ty), Fault>,
    requires { Checks inner.now.room (F.pre inner.now.check) (F.post inner.now.check) }
    ensures found { Answers result (linked sign left (infer_to inner.now.room right.now) (seen scope.now)) }
{
    match equality(sign) {
        Some(equality) => compared(inner, scope, equality, left, right),
        None => operated(inner, scope, sign, left, right),
    }
}

/// Operators that group from the left.
#[tactic(auto, using(crate::proofs::Turns::links_turn, crate::proofs::Turns::links_end, crate::proofs::Turns::links_none))]
fn links<F>(
    inner: &Inner<F>,
    scope: &Scope<'_>,
    rest: &[Link],
    first: (Core, Ty),
) -> Result<(Core, Ty), Fault>
where
    F: Fn(Global, u32, &Scope<'_>, Option<&Ty>, &Expr) -> Result<(Core, Ty), Fault>,
    requires { Checks inner.now.room (F.pre inner.now.check) (F.post inner.now.check) }
    ensures found { Answers result (links (infer_to inner.now.room) rest.now first (seen scope.now)) }
{
    let mut left = first;
    for link in rest {
        left = linked(inner, scope, link.sign, left, &link.right)?;
    }
    Ok(left)
}

fn is_coalesce(sign: BinarySign) -> bool
    ensures value { result ≡ is_coalesce sign }
{
    match sign {
        BinarySign::Coalesce => true,
        _ => false,
    }
}

/// Whether the first operator of a chain is `??`.
fn coalesces(links: &[Link]) -> bool
    ensures value { result ≡ coalesces links.now }
{
    match links.split_first() {
        Some((link, _)) => is_coalesce(link.sign),
        None => false,
    }
}

/// `a ?? b` of a value of an optional type and one that was found where the type inside is expected.
#[inline(never)]
#[tactic(auto, unfolding(type_base::specs::Claims::and_then, expr_rules::specs::OpsSearch::coalesced))]
fn coalesced(alloc: Global, left: Core, inside: &Ty, right: (Core, Ty)) -> Result<(Core, Ty), Fault>
    ensures found { Answers result (coalesced left inside.now right) }
{
    let ty = inside.copy(alloc)?;
    let filled = Ty::Optional(Boxed::new(alloc, ty)?);
    if right.1.same(&filled) {
        let core = binary(alloc, Binary::CoalesceOptional, left, right.0)?;
        return Ok((core, right.1));
    }
    let core = fit(alloc, right.0, &right.1, inside)?;
    let core = binary(alloc, Binary::Coalesce, left, core)?;
    Ok((core, inside.copy(alloc)?))
}

/// `??`, which groups from the right.
#[cycle(coalesces_of)]
#[tactic(auto, unfolding(type_base::specs::Claims::and_then, expr_rules::specs::OpsSearch::coalesces_of))]
fn coalesces_of<F>(
    inner: &Inner<F>,
    scope: &Scope<'_>,
    want: Option<&Ty>,
    first: &Expr,
    links: &[Link],
) -> Result<(Core, Ty), Fault>
where
    F: Fn(Global, u32, &Scope<'_>, Option<&Ty>, &Expr) -> Result<(Core, Ty), Fault>,
    requires { Checks inner.now.room (F.pre inner.now.check) (F.post inner.now.check) }
    ensures found { Answers result (coalesces_of (infer_to inner.now.room) first.now links.now (seen scope.now) (option_copied want.entry)) }
{
    let (link, rest) = match links.split_first() {
        Some(split) => split,
        None => return check(inner, scope, want, first),
    };
    if !is_coalesce(link.sign) {
        return Err(Fault::NotTyped);
    }
    let (left, ty) = check(inner, scope, None, first)?;
    match ty.inside() {
        Some(inside) => {
            let right = coalesces_of(inner, scope, Some(inside), &link.right, rest)?;
            coalesced(inner.alloc, left, inside, right)
        }
        None => Err(Fault::NotTyped),
    }
}

/// Operands with operators of one rule between them.
#[inline(never)]
#[tactic(auto, unfolding(type_base::specs::Claims::and_then, expr_rules::specs::OpsSearch::chained))]
pub fn chained<F>(
    inner: &Inner<F>,
    scope: &Scope<'_>,
    want: Option<&Ty>,
    first: &Expr,
    rest: &[Link],
) -> Result<(Core, Ty), Fault>
where
    F: Fn(Global, u32, &Scope<'_>, Option<&Ty>, &Expr) -> Result<(Core, Ty), Fault>,
    requires { Checks inner.now.room (F.pre inner.now.check) (F.post inner.now.check) }
    ensures found { Answers result (chained (infer_to inner.now.room) first.now rest.now (seen scope.now) (option_copied want.entry)) }
{
    if coalesces(rest) {
        return coalesces_of(inner, scope, None, first, rest);
    }
    let first = check(inner, scope, None, first)?;
    links(inner, scope, rest, first)
}
