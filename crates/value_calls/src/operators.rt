ghost use Rattle.std.specs.Prelude.{◌≡◌, IsSome, IfOk, int_lt, if◌then◌else◌};
ghost use Rattle.std.specs.Fmt.{signed_decimal};
ghost use Rattle.value_calls.specs.Operators.{number, arithmetic, comparison, operation, unary, truth_text};
ghost use Rattle.value_calls.specs.Same.{same};
ghost use Rattle.value_calls.specs.Traps.{Answers};

use crate::traps::{Stop, TrapKind};
use crate::{integers, made};
use std::alloc::{AllocError, Global};
use sv_value::{Text, Value};

/// What is computed of two numbers.
#[derive(Clone, Copy, Debug, PartialEq, Eq)]
pub enum Arithmetic {
    Plus,
    Minus,
    Times,
    /// The quotient, rounded to zero.
    Divide,
    /// The remainder, with the sign of the dividend.
    Remainder,
    /// The lesser of both.
    Min,
    /// The greater of both.
    Max,
}

/// How two numbers are compared.
#[derive(Clone, Copy, Debug, PartialEq, Eq)]
pub enum Comparison {
    Less,
    LessOrEqual,
    Greater,
    GreaterOrEqual,
}

/// An operator of two values, by what it stands on.
#[derive(Clone, Copy, Debug, PartialEq, Eq)]
pub enum Operator {
    /// Of two numbers.
    Compute(Arithmetic),
    /// Of two numbers.
    Compare(Comparison),
    /// Of any two values.
    Equal,
    /// Of any two values.
    NotEqual,
    /// `+` of two strings.
    JoinTexts,
    /// `+` of two lists, which is `append(contentsOf:)` too.
    JoinLists,
}

/// An operator of one value.
#[derive(Clone, Copy, Debug, PartialEq, Eq)]
pub enum Unary {
    /// `-` of a number.
    Negate,
    /// `abs` of a number.
    Absolute,
    /// `!` of a truth value.
    Not,
    /// `String` of a number or a truth value.
    Describe,
}

pub fn number(answer: Option<i64>) -> Result<Value, Stop>
    ensures { Answers result (number answer) }
{
    match answer {
        Some(number) => Ok(Value::Int(number)),
        None => Err(Stop::Trap(TrapKind::Overflow)),
    }
}

fn lesser(a: i64, b: i64) -> i64
    ensures { Value.Int result ≡ Value.Int (if int_lt b a then b else a) }
{
    if b < a { b } else { a }
}

fn greater(a: i64, b: i64) -> i64
    ensures { Value.Int result ≡ Value.Int (if int_lt b a then a else b) }
{
    if b < a { a } else { b }
}

fn computed(operator: Arithmetic, a: i64, b: i64) -> Result<Value, Stop>
    ensures { Answers result (arithmetic operator a b) }
{
    match operator {
        Arithmetic::Plus => number(integers::sum(a, b)),
        Arithmetic::Minus => number(integers::difference(a, b)),
        Arithmetic::Times => number(integers::product(a, b)),
        Arithmetic::Divide => {
            if integers::is_zero(b) {
                return Err(Stop::Trap(TrapKind::Zero));
            }
            number(integers::quotient(a, b))
        }
        Arithmetic::Remainder => {
            if integers::is_zero(b) {
                return Err(Stop::Trap(TrapKind::Zero));
            }
            number(integers::remainder(a, b))
        }
        Arithmetic::Min => Ok(Value::Int(lesser(a, b))),
        Arithmetic::Max => Ok(Value::Int(greater(a, b))),
    }
}

fn compared(operator: Comparison, a: i64, b: i64) -> bool
    ensures { result ≡ comparison operator a b }
{
    match operator {
        Comparison::Less => a < b,
        Comparison::LessOrEqual => a <= b,
        Comparison::Greater => a > b,
        Comparison::GreaterOrEqual => a >= b,
    }
}

fn compute(operator: Arithmetic, left: &Value, right: &Value) -> Result<Value, Stop>
    requires { IsSome (operation (Operator.Compute operator) left.now right.now) }
    ensures { Answers result (operation (Operator.Compute operator) left.now right.now) }
{
    match left {
        Value::Int(a) => match right {
            Value::Int(b) => computed(operator, *a, *b),
            _ => unreachable!(),
        },
        _ => unreachable!(),
    }
}

fn compare(operator: Comparison, left: &Value, right: &Value) -> Result<Value, Stop>
    requires { IsSome (operation (Operator.Compare operator) left.now right.now) }
    ensures { Answers result (operation (Operator.Compare operator) left.now right.now) }
{
    match left {
        Value::Int(a) => match right {
            Value::Int(b) => Ok(Value::Bool(compared(operator, *a, *b))),
            _ => unreachable!(),
        },
        _ => unreachable!(),
    }
}

/// Whether both values are equal, part by part.
pub fn is_same(left: &Value, right: &Value) -> bool
    ensures { result ≡ same left.now right.now }
{
    left.same(right)
}

fn join_texts(left: Value, right: Value) -> Result<Value, Stop>
    requires { IsSome (operation Operator.JoinTexts left right) }
    ensures { Answers result (operation Operator.JoinTexts left right) }
{
    match left {
        Value::Str(text) => match right {
            Value::Str(more) => made::joined_texts(text, &more),
            _ => unreachable!(),
        },
        _ => unreachable!(),
    }
}

fn join_lists(left: Value, right: Value) -> Result<Value, Stop>
    requires { IsSome (operation Operator.JoinLists left right) }
    ensures { Answers result (operation Operator.JoinLists left right) }
{
    match left {
        Value::List(parts) => match right {
            Value::List(more) => made::joined_lists(parts, more),
            _ => unreachable!(),
        },
        _ => unreachable!(),
    }
}

/// What the operator makes of two values, `left` first. The values fit the operator.
pub fn operate(operator: Operator, left: Value, right: Value) -> Result<Value, Stop>
    requires { IsSome (operation operator left right) }
    ensures { Answers result (operation operator left right) }
{
    match operator {
        Operator::Compute(operator) => compute(operator, &left, &right),
        Operator::Compare(operator) => compare(operator, &left, &right),
        Operator::Equal => Ok(Value::Bool(is_same(&left, &right))),
        Operator::NotEqual => Ok(Value::Bool(!is_same(&left, &right))),
        Operator::JoinTexts => join_texts(left, right),
        Operator::JoinLists => join_lists(left, right),
    }
}

/// The word of a truth value.
pub fn truth_text(alloc: Global, truth: bool) -> Result<Text, AllocError>
    ensures { IfOk result (λ text. text ≡ truth_text truth) }
{
    if truth {
        Text::from_str(alloc, "true")
    } else {
        Text::from_str(alloc, "false")
    }
}

/// The decimal digits of a number, after `-` where it is below 0.
pub fn number_text(alloc: Global, number: i64) -> Result<Text, AllocError>
    ensures { IfOk result (λ text. text ≡ signed_decimal number) }
{
    Ok(Text::from_string(number.to_string(alloc)?))
}

/// What the operator makes of a value, which fits it.
pub fn operate_one(alloc: Global, operator: Unary, value: &Value) -> Result<Value, Stop>
    requires { IsSome (unary operator value.now) }
    ensures { Answers result (unary operator value.now) }
{
    match value {
        Value::Int(a) => match operator {
            Unary::Negate => number(integers::negation(*a)),
            Unary::Absolute => number(integers::absolute(*a)),
            Unary::Describe => made::text_of(number_text(alloc, *a)?),
            Unary::Not => unreachable!(),
        },
        Value::Bool(truth) => match operator {
            Unary::Not => Ok(Value::Bool(!*truth)),
            Unary::Describe => made::text_of(truth_text(alloc, *truth)?),
            _ => unreachable!(),
        },
        _ => unreachable!(),
    }
}
