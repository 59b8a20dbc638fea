ghost use Rattle.std.specs.Prelude.{◌≡◌, Some, None, IfOk, if◌then◌else◌};
ghost use Rattle.std.specs.List.{concat};
ghost use Rattle.std.specs.Str.{is_utf8};
ghost use Rattle.sv_value.specs.declared.value.Value.TheVariants as value;
ghost use Rattle.type_base.specs.Context.{seen};
ghost use Rattle.type_base.specs.Rules.{Answers};
ghost use Rattle.type_base.specs.Claims.{when};
ghost use Rattle.case_rules.specs.Patterns.{is_case, case_of, case_named, minus_at, pattern_at, find_patterns};

use crate::names::{implicit_alone, member_alone};
use std::alloc::{AllocError, Global};
use std::str;
use sv_items::Items;
use sv_value::{Text, Value};
use swift_ast::{Expr, Pattern};
use swift_core::{Core, Ty};
use swift_lex::Word;
use type_base::{Fault, Scope};
use type_expr::check_wanted;

fn is_case(value: &Value) -> bool
    ensures value { result ≡ is_case value.now }
{
    match value {
        Value::Case { .. } => true,
        _ => false,
    }
}

/// The case that a core is the literal of.
fn case_of(core: Core) -> Result<Value, Fault>
    ensures found { Answers result (case_of core) }
{
    match core {
        Core::Literal(value) => {
            if is_case(&value) {
                Ok(value)
            } else {
                Err(Fault::NotTyped)
            }
        }
        _ => Err(Fault::NotTyped),
    }
}

/// An expression that is a case of an enum of this type.
#[tactic(auto, unfolding(case_rules::specs::Patterns::case_named, type_base::specs::Claims::and_then))]
fn case_named(alloc: Global, scope: &Scope<'_>, ty: &Ty, expr: &Expr) -> Result<Value, Fault>
    ensures found { Answers result (case_named expr.now ty.now (seen scope.now)) }
{
    let core = check_wanted(alloc, scope, ty, expr)?;
    case_of(core)
}

/// The number with `-` before it. It stands without its sign, so that it is not below 0.
#[tactic(auto, using(crate::proofs::Numbers::minus_some, crate::proofs::Numbers::minus_none))]
fn minus(number: i64) -> Result<Value, Fault>
    ensures found { Answers result (minus_at number) }
{
    if number < 0 {
        return Err(Fault::NotTyped);
    }
    Ok(Value::Int(-number))
}

/// The bytes of some words, one behind the other.
#[tactic(auto, using(crate::proofs::Numbers::concat_turn, crate::proofs::Numbers::concat_end))]
fn joined(alloc: Global, words: &[Word]) -> Result<Vec<u8>, AllocError>
    ensures value { IfOk result (λ bytes. bytes.items ≡ concat words.now) }
{
    let mut bytes = Vec::new(alloc);
    for word in words {
        bytes.extend_from_slice(word.as_bytes())?;
    }
    Ok(bytes)
}

/// The text of some words.
#[tactic(auto, using(crate::proofs::Numbers::text_some, crate::proofs::Numbers::text_none))]
fn text(alloc: Global, words: &[Word]) -> Result<Value, Fault>
    ensures found { Answers result (when (is_utf8 (concat words.now)) (Some (value.Str (concat words.now)))) }
{
    let bytes = joined(alloc, words)?;
    match str::from_utf8(bytes.as_slice()) {
        Ok(text) => Ok(Value::Str(Text::from_str(alloc, text)?)),
        Err(_) => Err(Fault::NotTyped),
    }
}

/// The value of a pattern of a `switch` over a value of this type.
fn pattern(alloc: Global, scope: &Scope<'_>, ty: &Ty, pattern: &Pattern) -> Result<Value, Fault>
    ensures found { Answers result (pattern_at ty.now pattern.now (seen scope.now)) }
{
    match pattern {
        Pattern::Int(number) => Ok(Value::Int(*number)),
        Pattern::Minus(number) => minus(*number),
        Pattern::Text(words) => text(alloc, words.as_slice()),
        Pattern::True => Ok(Value::Bool(true)),
        Pattern::False => Ok(Value::Bool(false)),
        Pattern::Implicit(name) => {
            let expr = implicit_alone(alloc, name)?;
            case_named(alloc, scope, ty, &expr)
        }
        Pattern::Member(kind, name) => {
            let expr = member_alone(alloc, kind, name)?;
            case_named(alloc, scope, ty, &expr)
        }
    }
}

/// The values of some patterns.
#[tactic(auto, using(crate::proofs::Turns::patterns_turn, crate::proofs::Turns::patterns_none, crate::proofs::Turns::patterns_end, crate::proofs::Turns::patterns_start))]
pub fn patterns(
    alloc: Global,
    scope: &Scope<'_>,
    ty: &Ty,
    patterns: &[Pattern],
) -> Result<Items<Value>, Fault>
    ensures found { Answers result (find_patterns ty.now patterns.now (seen scope.now)) }
{
    let mut values = Items::new(alloc);
    for each in patterns {
        let value = pattern(alloc, scope, ty, each)?;
        values.push(value)?;
    }
    Ok(values)
}
