ghost use Rattle.std.specs.Prelude.{◌≡◌, [], ◌∷◌, IfOk};

use super::*;
use std::alloc::{AllocError, Global};
use std::test::Fail;
use sv_items::Items;
use sv_value::{Text, Value, Values};

fn pair(alloc: Global, first: Value, second: Value) -> Result<Values, AllocError>
    ensures { IfOk result (λ list. list ≡ first ∷ second ∷ []) }
{
    let mut list = Items::new(alloc);
    list.push(first)?;
    list.push(second)?;
    Ok(list)
}

fn three_four(alloc: Global) -> Result<Values, AllocError> {
    pair(alloc, Value::Int(3), Value::Int(4))
}

fn text(alloc: Global, text: &str) -> Result<Text, AllocError> {
    Text::from_str(alloc, text)
}

fn number_of(answer: Result<Value, Stop>) -> Result<i64, Stop> {
    match answer? {
        Value::Int(number) => Ok(number),
        _ => Err(Stop::OutOfMemory),
    }
}

fn truth_of(answer: Result<Value, Stop>) -> Result<bool, Stop> {
    match answer? {
        Value::Bool(truth) => Ok(truth),
        _ => Err(Stop::OutOfMemory),
    }
}

fn list_in(value: Value, alloc: Global) -> Values {
    match value {
        Value::List(parts) => parts,
        _ => Items::new(alloc),
    }
}

fn trap(kind: TrapKind) -> Result<i64, Stop> {
    Err(Stop::Trap(kind))
}

#[tactic(auto, using(crate::specs::Answered::arithmetic_answers))]
fn computed(operator: Arithmetic, a: i64, b: i64) -> Result<i64, Stop> {
    number_of(operate(Operator::Compute(operator), Value::Int(a), Value::Int(b)))
}

#[test]
fn arithmetic_of_two(rt: HostRuntime) {
    let rows = [
        (Arithmetic::Plus, i64::MAX, 1, trap(TrapKind::Overflow)),
        (Arithmetic::Minus, i64::MIN, 1, trap(TrapKind::Overflow)),
        (Arithmetic::Minus, 3, 5, Ok(-2)),
        (Arithmetic::Times, i64::MIN, -1, trap(TrapKind::Overflow)),
        (Arithmetic::Times, -3, 5, Ok(-15)),
        (Arithmetic::Divide, 7, -2, Ok(-3)),
        (Arithmetic::Remainder, -7, 2, Ok(-1)),
        (Arithmetic::Divide, i64::MIN, -1, trap(TrapKind::Overflow)),
        (
            Arithmetic::Remainder,
            i64::MIN,
            -1,
            trap(TrapKind::Overflow),
        ),
        (Arithmetic::Divide, 1, 0, trap(TrapKind::Zero)),
        (Arithmetic::Remainder, i64::MIN, 0, trap(TrapKind::Zero)),
        (Arithmetic::Min, 2, -9, Ok(-9)),
        (Arithmetic::Max, 2, -9, Ok(2)),
    ];
    for (operator, a, b, want) in rows {
        assert_eq!(rt; computed(operator, a, b), want, "at {a} and {b}");
    }
}

#[tactic(auto, using(crate::specs::Answered::number_answers))]
fn one(alloc: Global, operator: Unary, a: i64) -> Result<Value, Stop> {
    match operator {
        Unary::Negate => operate_one(alloc, Unary::Negate, &Value::Int(a)),
        Unary::Absolute => operate_one(alloc, Unary::Absolute, &Value::Int(a)),
        _ => operate_one(alloc, Unary::Not, &Value::Bool(a == 0)),
    }
}

fn described(alloc: Global, a: i64) -> Result<Value, Stop> {
    operate_one(alloc, Unary::Describe, &Value::Int(a))
}

#[test]
fn operators_of_one(rt: HostRuntime) -> Result<(), Fail> {
    let least = i64::MIN;
    assert_eq!(rt;
        number_of(one(rt.alloc(), Unary::Negate, least)),
        trap(TrapKind::Overflow)
    );
    assert_eq!(rt;
        number_of(one(rt.alloc(), Unary::Absolute, least)),
        trap(TrapKind::Overflow)
    );
    assert_eq!(rt; number_of(one(rt.alloc(), Unary::Absolute, -5)), Ok(5));
    assert_eq!(rt; truth_of(one(rt.alloc(), Unary::Not, 0)), Ok(false));
    let text_of_number = described(rt.alloc(), -12)?;
    assert!(rt; is_same(&text_of_number, &Value::Str(text(rt.alloc(), "-12")?)));
    Ok(())
}

#[tactic(auto, using(crate::specs::Answered::number_answers))]
fn count(alloc: Global, text: Text) -> Result<Value, Stop> {
    look(alloc, Property::Count, &Value::Str(text))
}

#[test]
fn clusters(rt: HostRuntime) -> Result<(), Fail> {
    let accented = text(rt.alloc(), "e\u{301}")?;
    assert_eq!(rt; number_of(count(rt.alloc(), accented)), Ok(1));
    Ok(())
}

#[tactic(auto, using(crate::specs::Answered::indexed_answers))]
fn at(parts: Values, index: i64) -> Result<i64, Stop> {
    let list = Value::List(parts);
    match element(&list, &Value::Int(index))? {
        Value::Int(number) => Ok(*number),
        _ => Err(Stop::OutOfMemory),
    }
}

#[tactic(auto, using(crate::specs::Answered::removed_answers))]
fn first_of(parts: Values) -> Result<i64, Stop> {
    let Removed { rest: _, element } = remove_first(Value::List(parts))?;
    number_of(Ok(element))
}

#[test]
fn indexes(rt: HostRuntime) -> Result<(), Fail> {
    assert_eq!(rt; at(three_four(rt.alloc())?, 2), trap(TrapKind::Index));
    assert_eq!(rt; at(three_four(rt.alloc())?, -1), trap(TrapKind::Index));
    assert_eq!(rt; at(three_four(rt.alloc())?, 1), Ok(4));
    assert_eq!(rt; first_of(three_four(rt.alloc())?), Ok(3));
    assert_eq!(rt; first_of(Items::new(rt.alloc())), trap(TrapKind::Index));
    Ok(())
}

#[tactic(auto, using(crate::specs::Answered::range_answers))]
fn upper_bound(lower: i64, upper: i64) -> Result<i64, Stop> {
    let bounds = range(&Value::Int(lower), &Value::Int(upper))?;
    Ok(bounds.upper)
}

#[test]
fn ranges(rt: HostRuntime) {
    assert_eq!(rt; upper_bound(3, 2), trap(TrapKind::Range));
    assert_eq!(rt; upper_bound(3, 3), Ok(3));
}

fn weight_of_copies(alloc: Global, times: i64) -> Result<i64, Stop> {
    let letter = Value::Str(text(alloc, "a")?);
    let made = repeat_text(alloc, &letter, &Value::Int(times))?;
    i64::try_from(made.weight()).map_err(|_| Stop::OutOfMemory)
}

#[test]
fn weights(rt: HostRuntime) {
    assert_eq!(rt; weight_of_copies(rt.alloc(), -1), trap(TrapKind::Range));
    assert_eq!(rt; weight_of_copies(rt.alloc(), 65_535), Ok(65_536));
    assert_eq!(rt;
        weight_of_copies(rt.alloc(), 65_536),
        trap(TrapKind::Weight)
    );
}

fn inserted(alloc: Global, parts: Values, index: i64) -> Result<Values, Stop> {
    let list = insert(Value::List(parts), Value::Int(5), &Value::Int(index))?;
    Ok(list_in(list, alloc))
}

#[tactic(auto, using(crate::specs::Answered::swapped_answers))]
fn exchanged(alloc: Global, parts: Values, i: i64, j: i64) -> Result<Values, Stop> {
    let list = swap_at(Value::List(parts), &Value::Int(i), &Value::Int(j))?;
    Ok(list_in(list, alloc))
}

fn longer(alloc: Global, parts: Values, item: i64) -> Result<Values, Stop> {
    let list = append(Value::List(parts), Value::Int(item))?;
    Ok(list_in(list, alloc))
}

fn index_of(alloc: Global, parts: Values, item: i64) -> Result<i64, Stop> {
    match first_index(alloc, &Value::List(parts), &Value::Int(item))? {
        Value::Opt(Some(place)) => number_of(Ok(place.into_inner())),
        _ => Ok(-1),
    }
}

#[test]
fn changes(rt: HostRuntime) -> Result<(), Fail> {
    let list = inserted(rt.alloc(), three_four(rt.alloc())?, 2)?;
    assert_eq!(rt; list.len(), 3);
    assert_eq!(rt; index_of(rt.alloc(), list, 5), Ok(2));
    assert!(rt; inserted(rt.alloc(), three_four(rt.alloc())?, 3).is_err());
    let twice = longer(rt.alloc(), three_four(rt.alloc())?, 3)?;
    assert_eq!(rt; index_of(rt.alloc(), twice, 3), Ok(0));
    let list = exchanged(rt.alloc(), three_four(rt.alloc())?, 0, 1)?;
    assert_eq!(rt; index_of(rt.alloc(), list, 3), Ok(1));
    let list = exchanged(rt.alloc(), three_four(rt.alloc())?, 1, 1)?;
    assert_eq!(rt; index_of(rt.alloc(), list, 9), Ok(-1));
    assert!(rt; exchanged(rt.alloc(), three_four(rt.alloc())?, 0, 2).is_err());
    Ok(())
}

fn joined_pieces(alloc: Global, first: Text, second: i64) -> Result<Value, Stop> {
    interpolate(alloc, &[Value::Str(first), Value::Int(second)])
}

#[test]
fn pieces(rt: HostRuntime) -> Result<(), Fail> {
    let made = joined_pieces(rt.alloc(), text(rt.alloc(), "n ")?, -5)?;
    assert!(rt; is_same(&made, &Value::Str(text(rt.alloc(), "n -5")?)));
    let optional = promote(rt.alloc(), Value::Bool(true))?;
    assert_eq!(rt; optional.weight(), 2);
    let fields = three_four(rt.alloc())?;
    assert_eq!(rt; struct_of(1, fields)?.weight(), 3);
    assert_eq!(rt; list_of(three_four(rt.alloc())?)?.weight(), 3);
    assert_eq!(rt; TrapKind::Overflow.word(), "overflow");
    Ok(())
}
