ghost use Rattle.std.specs.Prelude.{◌≡◌, ◌-◌, length, true, IsSome, MatchResult, position, slice_get};
ghost use Rattle.std.specs.List.{list_any};
ghost use Rattle.std.specs.Option.{option_copied};
ghost use Rattle.unicode_segmentation.specs.Grapheme.{graphemes};
ghost use Rattle.value_calls.specs.Calls.{property, optional, at_place, indexed, element, contains, place_found, first_index, unwrapped, range_of, bounds_of};
ghost use Rattle.value_calls.specs.Integers.{place_of};
ghost use Rattle.value_calls.specs.Made.{made};
ghost use Rattle.value_calls.specs.Same.{same};
ghost use Rattle.value_calls.specs.Traps.{Answers};

use crate::operators::{is_same, number};
use crate::traps::{Stop, TrapKind};
use crate::{integers, made};
use std::alloc::Global;
use sv_value::Value;
use unicode_segmentation::UnicodeSegmentation;

/// A built-in property of a string or a list.
#[derive(Clone, Copy, Debug, PartialEq, Eq)]
pub enum Property {
    /// The number of grapheme clusters of a string, and of elements of a list.
    Count,
    /// Of a string and of a list.
    IsEmpty,
    /// The first element of a list, or nil.
    First,
    /// The last element of a list, or nil.
    Last,
}

/// The bounds of a range, the lower not above the upper.
#[derive(Clone, Copy, Debug, PartialEq, Eq)]
pub struct Bounds {
    pub lower: i64,
    pub upper: i64,
}

/// The number of grapheme clusters.
fn clusters(text: &str) -> usize
    ensures { result ≡ length (graphemes true text.now) }
{
    text.graphemes(true).count()
}

/// A copy of the part as a filled optional.
fn filled(alloc: Global, part: &Value) -> Result<Value, Stop>
    ensures { Answers result (made (Value.Opt (Some part.now))) }
{
    let part = part.copy(alloc)?;
    made::promote(alloc, part)
}

/// A copy of the part at a place as an optional, or nil where there is none.
fn optional_at(alloc: Global, parts: &[Value], at: usize) -> Result<Value, Stop>
    ensures { Answers result (optional (slice_get parts.now at)) }
{
    match parts.get(at) {
        Some(part) => filled(alloc, part),
        None => made::nil(),
    }
}

/// What the property of the value is, which fits it. The value is lent; of its parts only what the answer holds is copied.
pub fn look(alloc: Global, asked: Property, value: &Value) -> Result<Value, Stop>
    requires { IsSome (property asked value.now) }
    ensures { Answers result (property asked value.now) }
{
    match value {
        Value::Str(text) => match asked {
            Property::Count => number(integers::count(clusters(text.as_str()))),
            Property::IsEmpty => Ok(Value::Bool(text.len() == 0)),
            _ => unreachable!(),
        },
        Value::List(parts) => match asked {
            Property::Count => number(integers::count(parts.len())),
            Property::IsEmpty => Ok(Value::Bool(parts.len() == 0)),
            Property::First => optional_at(alloc, parts.as_slice(), 0),
            Property::Last => optional_at(alloc, parts.as_slice(), parts.len().saturating_sub(1)),
        },
        _ => unreachable!(),
    }
}

fn part_at(parts: &[Value], index: i64) -> Result<&Value, Stop>
    ensures { MatchResult result (λ part. indexed (at_place parts.now (place_of index)) ≡ Some (Ok part.now)) (λ stop. Answers (Err stop) (indexed (at_place parts.now (place_of index)))) }
{
    match integers::place(index) {
        Some(at) => match parts.get(at) {
            Some(part) => Ok(part),
            None => Err(Stop::Trap(TrapKind::Index)),
        },
        None => Err(Stop::Trap(TrapKind::Index)),
    }
}

/// The element of a list at an index, lent. Trap `index` where the index is out of range.
pub fn element<'a>(list: &'a Value, index: &Value) -> Result<&'a Value, Stop>
    requires { IsSome (element list.now index.now) }
    ensures { MatchResult result (λ part. element list.now index.now ≡ Some (Ok part.now)) (λ stop. Answers (Err stop) (element list.now index.now)) }
{
    match list {
        Value::List(parts) => match index {
            Value::Int(index) => part_at(parts.as_slice(), *index),
            _ => unreachable!(),
        },
        _ => unreachable!(),
    }
}

fn has_part(parts: &[Value], item: &Value) -> bool
    ensures { result ≡ list_any (same item.now) parts.now }
{
    parts.iter().any(|part| is_same(item, part))
}

fn place_of_part(parts: &[Value], item: &Value) -> Option<usize>
    ensures { result ≡ position (same item.now) parts.now }
{
    parts.iter().position(|part| is_same(item, part))
}

/// Whether the list has an element that is equal to the item.
pub fn contains(list: &Value, item: &Value) -> Result<Value, Stop>
    requires { IsSome (contains list.now item.now) }
    ensures { Answers result (contains list.now item.now) }
{
    match list {
        Value::List(parts) => Ok(Value::Bool(has_part(parts.as_slice(), item))),
        _ => unreachable!(),
    }
}

fn optional_place(alloc: Global, place: Option<usize>) -> Result<Value, Stop>
    ensures { Answers result (place_found place) }
{
    match place {
        Some(place) => match integers::count(place) {
            Some(place) => made::promote(alloc, Value::Int(place)),
            None => Err(Stop::Trap(TrapKind::Overflow)),
        },
        None => made::nil(),
    }
}

/// The index of the first element of the list that is equal to the item, or nil.
pub fn first_index(alloc: Global, list: &Value, item: &Value) -> Result<Value, Stop>
    requires { IsSome (first_index list.now item.now) }
    ensures { Answers result (first_index list.now item.now) }
{
    match list {
        Value::List(parts) => optional_place(alloc, place_of_part(parts.as_slice(), item)),
        _ => unreachable!(),
    }
}

/// The value of a filled optional, moved out of it. Trap `nil` at nil.
pub fn force(value: Value) -> Result<Value, Stop>
    requires { IsSome (unwrapped value) }
    ensures { Answers result (unwrapped value) }
{
    match value {
        Value::Opt(Some(part)) => Ok(part.into_inner()),
        Value::Opt(None) => Err(Stop::Trap(TrapKind::Nil)),
        _ => unreachable!(),
    }
}

/// The bounds of a range, of `..<` and `...` alike. Trap `range` where the lower bound is above the upper one.
pub fn range(lower: &Value, upper: &Value) -> Result<Bounds, Stop>
    requires { IsSome (bounds_of lower.now upper.now) }
    ensures { Answers result (bounds_of lower.now upper.now) }
{
    match lower {
        Value::Int(a) => match upper {
            Value::Int(b) => bounds_from(*a, *b),
            _ => unreachable!(),
        },
        _ => unreachable!(),
    }
}

fn bounds_from(lower: i64, upper: i64) -> Result<Bounds, Stop>
    ensures { Answers result (range_of lower upper) }
{
    if upper < lower {
        return Err(Stop::Trap(TrapKind::Range));
    }
    Ok(Bounds { lower, upper })
}
