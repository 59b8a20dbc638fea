//! Reading and writing a part of a value by hops.
#![tactic(auto)]

ghost use Rattle.std.specs.Prelude.{◌≡◌, ◌<◌, length, Some, slice_set, slice_index_or, OnOk, OnErr, MatchResult, IsSome};
ghost use Rattle.sv_value.specs.declared.value.Value.{out-Value};
ghost use Rattle.sv_value.specs.Hops.{part_at, with_part, hop_from, element, field, answer_of};

use sv_value::{Hop, Hops, Missing, Value, Values};

#[cfg(test)]
mod tests;

// The element at `index`.
fn element(parts: &[Value], index: i64) -> Result<&Value, Missing>
    ensures { MatchResult result (λ part. element parts.now index ≡ Ok part.now) (λ missing. element parts.now index ≡ Err missing) }
{
    if index >= 0 {
        if let Some(part) = parts.get(index as usize) {
            return Ok(part);
        }
    }
    Err(Missing { index })
}

// The field number `k`, which is there.
fn field(parts: &[Value], k: u32) -> &Value
    requires { IsSome (field parts.now k) }
    ensures { field parts.now k ≡ Some (Ok result.now) }
{
    match parts.get(k as usize) {
        Some(part) => part,
        None => unreachable!(),
    }
}

// The part that one hop leads to.
fn hop_once(value: &Value, hop: Hop) -> Result<&Value, Missing>
    requires { IsSome (hop_from hop (out-Value value.now)) }
    ensures { MatchResult result (λ part. hop_from hop (out-Value value.now) ≡ Some (Ok part.now)) (λ missing. hop_from hop (out-Value value.now) ≡ Some (Err missing)) }
{
    match hop {
        Hop::Field(k) => match value {
            Value::Struct { fields, .. } => Ok(field(fields.as_slice(), k)),
            _ => unreachable!(),
        },
        Hop::Index(index) => match value {
            Value::List(parts) => element(parts.as_slice(), index),
            _ => unreachable!(),
        },
    }
}

/// The part of `value` that the hops lead to. They fit `value`: each hop that is reached is a field that its struct has, or
/// an index into a list. `Missing` exactly where that index is the first one out of range.
pub fn get<'a>(value: &'a Value, hops: &Hops) -> Result<&'a Value, Missing>
    requires fits { IsSome (part_at hops.now value.now) }
    ensures { MatchResult result (λ part. part_at hops.now value.now ≡ Some (Ok part.now)) (λ missing. part_at hops.now value.now ≡ Some (Err missing)) }
{
    let mut part = value;
    for hop in hops.as_slice() {
        part = hop_once(part, *hop)?;
    }
    Ok(part)
}

/// Puts `new` in the place of the part that the hops lead to, under the same condition. `Missing` comes as in `get`, and
/// nothing changes then.
pub fn set(value: &mut Value, hops: &Hops, new: Value) -> Result<(), Missing>
    requires { IsSome (part_at hops.now value.old) }
    ensures answer { result ≡ answer_of (part_at hops.now value.old) }
    ensures ok { OnOk result (value.new ≡ with_part hops.now new value.old) }
    ensures err { OnErr result (value.new ≡ value.old) }
{
    set_by(value, hops.as_slice(), new)
}

// As `set`, by hops as a slice.
#[cycle(set)]
fn set_by(value: &mut Value, hops: &[Hop], new: Value) -> Result<(), Missing>
    requires { IsSome (part_at hops.now value.old) }
    ensures answer { result ≡ answer_of (part_at hops.now value.old) }
    ensures ok { OnOk result (value.new ≡ with_part hops.now new value.old) }
    ensures err { OnErr result (value.new ≡ value.old) }
{
    let Some((hop, rest)) = hops.split_first() else {
        *value = new;
        return Ok(());
    };
    match *hop {
        Hop::Field(k) => match value {
            Value::Struct { fields, .. } => set_in(fields, k as usize, rest, new),
            _ => unreachable!(),
        },
        Hop::Index(index) => match value {
            Value::List(parts) => {
                if index < 0 || index as u64 >= parts.len() as u64 {
                    return Err(Missing { index });
                }
                set_in(parts, index as usize, rest, new)
            }
            _ => unreachable!(),
        },
    }
}

/// As `set`, in the value number `at` of a list.
#[cycle(set)]
pub fn set_in(parts: &mut Values, at: usize, hops: &[Hop], new: Value) -> Result<(), Missing>
    requires within { at < length parts.old }
    requires fits { (d : _) → IsSome (part_at hops.now (slice_index_or parts.old at d)) }
    ensures answer { (d : _) → result ≡ answer_of (part_at hops.now (slice_index_or parts.old at d)) }
    ensures ok { OnOk result ((d : _) → parts.new ≡ slice_set parts.old at (with_part hops.now new (slice_index_or parts.old at d))) }
    ensures err { OnErr result (parts.new ≡ parts.old) }
{
    let mut part = parts.replace(at, Value::Bool(false));
    let answer = set_by(&mut part, hops, new);
    parts.set(at, part);
    answer
}
