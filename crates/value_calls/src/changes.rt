ghost use Rattle.std.specs.Prelude.{◌≡◌, ◌-◌, ◌<◌, length, IsSome, Some, swap};
ghost use Rattle.value_calls.specs.Calls.{toggled, emptied, appended, inserted_into, inserted, removed_place, removed, removed_first, removed_last, swapped_places, swapped};
ghost use Rattle.value_calls.specs.Integers.{place_of};
ghost use Rattle.value_calls.specs.Traps.{Answers};

use crate::traps::{Stop, TrapKind};
use crate::{integers, made};
use sv_items::Items;
use sv_value::{Value, Values};

/// A list after an element was taken out of it, and that element.
#[derive(Drop)]
pub struct Removed {
    pub rest: Value,
    pub element: Value,
}

/// The other truth value, which `toggle()` leaves.
pub fn toggle(value: &Value) -> Result<Value, Stop>
    requires { IsSome (toggled value.now) }
    ensures { Answers result (toggled value.now) }
{
    match value {
        Value::Bool(truth) => Ok(Value::Bool(!*truth)),
        _ => unreachable!(),
    }
}

/// The empty list, which `removeAll()` leaves.
pub fn remove_all(list: Value) -> Result<Value, Stop>
    requires { IsSome (emptied list) }
    ensures { Answers result (emptied list) }
{
    match list {
        Value::List(parts) => Ok(Value::List(Items::new(parts.allocator()))),
        _ => unreachable!(),
    }
}

/// The list with the item at its end. Trap `weight` where it would be too heavy.
pub fn append(list: Value, item: Value) -> Result<Value, Stop>
    requires { IsSome (appended list item) }
    ensures { Answers result (appended list item) }
{
    match list {
        Value::List(parts) => made::pushed(parts, item),
        _ => unreachable!(),
    }
}

fn insert_into(parts: Values, item: Value, index: i64) -> Result<Value, Stop>
    ensures { Answers result (inserted_into parts item (place_of index)) }
{
    let Some(at) = integers::place(index) else {
        return Err(Stop::Trap(TrapKind::Index));
    };
    if at > parts.len() {
        return Err(Stop::Trap(TrapKind::Index));
    }
    made::put_in(parts, at, item)
}

/// The list with the item before the one at the index, or at the end where the index is the length. Trap `index` where it is
/// out of range, and else `weight` where the list would be too heavy.
pub fn insert(list: Value, item: Value, index: &Value) -> Result<Value, Stop>
    requires { IsSome (inserted list item index.now) }
    ensures { Answers result (inserted list item index.now) }
{
    match list {
        Value::List(parts) => match index {
            Value::Int(index) => insert_into(parts, item, *index),
            _ => unreachable!(),
        },
        _ => unreachable!(),
    }
}

fn remove_place(mut parts: Values, at: Option<usize>) -> Result<Removed, Stop>
    ensures { Answers result (removed_place parts at) }
{
    let Some(at) = at else {
        return Err(Stop::Trap(TrapKind::Index));
    };
    if at >= parts.len() {
        return Err(Stop::Trap(TrapKind::Index));
    }
    let element = parts.remove(at);
    Ok(Removed {
        rest: Value::List(parts),
        element,
    })
}

/// The list without the element at the index, and that element. Trap `index` where the index is out of range.
pub fn remove(list: Value, index: &Value) -> Result<Removed, Stop>
    requires { IsSome (removed list index.now) }
    ensures { Answers result (removed list index.now) }
{
    match list {
        Value::List(parts) => match index {
            Value::Int(index) => remove_place(parts, integers::place(*index)),
            _ => unreachable!(),
        },
        _ => unreachable!(),
    }
}

/// The list without its first element, and that element. Trap `index` where the list is empty.
pub fn remove_first(list: Value) -> Result<Removed, Stop>
    requires { IsSome (removed_first list) }
    ensures { Answers result (removed_first list) }
{
    match list {
        Value::List(parts) => remove_place(parts, Some(0)),
        _ => unreachable!(),
    }
}

/// The list without its last element, and that element. Trap `index` where the list is empty.
pub fn remove_last(list: Value) -> Result<Removed, Stop>
    requires { IsSome (removed_last list) }
    ensures { Answers result (removed_last list) }
{
    match list {
        Value::List(parts) => {
            let last = parts.len().saturating_sub(1);
            remove_place(parts, Some(last))
        }
        _ => unreachable!(),
    }
}

fn swapped(parts: Values, i: usize, j: usize) -> Values
    requires first { i < length parts }
    requires second { j < length parts }
    ensures { result ≡ swap parts i j }
{
    let mut parts = parts.into_vec();
    parts.swap(i, j);
    Items::from_vec(parts)
}

fn swap_places(parts: Values, i: Option<usize>, j: Option<usize>) -> Result<Value, Stop>
    ensures { Answers result (swapped_places parts i j) }
{
    let Some(i) = i else {
        return Err(Stop::Trap(TrapKind::Index));
    };
    let Some(j) = j else {
        return Err(Stop::Trap(TrapKind::Index));
    };
    if i < parts.len() && j < parts.len() {
        Ok(Value::List(swapped(parts, i, j)))
    } else {
        Err(Stop::Trap(TrapKind::Index))
    }
}

/// The list with the elements at two indices in each other's place. Trap `index` where one is out of range.
pub fn swap_at(list: Value, i: &Value, j: &Value) -> Result<Value, Stop>
    requires { IsSome (swapped list i.now j.now) }
    ensures { Answers result (swapped list i.now j.now) }
{
    match list {
        Value::List(parts) => match i {
            Value::Int(i) => match j {
                Value::Int(j) => swap_places(parts, integers::place(*i), integers::place(*j)),
                _ => unreachable!(),
            },
            _ => unreachable!(),
        },
        _ => unreachable!(),
    }
}
