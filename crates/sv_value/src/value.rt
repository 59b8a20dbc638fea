ghost use Rattle.std.specs.Prelude.{◌≡◌, min, map, sum, IfOk, IsTrue, ◌↔◌};
ghost use Rattle.sv_value.specs.Value.{weight};

use crate::text::Text;
use std::alloc::{AllocError, Global};
use sv_items::{Boxed, Items};

/// A list of values.
pub type Values = Items<Value>;

/// A boxed value or nothing.
pub type OptValue = Option<Boxed<Value>>;

/// A value of the language.
#[derive(Drop)]
pub enum Value {
    Int(i64),
    Bool(bool),
    Str(Text),
    List(Values),
    /// nil, or a filled optional.
    Opt(OptValue),
    /// A struct of the kind with this number, with the values of its fields in order.
    Struct { kind: u32, fields: Values },
    /// A case of the enum with this number, by its place among the cases.
    Case { kind: u32, place: u32 },
}

impl Value {
    /// The weight of the value, or the greatest `u64` where it weighs more.
    #[cycle(weight)]
    pub fn weight(&self) -> u64
        ensures { result ≡ min (weight self.now) 18446744073709551615 }
    {
        match self {
            Value::Int(_) => 1,
            Value::Bool(_) => 1,
            Value::Str(text) => (text.len() as u64).saturating_add(1),
            Value::List(parts) => weight_of_all(parts.as_slice()).saturating_add(1),
            Value::Opt(None) => 1,
            Value::Opt(Some(part)) => part.get().weight().saturating_add(1),
            Value::Struct { fields, .. } => weight_of_all(fields.as_slice()).saturating_add(1),
            Value::Case { .. } => 1,
        }
    }

    /// An equal value.
    #[cycle(copy)]
    pub fn copy(&self, alloc: Global) -> Result<Value, AllocError>
        ensures { IfOk result (λ v. v ≡ self.now) }
    {
        match self {
            Value::Int(number) => Ok(Value::Int(*number)),
            Value::Bool(truth) => Ok(Value::Bool(*truth)),
            Value::Str(text) => Ok(Value::Str(text.copy()?)),
            Value::List(parts) => Ok(Value::List(copy_of_all(parts)?)),
            Value::Opt(None) => Ok(Value::Opt(None)),
            Value::Opt(Some(part)) => {
                let part = part.get().copy(alloc)?;
                Ok(Value::Opt(Some(Boxed::new(alloc, part)?)))
            }
            Value::Struct { kind, fields } => Ok(Value::Struct {
                kind: *kind,
                fields: copy_of_all(fields)?,
            }),
            Value::Case { kind, place } => Ok(Value::Case {
                kind: *kind,
                place: *place,
            }),
        }
    }

    /// Whether both are the same value, part by part.
    #[cycle(same)]
    pub fn same(&self, other: &Value) -> bool
        ensures { IsTrue result ↔ (self.now ≡ other.now) }
    {
        match (self, other) {
            (Value::Int(a), Value::Int(b)) => *a == *b,
            (Value::Bool(a), Value::Bool(b)) => *a == *b,
            (Value::Str(a), Value::Str(b)) => a.same(b),
            (Value::List(a), Value::List(b)) => all_same(a.as_slice(), b.as_slice()),
            (Value::Opt(None), Value::Opt(None)) => true,
            (Value::Opt(Some(a)), Value::Opt(Some(b))) => a.get().same(b.get()),
            (
                Value::Struct {
                    kind: a,
                    fields: left,
                },
                Value::Struct {
                    kind: b,
                    fields: right,
                },
            ) => *a == *b && all_same(left.as_slice(), right.as_slice()),
            (Value::Case { kind: a, place: at }, Value::Case { kind: b, place: by }) => {
                *a == *b && *at == *by
            }
            _ => false,
        }
    }
}

/// The weight of the values together, or the greatest `u64` where they weigh more.
#[cycle(weight)]
pub fn weight_of_all(parts: &[Value]) -> u64
    ensures { result ≡ min (sum (map weight parts.now)) 18446744073709551615 }
{
    let mut total: u64 = 0;
    for part in parts {
        total = total.saturating_add(part.weight());
    }
    total
}

/// An equal list.
#[cycle(copy)]
pub fn copy_of_all(parts: &Values) -> Result<Values, AllocError>
    ensures { IfOk result (λ v. v ≡ parts.now) }
{
    let alloc = parts.allocator();
    let mut copy = Items::new(alloc);
    for part in parts.as_slice() {
        let part = part.copy(alloc)?;
        copy.push(part)?;
    }
    Ok(copy)
}

/// Whether both lists have equal values in the same order. Lists of different length are told apart at once.
#[cycle(same)]
pub fn all_same(left: &[Value], right: &[Value]) -> bool
    ensures { IsTrue result ↔ (left.now ≡ right.now) }
{
    if left.len() != right.len() {
        return false;
    }
    for i in 0..left.len() {
        if !left[i].same(&right[i]) {
            return false;
        }
    }
    true
}
