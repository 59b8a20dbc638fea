ghost use Rattle.std.specs.Prelude.{◌↔◌, IsTrue};
ghost use Rattle.sv_value.specs.declared.value.Value.{out-Value};
ghost use Rattle.swift_core.specs.declared.ty.Ty.{out-Ty};
ghost use Rattle.swift_core.specs.Values.{HasValue, AllHaveValue};
ghost use Rattle.value_tests.specs.Layers.{LayerHas, StructHas};

use crate::fields::{case_has, data_of, next_input, none_left, type_at};
use sv_value::Value;
use swift_core::{Table, Ty};

/// Whether a value has a type.
pub fn has_value(table: &Table, ty: &Ty, value: &Value) -> bool
    ensures value { IsTrue result ↔ HasValue table.now ty.now value.now }
{
    has(value, table, ty)
}

/// Whether a value has a type, by the forms of both.
#[cycle(has)]
fn has(value: &Value, table: &Table, ty: &Ty) -> bool
    ensures value { IsTrue result ↔ LayerHas table.now (out-Ty ty.now) (out-Value value.now) }
{
    match (ty, value) {
        (Ty::Int, Value::Int(_)) => true,
        (Ty::Bool, Value::Bool(_)) => true,
        (Ty::Text, Value::Str(_)) => true,
        (Ty::List(element), Value::List(values)) => {
            all_have(values.as_slice(), table, element.get())
        }
        (Ty::Optional(_), Value::Opt(None)) => true,
        (Ty::Optional(inside), Value::Opt(Some(part))) => has(part.get(), table, inside.get()),
        (Ty::Named(named), Value::Struct { kind, fields }) => {
            fields_have(fields.as_slice(), table, *named, *kind)
        }
        (Ty::Named(named), Value::Case { kind, place }) => case_has(table, *named, *kind, *place),
        _ => false,
    }
}

/// Whether each value has the type.
#[cycle(has)]
#[tactic(auto, using(crate::proofs::Runs::all_none, crate::proofs::Runs::all_more, crate::proofs::Runs::all_end, crate::proofs::Runs::all_fails))]
pub fn all_have(values: &[Value], table: &Table, ty: &Ty) -> bool
    ensures value { IsTrue result ↔ AllHaveValue table.now ty.now values.now }
{
    for i in 0..values.len() {
        if !has(&values[i], table, ty) {
            return false;
        }
    }
    true
}

/// Whether the data struct that both numbers name has these fields.
#[cycle(has)]
#[tactic(auto, using(crate::proofs::Runs::rest_start, crate::proofs::Runs::apart, crate::proofs::Runs::no_data))]
fn fields_have(values: &[Value], table: &Table, named: u32, number: u32) -> bool
    ensures value { IsTrue result ↔ StructHas table.now named number values.now }
{
    if named != number {
        return false;
    }
    let declaration = match data_of(table, number) {
        Some(declaration) => declaration,
        None => return false,
    };
    let members = declaration.members.as_slice();
    let mut next = 0usize;
    for i in 0..values.len() {
        let at = next_input(members, next);
        let ty = match type_at(members, at) {
            Some(ty) => ty,
            None => return false,
        };
        if !has(&values[i], table, ty) {
            return false;
        }
        next = at + 1;
    }
    none_left(members, next)
}
