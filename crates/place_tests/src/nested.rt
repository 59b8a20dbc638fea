ghost use Rattle.std.specs.Prelude.{◌↔◌, IsTrue};
ghost use Rattle.sv_value.specs.declared.value.Value.{out-Value};
ghost use Rattle.swift_core.specs.Values.{HasValue, AllHaveValue};
ghost use Rattle.place_tests.specs.Nested.{ListHas};
ghost use Rattle.place_tests.specs.Walks.{nest};

use sv_value::Value;
use swift_core::{Table, Ty};
use value_tests::{all_have, has_value};

/// Whether a value has the type under so many lists.
#[tactic(auto, using(crate::proofs::Nests::no_list, crate::proofs::Nests::some_list))]
pub fn has_nested(table: &Table, lists: usize, base: &Ty, value: &Value) -> bool
    ensures value { IsTrue result ↔ HasValue table.now (nest lists base.now) value.now }
{
    if lists == 0 {
        has_value(table, base, value)
    } else {
        list_has(value, table, lists - 1, base)
    }
}

/// Whether a value is a list of values that have the type under so many lists.
#[cycle(nested)]
fn list_has(value: &Value, table: &Table, lists: usize, base: &Ty) -> bool
    ensures value { IsTrue result ↔ ListHas table.now (nest lists base.now) (out-Value value.now) }
{
    match value {
        Value::List(values) => all_nested(values.as_slice(), table, lists, base),
        _ => false,
    }
}

/// Whether each value has the type under so many lists.
#[cycle(nested)]
#[tactic(auto, using(crate::proofs::Nests::none_yet, crate::proofs::Nests::all_plain, crate::proofs::Nests::all_more, crate::proofs::Nests::all_end, crate::proofs::Nests::all_fails))]
fn all_nested(values: &[Value], table: &Table, lists: usize, base: &Ty) -> bool
    ensures value { IsTrue result ↔ AllHaveValue table.now (nest lists base.now) values.now }
{
    if lists == 0 {
        return all_have(values, table, base);
    }
    for i in 0..values.len() {
        if !list_has(&values[i], table, lists - 1, base) {
            return false;
        }
    }
    true
}
