//! What the values of one kind are told apart by.
ghost use Rattle.std.specs.Prelude.{◌≡◌, ◌++◌, [], map, string_bytes, IfOk, OnOk};
ghost use Rattle.std.specs.List.{cons_option};
ghost use Rattle.sv_value.specs.declared.value.Value.{out-Value};
ghost use Rattle.type_cases.specs.Keys.{number_at, truth_at, text_at, place_at, keys};

use std::alloc::{AllocError, Global};
use sv_value::Value;

/// The number that a value is.
fn number(value: &Value) -> Option<i64>
    ensures value { result ≡ number_at (out-Value value.now) }
{
    match value {
        Value::Int(number) => Some(*number),
        _ => None,
    }
}

/// The truth that a value is.
fn truth(value: &Value) -> Option<bool>
    ensures value { result ≡ truth_at (out-Value value.now) }
{
    match value {
        Value::Bool(truth) => Some(*truth),
        _ => None,
    }
}

/// The place of the case that a value is.
fn place(value: &Value) -> Option<u32>
    ensures value { result ≡ place_at (out-Value value.now) }
{
    match value {
        Value::Case { place, .. } => Some(*place),
        _ => None,
    }
}

/// The numbers among the values.
pub fn numbers(alloc: Global, values: &[Value]) -> Result<Vec<i64>, AllocError>
    ensures value { IfOk result (λ list. list.items ≡ keys number_at values.now) }
{
    values
        .iter()
        .filter_map(|value| number(value))
        .collect(alloc)
}

/// The truths among the values.
pub fn truths(alloc: Global, values: &[Value]) -> Result<Vec<bool>, AllocError>
    ensures value { IfOk result (λ list. list.items ≡ keys truth_at values.now) }
{
    values
        .iter()
        .filter_map(|value| truth(value))
        .collect(alloc)
}

/// The places of the cases among the values.
pub fn places(alloc: Global, values: &[Value]) -> Result<Vec<u32>, AllocError>
    ensures value { IfOk result (λ list. list.items ≡ keys place_at values.now) }
{
    values
        .iter()
        .filter_map(|value| place(value))
        .collect(alloc)
}

/// Adds the text, if the value is one.
fn push_text(texts: &mut Vec<String>, value: &Value) -> Result<(), AllocError>
    ensures ok { OnOk result (map string_bytes texts.new.items ≡ map string_bytes texts.old.items ++ cons_option (text_at (out-Value value.now)) []) }
{
    match value {
        Value::Str(text) => {
            let copy = text.copy()?;
            texts.push(copy.into_string())?;
            Ok(())
        }
        _ => Ok(()),
    }
}

/// The texts among the values.
#[tactic(auto, using(crate::proofs::KeyLaws::keys_more))]
pub fn texts(alloc: Global, values: &[Value]) -> Result<Vec<String>, AllocError>
    ensures value { IfOk result (λ list. map string_bytes list.items ≡ keys text_at values.now) }
{
    let mut texts = Vec::new(alloc);
    let mut left = values;
    while let Some((value, rest)) = left.split_first() {
        push_text(&mut texts, value)?;
        left = rest;
    }
    Ok(texts)
}
