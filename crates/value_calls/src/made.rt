ghost use Rattle.std.specs.Prelude.{◌≡◌, ◌∷◌, [], ◌++◌, ◌≤◌, length, insert, Some, None};
ghost use Rattle.value_calls.specs.Made.{made};
ghost use Rattle.value_calls.specs.Traps.{Answers};

use crate::traps::{Stop, TrapKind};
use std::alloc::Global;
use sv_items::Boxed;
use sv_value::{Text, Value, Values, weight_of_all};

/// The greatest weight of a value.
pub const MAX_WEIGHT: u64 = 65_536;

/// A text as a value. Trap `weight` where it is too heavy, and so for the others that make a value.
#[tactic(auto, using(crate::proofs::Weighs::made_text_light, crate::proofs::Weighs::made_text_heavy))]
pub fn text_of(text: Text) -> Result<Value, Stop>
    ensures { Answers result (made (Value.Str text)) }
{
    if text.len() as u64 >= MAX_WEIGHT {
        return Err(Stop::Trap(TrapKind::Weight));
    }
    Ok(Value::Str(text))
}

/// A list of parts as a value.
#[tactic(auto, using(crate::proofs::Weighs::made_list_light, crate::proofs::Weighs::made_list_heavy))]
pub fn list_of(parts: Values) -> Result<Value, Stop>
    ensures { Answers result (made (Value.List parts)) }
{
    if weight_of_all(parts.as_slice()) >= MAX_WEIGHT {
        return Err(Stop::Trap(TrapKind::Weight));
    }
    Ok(Value::List(parts))
}

/// A struct of its fields as a value.
#[tactic(auto, using(crate::proofs::Weighs::made_struct_light, crate::proofs::Weighs::made_struct_heavy))]
pub fn struct_of(kind: u32, fields: Values) -> Result<Value, Stop>
    ensures { Answers result (made (Value.Struct kind fields)) }
{
    if weight_of_all(fields.as_slice()) >= MAX_WEIGHT {
        return Err(Stop::Trap(TrapKind::Weight));
    }
    Ok(Value::Struct { kind, fields })
}

/// A value as a filled optional.
#[tactic(auto, using(crate::proofs::Weighs::made_some_light, crate::proofs::Weighs::made_some_heavy))]
pub fn promote(alloc: Global, value: Value) -> Result<Value, Stop>
    ensures { Answers result (made (Value.Opt (Some value))) }
{
    if value.weight() >= MAX_WEIGHT {
        return Err(Stop::Trap(TrapKind::Weight));
    }
    let part = Boxed::new(alloc, value)?;
    Ok(Value::Opt(Some(part)))
}

/// No value, as an optional.
#[tactic(auto, using(crate::proofs::Weighs::made_nil))]
pub fn nil() -> Result<Value, Stop>
    ensures { Answers result (made (Value.Opt None)) }
{
    Ok(Value::Opt(None))
}

/// The parts of both lists. The weight is tested before the list grows, and so for the others that make a list longer.
#[tactic(auto, using(crate::proofs::Weighs::made_list_light, crate::proofs::Weighs::made_list_heavy, crate::proofs::Weighs::weights_append))]
pub fn joined_lists(mut parts: Values, more: Values) -> Result<Value, Stop>
    ensures { Answers result (made (Value.List (parts ++ more))) }
{
    let weight = weight_of_all(parts.as_slice()).saturating_add(weight_of_all(more.as_slice()));
    if weight >= MAX_WEIGHT {
        return Err(Stop::Trap(TrapKind::Weight));
    }
    parts.append(more)?;
    Ok(Value::List(parts))
}

/// The list with one more part at its end.
#[tactic(auto, using(crate::proofs::Weighs::made_list_light, crate::proofs::Weighs::made_list_heavy, crate::proofs::Weighs::weights_push))]
pub fn pushed(mut parts: Values, item: Value) -> Result<Value, Stop>
    ensures { Answers result (made (Value.List (parts ++ item ∷ []))) }
{
    let weight = weight_of_all(parts.as_slice()).saturating_add(item.weight());
    if weight >= MAX_WEIGHT {
        return Err(Stop::Trap(TrapKind::Weight));
    }
    parts.push(item)?;
    Ok(Value::List(parts))
}

/// The list with one more part before that at `at`.
#[tactic(auto, using(crate::proofs::Weighs::made_list_light, crate::proofs::Weighs::made_list_heavy, crate::proofs::Weighs::weights_insert))]
pub fn put_in(mut parts: Values, at: usize, item: Value) -> Result<Value, Stop>
    requires { at ≤ length parts }
    ensures { Answers result (made (Value.List (insert parts at item))) }
{
    let weight = weight_of_all(parts.as_slice()).saturating_add(item.weight());
    if weight >= MAX_WEIGHT {
        return Err(Stop::Trap(TrapKind::Weight));
    }
    parts.insert(at, item)?;
    Ok(Value::List(parts))
}

/// Both texts as one. The weight is tested before the text grows.
#[tactic(auto, using(crate::proofs::Weighs::made_text_light, crate::proofs::Weighs::made_text_heavy, crate::proofs::Weighs::lengths_append))]
pub fn joined_texts(text: Text, more: &Text) -> Result<Value, Stop>
    ensures { Answers result (made (Value.Str (text ++ more.now))) }
{
    let weight = (text.len() as u64).saturating_add(more.len() as u64);
    if weight >= MAX_WEIGHT {
        return Err(Stop::Trap(TrapKind::Weight));
    }
    let mut text = text.into_string();
    text.push_str(more.as_str())?;
    Ok(Value::Str(Text::from_string(text)))
}
