ghost use Rattle.std.specs.Prelude.{◌≡◌};
ghost use Rattle.post_rules.specs.Members.{property_named, asking_named, changing_named, built_in_named, built_in_member};
ghost use Rattle.post_rules.specs.declared.chained.Chained.TheVariants as chained;
ghost use Rattle.sv_value.specs.declared.value.Value.TheVariants as value;
ghost use Rattle.swift_core.specs.declared.term.Core.TheVariants as core;
ghost use Rattle.swift_core.specs.declared.ty.Ty.TheVariants as ty;
ghost use Rattle.type_base.specs.Rules.{Answers};

use post_rules::{BuiltIn, Chained, Method};
use sv_value::Value;
use swift_core::{Core, Ty};
use type_base::Fault;
use value_calls::Property;

/// The property of strings and lists of this name.
pub fn property_named(name: &[u8]) -> Option<Property>
    ensures value { result ≡ property_named name.now }
{
    if name == b"count".as_slice() {
        Some(Property::Count)
    } else if name == b"isEmpty".as_slice() {
        Some(Property::IsEmpty)
    } else if name == b"first".as_slice() {
        Some(Property::First)
    } else if name == b"last".as_slice() {
        Some(Property::Last)
    } else {
        None
    }
}

/// The function of lists of this name that changes nothing.
pub fn asking_named(name: &[u8]) -> Option<Method>
    ensures value { result ≡ asking_named name.now }
{
    if name == b"contains".as_slice() {
        Some(Method::Contains)
    } else if name == b"firstIndex".as_slice() {
        Some(Method::FirstIndex)
    } else {
        None
    }
}

/// The function of lists of this name that changes the list.
pub fn changing_named(name: &[u8]) -> Option<Method>
    ensures value { result ≡ changing_named name.now }
{
    if name == b"append".as_slice() {
        Some(Method::Append)
    } else if name == b"insert".as_slice() {
        Some(Method::Insert)
    } else if name == b"remove".as_slice() {
        Some(Method::Remove)
    } else if name == b"removeFirst".as_slice() {
        Some(Method::RemoveFirst)
    } else if name == b"removeLast".as_slice() {
        Some(Method::RemoveLast)
    } else if name == b"removeAll".as_slice() {
        Some(Method::RemoveAll)
    } else if name == b"swapAt".as_slice() {
        Some(Method::SwapAt)
    } else {
        None
    }
}

/// The built-in name.
pub fn built_in_named(name: &[u8]) -> Option<BuiltIn>
    ensures value { result ≡ built_in_named name.now }
{
    if name == b"Int".as_slice() {
        Some(BuiltIn::Int)
    } else if name == b"String".as_slice() {
        Some(BuiltIn::Text)
    } else if name == b"abs".as_slice() {
        Some(BuiltIn::Absolute)
    } else if name == b"min".as_slice() {
        Some(BuiltIn::Min)
    } else if name == b"max".as_slice() {
        Some(BuiltIn::Max)
    } else {
        None
    }
}

/// A number, with its type.
fn number(number: i64) -> Chained
    ensures value { result ≡ chained.Value (core.Literal (value.Int number)) ty.Int }
{
    Chained::Value(Core::Literal(Value::Int(number)), Ty::Int)
}

/// `Int.max` and `Int.min`.
pub fn built_in_member(built_in: BuiltIn, name: &[u8]) -> Result<Chained, Fault>
    ensures found { Answers result (built_in_member built_in name.now) }
{
    if built_in != BuiltIn::Int {
        return Err(Fault::NotTyped);
    }
    if name == b"max".as_slice() {
        Ok(number(i64::MAX))
    } else if name == b"min".as_slice() {
        Ok(number(i64::MIN))
    } else {
        Err(Fault::NotTyped)
    }
}
