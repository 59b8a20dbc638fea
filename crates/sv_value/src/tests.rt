ghost use Rattle.std.specs.Prelude.{◌≡◌, [], ◌∷◌, IfOk};

use super::*;
use std::alloc::{AllocError, Global};
use std::test::Fail;
use sv_items::Items;

fn pair(alloc: Global, first: Value, second: Value) -> Result<Values, AllocError>
    ensures { IfOk result (λ list. list ≡ first ∷ second ∷ []) }
{
    let mut list = Items::new(alloc);
    list.push(first)?;
    list.push(second)?;
    Ok(list)
}

fn no_names(alloc: Global) -> Names {
    Names {
        views: Items::new(alloc),
        kinds: Items::new(alloc),
        fields: Items::new(alloc),
        cases: Items::new(alloc),
        slots: Items::new(alloc),
    }
}

#[test]
fn list_of_two(rt: HostRuntime) -> Result<(), Fail> {
    let list = Value::List(pair(rt.alloc(), Value::Int(1), Value::Int(2))?);
    let copy = list.copy(rt.alloc())?;
    assert!(rt; list.same(&copy));
    assert_eq!(rt; copy.weight(), 3);
    let text = copy.print(rt.alloc(), &no_names(rt.alloc()))?;
    assert_eq!(rt; text.as_str(), "[1, 2]");
    Ok(())
}

#[test]
fn strings(rt: HostRuntime) -> Result<(), Fail> {
    let text = Text::from_str(rt.alloc(), "a\"\\\n\r\t\0\u{1f}\u{9f}é")?;
    let value = Value::Str(text);
    let printed = value.print(rt.alloc(), &no_names(rt.alloc()))?;
    assert_eq!(rt;
        printed.as_str(),
        "\"a\\\"\\\\\\n\\r\\t\\0\\u{1f}\\u{9f}é\""
    );
    let nil = Value::Opt(None).print(rt.alloc(), &no_names(rt.alloc()))?;
    assert_eq!(rt; nil.as_str(), "nil");
    Ok(())
}

#[test]
fn depth_64(rt: HostRuntime) -> Result<(), Fail> {
    let mut deep = Value::Bool(true);
    for _ in 0..64u32 {
        let mut parts = Items::new(rt.alloc());
        parts.push(deep)?;
        deep = Value::List(parts);
    }
    assert_eq!(rt; deep.weight(), 65);
    let copy = deep.copy(rt.alloc())?;
    assert!(rt; deep.same(&copy));
    Ok(())
}

#[test]
fn lists_of_texts_and_hops(rt: HostRuntime) -> Result<(), Fail> {
    let values = pair(rt.alloc(), Value::Bool(false), Value::Int(-5))?;
    let copy = values.copy()?;
    assert!(rt; all_same(values.as_slice(), copy.as_slice()));
    let hops = Items::from_slice(rt.alloc(), &[Hop::Field(1), Hop::Index(-2)])?;
    assert_eq!(rt; hops.copy()?.as_slice(), hops.as_slice());
    Ok(())
}
