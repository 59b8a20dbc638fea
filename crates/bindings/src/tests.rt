ghost use Rattle.std.specs.Prelude.{◌≡◌, [], ◌∷◌, IfOk};
ghost use Rattle.sv_value.specs.declared.hop.Hop.TheVariants as hop;
ghost use Rattle.sv_value.specs.declared.value.Value.TheVariants as whole;

use super::*;
use std::alloc::{AllocError, Global};
use std::test::Fail;
use sv_items::Items;

fn pair(alloc: Global, first: i64, second: i64) -> Result<Value, AllocError>
    ensures { IfOk result (λ v. v ≡ whole.List (whole.Int first ∷ whole.Int second ∷ [])) }
{
    let mut parts = Items::new(alloc);
    parts.push(Value::Int(first))?;
    parts.push(Value::Int(second))?;
    Ok(Value::List(parts))
}

fn one_hop(alloc: Global, index: i64) -> Result<Hops, AllocError>
    ensures { IfOk result (λ hops. hops ≡ hop.Index index ∷ []) }
{
    Items::from_slice(alloc, &[Hop::Index(index)])
}

#[test]
fn second_of_two(rt: HostRuntime) -> Result<(), Fail> {
    let mut value = pair(rt.alloc(), 1, 2)?;
    let hops = one_hop(rt.alloc(), 1)?;
    assert_eq!(rt; set(&mut value, &hops, Value::Int(9)), Ok(()));
    let expected = pair(rt.alloc(), 1, 9)?;
    assert!(rt; value.same(&expected));
    Ok(())
}

#[test]
fn third_of_two(rt: HostRuntime) -> Result<(), Fail> {
    let mut value = pair(rt.alloc(), 1, 2)?;
    let hops = one_hop(rt.alloc(), 2)?;
    assert!(rt; get(&value, &hops).is_err());
    assert_eq!(rt;
        set(&mut value, &hops, Value::Int(9)),
        Err(Missing { index: 2 })
    );
    Ok(())
}
