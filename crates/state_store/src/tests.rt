use super::*;
use identity_path::{Path, Step};
use std::test::Fail;
use sv_items::Items;
use sv_value::Value;

#[test]
fn cells_enter_and_leave(rt: HostRuntime) -> Result<(), Fail> {
    let mut state = State::new(rt.alloc());
    let path = Path::root(rt.alloc()).with(Step::View(0))?;
    let mut slots = Items::new(rt.alloc());
    slots.push(Value::Bool(true))?;
    slots.push(Value::Int(5))?;
    assert!(rt; state.cells(&path).is_none());
    assert!(rt; state.enter(path.copy()?, slots).is_ok());
    assert_eq!(rt; state.total(), 2);
    let copy = state.copy()?;
    assert_eq!(rt; copy.total(), 2);
    assert!(rt; state.cells(&path).is_some());
    state.leave(&path);
    assert_eq!(rt; state.total(), 0);
    assert!(rt; copy.cells(&path).is_some());
    Ok(())
}
