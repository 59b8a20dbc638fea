use super::*;
use std::test::Fail;
use sv_items::Items;
use sv_value::{Hop, Names, Text, Value};

#[test]
fn main_below_the_first_child(rt: HostRuntime) -> Result<(), Fail> {
    let mut views = Items::new(rt.alloc());
    views.push(Text::from_str(rt.alloc(), "Main")?)?;
    let names = Names {
        views,
        kinds: Items::new(rt.alloc()),
        fields: Items::new(rt.alloc()),
        cases: Items::new(rt.alloc()),
        slots: Items::new(rt.alloc()),
    };
    let root = Path::root(rt.alloc());
    assert_eq!(rt; text_of(rt.alloc(), &root, &names)?.as_str(), "/");
    let path = root.with(Step::Child(0))?.with(Step::View(0))?;
    assert_eq!(rt; text_of(rt.alloc(), &path, &names)?.as_str(), "0/Main");
    Ok(())
}

#[test]
fn copies(rt: HostRuntime) -> Result<(), Fail> {
    let path = Path::root(rt.alloc()).with(Step::Item(Value::Int(3), 1))?;
    assert!(rt; path.same(&path.copy()?));
    assert!(rt; !path.same(&path.with(Step::Branch(0))?));
    let hops = Items::from_slice(rt.alloc(), &[Hop::Index(1)])?;
    let place = Place {
        path,
        slot: 0,
        hops,
    };
    assert!(rt; place.same(&place.copy()?));
    let mut inputs = Items::new(rt.alloc());
    inputs.push(Input::Place(place))?;
    assert_eq!(rt; inputs.copy()?.len(), 1);
    Ok(())
}
