ghost use Rattle.std.specs.Prelude.{◌≡◌, ◌<◌};

use crate::{Engine, Event, Form, Halt, Size};
use std::alloc::Global;
use std::marker::Brand;
use std::sync::ledger::{Blank, Ledger};
use std::test::Fail;
use sv_meter::Steps;

// An engine after a tap beside the button and one on it.
fn tapped<B: Ledger, V: Ledger>(alloc: Global, bodies: Blank, visits: Blank) -> Result<Engine, Halt>
    requires bodies_name { bodies.name ≡ B.name }
    requires bodies_parts { bodies.parts ≡ B.parts }
    requires bodies_some { 0 < B.parts }
    requires visits_name { visits.name ≡ V.name }
    requires visits_parts { visits.parts ≡ V.parts }
    requires visits_some { 0 < V.parts }
{
    let mut bodies = Steps::<B>::new(bodies);
    let mut visits = Steps::<V>::new(visits);
    let form = Form {
        init: 7,
        step: 1,
        prefix: b"n ".to_vec(alloc)?,
        label: b"+".to_vec(alloc)?,
    };
    let size = Size { w: 80, h: 24 };
    let mut engine = Engine::launch(alloc, form, size, &mut bodies, &mut visits)?;
    let _ = engine.deliver(&Event::Tap { x: 38, y: 12 }, &mut bodies, &mut visits)?;
    let _ = engine.deliver(&Event::Tap { x: 41, y: 12 }, &mut bodies, &mut visits)?;
    Ok(engine)
}

#[test]
fn shows_the_number(rt: HostRuntime) -> Result<(), Fail> {
    let engine = tapped::<Brand, Brand>(rt.alloc(), Blank::new(1), Blank::new(1))?;
    let cells = engine.frame().cells.as_slice();
    assert_eq!(rt; cells.get(919..922).unwrap_or(b""), b"n 8".as_slice());
    assert_eq!(rt; cells.get(999..1002).unwrap_or(b""), b"[+]".as_slice());
    assert_eq!(rt; cells.iter().filter(|b| **b == b' ').count(), 1915);
    assert_eq!(rt; engine.deliveries(), 2);
    Ok(())
}
