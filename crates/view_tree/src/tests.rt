use super::*;
use environment::EnvMap;
use identity_path::{Input, Path, Step};
use std::alloc::{AllocError, Global};
use std::test::Fail;
use sv_items::{Boxed, Items};
use sv_value::{Text, Value};
use swift_core::UnitId;

fn last_run(alloc: Global) -> LastRun {
    LastRun {
        environment: EnvMap::new(Items::new(alloc)),
        reads: Items::new(alloc),
    }
}

fn text_label(alloc: Global, text: &str) -> Result<Label, AllocError> {
    let text = Text::from_str(alloc, text)?;
    let mut inputs = Items::new(alloc);
    inputs.push(Input::Value(Value::Str(text)))?;
    Ok(Label::View(Node {
        kind: NodeKind::Text,
        inputs,
        numbers: Items::new(alloc),
        blocks: Items::new(alloc),
    }))
}

fn one(alloc: Global, node: Built) -> Result<Items<Built>, AllocError> {
    let mut nodes = Items::new(alloc);
    nodes.push(node)?;
    Ok(nodes)
}

// A use of the custom view with this number, as the first view of a builder.
fn row(alloc: Global, view: u32, body: Items<Built>) -> Result<Built, AllocError> {
    let mut steps = Items::new(alloc);
    steps.push(Step::Child(0))?;
    steps.push(Step::View(view))?;
    let custom = Custom {
        unit: UnitId { number: 1 },
        inputs: Items::new(alloc),
        initials: Items::new(alloc),
    };
    let last = last_run(alloc);
    Ok(Built::Custom {
        steps,
        custom,
        last,
        body,
    })
}

// A text that holds a row.
fn text_with_a_row(alloc: Global) -> Result<Built, AllocError> {
    let row = row(alloc, 1, Items::new(alloc))?;
    let parts = one(alloc, row)?;
    let label = text_label(alloc, "a")?;
    Ok(Built::Plain {
        steps: Items::new(alloc),
        label,
        found: Items::new(alloc),
        parts,
    })
}

// That text in a reader, whose builder shows a row too.
fn reader(alloc: Global) -> Result<Built, AllocError> {
    let row = row(alloc, 1, Items::new(alloc))?;
    let body = one(alloc, row)?;
    let text = text_with_a_row(alloc)?;
    let content = Boxed::new(alloc, text)?;
    let mut steps = Items::new(alloc);
    steps.push(Step::Child(0))?;
    let reader = Reader {
        kind: ReaderKind::Overlay,
        number: 0,
        decoration: 0,
        key: 0,
        unit: UnitId { number: 2 },
        captured: Items::new(alloc),
    };
    let run = ReaderRun {
        preference: Value::Int(0),
        around: EnvMap::new(Items::new(alloc)),
        last: last_run(alloc),
    };
    Ok(Built::Reader {
        steps,
        reader,
        content,
        run,
        body,
    })
}

fn app_with_a_reader(alloc: Global) -> Result<BuiltApp, AllocError> {
    let reader = reader(alloc)?;
    let body = one(alloc, reader)?;
    let main = row(alloc, 0, body)?;
    let roots = one(alloc, main)?;
    Ok(BuiltApp {
        last: last_run(alloc),
        roots,
    })
}

#[test]
fn sizes_and_the_description(rt: HostRuntime) -> Result<(), Fail> {
    let app = app_with_a_reader(rt.alloc())?;
    assert_eq!(rt; describe_all(rt.alloc(), app.roots.as_slice())?.len(), 1);
    let root = app.roots.get(0);
    assert_eq!(rt; root.map(|node| node.count()), Some(5));
    assert_eq!(rt; root.map(|node| node.is_within(4)), Some(true));
    assert_eq!(rt; root.map(|node| node.is_within(3)), Some(false));
    Ok(())
}

#[test]
fn a_tree_with_a_reader(rt: HostRuntime) -> Result<(), Fail> {
    let app = app_with_a_reader(rt.alloc())?;
    let is_tree = app.is_tree(rt.alloc())?;
    assert!(rt; is_tree);
    let tree = Tree::new(rt.alloc(), app)?.copy()?;
    // The app, the first row, the row in the text, the reader's unit, and the row that its builder shows.
    assert_eq!(rt; tree.bodies().count(), 5);
    assert_eq!(rt; tree.live().count(), 3);
    assert!(rt; tree.app().is_some());
    Ok(())
}

#[test]
fn two_views_of_one_path(rt: HostRuntime) -> Result<(), Fail> {
    let mut roots = Items::new(rt.alloc());
    roots.push(row(rt.alloc(), 0, Items::new(rt.alloc()))?)?;
    roots.push(row(rt.alloc(), 0, Items::new(rt.alloc()))?)?;
    let app = BuiltApp {
        last: last_run(rt.alloc()),
        roots,
    };
    assert!(rt; !app.is_tree(rt.alloc())?);
    Ok(())
}

#[test]
fn the_empty_tree_and_names(rt: HostRuntime) -> Result<(), Fail> {
    let tree = Tree::empty(rt.alloc());
    tree.rules();
    assert!(rt; tree.app().is_none());
    assert_eq!(rt; tree.bodies().count(), 0);
    let view = Name {
        path: Path::root(rt.alloc()),
        number: None,
    };
    let modifier = Name {
        path: Path::root(rt.alloc()),
        number: Some(0),
    };
    assert!(rt; view.same(&view) && !view.same(&modifier));
    Ok(())
}
