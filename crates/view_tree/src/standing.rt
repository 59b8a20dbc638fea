ghost use Rattle.std.specs.Prelude.{◌≡◌, ◌++◌, ◌∷◌, [], map, flat_map, IfOk, OnOk};
ghost use Rattle.view_tree.specs.Standing.{standing_in, below, label_standing, name_of, unit_path, view_path};
ghost use Rattle.view_tree.specs.Trees.{app_standing};

use crate::built::{Built, BuiltApp};
use identity_path::{Path, Step};
use std::alloc::{AllocError, Global};
use sv_items::Items;
use view_nodes::Label;

/// The name of a node. That of a view is its path, that of a modifier its path and its number.
#[derive(Drop)]
pub struct Name {
    pub path: Path,
    pub number: Option<u32>,
}

/// What stands in a tree.
#[derive(Drop)]
pub enum Standing {
    /// A view that is no custom view.
    View(Path),
    Custom(Path),
    /// A modifier with its number.
    Modifier(Path, u32),
    /// The unit of a preference reader, whose path is that of its builder.
    Reader(Path),
}

/// The path that goes on from another by these steps.
fn join(alloc: Global, at: &Path, steps: &[Step]) -> Result<Path, AllocError>
    ensures { IfOk result (λ p. p ≡ at.now ++ steps.now) }
{
    let mut path = at.copy()?;
    for step in steps {
        let step = step.copy(alloc)?;
        path = path.with(step)?;
    }
    Ok(path)
}

fn push_own(label: &Label, path: &Path, out: &mut Items<Standing>) -> Result<(), AllocError>
    ensures { OnOk result (out.new ≡ out.old ++ label_standing label.now path.now ∷ []) }
{
    let path = path.copy()?;
    match label {
        Label::View(_) => out.push(Standing::View(path)),
        Label::Modifier(modifier) => out.push(Standing::Modifier(path, modifier.number)),
    }
}

fn push_custom(path: &Path, out: &mut Items<Standing>) -> Result<(), AllocError>
    ensures { OnOk result (out.new ≡ out.old ++ Standing.Custom path.now ∷ []) }
{
    out.push(Standing::Custom(path.copy()?))
}

fn push_reader(path: &Path, out: &mut Items<Standing>) -> Result<(), AllocError>
    ensures { OnOk result (out.new ≡ out.old ++ Standing.Reader path.now ∷ []) }
{
    out.push(Standing::Reader(path.copy()?))
}

fn push_modifier(path: &Path, number: u32, out: &mut Items<Standing>) -> Result<(), AllocError>
    ensures { OnOk result (out.new ≡ out.old ++ Standing.Modifier path.now number ∷ []) }
{
    out.push(Standing::Modifier(path.copy()?, number))
}

#[cycle(walk)]
fn walk_all(
    alloc: Global,
    nodes: &[Built],
    at: &Path,
    out: &mut Items<Standing>,
) -> Result<(), AllocError>
    ensures { OnOk result (out.new ≡ out.old ++ below at.now (map standing_in nodes.now)) }
{
    for node in nodes {
        walk(alloc, node, at, out)?;
    }
    Ok(())
}

#[cycle(walk)]
fn walk(alloc: Global, node: &Built, at: &Path, out: &mut Items<Standing>) -> Result<(), AllocError>
    ensures { OnOk result (out.new ≡ out.old ++ standing_in node.now at.now) }
{
    match node {
        Built::Plain {
            steps,
            label,
            parts,
            ..
        } => {
            let path = join(alloc, at, steps.as_slice())?;
            push_own(label, &path, out)?;
            walk_all(alloc, parts.as_slice(), &path, out)?;
            Ok(())
        }
        Built::Custom { steps, body, .. } => {
            let path = join(alloc, at, steps.as_slice())?;
            push_custom(&path, out)?;
            walk_all(alloc, body.as_slice(), &path, out)?;
            Ok(())
        }
        Built::Reader {
            steps,
            reader,
            content,
            body,
            ..
        } => {
            let path = join(alloc, at, steps.as_slice())?;
            push_modifier(&path, reader.number, out)?;
            walk(alloc, content.get(), &path, out)?;
            let builder = path.with(Step::Pref(reader.decoration))?;
            push_reader(&builder, out)?;
            walk_all(alloc, body.as_slice(), &builder, out)?;
            Ok(())
        }
    }
}

/// What stands in the app, in tree order.
pub fn standing_of(alloc: Global, app: &BuiltApp) -> Result<Items<Standing>, AllocError>
    ensures { IfOk result (λ all. all ≡ app_standing app.now) }
{
    let mut out = Items::new(alloc);
    let root = Path::root(alloc);
    walk_all(alloc, app.roots.as_slice(), &root, &mut out)?;
    Ok(out)
}

fn push_name(one: &Standing, out: &mut Items<Name>) -> Result<(), AllocError>
    ensures { OnOk result (out.new ≡ out.old ++ name_of one.now) }
{
    match one {
        Standing::View(path) | Standing::Custom(path) => out.push(Name {
            path: path.copy()?,
            number: None,
        }),
        Standing::Modifier(path, number) => out.push(Name {
            path: path.copy()?,
            number: Some(*number),
        }),
        Standing::Reader(_) => Ok(()),
    }
}

fn push_unit(one: &Standing, out: &mut Items<Path>) -> Result<(), AllocError>
    ensures { OnOk result (out.new ≡ out.old ++ unit_path one.now) }
{
    match one {
        Standing::Custom(path) => out.push(path.copy()?),
        Standing::Reader(path) => out.push(path.copy()?),
        Standing::View(_) | Standing::Modifier(..) => Ok(()),
    }
}

fn push_view(one: &Standing, out: &mut Items<Path>) -> Result<(), AllocError>
    ensures { OnOk result (out.new ≡ out.old ++ view_path one.now) }
{
    match one {
        Standing::Custom(path) => out.push(path.copy()?),
        Standing::View(_) | Standing::Modifier(..) | Standing::Reader(_) => Ok(()),
    }
}

/// The names of the nodes among these.
pub fn names_of(alloc: Global, all: &[Standing]) -> Result<Items<Name>, AllocError>
    ensures { IfOk result (λ names. names ≡ flat_map name_of all.now) }
{
    let mut out = Items::new(alloc);
    for one in all {
        push_name(one, &mut out)?;
    }
    Ok(out)
}

/// The app's own path, and the paths of the units among these.
pub fn units_of(alloc: Global, all: &[Standing]) -> Result<Items<Path>, AllocError>
    ensures { IfOk result (λ paths. paths ≡ [] ∷ flat_map unit_path all.now) }
{
    let mut out = Items::new(alloc);
    out.push(Path::root(alloc))?;
    for one in all {
        push_unit(one, &mut out)?;
    }
    Ok(out)
}

/// The paths of the custom views among these.
pub fn views_of(alloc: Global, all: &[Standing]) -> Result<Items<Path>, AllocError>
    ensures { IfOk result (λ paths. paths ≡ flat_map view_path all.now) }
{
    let mut out = Items::new(alloc);
    for one in all {
        push_view(one, &mut out)?;
    }
    Ok(out)
}
