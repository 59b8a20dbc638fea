ghost use Rattle.std.specs.Prelude.{◌≡◌, IfOk};

use crate::built::{Built, BuiltApp, LastRun, ReaderRun};
use identity_path::Step;
use std::alloc::{AllocError, Global};
use sv_items::{Boxed, Items};
use sv_value::{CopyList, Values};
use view_nodes::{Custom, Label, Reader, copy_steps};

fn plain_node(
    alloc: Global,
    steps: &[Step],
    label: &Label,
    found: &Values,
    parts: Items<Built>,
) -> Result<Built, AllocError>
    ensures { IfOk result (λ n. n ≡ Built.Plain steps.now label.now found.now parts) }
{
    let steps = copy_steps(alloc, steps)?;
    let found = found.copy()?;
    let label = label.copy(alloc)?;
    Ok(Built::Plain {
        steps,
        label,
        found,
        parts,
    })
}

fn custom_node(
    alloc: Global,
    steps: &[Step],
    custom: &Custom,
    last: &LastRun,
    body: Items<Built>,
) -> Result<Built, AllocError>
    ensures { IfOk result (λ n. n ≡ Built.Custom steps.now custom.now last.now body) }
{
    let steps = copy_steps(alloc, steps)?;
    let custom = custom.copy()?;
    let last = last.copy()?;
    Ok(Built::Custom {
        steps,
        custom,
        last,
        body,
    })
}

fn reader_node(
    alloc: Global,
    steps: &[Step],
    reader: &Reader,
    content: Built,
    run: &ReaderRun,
    body: Items<Built>,
) -> Result<Built, AllocError>
    ensures { IfOk result (λ n. n ≡ Built.Reader steps.now reader.now content run.now body) }
{
    let content = Boxed::new(alloc, content)?;
    let steps = copy_steps(alloc, steps)?;
    let reader = reader.copy()?;
    let run = run.copy(alloc)?;
    Ok(Built::Reader {
        steps,
        reader,
        content,
        run,
        body,
    })
}

#[cycle(copy)]
fn copy_nodes(alloc: Global, nodes: &[Built]) -> Result<Items<Built>, AllocError>
    ensures { IfOk result (λ list. list ≡ nodes.now) }
{
    let mut copy = Items::new(alloc);
    for node in nodes {
        let node = node.copy(alloc)?;
        copy.push(node)?;
    }
    Ok(copy)
}

impl Built {
    /// An equal node.
    #[cycle(copy)]
    pub fn copy(&self, alloc: Global) -> Result<Built, AllocError>
        ensures value { IfOk result (λ n. n ≡ self.now) }
    {
        match self {
            Built::Plain {
                steps,
                label,
                found,
                parts,
            } => {
                let parts = copy_nodes(alloc, parts.as_slice())?;
                plain_node(alloc, steps.as_slice(), label, found, parts)
            }
            Built::Custom {
                steps,
                custom,
                last,
                body,
            } => {
                let body = copy_nodes(alloc, body.as_slice())?;
                custom_node(alloc, steps.as_slice(), custom, last, body)
            }
            Built::Reader {
                steps,
                reader,
                content,
                run,
                body,
            } => {
                let body = copy_nodes(alloc, body.as_slice())?;
                let content = content.get().copy(alloc)?;
                reader_node(alloc, steps.as_slice(), reader, content, run, body)
            }
        }
    }
}

impl BuiltApp {
    /// An equal app.
    pub fn copy(&self, alloc: Global) -> Result<BuiltApp, AllocError>
        ensures value { IfOk result (λ app. app ≡ self.now) }
    {
        let roots = copy_nodes(alloc, self.roots.as_slice())?;
        let last = self.last.copy()?;
        Ok(BuiltApp { last, roots })
    }
}
