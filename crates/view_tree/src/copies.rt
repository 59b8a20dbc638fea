ghost use Rattle.std.specs.Prelude.{◌≡◌, map, IfOk};
ghost use Rattle.view_tree.specs.Descriptions.{description};

use crate::built::{Built, LastRun, ReaderRun};
use core_means::{Read, Reads};
use identity_path::Step;
use std::alloc::{AllocError, Global};
use sv_items::{Boxed, Items};
use view_nodes::{Custom, Desc, Element, Label, Reader, copy_steps};

fn copy_reads(alloc: Global, reads: &[Read]) -> Result<Reads, AllocError>
    ensures { IfOk result (λ list. list ≡ reads.now) }
{
    let mut copy = Items::new(alloc);
    for read in reads {
        let read = read.copy(alloc)?;
        copy.push(read)?;
    }
    Ok(copy)
}

impl LastRun {
    /// An equal run.
    pub fn copy(&self) -> Result<LastRun, AllocError>
        ensures value { IfOk result (λ r. r ≡ self.now) }
    {
        let alloc = self.reads.allocator();
        let environment = self.environment.copy()?;
        let reads = copy_reads(alloc, self.reads.as_slice())?;
        Ok(LastRun { environment, reads })
    }
}

fn plain_element(
    alloc: Global,
    steps: &[Step],
    label: &Label,
    parts: Desc,
) -> Result<Element, AllocError>
    ensures { IfOk result (λ e. e ≡ Element.Plain steps.now label.now parts) }
{
    let steps = copy_steps(alloc, steps)?;
    let label = label.copy(alloc)?;
    Ok(Element::Plain {
        steps,
        label,
        parts,
    })
}

fn custom_element(alloc: Global, steps: &[Step], custom: &Custom) -> Result<Element, AllocError>
    ensures { IfOk result (λ e. e ≡ Element.Custom steps.now custom.now) }
{
    let steps = copy_steps(alloc, steps)?;
    let custom = custom.copy()?;
    Ok(Element::Custom { steps, custom })
}

fn reader_element(
    alloc: Global,
    steps: &[Step],
    reader: &Reader,
    content: Element,
) -> Result<Element, AllocError>
    ensures { IfOk result (λ e. e ≡ Element.Reader steps.now reader.now content) }
{
    let content = Boxed::new(alloc, content)?;
    let steps = copy_steps(alloc, steps)?;
    let reader = reader.copy()?;
    Ok(Element::Reader {
        steps,
        reader,
        content,
    })
}

/// The descriptions that nodes are built from, as that of a body from the nodes that it gave.
#[cycle(describe)]
pub fn describe_all(alloc: Global, nodes: &[Built]) -> Result<Desc, AllocError>
    ensures value { IfOk result (λ desc. desc ≡ map description nodes.now) }
{
    let mut desc = Items::new(alloc);
    for node in nodes {
        let element = node.describe(alloc)?;
        desc.push(element)?;
    }
    Ok(desc)
}

impl Built {
    /// The description that the node is built from.
    #[cycle(describe)]
    pub fn describe(&self, alloc: Global) -> Result<Element, AllocError>
        ensures value { IfOk result (λ e. e ≡ description self.now) }
    {
        match self {
            Built::Plain {
                steps,
                label,
                parts,
                ..
            } => {
                let parts = describe_all(alloc, parts.as_slice())?;
                plain_element(alloc, steps.as_slice(), label, parts)
            }
            Built::Custom { steps, custom, .. } => {
                custom_element(alloc, steps.as_slice(), custom)
            }
            Built::Reader {
                steps,
                reader,
                content,
                ..
            } => {
                let content = content.get().describe(alloc)?;
                reader_element(alloc, steps.as_slice(), reader, content)
            }
        }
    }
}

impl ReaderRun {
    /// An equal run.
    pub fn copy(&self, alloc: Global) -> Result<ReaderRun, AllocError>
        ensures value { IfOk result (λ r. r ≡ self.now) }
    {
        let around = self.around.copy()?;
        let last = self.last.copy()?;
        let preference = self.preference.copy(alloc)?;
        Ok(ReaderRun {
            preference,
            around,
            last,
        })
    }
}
