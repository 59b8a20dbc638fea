ghost use Rattle.std.specs.Prelude.{◌≡◌, IfOk};

use crate::kind::ModifierKind;
use crate::node::{Custom, Handler, Label, Modifier, Node, Reader};
use identity_path::{CopyInputs, Step};
use std::alloc::{AllocError, Global};
use sv_items::Items;
use sv_value::CopyList;

/// An equal list of steps.
pub fn copy_steps(alloc: Global, steps: &[Step]) -> Result<Items<Step>, AllocError>
    ensures value { IfOk result (λ list. list ≡ steps.now) }
{
    let mut copy = Items::new(alloc);
    for step in steps {
        let step = step.copy(alloc)?;
        copy.push(step)?;
    }
    Ok(copy)
}

fn copy_numbers(alloc: Global, numbers: &[Option<i64>]) -> Result<Items<Option<i64>>, AllocError>
    ensures { IfOk result (λ list. list ≡ numbers.now) }
{
    Items::from_slice(alloc, numbers)
}

fn copy_blocks(alloc: Global, blocks: &[Handler]) -> Result<Items<Handler>, AllocError>
    ensures { IfOk result (λ list. list ≡ blocks.now) }
{
    let mut copy = Items::new(alloc);
    for block in blocks {
        let block = block.copy()?;
        copy.push(block)?;
    }
    Ok(copy)
}

impl Handler {
    /// An equal handler.
    pub fn copy(&self) -> Result<Handler, AllocError>
        ensures value { IfOk result (λ h. h ≡ self.now) }
    {
        Ok(Handler {
            code: self.code,
            locals: self.locals.copy()?,
        })
    }
}

impl ModifierKind {
    /// An equal kind.
    pub fn copy(&self, alloc: Global) -> Result<ModifierKind, AllocError>
        ensures value { IfOk result (λ k. k ≡ self.now) }
    {
        match self {
            ModifierKind::FixedFrame(alignment) => Ok(ModifierKind::FixedFrame(*alignment)),
            ModifierKind::FlexibleFrame(alignment) => Ok(ModifierKind::FlexibleFrame(*alignment)),
            ModifierKind::Padding(edges) => Ok(ModifierKind::Padding(*edges)),
            ModifierKind::FixedSize => Ok(ModifierKind::FixedSize),
            ModifierKind::Offset => Ok(ModifierKind::Offset),
            ModifierKind::LayoutPriority => Ok(ModifierKind::LayoutPriority),
            ModifierKind::LineLimit => Ok(ModifierKind::LineLimit),
            ModifierKind::AlignmentGuide(kind, guide) => {
                Ok(ModifierKind::AlignmentGuide(*kind, guide.copy(alloc)?))
            }
            ModifierKind::Overlay(alignment) => Ok(ModifierKind::Overlay(*alignment)),
            ModifierKind::Background(alignment) => Ok(ModifierKind::Background(*alignment)),
            ModifierKind::Id => Ok(ModifierKind::Id),
            ModifierKind::Environment(key) => Ok(ModifierKind::Environment(*key)),
            ModifierKind::Disabled => Ok(ModifierKind::Disabled),
            ModifierKind::AllowsHitTesting => Ok(ModifierKind::AllowsHitTesting),
            ModifierKind::Preference(key) => Ok(ModifierKind::Preference(*key)),
            ModifierKind::OnAppear => Ok(ModifierKind::OnAppear),
            ModifierKind::OnDisappear => Ok(ModifierKind::OnDisappear),
            ModifierKind::OnChange => Ok(ModifierKind::OnChange),
            ModifierKind::OnPreferenceChange(key) => Ok(ModifierKind::OnPreferenceChange(*key)),
            ModifierKind::OnTapGesture => Ok(ModifierKind::OnTapGesture),
        }
    }
}

impl Node {
    /// An equal node.
    pub fn copy(&self, alloc: Global) -> Result<Node, AllocError>
        ensures value { IfOk result (λ n. n ≡ self.now) }
    {
        Ok(Node {
            kind: self.kind,
            inputs: self.inputs.copy()?,
            numbers: copy_numbers(alloc, self.numbers.as_slice())?,
            blocks: copy_blocks(alloc, self.blocks.as_slice())?,
        })
    }
}

impl Modifier {
    /// An equal modifier.
    pub fn copy(&self, alloc: Global) -> Result<Modifier, AllocError>
        ensures value { IfOk result (λ m. m ≡ self.now) }
    {
        Ok(Modifier {
            kind: self.kind.copy(alloc)?,
            number: self.number,
            inputs: self.inputs.copy()?,
            numbers: copy_numbers(alloc, self.numbers.as_slice())?,
            blocks: copy_blocks(alloc, self.blocks.as_slice())?,
        })
    }
}

impl Label {
    /// An equal label.
    pub fn copy(&self, alloc: Global) -> Result<Label, AllocError>
        ensures value { IfOk result (λ l. l ≡ self.now) }
    {
        match self {
            Label::View(node) => Ok(Label::View(node.copy(alloc)?)),
            Label::Modifier(modifier) => Ok(Label::Modifier(modifier.copy(alloc)?)),
        }
    }
}

impl Custom {
    /// An equal use of a custom view.
    pub fn copy(&self) -> Result<Custom, AllocError>
        ensures value { IfOk result (λ c. c ≡ self.now) }
    {
        Ok(Custom {
            unit: self.unit,
            inputs: self.inputs.copy()?,
            initials: self.initials.copy()?,
        })
    }
}

impl Reader {
    /// An equal reader.
    pub fn copy(&self) -> Result<Reader, AllocError>
        ensures value { IfOk result (λ r. r ≡ self.now) }
    {
        Ok(Reader {
            kind: self.kind,
            number: self.number,
            decoration: self.decoration,
            key: self.key,
            unit: self.unit,
            captured: self.captured.copy()?,
        })
    }
}
