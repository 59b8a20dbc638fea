//! Proposals, sizes and the guides by which views are aligned.
#![tactic(auto)]

ghost use Rattle.std.specs.Prelude.{◌≡◌, IsTrue, IfOk};
ghost use Rattle.align_guides.specs.Lengths.{length_of, held, IsGuide, IsSize};
ghost use Rattle.align_guides.specs.Guides.{guide_of, guides_of, guide_in, guide_set, value_of, divides};

use std::alloc::{AllocError as OutOfMemory, Global};
use sv_items::Boxed;

#[cfg(test)]
mod tests;

/// The greatest length.
pub const LIMIT: u32 = 1_000_000;

/// What a view is offered on each axis: a length, or nil, which asks for the ideal size.
#[derive(Clone, Copy, Debug, PartialEq, Eq)]
pub struct Proposal {
    pub w: Option<u32>,
    pub h: Option<u32>,
}

/// What a view takes.
#[derive(Clone, Copy, Debug, PartialEq, Eq)]
pub struct Size {
    pub w: u32,
    pub h: u32,
}

/// Left to right, top to bottom, or from the back to the front.
#[derive(Clone, Copy, Debug, PartialEq, Eq)]
pub enum Axis {
    H,
    V,
    Z,
}

/// The guides of a view, each a place on its horizontal or its vertical axis.
#[derive(Clone, Copy, Debug, PartialEq, Eq)]
pub enum GuideKind {
    Leading,
    Trailing,
    Top,
    Bottom,
    HorizontalCenter,
    VerticalCenter,
}

/// Where each guide of a view stands.
#[derive(Clone, Copy, Debug, PartialEq, Eq)]
pub struct GuideSet {
    pub leading: i64,
    pub trailing: i64,
    pub top: i64,
    pub bottom: i64,
    pub horizontal_center: i64,
    pub vertical_center: i64,
}

/// How a guide is computed from a size and the guides. A negated part is 0 less the part.
#[derive(Drop)]
pub enum GuideExpr {
    Width,
    Height,
    Guide(GuideKind),
    Literal(i64),
    Sum(Boxed<GuideExpr>, Boxed<GuideExpr>),
    Difference(Boxed<GuideExpr>, Boxed<GuideExpr>),
    Product(Boxed<GuideExpr>, Boxed<GuideExpr>),
    /// By a literal.
    Quotient(Boxed<GuideExpr>, i64),
}

impl GuideExpr {
    /// An equal expression, in memory of its own.
    #[cycle(copy)]
    pub fn copy(&self, alloc: Global) -> Result<GuideExpr, OutOfMemory>
        ensures { IfOk result (λ e. e ≡ self.now) }
    {
        match self {
            GuideExpr::Width => Ok(GuideExpr::Width),
            GuideExpr::Height => Ok(GuideExpr::Height),
            GuideExpr::Guide(kind) => Ok(GuideExpr::Guide(*kind)),
            GuideExpr::Literal(n) => Ok(GuideExpr::Literal(*n)),
            GuideExpr::Sum(a, b) => Ok(GuideExpr::Sum(copied(alloc, a)?, copied(alloc, b)?)),
            GuideExpr::Difference(a, b) => {
                Ok(GuideExpr::Difference(copied(alloc, a)?, copied(alloc, b)?))
            }
            GuideExpr::Product(a, b) => {
                Ok(GuideExpr::Product(copied(alloc, a)?, copied(alloc, b)?))
            }
            GuideExpr::Quotient(a, n) => Ok(GuideExpr::Quotient(copied(alloc, a)?, *n)),
        }
    }
}

#[cycle(copy)]
fn copied(alloc: Global, part: &Boxed<GuideExpr>) -> Result<Boxed<GuideExpr>, OutOfMemory>
    ensures { IfOk result (λ e. e ≡ part.now) }
{
    Boxed::new(alloc, part.get().copy(alloc)?)
}

/// Whether no divisor is 0. An expression of which this holds may be handed to `guide_value`.
pub fn has_divisors(expr: &GuideExpr) -> bool
    ensures { result ≡ divides expr.now }
{
    match expr {
        GuideExpr::Width | GuideExpr::Height => true,
        GuideExpr::Guide(_) | GuideExpr::Literal(_) => true,
        GuideExpr::Sum(a, b) => has_divisors(a.get()) && has_divisors(b.get()),
        GuideExpr::Difference(a, b) => has_divisors(a.get()) && has_divisors(b.get()),
        GuideExpr::Product(a, b) => has_divisors(a.get()) && has_divisors(b.get()),
        GuideExpr::Quotient(a, n) => has_divisors(a.get()) && *n != 0,
    }
}

/// A number of a program as a length: a negative one counts as 0, and one above the limit as the limit.
pub fn to_length(n: i64) -> u32
    ensures value { result ≡ length_of n }
{
    n.max(0).min(1_000_000) as u32
}

fn hold(n: i64) -> i64
    ensures value { result ≡ held n }
    ensures bounds { IsGuide result }
{
    n.min(1_000_000).max(-1_000_000)
}

/// Where a guide of a size stands, if nothing sets it.
pub fn guide(kind: GuideKind, size: Size) -> i64
    requires { IsSize size }
    ensures value { result ≡ guide_of kind size }
    ensures bounds { IsGuide result }
{
    match kind {
        GuideKind::Leading | GuideKind::Top => 0,
        GuideKind::Trailing => i64::from(size.w),
        GuideKind::Bottom => i64::from(size.h),
        GuideKind::HorizontalCenter => i64::from(size.w / 2),
        GuideKind::VerticalCenter => i64::from(size.h / 2),
    }
}

/// Where the guides of a size stand, if nothing sets them.
pub fn default_guides(size: Size) -> GuideSet
    requires { IsSize size }
    ensures { result ≡ guides_of size }
{
    GuideSet {
        leading: guide(GuideKind::Leading, size),
        trailing: guide(GuideKind::Trailing, size),
        top: guide(GuideKind::Top, size),
        bottom: guide(GuideKind::Bottom, size),
        horizontal_center: guide(GuideKind::HorizontalCenter, size),
        vertical_center: guide(GuideKind::VerticalCenter, size),
    }
}

impl GuideSet {
    /// Where the guide of this kind stands.
    pub fn get(&self, kind: GuideKind) -> i64
        ensures { result ≡ guide_in kind self.now }
    {
        match kind {
            GuideKind::Leading => self.leading,
            GuideKind::Trailing => self.trailing,
            GuideKind::Top => self.top,
            GuideKind::Bottom => self.bottom,
            GuideKind::HorizontalCenter => self.horizontal_center,
            GuideKind::VerticalCenter => self.vertical_center,
        }
    }

    /// Sets a guide from outside: this value counts, whatever was set inside.
    pub fn set(&mut self, kind: GuideKind, value: i64)
        ensures { self.new ≡ guide_set self.old kind value }
    {
        match kind {
            GuideKind::Leading => self.leading = value,
            GuideKind::Trailing => self.trailing = value,
            GuideKind::Top => self.top = value,
            GuideKind::Bottom => self.bottom = value,
            GuideKind::HorizontalCenter => self.horizontal_center = value,
            GuideKind::VerticalCenter => self.vertical_center = value,
        }
    }
}

/// The value of an expression at a size whose guides are `guides`. Each literal and each step is held to 1,000,000
/// both ways.
pub fn guide_value(expr: &GuideExpr, size: Size, guides: &GuideSet) -> i64
    requires divisors { IsTrue (divides expr.now) }
    requires size { IsSize size }
    ensures value { result ≡ value_of expr.now size guides.now }
    ensures bounds { IsGuide result }
{
    match expr {
        GuideExpr::Width => i64::from(size.w),
        GuideExpr::Height => i64::from(size.h),
        GuideExpr::Guide(kind) => hold(guides.get(*kind)),
        GuideExpr::Literal(n) => hold(*n),
        GuideExpr::Sum(a, b) => {
            hold(guide_value(a.get(), size, guides) + guide_value(b.get(), size, guides))
        }
        GuideExpr::Difference(a, b) => {
            hold(guide_value(a.get(), size, guides) - guide_value(b.get(), size, guides))
        }
        GuideExpr::Product(a, b) => {
            hold(guide_value(a.get(), size, guides) * guide_value(b.get(), size, guides))
        }
        GuideExpr::Quotient(a, n) => hold(guide_value(a.get(), size, guides) / hold(*n)),
    }
}
