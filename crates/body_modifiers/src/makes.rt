ghost use Rattle.std.specs.Prelude.{◌≡◌, IfOk};
ghost use Rattle.body_modifiers.specs.Makings.{makes};

use align_guides::{GuideExpr, GuideKind};
use identity_path::Step;
use std::alloc::{AllocError, Global};
use swift_core::{BlockId, ModifierKind as CallKind};
use view_nodes::{ModifierKind, ReaderKind};

/// What a modifier is made of, besides its content.
#[derive(Drop)]
pub enum Makes {
    /// Numbers, each given or left out.
    Numbers(ModifierKind),
    /// Truth values. What is left out is true.
    Truths(ModifierKind),
    /// A value.
    Value(ModifierKind),
    /// The id that the content stands under.
    Id,
    Guide(GuideKind, GuideExpr),
    /// The views of a decoration, which stand under this step.
    Views(ModifierKind, Step),
    /// A reader of this preference key, and its builder.
    Reader(ReaderKind, u32, BlockId),
    /// A block alone.
    Action(ModifierKind, BlockId),
    /// A value and a block.
    Change(BlockId),
}

/// What a kind of modifier is made of, where so many decorations stand before it.
#[tactic(auto, unfolding(crate::specs::Makings::makes))]
pub fn makes_of(alloc: Global, before: u32, kind: &CallKind) -> Result<Makes, AllocError>
    ensures { IfOk result (λ made. made ≡ makes before kind.now) }
{
    match kind {
        CallKind::FixedFrame(at) => Ok(Makes::Numbers(ModifierKind::FixedFrame(*at))),
        CallKind::FlexibleFrame(at) => Ok(Makes::Numbers(ModifierKind::FlexibleFrame(*at))),
        CallKind::Padding(edges) => Ok(Makes::Numbers(ModifierKind::Padding(*edges))),
        CallKind::FixedSize => Ok(Makes::Truths(ModifierKind::FixedSize)),
        CallKind::Offset => Ok(Makes::Numbers(ModifierKind::Offset)),
        CallKind::LayoutPriority => Ok(Makes::Numbers(ModifierKind::LayoutPriority)),
        CallKind::LineLimit => Ok(Makes::Numbers(ModifierKind::LineLimit)),
        CallKind::AlignmentGuide(kind, expr) => Ok(Makes::Guide(*kind, expr.copy(alloc)?)),
        CallKind::Overlay(at) => Ok(Makes::Views(
            ModifierKind::Overlay(*at),
            Step::Overlay(before),
        )),
        CallKind::Background(at) => Ok(Makes::Views(
            ModifierKind::Background(*at),
            Step::Background(before),
        )),
        CallKind::Id => Ok(Makes::Id),
        CallKind::Environment(key) => Ok(Makes::Value(ModifierKind::Environment(*key))),
        CallKind::Disabled => Ok(Makes::Value(ModifierKind::Disabled)),
        CallKind::AllowsHitTesting => Ok(Makes::Value(ModifierKind::AllowsHitTesting)),
        CallKind::Preference(key) => Ok(Makes::Value(ModifierKind::Preference(*key))),
        CallKind::OverlayReader(key, id) => Ok(Makes::Reader(ReaderKind::Overlay, *key, *id)),
        CallKind::BackgroundReader(key, id) => {
            Ok(Makes::Reader(ReaderKind::Background, *key, *id))
        }
        CallKind::OnAppear(id) => Ok(Makes::Action(ModifierKind::OnAppear, *id)),
        CallKind::OnDisappear(id) => Ok(Makes::Action(ModifierKind::OnDisappear, *id)),
        CallKind::OnChange(id) => Ok(Makes::Change(*id)),
        CallKind::OnPreferenceChange(key, id) => Ok(Makes::Action(
            ModifierKind::OnPreferenceChange(*key),
            *id,
        )),
        CallKind::OnTapGesture(id) => Ok(Makes::Action(ModifierKind::OnTapGesture, *id)),
    }
}
