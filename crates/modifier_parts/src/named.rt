//! The names of the language that views and modifiers are written with.
#![tactic(auto, unfolding(type_base::specs::Claims::and_then, type_base::specs::Claims::or_else))]

ghost use Rattle.std.specs.Prelude.{◌≡◌, codes, option_map};
ghost use Rattle.modifier_rules.specs.Named as named;

use crate::parts::{implicit_of, label_is, labelled_expr, plain_expr, qualified};
use align_guides::{Axis, GuideKind};
use modifier_rules::{Modifier, Plain};
use swift_ast::{Arg, Expr};
use swift_core::{Alignment, Edges};
use swift_lex::Word;

fn guide_named(w: &Word) -> Option<GuideKind>
    ensures value { result ≡ named.guide_named w.now }
{
    if w.is(b"leading") {
        Some(GuideKind::Leading)
    } else if w.is(b"trailing") {
        Some(GuideKind::Trailing)
    } else if w.is(b"top") {
        Some(GuideKind::Top)
    } else if w.is(b"bottom") {
        Some(GuideKind::Bottom)
    } else {
        None
    }
}

fn centre_named(w: &Word, v: &Word) -> Option<GuideKind>
    ensures value { result ≡ named.centre_named w.now v.now }
{
    if v.is(b"center") {
        if w.is(b"HorizontalAlignment") {
            Some(GuideKind::HorizontalCenter)
        } else if w.is(b"VerticalAlignment") {
            Some(GuideKind::VerticalCenter)
        } else {
            None
        }
    } else {
        None
    }
}

fn implicit_guide(e: &Expr) -> Option<GuideKind>
    ensures value { result ≡ named.implicit_guide e.now }
{
    match implicit_of(e) {
        Some(w) => guide_named(w),
        None => None,
    }
}

/// The guide that an expression is, as it is written: `.leading` or `HorizontalAlignment.center` and the like.
pub fn guide_of(e: &Expr) -> Option<GuideKind>
    ensures value { result ≡ named.guide_of e.now }
{
    match implicit_guide(e) {
        Some(guide) => Some(guide),
        None => match qualified(e) {
            Some((w, v)) => centre_named(w, v),
            None => None,
        },
    }
}

fn aligned(horizontal: GuideKind, vertical: GuideKind) -> Alignment
    ensures value { result ≡ named.aligned horizontal vertical }
{
    Alignment {
        horizontal,
        vertical,
    }
}

/// The alignment at the centre.
pub fn centre() -> Alignment
    ensures value { result ≡ named.centre }
{
    aligned(GuideKind::HorizontalCenter, GuideKind::VerticalCenter)
}

fn horizontal_named(w: &Word) -> Option<Alignment>
    ensures value { result ≡ named.horizontal_named w.now }
{
    if w.is(b"leading") {
        Some(aligned(GuideKind::Leading, GuideKind::VerticalCenter))
    } else if w.is(b"center") {
        Some(centre())
    } else if w.is(b"trailing") {
        Some(aligned(GuideKind::Trailing, GuideKind::VerticalCenter))
    } else {
        None
    }
}

fn vertical_named(w: &Word) -> Option<Alignment>
    ensures value { result ≡ named.vertical_named w.now }
{
    if w.is(b"top") {
        Some(aligned(GuideKind::HorizontalCenter, GuideKind::Top))
    } else if w.is(b"center") {
        Some(centre())
    } else if w.is(b"bottom") {
        Some(aligned(GuideKind::HorizontalCenter, GuideKind::Bottom))
    } else {
        None
    }
}

fn corner_named(w: &Word) -> Option<Alignment>
    ensures value { result ≡ named.corner_named w.now }
{
    if w.is(b"topLeading") {
        Some(aligned(GuideKind::Leading, GuideKind::Top))
    } else if w.is(b"topTrailing") {
        Some(aligned(GuideKind::Trailing, GuideKind::Top))
    } else if w.is(b"bottomLeading") {
        Some(aligned(GuideKind::Leading, GuideKind::Bottom))
    } else if w.is(b"bottomTrailing") {
        Some(aligned(GuideKind::Trailing, GuideKind::Bottom))
    } else {
        None
    }
}

fn alignment_named(axis: Axis, w: &Word) -> Option<Alignment>
    ensures value { result ≡ named.alignment_named axis w.now }
{
    match axis {
        Axis::V => horizontal_named(w),
        Axis::H => vertical_named(w),
        Axis::Z => match horizontal_named(w) {
            Some(alignment) => Some(alignment),
            None => match vertical_named(w) {
                Some(alignment) => Some(alignment),
                None => corner_named(w),
            },
        },
    }
}

fn alignment_in(axis: Axis, arg: &Arg) -> Option<Alignment>
    ensures value { result ≡ named.alignment_in axis arg.now }
{
    match labelled_expr(b"alignment", arg) {
        Some(e) => match implicit_of(e) {
            Some(w) => alignment_named(axis, w),
            None => None,
        },
        None => None,
    }
}

/// The alignment that stands in front of the other arguments, or the centre, and the others. None where what stands
/// there is no alignment of a stack along the axis.
pub fn take_alignment(axis: Axis, args: &[Arg]) -> Option<(Alignment, &[Arg])>
    ensures value { option_map (λ x. (x.0, x.1.now)) result ≡ named.take_alignment axis args.now }
{
    match args {
        [] => Some((centre(), args)),
        [arg, rest @ ..] => {
            if label_is(arg, b"alignment") {
                match alignment_in(axis, arg) {
                    Some(alignment) => Some((alignment, rest)),
                    None => None,
                }
            } else {
                Some((centre(), args))
            }
        }
    }
}

/// The alignment that is the one argument, or the centre where there is none.
pub fn last_alignment(args: &[Arg]) -> Option<Alignment>
    ensures value { result ≡ named.last_alignment args.now }
{
    match args {
        [] => Some(centre()),
        [arg] => alignment_in(Axis::Z, arg),
        _ => None,
    }
}

fn edges(top: bool, leading: bool, bottom: bool, trailing: bool) -> Edges
    ensures value { result ≡ named.edges top leading bottom trailing }
{
    Edges {
        top,
        leading,
        bottom,
        trailing,
    }
}

fn edges_named(w: &Word) -> Option<Edges>
    ensures value { result ≡ named.edges_named w.now }
{
    if w.is(b"all") {
        Some(edges(true, true, true, true))
    } else if w.is(b"horizontal") {
        Some(edges(false, true, false, true))
    } else if w.is(b"vertical") {
        Some(edges(true, false, true, false))
    } else if w.is(b"top") {
        Some(edges(true, false, false, false))
    } else if w.is(b"bottom") {
        Some(edges(false, false, true, false))
    } else if w.is(b"leading") {
        Some(edges(false, true, false, false))
    } else if w.is(b"trailing") {
        Some(edges(false, false, false, true))
    } else {
        None
    }
}

fn edges_in(arg: &Arg) -> Option<Edges>
    ensures value { result ≡ named.edges_in arg.now }
{
    match plain_expr(arg) {
        Some(e) => match implicit_of(e) {
            Some(w) => edges_named(w),
            None => None,
        },
        None => None,
    }
}

/// The edges that stand in front of the other arguments, or all edges, and the others.
pub fn take_edges(args: &[Arg]) -> (Edges, &[Arg])
    ensures edges { result.0 ≡ (named.take_edges args.now).0 }
    ensures rest { result.1.now ≡ (named.take_edges args.now).1 }
{
    match args {
        [] => (edges(true, true, true, true), args),
        [arg, rest @ ..] => match edges_in(arg) {
            Some(edges) => (edges, rest),
            None => (edges(true, true, true, true), args),
        },
    }
}

fn is_flexible(arg: &Arg) -> bool
    ensures value { result ≡ named.is_flexible arg.now }
{
    if label_is(arg, b"minWidth") {
        true
    } else if label_is(arg, b"idealWidth") {
        true
    } else if label_is(arg, b"maxWidth") {
        true
    } else if label_is(arg, b"minHeight") {
        true
    } else if label_is(arg, b"idealHeight") {
        true
    } else {
        label_is(arg, b"maxHeight")
    }
}

fn frame_of(args: &[Arg]) -> Plain
    ensures value { result ≡ named.frame_of args.now }
{
    match args {
        [] => Plain::FixedFrame,
        [arg, ..] => {
            if is_flexible(arg) {
                Plain::FlexibleFrame
            } else {
                Plain::FixedFrame
            }
        }
    }
}

fn plain_named(w: &Word, args: &[Arg]) -> Option<Plain>
    ensures value { result ≡ named.plain_named w.now args.now }
{
    if w.is(b"frame") {
        Some(frame_of(args))
    } else if w.is(b"padding") {
        Some(Plain::Padding)
    } else if w.is(b"fixedSize") {
        Some(Plain::FixedSize)
    } else if w.is(b"offset") {
        Some(Plain::Offset)
    } else if w.is(b"layoutPriority") {
        Some(Plain::LayoutPriority)
    } else if w.is(b"lineLimit") {
        Some(Plain::LineLimit)
    } else if w.is(b"disabled") {
        Some(Plain::Disabled)
    } else if w.is(b"allowsHitTesting") {
        Some(Plain::AllowsHitTesting)
    } else {
        None
    }
}

fn dropped_named(w: &Word) -> Option<Modifier>
    ensures value { result ≡ named.dropped_named w.now }
{
    if w.is(b"bold") {
        Some(Modifier::Bold)
    } else if w.is(b"font") {
        Some(Modifier::Style)
    } else if w.is(b"imageScale") {
        Some(Modifier::Style)
    } else if w.is(b"foregroundStyle") {
        Some(Modifier::Style)
    } else if w.is(b"tint") {
        Some(Modifier::Style)
    } else {
        None
    }
}

fn value_named(w: &Word) -> Option<Modifier>
    ensures value { result ≡ named.value_named w.now }
{
    if w.is(b"id") {
        Some(Modifier::Id)
    } else if w.is(b"environment") {
        Some(Modifier::Environment)
    } else if w.is(b"preference") {
        Some(Modifier::Preference)
    } else if w.is(b"alignmentGuide") {
        Some(Modifier::AlignmentGuide)
    } else {
        dropped_named(w)
    }
}

fn content_named(w: &Word) -> Option<Modifier>
    ensures value { result ≡ named.content_named w.now }
{
    if w.is(b"overlay") {
        Some(Modifier::Overlay)
    } else if w.is(b"background") {
        Some(Modifier::Background)
    } else if w.is(b"overlayPreferenceValue") {
        Some(Modifier::OverlayReader)
    } else if w.is(b"backgroundPreferenceValue") {
        Some(Modifier::BackgroundReader)
    } else {
        value_named(w)
    }
}

fn closure_named(w: &Word) -> Option<Modifier>
    ensures value { result ≡ named.closure_named w.now }
{
    if w.is(b"onAppear") {
        Some(Modifier::OnAppear)
    } else if w.is(b"onDisappear") {
        Some(Modifier::OnDisappear)
    } else if w.is(b"onChange") {
        Some(Modifier::OnChange)
    } else if w.is(b"onPreferenceChange") {
        Some(Modifier::OnPreferenceChange)
    } else if w.is(b"onTapGesture") {
        Some(Modifier::OnTapGesture)
    } else {
        content_named(w)
    }
}

/// The modifier of this name. The arguments tell the two frames apart.
pub fn modifier_named(w: &Word, args: &[Arg]) -> Option<Modifier>
    ensures value { result ≡ named.modifier_named w.now args.now }
{
    match plain_named(w, args) {
        Some(plain) => Some(Modifier::Plain(plain)),
        None => closure_named(w),
    }
}
