//! Frames, paddings and fixed sizes: what is proposed to the content, and what size comes of it.
#![tactic(auto)]

ghost use Rattle.std.specs.Prelude.{◌≡◌, ◌≤◌, Some};
ghost use Rattle.std.specs.Option.{option_or};
ghost use Rattle.align_guides.specs.Lengths.{limit, IsProposal, IsSize, IsProposed};
ghost use Rattle.frame_layout.specs.Frames.{
  given,
  clamped,
  fixed_length,
  asked,
  max_of,
  least,
  greatest,
  flexible_proposal,
  flexible_length,
  length_within,
  framed_proposal,
  framed_size,
  IsInsets,
  less,
  padded_proposal,
  padded_size,
  fixed_proposal_of,
};

use align_guides::{LIMIT, Proposal, Size, to_length};

#[cfg(test)]
mod tests;

/// The arguments of a flexible frame for one axis, as the program gives them: a negative number counts as 0, and one
/// above the greatest length as that length.
#[derive(Clone, Copy, Debug, PartialEq, Eq)]
pub struct Bounds {
    pub min: Option<i64>,
    pub ideal: Option<i64>,
    pub max: Option<i64>,
}

/// The arguments of a frame, as the program gives them. The alignment, on which no size depends, is kept elsewhere.
#[derive(Clone, Copy, Debug, PartialEq, Eq)]
pub enum FrameRule {
    Fixed {
        width: Option<i64>,
        height: Option<i64>,
    },
    Flexible {
        width: Bounds,
        height: Bounds,
    },
}

/// What a padding adds at each edge, each at most the greatest length.
#[derive(Clone, Copy, Debug, PartialEq, Eq)]
pub struct Insets {
    pub top: u32,
    pub leading: u32,
    pub bottom: u32,
    pub trailing: u32,
}

fn to_given(n: Option<i64>) -> Option<u32>
    ensures value { result ≡ given n }
    ensures lengths { IsProposed result }
{
    match n {
        None => None,
        Some(n) => Some(to_length(n)),
    }
}

fn hold(lo: u32, hi: u32, n: u32) -> u32
    ensures { result ≡ clamped lo hi n }
{
    n.max(lo).min(hi)
}

fn ask(rule: &Bounds, p: Option<u32>) -> Option<u32>
    requires { IsProposed p }
    ensures value { result ≡ asked rule.now p }
    ensures lengths { IsProposed result }
{
    match p {
        None => to_given(rule.ideal),
        Some(p) => Some(p),
    }
}

/// The max, which counts as the min where it is below it.
fn max_or_min(rule: &Bounds) -> Option<u32>
    ensures value { result ≡ max_of rule.now }
    ensures lengths { IsProposed result }
{
    match (to_given(rule.min), to_given(rule.max)) {
        (Some(lo), Some(hi)) => Some(hi.max(lo)),
        (_, max) => max,
    }
}

fn least_length(rule: &Bounds) -> u32
    ensures value { result ≡ least rule.now }
    ensures fits { result ≤ limit }
{
    to_given(rule.min).unwrap_or(0)
}

fn greatest_length(rule: &Bounds) -> u32
    ensures value { result ≡ greatest rule.now }
    ensures fits { result ≤ limit }
{
    max_or_min(rule).unwrap_or(LIMIT)
}

fn propose(rule: &Bounds, p: Option<u32>) -> Option<u32>
    requires { IsProposed p }
    ensures value { result ≡ flexible_proposal rule.now p }
    ensures lengths { IsProposed result }
{
    match ask(rule, p) {
        None => None,
        Some(p) => Some(hold(least_length(rule), greatest_length(rule), p)),
    }
}

/// The length where `p` was asked for, which lies between two ends.
fn stretch(rule: &Bounds, p: u32, s: u32) -> u32
    requires p { p ≤ limit }
    requires s { s ≤ limit }
    ensures value { result ≡ length_within rule.now (Some p) s }
    ensures fits { result ≤ limit }
{
    let max = max_or_min(rule);
    let lo = match (to_given(rule.min), max) {
        (Some(lo), _) => lo,
        (None, Some(hi)) => s.min(hi),
        (None, None) => s,
    };
    let hi = max.unwrap_or(s.max(lo));
    hold(lo, hi, p)
}

fn take(rule: &Bounds, p: Option<u32>, s: u32) -> u32
    requires p { IsProposed p }
    requires s { s ≤ limit }
    ensures value { result ≡ flexible_length rule.now p s }
    ensures fits { result ≤ limit }
{
    match ask(rule, p) {
        None => hold(least_length(rule), greatest_length(rule), s),
        Some(p) => stretch(rule, p, s),
    }
}

fn give(n: Option<i64>, p: Option<u32>) -> Option<u32>
    requires { IsProposed p }
    ensures value { result ≡ option_or (given n) p }
    ensures lengths { IsProposed result }
{
    match n {
        None => p,
        Some(n) => Some(to_length(n)),
    }
}

fn fix(n: Option<i64>, s: u32) -> u32
    requires { s ≤ limit }
    ensures value { result ≡ fixed_length n s }
    ensures fits { result ≤ limit }
{
    match n {
        None => s,
        Some(n) => to_length(n),
    }
}

/// What a frame proposes to its content.
pub fn frame_proposal(rule: &FrameRule, p: Proposal) -> Proposal
    requires { IsProposal p }
    ensures value { result ≡ framed_proposal rule.now p }
    ensures lengths { IsProposal result }
{
    match rule {
        FrameRule::Fixed { width, height } => Proposal {
            w: give(*width, p.w),
            h: give(*height, p.h),
        },
        FrameRule::Flexible { width, height } => Proposal {
            w: propose(width, p.w),
            h: propose(height, p.h),
        },
    }
}

/// The size of a frame that was proposed `p` and whose content takes `child`.
pub fn frame_size(rule: &FrameRule, p: Proposal, child: Size) -> Size
    requires p { IsProposal p }
    requires child { IsSize child }
    ensures value { result ≡ framed_size rule.now p child }
    ensures lengths { IsSize result }
{
    match rule {
        FrameRule::Fixed { width, height } => Size {
            w: fix(*width, child.w),
            h: fix(*height, child.h),
        },
        FrameRule::Flexible { width, height } => Size {
            w: take(width, p.w, child.w),
            h: take(height, p.h, child.h),
        },
    }
}

fn take_off(p: Option<u32>, n: u32) -> Option<u32>
    ensures { result ≡ less p n }
{
    match p {
        None => None,
        Some(p) => Some(p.saturating_sub(n)),
    }
}

/// What a padding proposes to its content.
pub fn padding_proposal(insets: &Insets, p: Proposal) -> Proposal
    requires insets { IsInsets insets.now }
    requires p { IsProposal p }
    ensures value { result ≡ padded_proposal insets.now p }
    ensures lengths { IsProposal result }
{
    Proposal {
        w: take_off(p.w, insets.leading + insets.trailing),
        h: take_off(p.h, insets.top + insets.bottom),
    }
}

/// The size of a padding whose content takes `child`.
pub fn padding_size(insets: &Insets, child: Size) -> Size
    requires insets { IsInsets insets.now }
    requires child { IsSize child }
    ensures value { result ≡ padded_size insets.now child }
    ensures lengths { IsSize result }
{
    Size {
        w: (child.w + (insets.leading + insets.trailing)).min(LIMIT),
        h: (child.h + (insets.top + insets.bottom)).min(LIMIT),
    }
}

/// What a fixed size proposes to its content: nil on the axes that are chosen.
pub fn fixed_proposal(horizontal: bool, vertical: bool, p: Proposal) -> Proposal
    requires { IsProposal p }
    ensures value { result ≡ fixed_proposal_of horizontal vertical p }
    ensures lengths { IsProposal result }
{
    Proposal {
        w: if horizontal { None } else { p.w },
        h: if vertical { None } else { p.h },
    }
}

/// The size of a fixed size, which is that of its content.
pub fn fixed_size(child: Size) -> Size
    requires { IsSize child }
    ensures value { result ≡ child }
    ensures lengths { IsSize result }
{
    child
}
