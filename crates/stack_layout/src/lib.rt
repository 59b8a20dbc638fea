//! The sizes of a stack: how its views share a length, and how far they reach.
#![tactic(auto)]

ghost use Rattle.std.specs.Prelude.{
  ◌≡◌,
  ◌-◌,
  ◌+◌,
  ◌≤◌,
  ◌<◌,
  ℕ,
  ℤ,
  length,
  map,
  sum_by,
  count_by,
  IfOk,
  OnOk,
  OnErr,
  All,
  Some,
};
ghost use Rattle.std.specs.List.Sorted.{IsPermutation};
ghost use Rattle.align_guides.specs.Lengths.{limit, saturated, IsGuide, IsProposal, IsProposed, IsSize};
ghost use Rattle.in_order.specs.InOrder.{in_order, is_below};
ghost use Rattle.stack_layout.specs.Views.{Views, Rose};
ghost use Rattle.stack_layout.specs.Stacks.{
  along,
  offered,
  proposed_along,
  proposed_across,
  smallest,
  comes_before,
  all_take,
  taken_at,
  at_places,
  gaps_of,
  shared_sizes,
  stack_sizes,
  tops,
  bottoms,
  least_of,
  greatest_of,
  extent,
  total_length,
  whole_size,
  stack_size,
  Yields,
  FitsAlong,
  FitsProposal,
};
ghost use Rattle.stack_layout.specs.InTurn.{takes};
ghost use Rattle.stack_layout.specs.Slots.{
  InPlace,
  IsSized,
  AreEdges,
  FitsSlots,
  measured,
  sized_for,
  turn_of,
  taken_of,
  kept_of,
  is_of_group,
  slot_share,
  place_of,
  priority_of,
  size_of,
};

use align_guides::{Axis, LIMIT, Proposal, Size, to_length};
use std::alloc::AllocError as OutOfMemory;
use std::cmp::Reverse;

#[cfg(test)]
mod tests;

/// A view of a stack, while sizes are planned. `flex` and `size` are written by the plan.
#[derive(Clone, Copy, Debug, PartialEq, Eq)]
pub struct Slot {
    pub priority: i64,
    pub flex: u32,
    pub place: usize,
    pub size: Size,
}

/// The views of a stack, which answer for their sizes and guides.
pub trait Sizes {
    /// The views. No call changes them.
    ghost views: { Self → Views };

    /// How many allocations were refused.
    ghost refusals: { Self → ℕ };

    /// The size that a view takes for a proposal. The only error is want of memory, which comes only where the count of
    /// refusals rose.
    fn size(&mut self, child: usize, p: Proposal) -> Result<Size, OutOfMemory>
        requires child { child < (views self.old).count }
        requires p { IsProposal p }
        ensures value { IfOk result (λ s. s ≡ (views self.old).size child p) }
        ensures lengths { IfOk result IsSize }
        ensures same { views self.new ≡ views self.old }
        ensures refused { OnErr result (Rose (refusals self.old) (refusals self.new)) }
        ensures never_falls { refusals self.old ≤ refusals self.new };

    /// Where the guide of a view for the stack's alignment stands on the axis H or V, at a size.
    fn guide(&self, child: usize, axis: Axis, size: Size) -> i64
        requires child { child < (views self.now).count }
        requires size { IsSize size }
        ensures value { result ≡ (views self.now).guide child axis size }
        ensures bounds { IsGuide result };
}

/// The length along a horizontal or a vertical axis.
pub fn length_along(axis: Axis, size: Size) -> u32
    ensures { result ≡ along axis size }
{
    match axis {
        Axis::V => size.h,
        Axis::H | Axis::Z => size.w,
    }
}

/// The proposal of a length along the axis and another across it.
pub fn offer(axis: Axis, p: Option<u32>, c: Option<u32>) -> Proposal
    requires p { IsProposed p }
    requires c { IsProposed c }
    ensures value { result ≡ offered axis p c }
    ensures lengths { IsProposal result }
{
    match axis {
        Axis::V => Proposal { w: c, h: p },
        Axis::H | Axis::Z => Proposal { w: p, h: c },
    }
}

/// What a proposal has along the axis.
pub fn along_of(axis: Axis, p: Proposal) -> Option<u32>
    ensures { result ≡ proposed_along axis p }
{
    match axis {
        Axis::V => p.h,
        Axis::H | Axis::Z => p.w,
    }
}

/// What a proposal has across the axis.
pub fn across_of(axis: Axis, p: Proposal) -> Option<u32>
    ensures { result ≡ proposed_across axis p }
{
    match axis {
        Axis::V => p.w,
        Axis::H | Axis::Z => p.h,
    }
}

/// The spacings between `n` views.
pub fn gaps(spacing: u32, n: usize) -> u32
    requires { spacing ≤ limit }
    ensures value { result ≡ saturated (gaps_of spacing n) }
    ensures fits { result ≤ limit }
{
    let n = n.saturating_sub(1) as u64;
    u64::from(spacing).saturating_mul(n).min(1_000_000) as u32
}

fn kept(axis: Axis, first: &Slot, slot: &Slot) -> u32
    ensures { result ≡ kept_of axis first.now.priority slot.now }
{
    if slot.priority < first.priority {
        length_along(axis, slot.size)
    } else {
        0
    }
}

/// What is kept back for views of a lower priority than the first.
fn kept_back(axis: Axis, first: &Slot, slots: &[Slot]) -> u32
    ensures { result ≡ saturated (sum_by (kept_of axis first.now.priority) slots.now) }
{
    let mut sum = 0u32;
    for slot in slots {
        sum = sum.saturating_add(kept(axis, first, slot)).min(LIMIT);
    }
    sum
}

/// How many views of the priority of the first wait.
fn group_size(first: &Slot, slots: &[Slot]) -> usize
    ensures { result ≡ count_by (is_of_group first.now.priority) slots.now }
{
    slots
        .iter()
        .filter(|slot| slot.priority == first.priority)
        .count()
}

/// The share of the first of the slots that wait, which hold their smallest sizes, of what is left.
pub fn share(axis: Axis, slots: &[Slot], left: u32) -> u32
    requires left { left ≤ limit }
    requires some { 0 < length slots.now }
    ensures value { result ≡ slot_share axis slots.now left }
    ensures fits { result ≤ left }
{
    let first = &slots[0];
    let rest = left.saturating_sub(kept_back(axis, first, slots));
    let group = group_size(first, slots);
    let floor = rest as usize / group;
    floor as u32
}

/// Puts the slots in the order of the offers: the higher priority first, then the less flexible, then the one before.
pub fn into_turns(slots: &mut [Slot])
    ensures turns { map turn_of slots.new ≡ in_order comes_before (map turn_of slots.old) }
    ensures permutation { IsPermutation slots.old slots.new }
{
    slots.sort_unstable_by_key(|slot| (Reverse(slot.priority), slot.flex, slot.place));
}

/// Puts the slots back in the order of their places.
pub fn into_places(slots: &mut [Slot])
    ensures places { map place_of slots.new ≡ in_order is_below (map place_of slots.old) }
    ensures permutation { IsPermutation slots.old slots.new }
{
    slots.sort_unstable_by_key(|slot| slot.place);
}

/// The lengths along the axis and the spacings together.
pub fn total_along(axis: Axis, spacing: u32, slots: &[Slot]) -> u32
    requires { spacing ≤ limit }
    ensures value { result ≡ total_length axis spacing (map size_of slots.now) }
    ensures fits { result ≤ limit }
{
    let mut sum = gaps(spacing, slots.len());
    for slot in slots {
        sum = sum.saturating_add(length_along(axis, slot.size)).min(LIMIT);
    }
    sum
}

/// Where the views of a stack end across it, with their guides at 0.
#[derive(Clone, Copy, Debug, PartialEq, Eq)]
pub struct Edges {
    pub top: i64,
    pub bottom: i64,
}

/// The least top and the greatest bottom of the views across, on the axis H or V.
pub fn outer_edges<S: Sizes>(cross: Axis, slots: &[Slot], children: &S) -> Edges
    requires some { 0 < length slots.now }
    requires count { length slots.now ≡ (S.views children.now).count }
    requires sized { All IsSized slots.now }
    ensures top { result.top ≡ least_of (tops (S.views children.now) cross 0 (map size_of slots.now)) }
    ensures bottom { result.bottom ≡ greatest_of (bottoms (S.views children.now) cross 0 (map size_of slots.now)) }
    ensures bounds { AreEdges result }
{
    let first = slots[0].size;
    let g = children.guide(0, cross, first);
    let mut top = -g;
    let mut bottom = i64::from(length_along(cross, first)) - g;
    for i in 1..slots.len() {
        let size = slots[i].size;
        let g = children.guide(i, cross, size);
        top = top.min(-g);
        bottom = bottom.max(i64::from(length_along(cross, size)) - g);
    }
    Edges { top, bottom }
}

/// How far the views reach across.
fn reach<S: Sizes>(cross: Axis, slots: &[Slot], children: &S) -> u32
    requires some { 0 < length slots.now }
    requires count { length slots.now ≡ (S.views children.now).count }
    requires sized { All IsSized slots.now }
    ensures value { result ≡ extent (S.views children.now) cross (map size_of slots.now) }
    ensures fits { result ≤ limit }
{
    let ends = outer_edges(cross, slots, children);
    to_length(ends.bottom - ends.top)
}

/// The size of a stack whose slots hold the sizes taken.
pub fn whole<S: Sizes>(axis: Axis, spacing: u32, slots: &[Slot], children: &S) -> Size
    requires spacing { spacing ≤ limit }
    requires count { length slots.now ≡ (S.views children.now).count }
    requires sized { All IsSized slots.now }
    ensures value { result ≡ whole_size (S.views children.now) axis spacing (map size_of slots.now) }
    ensures lengths { IsSize result }
{
    if slots.is_empty() {
        return Size { w: 0, h: 0 };
    }
    match axis {
        Axis::H => Size {
            w: total_along(axis, spacing, slots),
            h: reach(Axis::V, slots, children),
        },
        Axis::V => Size {
            w: reach(Axis::H, slots, children),
            h: total_along(axis, spacing, slots),
        },
        Axis::Z => Size {
            w: reach(Axis::H, slots, children),
            h: reach(Axis::V, slots, children),
        },
    }
}

/// Asks a view for its size, with a length offered along the axis and one across.
fn ask<S: Sizes>(
    axis: Axis,
    p: Option<u32>,
    c: Option<u32>,
    child: usize,
    children: &mut S,
) -> Result<Size, OutOfMemory>
    requires p { IsProposed p }
    requires c { IsProposed c }
    requires child { child < (S.views children.old).count }
    ensures value { IfOk result (λ s. s ≡ (S.views children.old).size child (offered axis p c)) }
    ensures lengths { IfOk result IsSize }
    ensures same { S.views children.new ≡ S.views children.old }
    ensures refused { OnErr result (Rose (S.refusals children.old) (S.refusals children.new)) }
    ensures never_falls { S.refusals children.old ≤ S.refusals children.new }
{
    children.size(child, offer(axis, p, c))
}

/// Proposes `p` to each view.
fn propose_all<S: Sizes>(
    p: Proposal,
    slots: &mut [Slot],
    children: &mut S,
) -> Result<(), OutOfMemory>
    requires p { IsProposal p }
    requires count { length slots.old ≡ (S.views children.old).count }
    requires places { InPlace slots.old }
    ensures sizes { OnOk result (map size_of slots.new ≡ at_places (λ i. (S.views children.old).size i p) 0 (map priority_of slots.old)) }
    ensures places { OnOk result (InPlace slots.new) }
    ensures priorities { OnOk result (map priority_of slots.new ≡ map priority_of slots.old) }
    ensures sized { OnOk result (All IsSized slots.new) }
    ensures same { S.views children.new ≡ S.views children.old }
    ensures refused { OnErr result (Rose (S.refusals children.old) (S.refusals children.new)) }
    ensures never_falls { S.refusals children.old ≤ S.refusals children.new }
{
    for i in 0..slots.len() {
        let taken = children.size(i, p)?;
        let slot = &mut slots[i];
        slot.size = taken;
    }
    Ok(())
}

/// Asks each view for its size for the smallest and for the greatest length. The slots keep the smallest.
fn measure<S: Sizes>(
    axis: Axis,
    c: Option<u32>,
    slots: &mut [Slot],
    children: &mut S,
) -> Result<(), OutOfMemory>
    requires c { IsProposed c }
    requires count { length slots.old ≡ (S.views children.old).count }
    requires places { InPlace slots.old }
    ensures ok { OnOk result (slots.new ≡ map (measured (S.views children.old) axis c) slots.old) }
    ensures same { S.views children.new ≡ S.views children.old }
    ensures refused { OnErr result (Rose (S.refusals children.old) (S.refusals children.new)) }
    ensures never_falls { S.refusals children.old ≤ S.refusals children.new }
{
    for i in 0..slots.len() {
        let small = ask(axis, Some(0), c, i, children)?;
        let large = ask(axis, Some(LIMIT), c, i, children)?;
        let flex = length_along(axis, large).saturating_sub(length_along(axis, small));
        let slot = &mut slots[i];
        slot.flex = flex;
        slot.size = small;
    }
    Ok(())
}

/// Offers each view its share of the room, in the order of the slots.
fn offer_all<S: Sizes>(
    axis: Axis,
    c: Option<u32>,
    room: u32,
    slots: &mut [Slot],
    children: &mut S,
) -> Result<(), OutOfMemory>
    requires c { IsProposed c }
    requires room { room ≤ limit }
    requires places { All (λ s. s.place < (S.views children.old).count) slots.old }
    requires smallest { All (λ s. s.size ≡ smallest (S.views children.old) axis c s.place) slots.old }
    ensures ok { OnOk result (map taken_of slots.new ≡ takes (S.views children.old) axis c (map turn_of slots.old) room) }
    ensures turns { OnOk result (map turn_of slots.new ≡ map turn_of slots.old) }
    ensures sized { OnOk result (All IsSized slots.new) }
    ensures same { S.views children.new ≡ S.views children.old }
    ensures refused { OnErr result (Rose (S.refusals children.old) (S.refusals children.new)) }
    ensures never_falls { S.refusals children.old ≤ S.refusals children.new }
{
    let mut left = room;
    for i in 0..slots.len() {
        let taker = slots[i];
        let offered = share(axis, &slots[i..], left);
        let size = ask(axis, Some(offered), c, taker.place, children)?;
        left = left.saturating_sub(length_along(axis, size));
        let slot = &mut slots[i];
        slot.size = size;
    }
    Ok(())
}

/// Shares the room among the views.
fn share_room<S: Sizes>(
    axis: Axis,
    c: Option<u32>,
    room: u32,
    slots: &mut [Slot],
    children: &mut S,
) -> Result<(), OutOfMemory>
    requires c { IsProposed c }
    requires room { room ≤ limit }
    requires count { length slots.old ≡ (S.views children.old).count }
    requires places { InPlace slots.old }
    ensures sizes { OnOk result (map size_of slots.new ≡ at_places (taken_at (all_take (S.views children.old) axis c (map priority_of slots.old) room)) 0 (map priority_of slots.old)) }
    ensures places { OnOk result (InPlace slots.new) }
    ensures priorities { OnOk result (map priority_of slots.new ≡ map priority_of slots.old) }
    ensures sized { OnOk result (All IsSized slots.new) }
    ensures fits { OnOk result (Yields (S.views children.old) axis c (map priority_of slots.old) room → sum_by (along axis) (map size_of slots.new) ≤ room) }
    ensures same { S.views children.new ≡ S.views children.old }
    ensures refused { OnErr result (Rose (S.refusals children.old) (S.refusals children.new)) }
    ensures never_falls { S.refusals children.old ≤ S.refusals children.new }
{
    measure(axis, c, slots, children)?;
    into_turns(slots);
    offer_all(axis, c, room, slots, children)?;
    into_places(slots);
    Ok(())
}

/// Asks each view of a horizontal or a vertical stack for its size.
fn fill_along<S: Sizes>(
    axis: Axis,
    spacing: u32,
    slots: &mut [Slot],
    children: &mut S,
    p: Proposal,
) -> Result<(), OutOfMemory>
    requires spacing { spacing ≤ limit }
    requires p { IsProposal p }
    requires count { length slots.old ≡ (S.views children.old).count }
    requires places { InPlace slots.old }
    ensures sizes { OnOk result (map size_of slots.new ≡ shared_sizes (S.views children.old) axis spacing (map priority_of slots.old) (proposed_along axis p) (proposed_across axis p)) }
    ensures places { OnOk result (InPlace slots.new) }
    ensures priorities { OnOk result (map priority_of slots.new ≡ map priority_of slots.old) }
    ensures sized { OnOk result (All IsSized slots.new) }
    ensures fits { OnOk result (FitsAlong (S.views children.old) axis spacing (map priority_of slots.old) p (sum_by (along axis) (map size_of slots.new) + gaps_of spacing (length (map priority_of slots.old)))) }
    ensures same { S.views children.new ≡ S.views children.old }
    ensures refused { OnErr result (Rose (S.refusals children.old) (S.refusals children.new)) }
    ensures never_falls { S.refusals children.old ≤ S.refusals children.new }
{
    let c = across_of(axis, p);
    match along_of(axis, p) {
        None => propose_all(offer(axis, None, c), slots, children),
        Some(length) => {
            let room = length.saturating_sub(gaps(spacing, slots.len()));
            share_room(axis, c, room, slots, children)
        }
    }
}

/// Asks each view for its size.
fn fill<S: Sizes>(
    axis: Axis,
    spacing: u32,
    slots: &mut [Slot],
    children: &mut S,
    p: Proposal,
) -> Result<(), OutOfMemory>
    requires spacing { spacing ≤ limit }
    requires p { IsProposal p }
    requires count { length slots.old ≡ (S.views children.old).count }
    requires places { InPlace slots.old }
    ensures sizes { OnOk result (map size_of slots.new ≡ stack_sizes (S.views children.old) axis spacing (map priority_of slots.old) p) }
    ensures places { OnOk result (InPlace slots.new) }
    ensures priorities { OnOk result (map priority_of slots.new ≡ map priority_of slots.old) }
    ensures sized { OnOk result (All IsSized slots.new) }
    ensures fits { OnOk result (FitsSlots (S.views children.old) axis spacing (map priority_of slots.old) p slots.new) }
    ensures same { S.views children.new ≡ S.views children.old }
    ensures refused { OnErr result (Rose (S.refusals children.old) (S.refusals children.new)) }
    ensures never_falls { S.refusals children.old ≤ S.refusals children.new }
{
    match axis {
        Axis::H => fill_along(Axis::H, spacing, slots, children, p),
        Axis::V => fill_along(Axis::V, spacing, slots, children, p),
        Axis::Z => propose_all(p, slots, children),
    }
}

/// Plans a stack: asks its views for their sizes, and answers its own. There are as many slots as views, and the slot at
/// i has the place i. At Ok the slots stand in the order of place and hold the sizes taken. The only error is want of
/// memory, which is handed on from the views; after it the slots stand in any order and hold any sizes.
pub fn plan<S: Sizes>(
    axis: Axis,
    spacing: u32,
    slots: &mut [Slot],
    children: &mut S,
    p: Proposal,
) -> Result<Size, OutOfMemory>
    requires spacing { spacing ≤ limit }
    requires p { IsProposal p }
    requires count { length slots.old ≡ (S.views children.old).count }
    requires places { InPlace slots.old }
    ensures sizes { OnOk result (map size_of slots.new ≡ stack_sizes (S.views children.old) axis spacing (map priority_of slots.old) p) }
    ensures places { OnOk result (InPlace slots.new) }
    ensures priorities { OnOk result (map priority_of slots.new ≡ map priority_of slots.old) }
    ensures size { IfOk result (λ s. s ≡ stack_size (S.views children.old) axis spacing (map priority_of slots.old) p) }
    ensures lengths { IfOk result IsSize }

    // Where the spacings together fit the proposal and no view takes more than it is offered, the stack fits its proposal.
    ensures fits { IfOk result (FitsProposal (S.views children.old) axis spacing (map priority_of slots.old) p) }

    ensures same { S.views children.new ≡ S.views children.old }
    ensures refused { OnErr result (Rose (S.refusals children.old) (S.refusals children.new)) }
    ensures never_falls { S.refusals children.old ≤ S.refusals children.new }
{
    fill(axis, spacing, slots, children, p)?;
    Ok(whole(axis, spacing, slots, children))
}
